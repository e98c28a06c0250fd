//! Traces: what each goal makes of a token.

ghost use Rattle.std.specs.Prelude.{◌≡◌};
ghost use Rattle.wanted_tokens.specs.Takings.{effect};
ghost use Rattle.wanted_tokens.specs.Traces.{name_line, take_lines, tag, tag_of_put, auxiliary_word, auxiliary_of_put, begun, tag_of_take, auxiliary_of_take, chosen};

use crate::goals::Goal::{self, Name, Truth, Value};
use crate::goals::{A_NAME, ARROW, AT, BOUND, DOT, EQUAL, HASH};
use crate::looks::{Look, PlaceWord};
use crate::takings::{NOTHING, Taking, takes, takes_before};
use aioc_tokens::{Punctuator, Word};
use expr_syntax::GREATEST;

/// A place or an epoch of an index.
const PLACE: Goal = Goal::Number(u32::MAX as u64);

/// Behind `put`.
const PUT: [Goal; 4] = [Name, ARROW, Name, Goal::TagOfPut];

/// Behind `take`.
const TAKE: [Goal; 4] = [Name, ARROW, Name, Goal::TagOfTake];

/// Behind `set` and `input`.
const SETTING: [Goal; 9] = [Name, AT, Name, HASH, PLACE, DOT, PLACE, EQUAL, Value];

/// Behind `pick`.
const PICK: [Goal; 6] = [Name, HASH, PLACE, DOT, PLACE, Truth];

/// Behind `scope`.
const SCOPE: [Goal; 6] = [Name, HASH, PLACE, DOT, PLACE, Goal::Chosen];

/// Behind `ended` and `stopped`.
const COUNT: [Goal; 1] = [Goal::Number(GREATEST)];

/// Behind the operation of a put.
const VALUED: [Goal; 6] = [HASH, PLACE, DOT, PLACE, EQUAL, Value];

/// Behind the tag of a choice or a go.
const JUDGED: [Goal; 6] = [HASH, PLACE, DOT, PLACE, EQUAL, Truth];

/// Behind the tag of the end of a turn, of an end and of a release.
const OVER: [Goal; 6] = [HASH, PLACE, DOT, PLACE, EQUAL, Goal::Done];

/// Behind the tag of a begin.
const BEGUN: [Goal; 6] = [HASH, PLACE, DOT, PLACE, EQUAL, Goal::Begun];

/// Behind the `!` of a put.
const AUXILIARY_OF_PUT: [Goal; 1] = [Goal::AuxiliaryOfPut];

/// Behind `part`.
const EPOCH: [Goal; 1] = [PLACE];

/// Behind the operation of a take.
const NAMED: [Goal; 5] = [HASH, PLACE, DOT, PLACE, Name];

/// Behind the `!` of a take.
const AUXILIARY_OF_TAKE: [Goal; 1] = [Goal::AuxiliaryOfTake];

/// Behind the auxiliary tag of a take.
const INDEX: [Goal; 4] = [HASH, PLACE, DOT, PLACE];

/// Behind `rule`.
const RULE: [Goal; 3] = [Name, Goal::As, PLACE];

/// A line that begins with a word that isn't reserved, and the lines behind it.
fn name_line(word: PlaceWord) -> Taking
    ensures { effect result ≡ name_line word }
{
    match word {
        PlaceWord::Put => takes_before(PUT.as_slice(), Goal::Lines),
        PlaceWord::Take => takes_before(TAKE.as_slice(), Goal::Lines),
        PlaceWord::Set => takes_before(SETTING.as_slice(), Goal::Lines),
        PlaceWord::Pick => takes_before(PICK.as_slice(), Goal::Lines),
        PlaceWord::Add | PlaceWord::Drop => takes_before(A_NAME.as_slice(), Goal::Lines),
        PlaceWord::Env => takes_before(BOUND.as_slice(), Goal::Lines),
        PlaceWord::Ended | PlaceWord::Stopped => takes(COUNT.as_slice()),
        _ => Taking::Passes,
    }
}

/// The lines of a trace, or none.
pub fn lines(look: Look) -> Taking
    ensures { effect result ≡ take_lines look }
{
    match look {
        Look::Name(Some(word)) => name_line(word),
        Look::Reserved(Word::Input) => takes_before(SETTING.as_slice(), Goal::Lines),
        Look::Reserved(Word::Scope) => takes_before(SCOPE.as_slice(), Goal::Lines),
        _ => Taking::Passes,
    }
}

/// A tag: the operation of a message, with what follows it, or an auxiliary one.
fn tag(named: &'static [Goal], auxiliary: &'static [Goal], look: Look) -> Taking
    ensures { effect result ≡ tag named.now auxiliary.now look }
{
    match look {
        Look::Name(_) => takes(named),
        Look::Symbol(Punctuator::Bang) => takes(auxiliary),
        _ => Taking::Stops,
    }
}

/// The tag of a put, with its payload.
pub fn tag_of_put(look: Look) -> Taking
    ensures { effect result ≡ tag_of_put look }
{
    tag(VALUED.as_slice(), AUXILIARY_OF_PUT.as_slice(), look)
}

/// The word of an auxiliary tag of a put, with the payload that fits it.
fn auxiliary_word(word: PlaceWord) -> Taking
    ensures { effect result ≡ auxiliary_word word }
{
    match word {
        PlaceWord::Choice | PlaceWord::Go => takes(JUDGED.as_slice()),
        PlaceWord::Turn | PlaceWord::End | PlaceWord::Out => takes(OVER.as_slice()),
        PlaceWord::Begin => takes(BEGUN.as_slice()),
        _ => Taking::Stops,
    }
}

/// An auxiliary tag of a put, with its payload.
pub fn auxiliary_of_put(look: Look) -> Taking
    ensures { effect result ≡ auxiliary_of_put look }
{
    match look {
        Look::Name(Some(word)) => auxiliary_word(word),
        _ => Taking::Stops,
    }
}

/// The payload of a begin.
pub fn begun(look: Look) -> Taking
    ensures { effect result ≡ begun look }
{
    match look {
        Look::Name(Some(PlaceWord::Keep)) => takes(NOTHING.as_slice()),
        Look::Name(Some(PlaceWord::Part)) => takes(EPOCH.as_slice()),
        _ => Taking::Stops,
    }
}

/// The tag of a take, with its variable.
pub fn tag_of_take(look: Look) -> Taking
    ensures { effect result ≡ tag_of_take look }
{
    tag(NAMED.as_slice(), AUXILIARY_OF_TAKE.as_slice(), look)
}

/// An auxiliary tag of a take.
pub fn auxiliary_of_take(look: Look) -> Taking
    ensures { effect result ≡ auxiliary_of_take look }
{
    match look {
        Look::Name(
            Some(
                PlaceWord::Choice
                | PlaceWord::Go
                | PlaceWord::Turn
                | PlaceWord::Begin
                | PlaceWord::End
                | PlaceWord::Out,
            ),
        ) => takes(INDEX.as_slice()),
        _ => Taking::Stops,
    }
}

/// What was chosen for a scope.
pub fn chosen(look: Look) -> Taking
    ensures { effect result ≡ chosen look }
{
    match look {
        Look::Name(Some(PlaceWord::Keep)) => takes(NOTHING.as_slice()),
        Look::Reserved(Word::Rule) => takes(RULE.as_slice()),
        _ => Taking::Stops,
    }
}
