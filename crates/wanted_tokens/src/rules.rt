//! Rules and changes: what each goal makes of a token.

ghost use Rattle.std.specs.Prelude.{◌≡◌};
ghost use Rattle.wanted_tokens.specs.Takings.{effect};
ghost use Rattle.wanted_tokens.specs.Rules.{rules, priority, rank, change};

use crate::goals::Goal::{self, MoreParts, MoreSteps, Name, Priority, Step};
use crate::goals::{A_NAME, BOUND, CONDITION, OPEN_BRACE, SHUT_BRACE};
use crate::looks::{Look, PlaceWord};
use crate::takings::{NOTHING, Taking, takes, takes_before};
use aioc_tokens::{Punctuator, Word};
use limits::MOST_PRIORITY;

const RULE_WORD: Goal = Goal::Reserved(Word::Rule);

const ON: Goal = Goal::Reserved(Word::On);

const DO: Goal = Goal::Reserved(Word::Do);

/// Behind `rule`.
const RULE: [Goal; 14] = [
    Name, Priority, OPEN_BRACE, ON, OPEN_BRACE, CONDITION, SHUT_BRACE, DO, OPEN_BRACE, Step,
    MoreSteps, MoreParts, SHUT_BRACE, SHUT_BRACE,
];

/// Behind `add`.
const ADDED: [Goal; 15] = [
    RULE_WORD, Name, Priority, OPEN_BRACE, ON, OPEN_BRACE, CONDITION, SHUT_BRACE, DO, OPEN_BRACE,
    Step, MoreSteps, MoreParts, SHUT_BRACE, SHUT_BRACE,
];

const RANK: [Goal; 1] = [Goal::Rank];

const NEGATIVE_RANK: [Goal; 1] = [Goal::Number(MOST_PRIORITY)];

/// Rules, or none.
pub fn rules(look: Look) -> Taking
    ensures { effect result ≡ rules look }
{
    match look {
        Look::Reserved(Word::Rule) => takes_before(RULE.as_slice(), Goal::Rules),
        _ => Taking::Passes,
    }
}

/// The priority of a rule in a text of the second version, or nothing.
pub fn priority(second: bool, look: Look) -> Taking
    ensures { effect result ≡ priority second look }
{
    match look {
        Look::Name(Some(PlaceWord::Priority)) if second => takes(RANK.as_slice()),
        _ => Taking::Passes,
    }
}

/// The number of a priority.
pub fn rank(look: Look) -> Taking
    ensures { effect result ≡ rank look }
{
    match look {
        Look::Number(Some(number)) if number <= MOST_PRIORITY => takes(NOTHING.as_slice()),
        Look::Symbol(Punctuator::Minus) => takes(NEGATIVE_RANK.as_slice()),
        _ => Taking::Stops,
    }
}

/// A change.
pub fn change(look: Look) -> Taking
    ensures { effect result ≡ change look }
{
    match look {
        Look::Name(Some(PlaceWord::Add)) => takes(ADDED.as_slice()),
        Look::Name(Some(PlaceWord::Drop)) => takes(A_NAME.as_slice()),
        Look::Name(Some(PlaceWord::Env)) => takes(BOUND.as_slice()),
        _ => Taking::Stops,
    }
}
