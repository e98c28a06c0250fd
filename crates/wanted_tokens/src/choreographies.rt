//! Choreographies: what each goal makes of a token.

ghost use Rattle.std.specs.Prelude.{◌≡◌, [], ◌∷◌};
ghost use Rattle.wanted_tokens.specs.Takings.{effect, listed};
ghost use Rattle.wanted_tokens.specs.declared.goals.Goal.{Goal};
ghost use Rattle.wanted_tokens.specs.Choreographies.{step_before, take_step, step_behind_name, assigned, next_step, optional};

use crate::expressions::expression;
use crate::goals::Goal::{
    self, ExtraRoles, FirstProperty, MoreNames, MoreParts, MoreProperties, MoreSteps, Name,
    Otherwise, Properties, Step, Value,
};
use crate::goals::{
    A_NAME, ARROW, AT, BLOCK, DOT, EQUAL, EXPRESSION, OPEN_BRACE, OPEN_PAREN, SHUT_BRACE,
    SHUT_PAREN,
};
use crate::looks::{Look, PlaceWord};
use crate::takings::{NOTHING, Taking, takes, takes_before};
use aioc_tokens::{Punctuator, Word};
use expr_syntax::ExprKind;

/// Behind `if`.
const CONDITIONAL: [Goal; 9] = [
    EXPRESSION, AT, Name, OPEN_BRACE, Step, MoreSteps, MoreParts, SHUT_BRACE, Otherwise,
];

/// Behind `while`.
const LOOP: [Goal; 8] = [
    EXPRESSION, AT, Name, OPEN_BRACE, Step, MoreSteps, MoreParts, SHUT_BRACE,
];

/// Behind `scope`.
const SCOPE: [Goal; 9] = [
    AT, Name, OPEN_BRACE, Step, MoreSteps, MoreParts, SHUT_BRACE, ExtraRoles, Properties,
];

/// Behind `(`.
const GROUP: [Goal; 4] = [Step, MoreSteps, MoreParts, SHUT_PAREN];

/// Behind the name at the front of a step.
const BEHIND_NAME: [Goal; 1] = [Goal::StepBehindName];

/// Behind the `:` of an interaction.
const SENDING: [Goal; 9] = [
    Name, OPEN_PAREN, EXPRESSION, SHUT_PAREN, ARROW, Name, OPEN_PAREN, Name, SHUT_PAREN,
];

/// Behind the `@` of an assignment.
const ASSIGNMENT: [Goal; 3] = [Name, EQUAL, Goal::Assigned];

/// Behind `input`.
const INPUT: [Goal; 2] = [OPEN_PAREN, SHUT_PAREN];

const NEXT_STEP: [Goal; 1] = [Goal::NextStep];

/// Behind `|`.
const PART: [Goal; 2] = [Step, MoreSteps];

/// Behind `roles`.
const NAMES: [Goal; 4] = [OPEN_BRACE, Name, MoreNames, SHUT_BRACE];

/// Behind `prop`.
const PROPERTIES: [Goal; 3] = [OPEN_BRACE, FirstProperty, SHUT_BRACE];

/// Behind the `N` of a property.
const PROPERTY: [Goal; 4] = [DOT, Name, EQUAL, Value];

/// Behind the `,` before a property.
const ANOTHER: [Goal; 5] = [Goal::Reserved(Word::N), DOT, Name, EQUAL, Value];

/// A step, and this goal behind it.
fn step_before(last: Option<Goal>, look: Look) -> Taking
    ensures { effect result ≡ step_before (listed last) look }
{
    match look {
        Look::Reserved(Word::Skip) => Taking::Takes(NOTHING.as_slice(), last),
        Look::Name(_) => Taking::Takes(BEHIND_NAME.as_slice(), last),
        Look::Reserved(Word::If) => Taking::Takes(CONDITIONAL.as_slice(), last),
        Look::Reserved(Word::While) => Taking::Takes(LOOP.as_slice(), last),
        Look::Reserved(Word::Scope) => Taking::Takes(SCOPE.as_slice(), last),
        Look::Symbol(Punctuator::LeftParen) => Taking::Takes(GROUP.as_slice(), last),
        _ => Taking::Stops,
    }
}

/// A step.
pub fn step(look: Look) -> Taking
    ensures { effect result ≡ take_step look }
{
    step_before(None, look)
}

/// What follows the name at the front of a step.
pub fn step_behind_name(look: Look) -> Taking
    ensures { effect result ≡ step_behind_name look }
{
    match look {
        Look::Symbol(Punctuator::Colon) => takes(SENDING.as_slice()),
        Look::Symbol(Punctuator::At) => takes(ASSIGNMENT.as_slice()),
        _ => Taking::Stops,
    }
}

/// What is assigned.
pub fn assigned(look: Look) -> Taking
    ensures { effect result ≡ assigned look }
{
    match look {
        Look::Reserved(Word::Input) => takes(INPUT.as_slice()),
        _ => expression(ExprKind::Step, look),
    }
}

/// Another step, or nothing.
pub fn next_step(look: Look) -> Taking
    ensures { effect result ≡ next_step look }
{
    match step_before(Some(MoreSteps), look) {
        Taking::Stops => Taking::Passes,
        other => other,
    }
}

/// What may be left out of a choreography: it is there only where its first token is.
pub fn optional(second: bool, goal: Goal, look: Look) -> Taking
    ensures { effect result ≡ optional second goal look }
{
    match (goal, look) {
        (MoreSteps, Look::Symbol(Punctuator::Semicolon)) => takes(NEXT_STEP.as_slice()),
        (MoreParts, Look::Symbol(Punctuator::Bar)) => takes_before(PART.as_slice(), goal),
        (Otherwise, Look::Reserved(Word::Else)) => takes(BLOCK.as_slice()),
        (ExtraRoles, Look::Name(Some(PlaceWord::Roles))) if second => takes(NAMES.as_slice()),
        (MoreNames, Look::Symbol(Punctuator::Comma)) => takes_before(A_NAME.as_slice(), goal),
        (Properties, Look::Reserved(Word::Prop)) => takes(PROPERTIES.as_slice()),
        (FirstProperty, Look::Reserved(Word::N)) => {
            takes_before(PROPERTY.as_slice(), MoreProperties)
        }
        (MoreProperties, Look::Symbol(Punctuator::Comma)) => {
            takes_before(ANOTHER.as_slice(), goal)
        }
        _ => Taking::Passes,
    }
}
