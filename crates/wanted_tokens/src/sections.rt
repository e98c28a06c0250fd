//! Sections, bundles and sessions: what each goal makes of a token.

ghost use Rattle.std.specs.Prelude.{◌≡◌, ◌∷◌, [], if◌then◌else◌};
ghost use Rattle.wanted_tokens.specs.Takings.{effect, Passes, Stops};
ghost use Rattle.wanted_tokens.specs.declared.goals.Goal.{Goal};
ghost use Rattle.wanted_tokens.specs.Sections.{bindings, inputs, take_script, take_repeated, take_traced, sections, sections_behind_trace, later_sections, last_sections, bundle, session};

use crate::goals::Goal::{self, LastSections, LaterSections, Sections, SectionsBehindTrace, Value};
use crate::goals::{BLOCK, COLON, EQUAL, OPEN_BRACE, SEMICOLON, SHUT_BRACE};
use crate::looks::{Look, PlaceWord};
use crate::takings::{Taking, takes, takes_before};
use aioc_tokens::{Punctuator, Word};
use expr_syntax::GREATEST;

/// Behind the name of a binding.
const BINDING: [Goal; 3] = [EQUAL, Value, SEMICOLON];

/// Behind the role of inputs.
const INPUT: [Goal; 4] = [COLON, Value, Goal::MoreValues, SEMICOLON];

/// Behind `after`.
const TIMED: [Goal; 2] = [Goal::Number(GREATEST), Goal::Change];

/// Behind `rules`.
const RULES: [Goal; 3] = [OPEN_BRACE, Goal::Rules, SHUT_BRACE];

/// Behind `env`.
const BINDINGS: [Goal; 3] = [OPEN_BRACE, Goal::Bindings, SHUT_BRACE];

/// Behind `inputs`.
const INPUTS: [Goal; 3] = [OPEN_BRACE, Goal::Inputs, SHUT_BRACE];

/// Behind `script`.
const SCRIPT: [Goal; 3] = [OPEN_BRACE, Goal::Script, SHUT_BRACE];

/// Behind `trace`.
const LINES: [Goal; 3] = [OPEN_BRACE, Goal::Lines, SHUT_BRACE];

/// Behind `version`.
const VERSION: [Goal; 2] = [Goal::Two, Sections];

/// Behind `session`.
const SESSION: [Goal; 3] = [OPEN_BRACE, Goal::Bundle, SHUT_BRACE];

/// Bindings, or none.
pub fn bindings(look: Look) -> Taking
    ensures { effect result ≡ bindings look }
{
    match look {
        Look::Name(_) => takes_before(BINDING.as_slice(), Goal::Bindings),
        _ => Taking::Passes,
    }
}

/// Inputs of roles, or none.
pub fn inputs(look: Look) -> Taking
    ensures { effect result ≡ inputs look }
{
    match look {
        Look::Name(_) => takes_before(INPUT.as_slice(), Goal::Inputs),
        _ => Taking::Passes,
    }
}

/// Changes with their times, or none.
pub fn script(look: Look) -> Taking
    ensures { effect result ≡ take_script look }
{
    match look {
        Look::Name(Some(PlaceWord::After)) => takes_before(TIMED.as_slice(), Goal::Script),
        _ => Taking::Passes,
    }
}

/// A section of a kind that may come any number of times, and the goal behind it; else the other
/// answer.
fn repeated(behind: Goal, other: Taking, look: Look) -> Taking
    ensures { effect result ≡ take_repeated behind (effect other) look }
{
    match look {
        Look::Name(Some(PlaceWord::Rules)) => takes_before(RULES.as_slice(), behind),
        Look::Name(Some(PlaceWord::Env)) => takes_before(BINDINGS.as_slice(), behind),
        Look::Name(Some(PlaceWord::Inputs)) => takes_before(INPUTS.as_slice(), behind),
        Look::Name(Some(PlaceWord::Script)) => takes_before(SCRIPT.as_slice(), behind),
        _ => other,
    }
}

/// A section of a trace, and the goal behind it; else one of another kind, and the same goal behind
/// that; else the other answer.
fn traced(behind: Goal, same: Goal, other: Taking, look: Look) -> Taking
    ensures { effect result ≡ take_traced behind same (effect other) look }
{
    match look {
        Look::Name(Some(PlaceWord::Trace)) => takes_before(LINES.as_slice(), behind),
        _ => repeated(same, other, look),
    }
}

/// Sections, a choreography among them.
pub fn sections(look: Look) -> Taking
    ensures { effect result ≡ sections look }
{
    match look {
        Look::Reserved(Word::Aioc) => takes_before(BLOCK.as_slice(), LaterSections),
        _ => traced(SectionsBehindTrace, Sections, Taking::Stops, look),
    }
}

/// Sections behind a trace, a choreography among them.
pub fn sections_behind_trace(look: Look) -> Taking
    ensures { effect result ≡ sections_behind_trace look }
{
    match look {
        Look::Reserved(Word::Aioc) => takes_before(BLOCK.as_slice(), LastSections),
        _ => repeated(SectionsBehindTrace, Taking::Stops, look),
    }
}

/// Sections behind a choreography, or none.
pub fn later_sections(look: Look) -> Taking
    ensures { effect result ≡ later_sections look }
{
    traced(LastSections, LaterSections, Taking::Passes, look)
}

/// Sections behind a choreography and a trace, or none.
pub fn last_sections(look: Look) -> Taking
    ensures { effect result ≡ last_sections look }
{
    repeated(LastSections, Taking::Passes, look)
}

/// The version of a bundle and its sections.
pub fn bundle(look: Look) -> Taking
    ensures { effect result ≡ bundle look }
{
    match look {
        Look::Name(Some(PlaceWord::Version)) => takes(VERSION.as_slice()),
        _ => sections(look),
    }
}

/// A session, and others behind it; else the other answer.
pub fn session(other: Taking, look: Look) -> Taking
    ensures { effect result ≡ session (effect other) look }
{
    match look {
        Look::Name(Some(PlaceWord::Session)) => takes_before(
            SESSION.as_slice(),
            Goal::MoreSessions,
        ),
        _ => other,
    }
}
