//! The items of sections, each up to the `}` behind them.

ghost use Rattle.std.specs.Prelude.{◌≡◌, ◌≢◌, ◌≤◌, length, map, None, IfOk, IfErr};
ghost use Rattle.limits.specs.Limits.{greatest_place};
ghost use Rattle.dioc_terms.specs.Plain.{plain_rule};
ghost use Rattle.rule_syntax.specs.Grammar.{IsRule};
ghost use Rattle.bundle_text.specs.Appended.{IsAppended};
ghost use Rattle.bundle_text.specs.Grammar.{inside_limit, IsBound, IsInput, IsTimed};
ghost use Rattle.bundle_text.specs.Readers.{plain_timed, TakesItems, ItemAt, TimedAt, ValuesAt};
ghost use Rattle.bundle_text.specs.Stops.{place_in, EndsAmong};

use crate::parts::{KeptChange, ReadTimed};
use crate::stops::Stop;
use aioc_tokens::{Lexed, Punctuator, Sort};
use dioc_terms::{Items, Memory, Name, Role, Rule, Value, Values};
use expr_syntax::{GREATEST, constant_at, name_at, number_at};
use limits::MOST_BRACKETS;
use rule_syntax::{binding_at, change_at, rule_at};
use std::alloc::Global;

/// How many brackets may be open at once inside a section, whose own is open too.
pub const INSIDE_LIMIT: usize = MOST_BRACKETS - 1;

/// `}`
const CLOSING: Sort = Sort::Symbol(Punctuator::RightBrace);

/// `;`
const END: Sort = Sort::Symbol(Punctuator::Semicolon);

/// `,`
const COMMA: Sort = Sort::Symbol(Punctuator::Comma);

/// `r :`
const INPUT: [Sort; 2] = [Sort::Name, Sort::Symbol(Punctuator::Colon)];

/// Appends an item that was read. The answer is the place behind it. Where none was read, the text
/// is not read on at the place where it was looked for.
fn append<T: Drop>(found: Option<(T, usize)>, at: usize, items: &mut Vec<T>) -> Result<usize, Stop>
    ensures found { IfOk result (λ next. IsAppended found items.old.items items.new.items next) }
    ensures stopped { IfErr result (λ stop. stop ≢ Stop.Memory →
        (found ≡ None) × (place_in stop ≡ at)) }
{
    match found {
        Some((item, next)) => {
            items.push(item)?;
            Ok(next)
        }
        None => Err(Stop::At(at)),
    }
}

/// Appends the rules that stand at a place of the text up to a `}`. The answer is the place behind
/// that.
///
/// ```text
/// { rule } "}"
/// ```
pub fn rules_at(
    alloc: Global,
    text: &Lexed<'_>,
    version: u32,
    at: usize,
    rules: &mut Vec<Rule>,
) -> Result<usize, Stop>
    requires { length text.now ≤ greatest_place }
    ensures found { IfOk result (λ next. TakesItems (IsRule version inside_limit) text.now at
        (map plain_rule rules.old.items) (map plain_rule rules.new.items) next) }
    ensures stopped { IfErr result (λ stop. stop ≢ Stop.Memory →
        EndsAmong (IsRule version inside_limit) text.now at (place_in stop)) }
{
    let mut next = at;
    while !text.has(next, CLOSING) {
        let found = rule_at(alloc, text, version, INSIDE_LIMIT, next)?;
        next = append(found, next, rules)?;
    }
    Ok(next + 1)
}

/// A binding and the `;` behind it.
fn bound_at(
    alloc: Global,
    text: &Lexed<'_>,
    at: usize,
) -> Result<Option<((Name, Value), usize)>, Memory>
    requires { length text.now ≤ greatest_place }
    ensures { IfOk result (λ found. ItemAt IsBound text.now at found) }
{
    let (bound, next) = match binding_at(alloc, text, at)? {
        Some(read) => read,
        None => return Ok(None),
    };
    if !text.has(next, END) {
        return Ok(None);
    }
    Ok(Some((bound, next + 1)))
}

/// Appends the bindings that stand at a place of the text up to a `}`. The answer is the place
/// behind that.
///
/// ```text
/// { bind ";" } "}"
/// ```
pub fn environment_at(
    alloc: Global,
    text: &Lexed<'_>,
    at: usize,
    env: &mut Vec<(Name, Value)>,
) -> Result<usize, Stop>
    requires { length text.now ≤ greatest_place }
    ensures found { IfOk result (λ next.
        TakesItems IsBound text.now at env.old.items env.new.items next) }
    ensures stopped { IfErr result (λ stop. stop ≢ Stop.Memory →
        EndsAmong IsBound text.now at (place_in stop)) }
{
    let mut next = at;
    while !text.has(next, CLOSING) {
        let found = bound_at(alloc, text, next)?;
        next = append(found, next, env)?;
    }
    Ok(next + 1)
}

/// The inputs of a role: `name ":" value { "," value } ";"`.
fn input_at(
    alloc: Global,
    text: &Lexed<'_>,
    at: usize,
) -> Result<Option<((Role, Values), usize)>, Memory>
    requires { length text.now ≤ greatest_place }
    ensures { IfOk result (λ found. ItemAt IsInput text.now at found) }
{
    if !text.begins(at, &INPUT) {
        return Ok(None);
    }
    let (values, next) = match values_at(alloc, text, at + 2)? {
        Some(read) => read,
        None => return Ok(None),
    };
    if !text.has(next, END) {
        return Ok(None);
    }
    let role = Role(name_at(alloc, text, at)?);
    Ok(Some(((role, values), next + 1)))
}

/// As many values as stand at a place of the text with a `,` between two, and the place behind
/// them, or `None` where no value stands at the place or behind a `,`.
fn values_at(alloc: Global, text: &Lexed<'_>, at: usize) -> Result<Option<(Values, usize)>, Memory>
    requires { length text.now ≤ greatest_place }
    ensures { IfOk result (λ found. ValuesAt text.now at found) }
{
    let (first, mut next) = match constant_at(alloc, text, at)? {
        Some(read) => read,
        None => return Ok(None),
    };
    let mut values = Vec::new(alloc);
    values.push(first)?;
    while text.has(next, COMMA) {
        match constant_at(alloc, text, next + 1)? {
            Some((value, behind)) => {
                values.push(value)?;
                next = behind;
            }
            None => return Ok(None),
        }
    }
    Ok(Some((Items::new(values), next)))
}

/// Appends the inputs that stand at a place of the text up to a `}`. The answer is the place behind
/// that.
///
/// ```text
/// { name ":" value { "," value } ";" } "}"
/// ```
pub fn inputs_at(
    alloc: Global,
    text: &Lexed<'_>,
    at: usize,
    inputs: &mut Vec<(Role, Values)>,
) -> Result<usize, Stop>
    requires { length text.now ≤ greatest_place }
    ensures found { IfOk result (λ next.
        TakesItems IsInput text.now at inputs.old.items inputs.new.items next) }
    ensures stopped { IfErr result (λ stop. stop ≢ Stop.Memory →
        EndsAmong IsInput text.now at (place_in stop)) }
{
    let mut next = at;
    while !text.has(next, CLOSING) {
        let found = input_at(alloc, text, next)?;
        next = append(found, next, inputs)?;
    }
    Ok(next + 1)
}

/// A change and when it may come: `"after" number change`.
fn timed_at(
    alloc: Global,
    text: &Lexed<'_>,
    version: u32,
    at: usize,
) -> Result<Option<(ReadTimed, usize)>, Memory>
    requires { length text.now ≤ greatest_place }
    ensures { IfOk result (λ found. TimedAt version text.now at found) }
{
    if !text.named(at, b"after") {
        return Ok(None);
    }
    let after = match number_at(text, at + 1, GREATEST) {
        Some(after) => after,
        None => return Ok(None),
    };
    match change_at(alloc, text, version, INSIDE_LIMIT, at + 2)? {
        Some((read, next)) => {
            let change = KeptChange::new(alloc, read)?;
            Ok(Some((ReadTimed { after, change }, next)))
        }
        None => Ok(None),
    }
}

/// Appends the changes that stand at a place of the text up to a `}`. The answer is the place
/// behind that.
///
/// ```text
/// { "after" number change } "}"
/// ```
pub fn script_at(
    alloc: Global,
    text: &Lexed<'_>,
    version: u32,
    at: usize,
    script: &mut Vec<ReadTimed>,
) -> Result<usize, Stop>
    requires { length text.now ≤ greatest_place }
    ensures found { IfOk result (λ next. TakesItems (IsTimed version) text.now at
        (map plain_timed script.old.items) (map plain_timed script.new.items) next) }
    ensures stopped { IfErr result (λ stop. stop ≢ Stop.Memory →
        EndsAmong (IsTimed version) text.now at (place_in stop)) }
{
    let mut next = at;
    while !text.has(next, CLOSING) {
        let found = timed_at(alloc, text, version, next)?;
        next = append(found, next, script)?;
    }
    Ok(next + 1)
}
