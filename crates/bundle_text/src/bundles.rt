//! A bundle of the parts that were read.

ghost use Rattle.std.specs.Prelude.{◌≡◌, ◌≢◌, ◌≤◌, ◌+◌, ◌<◌, ◌++◌, [], ◌∷◌, length, map, vec_len, IfOk, IfErr, OnOk};
ghost use Rattle.limits.specs.Limits.{greatest_place};
ghost use Rattle.dioc_terms.specs.Plain.{plain, plain_rule};
ghost use Rattle.dioc_terms.specs.Terms.{term, cast_of};
ghost use Rattle.bundle_text.specs.Grammar.{IsOnly, IsMadeOf, with_added, added_rules, numbered_change, numbered};
ghost use Rattle.bundle_text.specs.Readers.{listed_trace, found_in, plain_kept, plain_timed};
ghost use Rattle.bundle_text.specs.Stops.{place_in};

use crate::parts::{KeptChange, Parts, ReadTimed};
use crate::stops::{Stop, lost};
use dioc_terms::{
    Bundle, Change, Choreo, Items, Memory, Roles, Rule, Timed, Trace, give_up, roles,
};
use std::alloc::Global;

/// The rules of the book's start with those that a script adds behind them, and the script with
/// their numbers.
#[derive(Drop)]
struct ScriptWithRules {
    rules: Vec<Rule>,
    script: Vec<Timed>,
}

/// A change as a bundle keeps it. A rule that it adds goes behind the others.
fn change_of(change: KeptChange, rules: &mut Vec<Rule>) -> Result<Change, Memory>
    requires { vec_len rules.old ≤ greatest_place }
    ensures change { IfOk result (λ made.
        made ≡ numbered_change (vec_len rules.old) (plain_kept change)) }
    ensures rules { OnOk result (map plain_rule rules.new.items
        ≡ map plain_rule rules.old.items ++ with_added (plain_kept change) []) }
{
    match change {
        KeptChange::Add(rule) => Ok(Change::Add(add_rule(Box::into_inner(rule), rules)?)),
        KeptChange::Drop(name) => Ok(Change::Drop(name)),
        KeptChange::Env(key, value) => Ok(Change::Env(key, value)),
    }
}

/// Puts a rule behind the others. The answer is its number.
fn add_rule(rule: Rule, rules: &mut Vec<Rule>) -> Result<u32, Memory>
    requires { vec_len rules.old ≤ greatest_place }
    ensures number { IfOk result (λ number. number ≡ vec_len rules.old) }
    ensures rules { OnOk result (rules.new.items ≡ rules.old.items ++ rule ∷ []) }
{
    let number = rules.len() as u32;
    rules.push(rule)?;
    Ok(number)
}

/// Puts a change of a script behind those made so far, and a rule that it adds behind the others.
fn number_change(
    timed: ReadTimed,
    rules: &mut Vec<Rule>,
    made: &mut Vec<Timed>,
) -> Result<(), Memory>
    requires { vec_len rules.old ≤ greatest_place }
    ensures rules { OnOk result (map plain_rule rules.new.items
        ≡ map plain_rule rules.old.items ++ with_added (plain_timed timed).change []) }
    ensures made { OnOk result (made.new.items ≡ made.old.items ++ record {
      after = timed.after;
      change = numbered_change (vec_len rules.old) (plain_timed timed).change;
    } ∷ []) }
{
    let after = timed.after;
    let change = change_of(timed.change, rules)?;
    made.push(Timed { after, change })?;
    Ok(())
}

/// The script with the numbers of the rules that it adds, which go behind the others.
fn number_all(
    alloc: Global,
    script: Vec<ReadTimed>,
    rules: &mut Vec<Rule>,
) -> Result<Vec<Timed>, Memory>
    requires { vec_len rules.old + vec_len script ≤ greatest_place }
    ensures rules { OnOk result (map plain_rule rules.new.items
        ≡ map plain_rule rules.old.items ++ added_rules (map plain_timed script.items)) }
    ensures made { IfOk result (λ made.
        made.items ≡ numbered (vec_len rules.old) (map plain_timed script.items)) }
{
    let mut made = Vec::new(alloc);
    for timed in script {
        number_change(timed, rules, &mut made)?;
    }
    Ok(made)
}

/// The rules of the book's start with those that the script adds behind them, and the script with
/// their numbers.
fn numbered(
    alloc: Global,
    opening: Vec<Rule>,
    script: Vec<ReadTimed>,
) -> Result<ScriptWithRules, Memory>
    requires { vec_len opening + vec_len script ≤ greatest_place }
    ensures rules { IfOk result (λ made. map plain_rule made.rules.items
        ≡ map plain_rule opening.items ++ added_rules (map plain_timed script.items)) }
    ensures script { IfOk result (λ made.
        made.script.items ≡ numbered (vec_len opening) (map plain_timed script.items)) }
{
    let mut rules = opening;
    match number_all(alloc, script, &mut rules) {
        Ok(script) => Ok(ScriptWithRules { rules, script }),
        Err(fault) => give_up(rules, fault),
    }
}

/// The cast of the choreography, and the script with the rules.
fn cast_and_script(
    alloc: Global,
    choreo: &Choreo,
    opening: Vec<Rule>,
    script: Vec<ReadTimed>,
) -> Result<(Roles, ScriptWithRules), Memory>
    requires { vec_len opening + vec_len script ≤ greatest_place }
    ensures cast { IfOk result (λ made. made.0 ≡ cast_of (term choreo.now)) }
    ensures rules { IfOk result (λ made. map plain_rule made.1.rules.items
        ≡ map plain_rule opening.items ++ added_rules (map plain_timed script.items)) }
    ensures script { IfOk result (λ made.
        made.1.script.items ≡ numbered (vec_len opening) (map plain_timed script.items)) }
{
    let cast = match roles(alloc, choreo) {
        Ok(cast) => cast,
        Err(fault) => return give_up((opening, script), fault),
    };
    match numbered(alloc, opening, script) {
        Ok(numbered) => Ok((cast, numbered)),
        Err(fault) => give_up(cast, fault),
    }
}

/// The trace that was read, or one without lines.
fn trace_of(alloc: Global, found: Option<Trace>) -> Trace
    ensures { IsOnly (listed_trace found) result }
{
    match found {
        Some(trace) => trace,
        None => Trace {
            entries: Items::new(Vec::new(alloc)),
            last: None,
        },
    }
}

/// The bundle of that version which has these parts. The place says where the text ends.
pub fn bundle_of(alloc: Global, version: u32, parts: Parts, end: usize) -> Result<Bundle, Stop>
    requires { vec_len parts.rules + vec_len parts.script ≤ greatest_place }
    ensures found { IfOk result (λ b. IsMadeOf (found_in parts) (plain b)) }
    ensures version { IfOk result (λ b. b.version ≡ version) }
    ensures stopped { IfErr result (λ stop. stop ≢ Stop.Memory →
        ((found_in parts).choreos ≡ []) × (place_in stop ≡ end)) }
{
    let Parts {
        choreo,
        rules,
        env,
        inputs,
        script,
        trace,
    } = parts;
    let choreo = match choreo {
        Some(choreo) => choreo,
        None => return lost((rules, env, inputs, script, trace), Stop::At(end)),
    };
    let opening = rules.len() as u32;
    match cast_and_script(alloc, &choreo, rules, script) {
        Ok((cast, numbered)) => Ok(Bundle {
            version,
            cast,
            choreo,
            rules: Items::new(numbered.rules),
            opening,
            env: Items::new(env),
            inputs: Items::new(inputs),
            script: Items::new(numbered.script),
            trace: trace_of(alloc, trace),
        }),
        Err(Memory) => lost((choreo, env, inputs, trace), Stop::Memory),
    }
}
