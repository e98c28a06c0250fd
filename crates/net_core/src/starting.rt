//! What a net is started with: the roles in their opening states, the bodies of the rules, and the
//! changes of the script.

ghost use Rattle.std.specs.Prelude.{◌≡◌, ◌<◌, ◌++◌, ℕ, true, Some, IfOk, OnOk, length, map};
ghost use Rattle.std.specs.List.{AllByRecursion};
ghost use Rattle.dioc_terms.specs.declared.names.Role.{Role as OneRole};
ghost use Rattle.dioc_terms.specs.Bundles.{adds};
ghost use Rattle.dioc_terms.specs.Equality.{member};
ghost use Rattle.dioc_terms.specs.Plain.{plain, plain_rule};
ghost use Rattle.dioc_terms.specs.Terms.{is_in, term};
ghost use Rattle.global_steps.specs.Follow.{change_entry, inputs_of};
ghost use Rattle.network_steps.specs.Network.{network_start};
ghost use Rattle.net_core.specs.KeptParts.{body_seen, due_seen};
ghost use Rattle.net_core.specs.Standing.{body_of, due_of, local_in};

use crate::bodies::{Coming, RuleBody};
use dioc_terms::{
    Bundle, Change, Entry, Items, Memory, Role, Rule, Store, Timed, Value, Values, give_up,
};
use dpoc_process::Begins;
use std::alloc::Global;
use std::collections::VecDeque;

/// The roles of the cast, in its order, each with its projection and its inputs.
pub(crate) fn role_states<R: Begins>(alloc: Global, bundle: &Bundle) -> Result<Vec<R>, Memory>
    requires { (q : OneRole) → is_in q (term bundle.now.choreo) ≡ true
        → member q bundle.now.cast ≡ true }
    ensures { IfOk result (λ states. map R.local states.items
        ≡ map (local_in (network_start (plain bundle.now))) bundle.now.cast) }
{
    let cast = bundle.cast.as_slice();
    let mut states = Vec::with_capacity(alloc, cast.len())?;
    match add_states(alloc, bundle, cast, &mut states) {
        Ok(()) => Ok(states),
        Err(fault) => give_up(states, fault),
    }
}

/// Adds these roles, in their order, each with its projection and its inputs.
fn add_states<R: Begins>(
    alloc: Global,
    bundle: &Bundle,
    cast: &[Role],
    states: &mut Vec<R>,
) -> Result<(), Memory>
    requires { (q : OneRole) → is_in q (term bundle.now.choreo) ≡ true
        → member q bundle.now.cast ≡ true }
    ensures { OnOk result (map R.local states.new.items ≡ map R.local states.old.items
        ++ map (local_in (network_start (plain bundle.now))) cast.now) }
{
    for role in cast {
        let state = opening_state(alloc, bundle, role)?;
        states.push(state)?;
    }
    Ok(())
}

/// A role before its first act, with its projection and its inputs. Each role of the choreography
/// is in the cast, which a formed bundle knows.
pub fn opening_state<R: Begins>(alloc: Global, bundle: &Bundle, role: &Role) -> Result<R, Memory>
    requires { (q : OneRole) → is_in q (term bundle.now.choreo) ≡ true
        → member q bundle.now.cast ≡ true }
    ensures { IfOk result (λ state. R.local state
        ≡ local_in (network_start (plain bundle.now)) role.now) }
{
    let name = role.copy(alloc)?;
    let mut inputs = Vec::new(alloc);
    take_inputs(alloc, bundle.inputs.as_slice(), role, &mut inputs)?;
    let store = Store::new(alloc, Items::new(inputs));
    R::begin(alloc, name, &bundle.choreo, bundle.cast.as_slice(), store)
}

/// Adds copies of all that is given for the role, in its order.
fn take_inputs(
    alloc: Global,
    inputs: &[(Role, Values)],
    role: &Role,
    values: &mut Vec<Value>,
) -> Result<(), Memory>
    ensures { OnOk result (values.new.items ≡ values.old.items ++ inputs_of inputs.now role.now) }
{
    for given in inputs {
        if given.0 == *role {
            add_copies(alloc, given.1.as_slice(), values)?;
        }
    }
    Ok(())
}

/// Adds copies of these values, in their order.
fn add_copies(alloc: Global, more: &[Value], values: &mut Vec<Value>) -> Result<(), Memory>
    ensures { OnOk result (values.new.items ≡ values.old.items ++ more.now) }
{
    for value in more {
        values.push(value.copy(alloc)?)?;
    }
    Ok(())
}

/// The bodies of the rules, by their numbers.
pub(crate) fn keep_bodies(alloc: Global, rules: &[Rule]) -> Result<Vec<RuleBody>, Memory>
    ensures { IfOk result (λ kept. map body_seen kept.items
        ≡ map (λ rule. body_of (plain_rule rule)) rules.now) }
{
    let mut kept = Vec::with_capacity(alloc, rules.len())?;
    match add_bodies(alloc, rules, &mut kept) {
        Ok(()) => Ok(kept),
        Err(fault) => give_up(kept, fault),
    }
}

/// Adds the bodies of these rules, in their order.
fn add_bodies(alloc: Global, rules: &[Rule], kept: &mut Vec<RuleBody>) -> Result<(), Memory>
    ensures { OnOk result (map body_seen kept.new.items ≡ map body_seen kept.old.items
        ++ map (λ rule. body_of (plain_rule rule)) rules.now) }
{
    for rule in rules {
        let body = keep_body(alloc, rule)?;
        kept.push(body)?;
    }
    Ok(())
}

/// The name and the body of a rule.
fn keep_body(alloc: Global, rule: &Rule) -> Result<RuleBody, Memory>
    ensures { IfOk result (λ kept. body_seen kept ≡ body_of (plain_rule rule.now)) }
{
    let name = rule.name.copy(alloc)?;
    match rule.body.copy(alloc) {
        Ok(body) => Ok(RuleBody { name, body }),
        Err(fault) => give_up(name, fault),
    }
}

/// The changes of the script, in their order.
pub fn keep_script(
    alloc: Global,
    rules: &[Rule],
    script: &[Timed],
) -> Result<VecDeque<Coming>, Memory>
    requires { AllByRecursion (λ m. m < length rules.now) (adds script.now) }
    ensures { IfOk result (λ kept. map due_seen kept.items
        ≡ map (due_of (map plain_rule rules.now)) script.now) }
{
    let mut kept = Vec::with_capacity(alloc, script.len())?;
    match add_changes(alloc, rules, script, &mut kept) {
        Ok(()) => Ok(VecDeque::from(kept)),
        Err(fault) => give_up(kept, fault),
    }
}

/// Adds these changes, in their order.
fn add_changes(
    alloc: Global,
    rules: &[Rule],
    script: &[Timed],
    kept: &mut Vec<Coming>,
) -> Result<(), Memory>
    requires { AllByRecursion (λ m. m < length rules.now) (adds script.now) }
    ensures { OnOk result (map due_seen kept.new.items ≡ map due_seen kept.old.items
        ++ map (due_of (map plain_rule rules.now)) script.now) }
{
    for timed in script {
        let coming = keep_timed(alloc, rules, timed)?;
        kept.push(coming)?;
    }
    Ok(())
}

/// One change with the entry that it shows.
fn keep_timed(alloc: Global, rules: &[Rule], timed: &Timed) -> Result<Coming, Memory>
    requires { (m : ℕ) → timed.now.change ≡ Change.Add m → m < length rules.now }
    ensures { IfOk result (λ kept. due_seen kept ≡ due_of (map plain_rule rules.now) timed.now) }
{
    let change = copy_of_change(alloc, &timed.change)?;
    let entry = shown_by(alloc, rules, &timed.change)?;
    Ok(Coming {
        after: timed.after,
        change,
        entry,
    })
}

/// The same change once more.
fn copy_of_change(alloc: Global, change: &Change) -> Result<Change, Memory>
    ensures { IfOk result (λ copy. copy ≡ change.now) }
{
    match change {
        Change::Add(number) => Ok(Change::Add(*number)),
        Change::Drop(name) => Ok(Change::Drop(name.copy(alloc)?)),
        Change::Env(key, value) => Ok(Change::Env(key.copy(alloc)?, value.copy(alloc)?)),
    }
}

/// The entry that a change shows.
fn shown_by(alloc: Global, rules: &[Rule], change: &Change) -> Result<Entry, Memory>
    requires { (m : ℕ) → change.now ≡ Change.Add m → m < length rules.now }
    ensures { IfOk result
        (λ entry. change_entry (map plain_rule rules.now) change.now ≡ Some entry) }
{
    match change {
        Change::Add(number) => {
            let rule = &rules[*number as usize];
            let name = rule.name.copy(alloc)?;
            Ok(Entry::Add { name })
        }
        Change::Drop(name) => Ok(Entry::Drop {
            name: name.copy(alloc)?,
        }),
        Change::Env(key, value) => Ok(Entry::Env {
            key: key.copy(alloc)?,
            value: value.copy(alloc)?,
        }),
    }
}
