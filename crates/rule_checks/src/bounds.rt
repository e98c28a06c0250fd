//! The limits of a bundle, but for those of a rule's body.
//!
//! The book is followed through the script by the names of its rules alone, since rules of one name
//! never stand in it together. The count ends as soon as there are too many names, so a removal
//! moves at most 256 of them, and the time grows with the size of the bundle.

ghost use Rattle.std.specs.Prelude.{◌≡◌, None, map, IfErr, IfOk, OnOk};
ghost use Rattle.limits.specs.Limits.{most_nodes, most_rules};
ghost use Rattle.dioc_terms.specs.Plain.{plain, plain_rule};
ghost use Rattle.dioc_terms.specs.Terms.{term, nodes};
ghost use Rattle.rule_checks.specs.Alive.{added_name, changed_names, first_names, most_names};
ghost use Rattle.rule_checks.specs.Answers.{IsRefusalOf};
ghost use Rattle.rule_checks.specs.Refusals.{first_refusal, limit_tests, too_many, too_many_alive};

use crate::refusals::{Refusal, Which};
use dioc_terms::{Bundle, Change, Choreo, Memory, Name, Rule, Timed};
use index_marks::nodes;
use indexmap::IndexSet;
use limits::{MOST_CHANGES, MOST_NODES, MOST_ROLES, MOST_RULES};
use std::alloc::Global;

/// The tests of the limits.
pub(crate) fn within_limits(alloc: Global, bundle: &Bundle) -> Result<(), Refusal>
    ensures ok { OnOk result (first_refusal (limit_tests (plain bundle.now)) ≡ None) }
    ensures refused { IfErr result (IsRefusalOf (first_refusal (limit_tests (plain bundle.now)))) }
{
    few_nodes(&bundle.choreo)?;
    few(Which::Roles, bundle.cast.len(), MOST_ROLES)?;
    few_alive(alloc, bundle)?;
    few(Which::Changes, bundle.script.len(), MOST_CHANGES)
}

fn few_nodes(choreo: &Choreo) -> Result<(), Refusal>
    ensures ok { OnOk result (too_many Which.Nodes most_nodes (nodes (term choreo.now)) ≡ None) }
    ensures refused { IfErr result
        (IsRefusalOf (too_many Which.Nodes most_nodes (nodes (term choreo.now)))) }
{
    few(Which::Nodes, nodes(choreo), MOST_NODES)
}

/// Whether there are at most so many.
fn few(which: Which, count: usize, most: usize) -> Result<(), Refusal>
    ensures ok { OnOk result (too_many which most count ≡ None) }
    ensures refused { IfErr result (IsRefusalOf (too_many which most count)) }
{
    if count > most {
        Err(Refusal::TooMany(which))
    } else {
        Ok(())
    }
}

/// Whether at most 256 rules are in the book at once.
fn few_alive(alloc: Global, bundle: &Bundle) -> Result<(), Refusal>
    ensures ok { OnOk result (too_many_alive (plain bundle.now) ≡ None) }
    ensures refused { IfErr result (IsRefusalOf (too_many_alive (plain bundle.now))) }
{
    let rules = bundle.rules.as_slice();
    let mut names = opening_names(alloc, rules, bundle.opening)?;
    few_through(alloc, rules, &mut names, bundle.script.as_slice())
}

/// The names of the rules that are in the book from the start.
fn opening_names(alloc: Global, rules: &[Rule], opening: u32) -> Result<IndexSet<Name>, Memory>
    ensures { IfOk result (λ names. names.keys ≡ first_names (map plain_rule rules.now) opening) }
{
    let mut names = IndexSet::new(alloc);
    for number in 0..opening {
        add_name(alloc, rules, &mut names, number)?;
    }
    Ok(names)
}

/// Follows the names through the script, until there are too many.
fn few_through(
    alloc: Global,
    rules: &[Rule],
    names: &mut IndexSet<Name>,
    script: &[Timed],
) -> Result<(), Refusal>
    ensures ok { OnOk result (too_many Which.Rules most_rules
        (most_names (map plain_rule rules.now) names.old.keys script.now) ≡ None) }
    ensures refused { IfErr result (IsRefusalOf (too_many Which.Rules most_rules
        (most_names (map plain_rule rules.now) names.old.keys script.now))) }
{
    for timed in script {
        few(Which::Rules, names.len(), MOST_RULES)?;
        change_names(alloc, rules, names, &timed.change)?;
    }
    few(Which::Rules, names.len(), MOST_RULES)
}

fn change_names(
    alloc: Global,
    rules: &[Rule],
    names: &mut IndexSet<Name>,
    change: &Change,
) -> Result<(), Memory>
    ensures { OnOk result (names.new.keys
        ≡ changed_names (map plain_rule rules.now) change.now names.old.keys) }
{
    match change {
        Change::Add(number) => add_name(alloc, rules, names, *number),
        Change::Drop(name) => {
            names.shift_remove(name);
            Ok(())
        }
        Change::Env(_, _) => Ok(()),
    }
}

/// The name of the rule of that number, where there is one, is among the names from now on.
fn add_name(
    alloc: Global,
    rules: &[Rule],
    names: &mut IndexSet<Name>,
    number: u32,
) -> Result<(), Memory>
    ensures { OnOk result (names.new.keys
        ≡ added_name (map plain_rule rules.now) number names.old.keys) }
{
    if let Some(rule) = rules.get(number as usize) {
        if !names.contains(&rule.name) {
            names.insert(rule.name.copy(alloc)?)?;
        }
    }
    Ok(())
}
