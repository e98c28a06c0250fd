//! How a bundle's rules and changes are kept.

ghost use Rattle.std.specs.Prelude.{◌≡◌, ◌<◌, ◌≤◌, ◌+◌, ℕ, length, map, vec_len, All, IfOk};
ghost use Rattle.std.specs.List.{AllByRecursion};
ghost use Rattle.std.specs.Vec.{vec_capacity};
ghost use Rattle.indexmap.specs.IndexMap.{spare};
ghost use Rattle.dioc_terms.specs.Bundles.{IsFormedRule, adds};
ghost use Rattle.dioc_terms.specs.Plain.{plain_rule};
ghost use Rattle.dioc_terms.specs.Rules.{opening_order};
ghost use Rattle.rule_book.specs.Kept.{change_of, order_of, IsKept, AreKept, IsKeptChange};

use crate::kept::{KeptChange, KeptRule, wanted_of};
use dioc_terms::{Change, Items, Memory, Name, Rule, Timed, Value, conditions_join_nothing, roles};
use indexmap::IndexMap;
use std::alloc::Global;
use std::collections::VecDeque;

/// The rules that are in the book from the start, under their names, with room for so many more.
pub(crate) fn keep_opening(
    alloc: Global,
    rules: &[Rule],
    opening: u32,
    more: usize,
) -> Result<IndexMap<Name, KeptRule>, Memory>
    requires formed { All IsFormedRule (map plain_rule rules.now) }
    requires there { opening ≤ length rules.now }
    ensures order { IfOk result (λ kept. order_of kept.entries
        ≡ opening_order (map plain_rule rules.now) opening) }
    ensures kept { IfOk result (λ kept. AreKept (map plain_rule rules.now) kept.entries) }
    ensures room { IfOk result (λ kept. more ≤ spare kept) }
{
    let mut kept = IndexMap::new(alloc);
    for number in 0..opening {
        let (name, rule) = keep_rule(alloc, rules, number)?;
        kept.insert(name, rule)?;
    }
    kept.reserve(more)?;
    Ok(kept)
}

/// The pairs of the environment, with room for so many more.
pub(crate) fn keep_env(
    alloc: Global,
    env: &Items<(Name, Value)>,
    more: usize,
) -> Result<Vec<(Name, Value)>, Memory>
    ensures pairs { IfOk result (λ kept. kept.items ≡ env.now) }
    ensures room { IfOk result (λ kept. vec_len kept + more ≤ vec_capacity kept) }
{
    let mut kept = env.copy(alloc)?.into_vec();
    kept.reserve(more)?;
    Ok(kept)
}

/// The changes of the script, in their order.
pub(crate) fn keep_script(
    alloc: Global,
    rules: &[Rule],
    script: &[Timed],
) -> Result<VecDeque<KeptChange>, Memory>
    requires formed { All IsFormedRule (map plain_rule rules.now) }
    requires there { AllByRecursion (λ m. m < length rules.now) (adds script.now) }
    ensures changes { IfOk result (λ kept. map change_of kept.items ≡ map (λ timed. timed.change)
        script.now) }
    ensures kept { IfOk result (λ kept. AllByRecursion (IsKeptChange (map plain_rule rules.now))
        kept.items) }
{
    let mut kept = Vec::with_capacity(alloc, script.len())?;
    for timed in script {
        kept.push(keep_change(alloc, rules, &timed.change)?)?;
    }
    Ok(VecDeque::from(kept))
}

fn keep_change(alloc: Global, rules: &[Rule], change: &Change) -> Result<KeptChange, Memory>
    requires formed { All IsFormedRule (map plain_rule rules.now) }
    requires there { (m : ℕ) → change.now ≡ Change.Add m → m < length rules.now }
    ensures change { IfOk result (λ kept. change_of kept ≡ change.now) }
    ensures kept { IfOk result (IsKeptChange (map plain_rule rules.now)) }
{
    match change {
        Change::Add(number) => {
            let (name, rule) = keep_rule(alloc, rules, *number)?;
            Ok(KeptChange::Add(name, rule))
        }
        Change::Drop(name) => Ok(KeptChange::Drop(name.copy(alloc)?)),
        Change::Env(key, value) => Ok(KeptChange::Env(key.copy(alloc)?, value.copy(alloc)?)),
    }
}

/// What a book keeps of the rule of this number, and the rule's name.
fn keep_rule(alloc: Global, rules: &[Rule], number: u32) -> Result<(Name, KeptRule), Memory>
    requires formed { All IsFormedRule (map plain_rule rules.now) }
    requires there { number < length rules.now }
    ensures kept { IfOk result (λ kept. IsKept (map plain_rule rules.now) kept.0 kept.1) }
    ensures number { IfOk result (λ kept. kept.1.number ≡ number) }
{
    conditions_join_nothing();
    let rule = &rules[number as usize];
    let roles = roles(alloc, &rule.body)?;
    let name = rule.name.copy(alloc)?;
    let cond = rule.cond.copy(alloc)?;
    let wanted = wanted_of(alloc, &cond)?;
    let kept = KeptRule {
        number,
        priority: rule.priority,
        cond,
        roles,
        wanted,
    };
    Ok((name, kept))
}
