//! The rules of a bundle by their numbers.

ghost use Rattle.std.specs.Prelude.{◌≡◌, ◌++◌, option_map, slice_get, IfOk, OnOk};
ghost use Rattle.dioc_terms.specs.Bundles.{IsFormed, adds, numbers_from};
ghost use Rattle.dioc_terms.specs.Plain.{plain, plain_rule};
ghost use Rattle.mend.specs.Rules.{added_number};
ghost use Rattle.mend.specs.Refusals.{rule_numbers};

use dioc_terms::{Bundle, Change, Memory, Rule, Timed};
use std::alloc::Global;

/// The rule of that number, `None` exactly where there is none.
pub(crate) fn rule_at(bundle: &Bundle, number: u32) -> Option<&Rule>
    ensures { option_map (λ rule. plain_rule rule.now) result
        ≡ slice_get (plain bundle.now).rules number }
{
    bundle.rules.as_slice().get(number as usize)
}

/// The numbers of the rules in their order: those of the start, and then those that the script
/// adds.
pub(crate) fn rule_numbers(alloc: Global, bundle: &Bundle) -> Result<Vec<u32>, Memory>
    requires formed { IsFormed (plain bundle.now) }
    ensures { IfOk result (λ numbers. numbers.items ≡ rule_numbers (plain bundle.now)) }
{
    let mut numbers = first_numbers(alloc, bundle.opening)?;
    add_numbers(&mut numbers, bundle.script.as_slice())?;
    Ok(numbers)
}

/// So many numbers, from 0 on.
fn first_numbers(alloc: Global, count: u32) -> Result<Vec<u32>, Memory>
    ensures { IfOk result (λ numbers. numbers.items ≡ numbers_from 0 count) }
{
    let mut numbers = Vec::new(alloc);
    for number in 0..count {
        numbers.push(number)?;
    }
    Ok(numbers)
}

/// Adds the numbers that a script adds.
fn add_numbers(numbers: &mut Vec<u32>, script: &[Timed]) -> Result<(), Memory>
    ensures { OnOk result (numbers.new.items ≡ numbers.old.items ++ adds script.now) }
{
    for timed in script {
        add_number(numbers, &timed.change)?;
    }
    Ok(())
}

/// Adds the number of the rule that a change adds.
fn add_number(numbers: &mut Vec<u32>, change: &Change) -> Result<(), Memory>
    ensures { OnOk result (numbers.new.items ≡ numbers.old.items ++ added_number change.now) }
{
    match change {
        Change::Add(number) => Ok(numbers.push(*number)?),
        Change::Drop(_) | Change::Env(_, _) => Ok(()),
    }
}
