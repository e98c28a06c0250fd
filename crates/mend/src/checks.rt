//! Whether a bundle may be mended, test by test in the order of the refusals.

ghost use Rattle.std.specs.Prelude.{◌≡◌, None, Some, map, slice_get, IfErr, OnOk};
ghost use Rattle.std.specs.Option.{option_copied};
ghost use Rattle.dioc_terms.specs.Bundles.{IsFormed};
ghost use Rattle.dioc_terms.specs.Plain.{plain, plain_rule};
ghost use Rattle.dioc_terms.specs.Terms.{term};
ghost use Rattle.mend.specs.Names.{taken_name};
ghost use Rattle.rule_checks.specs.Refusals.{first_refusal, body_too_big};
ghost use Rattle.mend.specs.Mendable.{comes_before_links, is_link};
ghost use Rattle.mend.specs.Refusals.{first_mend_refusal, refused, name_taken, given_program_tests, mend_program_tests, given_body_tests, name_tests, mend_rule_tests, mend_rule_refusal, IsMendRefusalOf};

use crate::names::{first_taken, taken_in};
use crate::refusals::MendRefusal;
use crate::rules::rule_at;
use dioc_terms::{Bundle, Choreo, Name, Rule};
use index_marks::{depth, nodes};
use limits::{MOST_BODY_DEPTH, MOST_BODY_NODES};
use rule_checks::{Refusal, Where, accept, admit};
use std::alloc::Global;

/// The tests of the program before it is mended.
pub(crate) fn check_program(alloc: Global, bundle: &Bundle) -> Result<(), MendRefusal>
    requires formed { IsFormed (plain bundle.now) }
    ensures ok { OnOk result
        (first_mend_refusal (mend_program_tests (plain bundle.now)) ≡ None) }
    ensures refused { IfErr result
        (IsMendRefusalOf (first_mend_refusal (mend_program_tests (plain bundle.now)))) }
{
    given_program(alloc, bundle)?;
    free_choreo(alloc, Where::Program, &bundle.choreo)
}

/// What a bundle that may run would be refused for too, as far as the program goes. Whether it is
/// connected comes last among these tests, so that a refusal for that, or for a rule, says that the
/// others refuse nothing.
fn given_program(alloc: Global, bundle: &Bundle) -> Result<(), MendRefusal>
    requires formed { IsFormed (plain bundle.now) }
    ensures ok { OnOk result (first_refusal (given_program_tests (plain bundle.now)) ≡ None) }
    ensures refused { IfErr result
        (IsMendRefusalOf (refused (first_refusal (given_program_tests (plain bundle.now))))) }
{
    match accept(alloc, bundle) {
        Ok(()) => Ok(()),
        Err(refusal) => {
            if comes_before_links(&refusal) {
                Err(MendRefusal::Refused(refusal))
            } else {
                Ok(())
            }
        }
    }
}

/// Whether a refusal is of a test of the program other than whether it is connected, or for want
/// of memory.
fn comes_before_links(refusal: &Refusal) -> bool
    ensures { result ≡ comes_before_links refusal.now }
{
    match refusal {
        Refusal::TooMany(_) | Refusal::Memory => true,
        Refusal::UnknownRole(Where::Program, _) | Refusal::SelfMessage(Where::Program, _) => true,
        _ => false,
    }
}

/// Whether no name of a choreography is taken.
fn free_choreo(alloc: Global, at: Where, choreo: &Choreo) -> Result<(), MendRefusal>
    ensures ok { OnOk result (name_taken at (taken_name (term choreo.now)) ≡ None) }
    ensures refused { IfErr result
        (IsMendRefusalOf (name_taken at (taken_name (term choreo.now)))) }
{
    free(alloc, at, first_taken(choreo))
}

/// Whether there is no name that is taken.
fn free(alloc: Global, at: Where, taken: Option<&Name>) -> Result<(), MendRefusal>
    ensures ok { OnOk result (name_taken at (option_copied taken.entry) ≡ None) }
    ensures refused { IfErr result (IsMendRefusalOf (name_taken at (option_copied taken.entry))) }
{
    match taken {
        None => Ok(()),
        Some(name) => Err(MendRefusal::NameTaken(at, name.copy(alloc)?)),
    }
}

/// The tests of the rules of these numbers before they are mended.
pub(crate) fn check_rules(
    alloc: Global,
    bundle: &Bundle,
    numbers: &[u32],
) -> Result<(), MendRefusal>
    ensures ok { OnOk result
        (first_mend_refusal (map (mend_rule_refusal (plain bundle.now)) numbers.now) ≡ None) }
    ensures refused { IfErr result (IsMendRefusalOf
        (first_mend_refusal (map (mend_rule_refusal (plain bundle.now)) numbers.now))) }
{
    for number in numbers {
        check_rule(alloc, bundle, *number)?;
    }
    Ok(())
}

/// The tests of the rule of that number; a number past the rules is refused nothing.
fn check_rule(alloc: Global, bundle: &Bundle, number: u32) -> Result<(), MendRefusal>
    ensures ok { OnOk result (mend_rule_refusal (plain bundle.now) number ≡ None) }
    ensures refused { IfErr result
        (IsMendRefusalOf (mend_rule_refusal (plain bundle.now) number)) }
{
    match rule_at(bundle, number) {
        Some(rule) => check_one(alloc, bundle, number, rule),
        None => Ok(()),
    }
}

/// The tests of a rule.
fn check_one(alloc: Global, bundle: &Bundle, number: u32, rule: &Rule) -> Result<(), MendRefusal>
    requires at { slice_get (plain bundle.now).rules number ≡ Some (plain_rule rule.now) }
    ensures ok { OnOk result (first_mend_refusal
        (mend_rule_tests bundle.now.cast number (plain_rule rule.now)) ≡ None) }
    ensures refused { IfErr result (IsMendRefusalOf
        (first_mend_refusal (mend_rule_tests bundle.now.cast number (plain_rule rule.now)))) }
{
    given_body(alloc, bundle, number, rule)?;
    free_rule(alloc, Where::Rule(number), rule)
}

/// Whether no name of a rule's condition and of its body is taken.
fn free_rule(alloc: Global, at: Where, rule: &Rule) -> Result<(), MendRefusal>
    ensures ok { OnOk result (first_mend_refusal (name_tests at (plain_rule rule.now)) ≡ None) }
    ensures refused { IfErr result
        (IsMendRefusalOf (first_mend_refusal (name_tests at (plain_rule rule.now)))) }
{
    free(alloc, at, taken_in(&rule.cond))?;
    free_choreo(alloc, at, &rule.body)
}

/// What the body of a rule that may run would be refused for too. Where a sequence of it isn't
/// linked, only its size was not looked at yet.
fn given_body(alloc: Global, bundle: &Bundle, number: u32, rule: &Rule) -> Result<(), MendRefusal>
    requires at { slice_get (plain bundle.now).rules number ≡ Some (plain_rule rule.now) }
    ensures ok { OnOk result (first_refusal
        (given_body_tests bundle.now.cast number (term rule.now.body)) ≡ None) }
    ensures refused { IfErr result (IsMendRefusalOf (refused (first_refusal
        (given_body_tests bundle.now.cast number (term rule.now.body))))) }
{
    match admit(alloc, bundle, number) {
        Ok(()) => Ok(()),
        Err(refusal) => {
            if is_link(&refusal) {
                small_body(number, &rule.body)
            } else {
                Err(MendRefusal::Refused(refusal))
            }
        }
    }
}

/// Whether a refusal is for a sequence that isn't linked.
fn is_link(refusal: &Refusal) -> bool
    ensures { result ≡ is_link refusal.now }
{
    matches!(refusal, Refusal::Unlinked(_, _, _, _))
}

/// Whether a rule's body is small enough.
fn small_body(number: u32, body: &Choreo) -> Result<(), MendRefusal>
    ensures ok { OnOk result (body_too_big number (term body.now) ≡ None) }
    ensures refused { IfErr result
        (IsMendRefusalOf (refused (body_too_big number (term body.now)))) }
{
    if nodes(body) > MOST_BODY_NODES || depth(body) > MOST_BODY_DEPTH {
        Err(MendRefusal::Refused(Refusal::BodyTooBig(number)))
    } else {
        Ok(())
    }
}
