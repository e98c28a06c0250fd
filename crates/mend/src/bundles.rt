//! Mending a whole bundle.

ghost use Rattle.std.specs.Prelude.{◌≡◌, None, map, IfErr, IfOk, OnOk};
ghost use Rattle.dioc_terms.specs.Bundles.{IsFormed};
ghost use Rattle.dioc_terms.specs.Plain.{plain};
ghost use Rattle.dioc_terms.specs.Terms.{term};
ghost use Rattle.mend.specs.Traces.{mended_rule, mended_bundle};
ghost use Rattle.rule_checks.specs.Refusals.{IsAccepted};
ghost use Rattle.mend.specs.Mendable.{AreMendableBodies, remade};
ghost use Rattle.mend.specs.Refusals.{first_mend_refusal, mend_program_tests, mend_rule_refusal, rule_numbers, mended_body_refusal, mended_tests, mend_refusal, IsMendRefusalOf};

use crate::bundle_parts::{mended_program, mended_rules};
use crate::checks::{check_program, check_rules};
use crate::copies::with_texts;
use crate::laws::mended_accepted;
use crate::refusals::{MendRefusal, refuse};
use crate::rules::rule_numbers;
use dioc_terms::{Bundle, Choreo, casts_are_roles, mentions_are_roles};
use std::alloc::Global;

/// The bundle with its choreography and the body of each rule mended over its cast, as `mend` does
/// it. Its own cast is the roles of the mended choreography in the order of their first appearance,
/// and all else is as it was. The answer is accepted, so it may run.
///
/// The error is the first refusal of the bundle; `Refused(Memory)` may come at any place. The order
/// is: what the program would be refused for by `accept`, but for a sequence that isn't linked; the
/// first name of the choreography that is taken; rule by rule, of its body the first role that
/// isn't in the cast, the first message of a role to itself and its size, and the first name that
/// is taken in its condition and in its body; too many nodes of the mended choreography; its depth;
/// the first mended body that is too big. Building stops once a result is past its limit of nodes.
///
/// The text of the answer may have more bytes than a bundle may have; it is accepted anyway.
pub fn mend_bundle(alloc: Global, bundle: &Bundle) -> Result<Bundle, MendRefusal>
    requires formed { IsFormed (plain bundle.now) }
    ensures mended { IfOk result (λ made. plain made ≡ mended_bundle (plain bundle.now)) }
    ensures accepted { IfOk result (λ made. IsAccepted (plain made)) }
    ensures free { OnOk result (mend_refusal (plain bundle.now) ≡ None) }
    ensures refused { IfErr result (IsMendRefusalOf (mend_refusal (plain bundle.now))) }
{
    check_program(alloc, bundle)?;
    mended_accepted();
    let numbers = rule_numbers(alloc, bundle)?;
    check_rules(alloc, bundle, &numbers)?;
    build(alloc, bundle, &numbers)
}

/// The mended bundle, where no test before mending refuses anything.
fn build(alloc: Global, bundle: &Bundle, numbers: &[u32]) -> Result<Bundle, MendRefusal>
    requires formed { IsFormed (plain bundle.now) }
    requires all { numbers.now ≡ rule_numbers (plain bundle.now) }
    requires program { first_mend_refusal (mend_program_tests (plain bundle.now)) ≡ None }
    requires rules { first_mend_refusal
        (map (mend_rule_refusal (plain bundle.now)) (rule_numbers (plain bundle.now))) ≡ None }
    ensures mended { IfOk result (λ made. plain made ≡ mended_bundle (plain bundle.now)) }
    ensures sizes { OnOk result (first_mend_refusal (mended_tests (plain bundle.now)) ≡ None) }
    ensures refused { IfErr result
        (IsMendRefusalOf (first_mend_refusal (mended_tests (plain bundle.now)))) }
{
    casts_are_roles();
    mentions_are_roles();
    let choreo = mended_program(alloc, &bundle.choreo, bundle.cast.as_slice())?;
    with_rules(alloc, bundle, numbers, choreo)
}

/// The bundle with this choreography and its cast, and with its rules mended.
fn with_rules(
    alloc: Global,
    bundle: &Bundle,
    numbers: &[u32],
    choreo: Choreo,
) -> Result<Bundle, MendRefusal>
    requires ready { AreMendableBodies (plain bundle.now) }
    requires all { numbers.now ≡ rule_numbers (plain bundle.now) }
    ensures made { IfOk result (λ made. plain made ≡ remade (plain bundle.now) (term choreo)
        (map (mended_rule bundle.now.cast) (plain bundle.now).rules)) }
    ensures ok { OnOk result
        (first_mend_refusal (map (mended_body_refusal (plain bundle.now)) numbers.now) ≡ None) }
    ensures refused { IfErr result (IsMendRefusalOf
        (first_mend_refusal (map (mended_body_refusal (plain bundle.now)) numbers.now))) }
{
    match mended_rules(alloc, bundle, numbers) {
        Ok(rules) => Ok(with_texts(alloc, bundle, choreo, rules)?),
        Err(why) => refuse(choreo, why),
    }
}
