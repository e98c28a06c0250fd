//! Whether a bundle may run, test by test in the order of the refusals.

ghost use Rattle.std.specs.Prelude.{◌≡◌, [], ◌∷◌, None, map, slice_get, IfErr, OnOk};
ghost use Rattle.dioc_terms.specs.Bundles.{IsFormed};
ghost use Rattle.dioc_terms.specs.Equality.{member};
ghost use Rattle.dioc_terms.specs.Plain.{plain};
ghost use Rattle.dioc_terms.specs.Terms.{term, mentions, self_messages};
ghost use Rattle.connectedness.specs.Laws.{HasRoles};
ghost use Rattle.rule_checks.specs.Answers.{IsRefusalOf};
ghost use Rattle.rule_checks.specs.Refusals.{IsAccepted, refusal, first_refusal, unknown_role, self_message, unlinked, body_too_big, body_tests, rule_refusal, program_tests, rules_tests};
ghost use Rattle.rule_checks.specs.Parts.{change_refusal, opening_tests, script_tests};

use crate::bounds::within_limits;
use crate::refusals::{Refusal, Where};
use connectedness::{CheckFault, check};
use dioc_terms::{
    Bundle, Change, Choreo, Index, Role, Values, casts_are_roles, is_among, mentions_are_roles,
    roles,
};
use index_marks::{depth, nodes};
use limits::{MOST_BODY_DEPTH, MOST_BODY_NODES};
use std::alloc::Global;

/// Whether a formed bundle may run: `Ok` exactly where it is refused nothing, else its first
/// refusal; `Memory` may come at any place.
///
/// The order is: too many nodes, roles, rules at once, changes; of the inputs the first role that
/// isn't in the cast; of the choreography the first interaction of a role with itself, and the
/// first sequence that isn't linked; and then the refusals of the rules, rule by rule, as `admit`
/// has them, the script's adds last. The time grows with the size of the bundle times the number
/// of roles, of which there are at most 32 where it matters.
pub fn accept(alloc: Global, bundle: &Bundle) -> Result<(), Refusal>
    requires formed { IsFormed (plain bundle.now) }
    ensures accepted { OnOk result (IsAccepted (plain bundle.now)) }
    ensures refused { IfErr result (IsRefusalOf (refusal (plain bundle.now))) }
{
    within_limits(alloc, bundle)?;
    sound_program(alloc, bundle)?;
    admit_all(alloc, bundle)
}

/// Whether rule `number` of a bundle may be in its book: `Ok` exactly where it is refused nothing,
/// else its first refusal; `Memory` may come at any place. A number past the rules is refused
/// nothing.
///
/// The order is, of the rule's body: the first role in its text that isn't in the cast; the first
/// interaction of a role with itself; the first sequence that isn't linked; more than 200 nodes or
/// deeper than 64.
pub fn admit(alloc: Global, bundle: &Bundle, number: u32) -> Result<(), Refusal>
    ensures admitted { OnOk result (rule_refusal (plain bundle.now) number ≡ None) }
    ensures refused { IfErr result (IsRefusalOf (rule_refusal (plain bundle.now) number)) }
{
    match bundle.rules.as_slice().get(number as usize) {
        Some(rule) => admit_body(alloc, bundle.cast.as_slice(), number, &rule.body),
        None => Ok(()),
    }
}

fn admit_body(alloc: Global, cast: &[Role], number: u32, body: &Choreo) -> Result<(), Refusal>
    ensures ok { OnOk result (first_refusal (body_tests cast.now number (term body.now)) ≡ None) }
    ensures refused { IfErr result
        (IsRefusalOf (first_refusal (body_tests cast.now number (term body.now)))) }
{
    mentions_are_roles();
    let at = Where::Rule(number);
    known_body(alloc, at, body, cast)?;
    no_self_message(at, body)?;
    linked(alloc, at, body, cast)?;
    small_body(number, body)
}

/// The tests of the inputs and of the choreography.
fn sound_program(alloc: Global, bundle: &Bundle) -> Result<(), Refusal>
    requires formed { IsFormed (plain bundle.now) }
    ensures ok { OnOk result (first_refusal (program_tests (plain bundle.now)) ≡ None) }
    ensures refused { IfErr result
        (IsRefusalOf (first_refusal (program_tests (plain bundle.now)))) }
{
    casts_are_roles();
    let cast = bundle.cast.as_slice();
    known_inputs(alloc, bundle.inputs.as_slice(), cast)?;
    no_self_message(Where::Program, &bundle.choreo)?;
    linked(alloc, Where::Program, &bundle.choreo, cast)
}

/// Whether the cast has the roles of the inputs.
fn known_inputs(alloc: Global, inputs: &[(Role, Values)], cast: &[Role]) -> Result<(), Refusal>
    ensures ok { OnOk result
        (unknown_role Where.Program cast.now (map (λ given. given.0) inputs.now) ≡ None) }
    ensures refused { IfErr result
        (IsRefusalOf (unknown_role Where.Program cast.now (map (λ given. given.0) inputs.now))) }
{
    for (role, _) in inputs {
        known(alloc, Where::Program, role, cast)?;
    }
    Ok(())
}

/// Whether the cast has the roles of a rule's body.
fn known_body(alloc: Global, at: Where, body: &Choreo, cast: &[Role]) -> Result<(), Refusal>
    ensures ok { OnOk result (unknown_role at cast.now (mentions (term body.now)) ≡ None) }
    ensures refused { IfErr result
        (IsRefusalOf (unknown_role at cast.now (mentions (term body.now)))) }
{
    let named = roles(alloc, body)?;
    all_known(alloc, at, named.as_slice(), cast)
}

fn all_known(alloc: Global, at: Where, roles: &[Role], cast: &[Role]) -> Result<(), Refusal>
    ensures ok { OnOk result (unknown_role at cast.now roles.now ≡ None) }
    ensures refused { IfErr result (IsRefusalOf (unknown_role at cast.now roles.now)) }
{
    for role in roles {
        known(alloc, at, role, cast)?;
    }
    Ok(())
}

fn known(alloc: Global, at: Where, role: &Role, cast: &[Role]) -> Result<(), Refusal>
    ensures ok { OnOk result (unknown_role at cast.now (role.now ∷ []) ≡ None) }
    ensures refused { IfErr result (IsRefusalOf (unknown_role at cast.now (role.now ∷ []))) }
{
    if is_among(role, cast) {
        Ok(())
    } else {
        Err(Refusal::UnknownRole(at, role.copy(alloc)?))
    }
}

/// Whether no role sends to itself.
fn no_self_message(at: Where, choreo: &Choreo) -> Result<(), Refusal>
    ensures ok { OnOk result (self_message at (term choreo.now) ≡ None) }
    ensures refused { IfErr result (IsRefusalOf (self_message at (term choreo.now))) }
{
    match first_to_self(choreo) {
        None => Ok(()),
        Some(index) => Err(Refusal::SelfMessage(at, index)),
    }
}

/// The first interaction of a role with itself, in the order of the text.
fn first_to_self(choreo: &Choreo) -> Option<Index>
    ensures { result ≡ slice_get (self_messages (term choreo.now)) 0 }
{
    match choreo {
        Choreo::Com {
            index,
            from,
            to,
            ..
        } => { if *from == *to { Some(*index) } else { None } }
        Choreo::Seq(first, second) | Choreo::Par(first, second) => match first_to_self(first) {
            Some(index) => Some(index),
            None => first_to_self(second),
        },
        Choreo::If { yes, no, .. } => match first_to_self(yes) {
            Some(index) => Some(index),
            None => first_to_self(no),
        },
        Choreo::While { body, .. } | Choreo::Scope { body, .. } => first_to_self(body),
        Choreo::Skip | Choreo::Set { .. } | Choreo::Input { .. } => None,
    }
}

/// Whether each sequence is linked.
fn linked(alloc: Global, at: Where, choreo: &Choreo, cast: &[Role]) -> Result<(), Refusal>
    requires { HasRoles cast.now (term choreo.now) }
    ensures ok { OnOk result (unlinked at cast.now (term choreo.now) ≡ None) }
    ensures refused { IfErr result (IsRefusalOf (unlinked at cast.now (term choreo.now))) }
{
    match check(alloc, choreo, cast) {
        Ok(()) => Ok(()),
        Err(
            CheckFault::Unlinked {
                first,
                second,
                role,
            },
        ) => Err(Refusal::Unlinked(at, first, second, role)),
        Err(CheckFault::Memory) => Err(Refusal::Memory),
    }
}

/// Whether a rule's body is small enough.
fn small_body(number: u32, body: &Choreo) -> Result<(), Refusal>
    ensures ok { OnOk result (body_too_big number (term body.now) ≡ None) }
    ensures refused { IfErr result (IsRefusalOf (body_too_big number (term body.now))) }
{
    if nodes(body) > MOST_BODY_NODES || depth(body) > MOST_BODY_DEPTH {
        Err(Refusal::BodyTooBig(number))
    } else {
        Ok(())
    }
}

/// The tests of the rules, by their numbers: the rules of the start, and then the script's adds.
fn admit_all(alloc: Global, bundle: &Bundle) -> Result<(), Refusal>
    requires formed { IsFormed (plain bundle.now) }
    ensures ok { OnOk result (first_refusal (rules_tests (plain bundle.now)) ≡ None) }
    ensures refused { IfErr result (IsRefusalOf (first_refusal (rules_tests (plain bundle.now)))) }
{
    admit_opening(alloc, bundle)?;
    admit_adds(alloc, bundle)
}

fn admit_opening(alloc: Global, bundle: &Bundle) -> Result<(), Refusal>
    ensures ok { OnOk result (first_refusal (opening_tests (plain bundle.now)) ≡ None) }
    ensures refused { IfErr result
        (IsRefusalOf (first_refusal (opening_tests (plain bundle.now)))) }
{
    for number in 0..bundle.opening {
        admit(alloc, bundle, number)?;
    }
    Ok(())
}

fn admit_adds(alloc: Global, bundle: &Bundle) -> Result<(), Refusal>
    ensures ok { OnOk result (first_refusal (script_tests (plain bundle.now)) ≡ None) }
    ensures refused { IfErr result (IsRefusalOf (first_refusal (script_tests (plain bundle.now)))) }
{
    let script = bundle.script.as_slice();
    for timed in script {
        admit_change(alloc, bundle, &timed.change)?;
    }
    Ok(())
}

fn admit_change(alloc: Global, bundle: &Bundle, change: &Change) -> Result<(), Refusal>
    ensures ok { OnOk result (change_refusal (plain bundle.now) change.now ≡ None) }
    ensures refused { IfErr result (IsRefusalOf (change_refusal (plain bundle.now) change.now)) }
{
    match change {
        Change::Add(number) => admit(alloc, bundle, *number),
        Change::Drop(_) | Change::Env(_, _) => Ok(()),
    }
}
