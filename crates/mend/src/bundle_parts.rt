//! The mended choreography and the mended rules, each within its limits.

ghost use Rattle.std.specs.Prelude.{◌≡◌, ◌∷◌, ◌++◌, ◌<◌, ◌≤◌, [], None, Some, map, slice_get, IfErr, IfOk, MatchOption, OnOk};
ghost use Rattle.dioc_terms.specs.Expressions.{expression};
ghost use Rattle.dioc_terms.specs.Plain.{plain, plain_rule};
ghost use Rattle.dioc_terms.specs.Terms.{term, nodes};
ghost use Rattle.limits.specs.Limits.{most_body_nodes};
ghost use Rattle.mend.specs.Mended.{mended};
ghost use Rattle.mend.specs.Traces.{mended_rule};
ghost use Rattle.rule_checks.specs.Refusals.{body_too_big};
ghost use Rattle.mend.specs.Mendable.{IsMendableText, AreMendableBodies, mended_at};
ghost use Rattle.mend.specs.Refusals.{first_mend_refusal, refused, too_deep, rule_numbers, mended_size_tests, mended_body_refusal, IsMendRefusalOf};

use crate::calls::mend_within;
use crate::faults::MendFault;
use crate::refusals::{MendRefusal, refuse};
use crate::rules::rule_at;
use dioc_terms::{Bundle, Choreo, Expr, Memory, Name, Role, Rule};
use index_marks::depth;
use limits::{MOST_BODY_DEPTH, MOST_BODY_NODES, MOST_DEPTH, MOST_NODES};
use rule_checks::{Refusal, Which};
use std::alloc::Global;

/// The mended choreography, or `None` exactly where it would have more than so many nodes; then
/// building stops early.
fn mended_within(
    alloc: Global,
    choreo: &Choreo,
    cast: &[Role],
    most: u32,
) -> Result<Option<Choreo>, Memory>
    requires { IsMendableText cast.now (term choreo.now) }
    ensures { IfOk result (λ made. MatchOption made
        (most < nodes (mended cast.now (term choreo.now)))
        (λ made. (term made ≡ mended cast.now (term choreo.now)) × (nodes (term made) ≤ most))) }
{
    match mend_within(alloc, choreo, cast, most) {
        Ok(made) => Ok(made),
        Err(MendFault::NameTaken(_)) => unreachable!(),
        Err(MendFault::Memory) => Err(Memory),
    }
}

/// The mended choreography.
#[tactic(auto, using(crate::proofs::Limits::sizes_within, crate::proofs::Limits::sizes_past))]
pub(crate) fn mended_program(
    alloc: Global,
    choreo: &Choreo,
    cast: &[Role],
) -> Result<Choreo, MendRefusal>
    requires { IsMendableText cast.now (term choreo.now) }
    ensures made { IfOk result (λ made. term made ≡ mended cast.now (term choreo.now)) }
    ensures ok { OnOk result (first_mend_refusal
        (mended_size_tests (mended cast.now (term choreo.now))) ≡ None) }
    ensures refused { IfErr result (IsMendRefusalOf (first_mend_refusal
        (mended_size_tests (mended cast.now (term choreo.now))))) }
{
    match mended_within(alloc, choreo, cast, MOST_NODES as u32)? {
        Some(made) => not_too_deep(made),
        None => Err(MendRefusal::Refused(Refusal::TooMany(Which::Nodes))),
    }
}

/// The same choreography, where it isn't too deep.
fn not_too_deep(choreo: Choreo) -> Result<Choreo, MendRefusal>
    ensures same { IfOk result (λ same. term same ≡ term choreo) }
    ensures ok { OnOk result (too_deep (term choreo) ≡ None) }
    ensures refused { IfErr result (IsMendRefusalOf (too_deep (term choreo))) }
{
    if depth(&choreo) > MOST_DEPTH {
        refuse(choreo, MendRefusal::TooDeep)
    } else {
        Ok(choreo)
    }
}

/// The mended body of the rule of that number.
#[tactic(auto, using(crate::proofs::Limits::body_past))]
fn mended_body(
    alloc: Global,
    number: u32,
    body: &Choreo,
    cast: &[Role],
) -> Result<Choreo, MendRefusal>
    requires { IsMendableText cast.now (term body.now) }
    ensures made { IfOk result (λ made. term made ≡ mended cast.now (term body.now)) }
    ensures ok { OnOk result (body_too_big number (mended cast.now (term body.now)) ≡ None) }
    ensures refused { IfErr result
        (IsMendRefusalOf (refused (body_too_big number (mended cast.now (term body.now))))) }
{
    match mended_within(alloc, body, cast, MOST_BODY_NODES as u32)? {
        Some(made) => shallow_body(number, made),
        None => Err(MendRefusal::Refused(Refusal::BodyTooBig(number))),
    }
}

/// The same body, of at most 200 nodes, where it isn't too deep.
fn shallow_body(number: u32, body: Choreo) -> Result<Choreo, MendRefusal>
    requires { nodes (term body) ≤ most_body_nodes }
    ensures same { IfOk result (λ same. term same ≡ term body) }
    ensures ok { OnOk result (body_too_big number (term body) ≡ None) }
    ensures refused { IfErr result
        (IsMendRefusalOf (refused (body_too_big number (term body)))) }
{
    if depth(&body) > MOST_BODY_DEPTH {
        refuse(body, MendRefusal::Refused(Refusal::BodyTooBig(number)))
    } else {
        Ok(body)
    }
}

/// The rule of that number with its body mended, and all else as it was.
fn mended_rule(alloc: Global, number: u32, rule: &Rule, cast: &[Role]) -> Result<Rule, MendRefusal>
    requires { IsMendableText cast.now (term rule.now.body) }
    ensures made { IfOk result (λ made. plain_rule made
        ≡ mended_rule cast.now (plain_rule rule.now)) }
    ensures ok { OnOk result (body_too_big number (mended cast.now (term rule.now.body)) ≡ None) }
    ensures refused { IfErr result
        (IsMendRefusalOf (refused (body_too_big number (mended cast.now (term rule.now.body))))) }
{
    let body = mended_body(alloc, number, &rule.body, cast)?;
    match copy_head(alloc, rule) {
        Ok((name, cond)) => Ok(Rule {
            name,
            priority: rule.priority,
            cond,
            body,
        }),
        Err(Memory) => refuse(body, MendRefusal::Refused(Refusal::Memory)),
    }
}

/// Copies of a rule's name and condition.
fn copy_head(alloc: Global, rule: &Rule) -> Result<(Name, Expr), Memory>
    ensures name { IfOk result (λ head. head.0 ≡ rule.now.name) }
    ensures cond { IfOk result (λ head. expression head.1 ≡ expression rule.now.cond) }
{
    let name = rule.name.copy(alloc)?;
    Ok((name, rule.cond.copy(alloc)?))
}

/// Adds the mended rule of that number to those before it; a number past the rules adds none.
fn add_rule(
    alloc: Global,
    bundle: &Bundle,
    number: u32,
    made: &mut Vec<Rule>,
) -> Result<(), MendRefusal>
    requires ready { AreMendableBodies (plain bundle.now) }
    ensures added { OnOk result (map plain_rule made.new.items
        ≡ map plain_rule made.old.items ++ mended_at (plain bundle.now) number) }
    ensures ok { OnOk result (mended_body_refusal (plain bundle.now) number ≡ None) }
    ensures refused { IfErr result
        (IsMendRefusalOf (mended_body_refusal (plain bundle.now) number)) }
{
    match rule_at(bundle, number) {
        Some(rule) => add_one(alloc, bundle, number, rule, made),
        None => Ok(()),
    }
}

/// Adds the mended rule to those before it.
fn add_one(
    alloc: Global,
    bundle: &Bundle,
    number: u32,
    rule: &Rule,
    made: &mut Vec<Rule>,
) -> Result<(), MendRefusal>
    requires ready { AreMendableBodies (plain bundle.now) }
    requires at { slice_get (plain bundle.now).rules number ≡ Some (plain_rule rule.now) }
    ensures added { OnOk result (map plain_rule made.new.items
        ≡ map plain_rule made.old.items ++ mended_rule bundle.now.cast (plain_rule rule.now) ∷ []) }
    ensures ok { OnOk result
        (body_too_big number (mended bundle.now.cast (term rule.now.body)) ≡ None) }
    ensures refused { IfErr result (IsMendRefusalOf
        (refused (body_too_big number (mended bundle.now.cast (term rule.now.body))))) }
{
    let rule = mended_rule(alloc, number, rule, bundle.cast.as_slice())?;
    Ok(push_rule(made, rule)?)
}

fn push_rule(made: &mut Vec<Rule>, rule: Rule) -> Result<(), Memory>
    ensures { OnOk result (map plain_rule made.new.items
        ≡ map plain_rule made.old.items ++ plain_rule rule ∷ []) }
{
    Ok(made.push(rule)?)
}

/// Adds the mended rules, in the order of their numbers.
fn add_rules(
    alloc: Global,
    bundle: &Bundle,
    numbers: &[u32],
    made: &mut Vec<Rule>,
) -> Result<(), MendRefusal>
    requires ready { AreMendableBodies (plain bundle.now) }
    requires all { numbers.now ≡ rule_numbers (plain bundle.now) }
    requires none { made.old.items ≡ [] }
    ensures made { OnOk result (map plain_rule made.new.items
        ≡ map (mended_rule bundle.now.cast) (plain bundle.now).rules) }
    ensures ok { OnOk result
        (first_mend_refusal (map (mended_body_refusal (plain bundle.now)) numbers.now) ≡ None) }
    ensures refused { IfErr result (IsMendRefusalOf
        (first_mend_refusal (map (mended_body_refusal (plain bundle.now)) numbers.now))) }
{
    for number in numbers {
        add_rule(alloc, bundle, *number, made)?;
    }
    Ok(())
}

/// The mended rules.
pub(crate) fn mended_rules(
    alloc: Global,
    bundle: &Bundle,
    numbers: &[u32],
) -> Result<Vec<Rule>, MendRefusal>
    requires ready { AreMendableBodies (plain bundle.now) }
    requires all { numbers.now ≡ rule_numbers (plain bundle.now) }
    ensures made { IfOk result (λ made. map plain_rule made.items
        ≡ map (mended_rule bundle.now.cast) (plain bundle.now).rules) }
    ensures ok { OnOk result
        (first_mend_refusal (map (mended_body_refusal (plain bundle.now)) numbers.now) ≡ None) }
    ensures refused { IfErr result (IsMendRefusalOf
        (first_mend_refusal (map (mended_body_refusal (plain bundle.now)) numbers.now))) }
{
    let mut made = Vec::new(alloc);
    match add_rules(alloc, bundle, numbers, &mut made) {
        Ok(()) => Ok(made),
        Err(why) => refuse(made, why),
    }
}
