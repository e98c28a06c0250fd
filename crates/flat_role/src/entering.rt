//! The places at which a role can go on.

ghost use Rattle.std.specs.Prelude.{◌≡◌, ◌<◌, ◌≤◌, ◌+◌, ◌++◌, Bool, ℕ, List, [], true, get_or, length};
ghost use Rattle.std.specs.Vec.{vec_capacity};
ghost use Rattle.dioc_terms.specs.Processes.{Process};
ghost use Rattle.dioc_terms.specs.declared.names.Role.{Role as Me};
ghost use Rattle.flat_code.specs.Levels.{places_of};
ghost use Rattle.flat_code.specs.Places.{AreBelow, op_process, part_places};
ghost use Rattle.flat_role.specs.Entering.{RunsAlone, how_many, is_nothing, running_parts, still_places};
ghost use Rattle.flat_role.specs.KeptMarks.{end_keys, first_letters, last_keys, last_letters, letters_from};
ghost use Rattle.flat_role.specs.Leaves.{is_leaf};
ghost use Rattle.flat_role.specs.PlanMarks.{low_at, places_at, plan_len, plan_marks, static_at};
ghost use Rattle.role_statuses.specs.Kept.{marked};
ghost use Rattle.role_statuses.specs.Statuses.{Finished, is_over};

use crate::marks::Mark;
use dioc_terms::Role;
use flat_code::{Op, PartPlaces, Plan};

/// Adds the places that can act of the process at a place, from left to right. It takes no memory:
/// there is room for all of them.
pub(crate) fn enter(me: &Role, plan: &Plan, marks: &[Mark], place: usize, places: &mut Vec<usize>)
    requires inside { place < plan_len plan.now }
    requires as_long { length marks.now ≡ plan_len plan.now }
    requires room { length places.old.items
        + length (places_at me.now plan.now marks.now place) ≤ vec_capacity places.old }
    ensures entered { places.new.items
        ≡ places.old.items ++ places_at me.now plan.now marks.now place }
    ensures capacity { vec_capacity places.new ≡ vec_capacity places.old }
{
    let op = plan.code.op_at(place);
    match &marks[place] {
        Mark::Untouched => enter_still(plan, place, places),
        mark => match parts_that_run(mark, op) {
            PartPlaces::Zero => {
                if !is_over_at(me, plan, marks, place) {
                    places.push_reserved(place);
                }
            }
            PartPlaces::One(part) => enter(me, plan, marks, part, places),
            PartPlaces::Two(left, right) => {
                enter(me, plan, marks, left, places);
                enter(me, plan, marks, right, places)
            }
        },
    }
}

/// Adds the places that can act of a process of which nothing was done.
fn enter_still(plan: &Plan, place: usize, places: &mut Vec<usize>)
    requires inside { place < plan_len plan.now }
    requires room { length places.old.items
        + length (still_places (low_at plan.now place) (static_at plan.now place))
        ≤ vec_capacity places.old }
    ensures entered { places.new.items
        ≡ places.old.items ++ still_places (low_at plan.now place) (static_at plan.now place) }
    ensures capacity { vec_capacity places.new ≡ vec_capacity places.old }
{
    match plan.code.op_at(place) {
        Op::Seq { first, second } => {
            if plan.level(*first).ended {
                return enter_still(plan, *second, places);
            }
            enter_still(plan, *first, places)
        }
        Op::Par { left, right } => {
            enter_still(plan, *left, places);
            enter_still(plan, *right, places)
        }
        _ => {
            if !plan.level(place).ended {
                places.push_reserved(place);
            }
        }
    }
}

/// The places of the parts that run at a place with this mark, where something was done.
fn parts_that_run(mark: &Mark, op: &Op) -> PartPlaces
    ensures run { places_of result ≡ running_parts mark.now op.now }
    ensures below { (n : ℕ) → AreBelow n (part_places op.now) → AreBelow n (places_of result) }
{
    match mark {
        Mark::First => match op {
            Op::Seq { first, .. } => PartPlaces::One(*first),
            _ => PartPlaces::Zero,
        },
        Mark::Second => match op {
            Op::Seq { second, .. } => PartPlaces::One(*second),
            _ => PartPlaces::Zero,
        },
        Mark::Both(_, _) => match op {
            Op::Par { left, right } => PartPlaces::Two(*left, *right),
            _ => PartPlaces::Zero,
        },
        Mark::Branch(flag) => match op {
            Op::IfLead { yes, no, .. } | Op::IfFollow { yes, no, .. } => {
                PartPlaces::One(if *flag { *yes } else { *no })
            }
            _ => PartPlaces::Zero,
        },
        Mark::Body => match op {
            Op::WhileLead { body, .. }
            | Op::WhileFollow { body, .. }
            | Op::ScopeLead { body, .. }
            | Op::ScopeFollow { body, .. } => PartPlaces::One(*body),
            _ => PartPlaces::Zero,
        },
        _ => PartPlaces::Zero,
    }
}

/// Whether nothing is left to do at a place at which no part runs.
pub(crate) fn is_over_at(me: &Role, plan: &Plan, marks: &[Mark], place: usize) -> bool
    requires inside { place < plan_len plan.now }
    requires as_long { length marks.now ≡ plan_len plan.now }
    ensures alone { RunsAlone plan.now marks.now place
        → result ≡ is_over me.now
        (marked (plan_marks me.now plan.now marks.now place) Finished Finished)
        (static_at plan.now place) }
    ensures leaf { is_leaf (plan_marks me.now plan.now marks.now place) (static_at plan.now place)
        ≡ true
        → result ≡ is_over me.now
        (marked (plan_marks me.now plan.now marks.now place) Finished Finished)
        (static_at plan.now place) }
{
    let op = plan.code.op_at(place);
    match &marks[place] {
        Mark::Untouched => plan.level(place).ended,
        Mark::Telling(_, told) => *told >= first_to_tell(op),
        Mark::Gathering(taken) => *taken >= ends_to_take(op),
        Mark::Ending => !matches!(op, Op::WhileFollow { .. } | Op::ScopeFollow { .. }),
        Mark::Left(told) => are_last_told(op, *told),
        Mark::Waiting(taken) => *taken >= last_to_take(op),
        Mark::Became(update) => update.is_over(),
        _ => true,
    }
}

/// How many messages a leader tells before it goes on.
#[tactic(auto, using(crate::proofs::EnterLemmas::how_many_to))]
fn first_to_tell(op: &Op) -> usize
    ensures { (me : Me) (done : List Process) (b : Bool) →
        how_many (first_letters me (op_process done op.now) b) ≡ result }
{
    match op {
        Op::IfLead { others, .. } | Op::WhileLead { others, .. } | Op::ScopeLead { others, .. } => {
            others.len()
        }
        _ => 0,
    }
}

/// How many ends a leader takes.
fn ends_to_take(op: &Op) -> usize
    ensures { (me : Me) (done : List Process) →
        length (end_keys me (op_process done op.now)) ≡ result }
{
    match op {
        Op::WhileLead { others, .. } | Op::ScopeLead { others, .. } => others.len(),
        _ => 0,
    }
}

/// How many messages are taken last.
fn last_to_take(op: &Op) -> usize
    ensures { (me : Me) (done : List Process) →
        length (last_keys me (op_process done op.now)) ≡ result }
{
    match op {
        Op::ScopeFollow { .. } => 1,
        Op::Gather { keys } => keys.len(),
        _ => 0,
    }
}

/// Whether so many are all messages that are told last.
#[tactic(auto, using(crate::proofs::EnterLemmas::telling_rules))]
fn are_last_told(op: &Op, told: usize) -> bool
    ensures { (me : Me) (done : List Process) →
        is_nothing (letters_from told (last_letters me (op_process done op.now))) ≡ result }
{
    match op {
        Op::WhileLead { others, .. } | Op::ScopeLead { others, .. } => told >= others.len(),
        _ => true,
    }
}
