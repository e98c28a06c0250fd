//! What the mark of a place comes to once the place has acted.

ghost use Rattle.std.specs.Prelude.{◌≡◌, ◌<◌, ◌+◌, List, Bool, false, true, if◌then◌else◌, length};
ghost use Rattle.dioc_terms.specs.declared.names.Index.{Index};
ghost use Rattle.dioc_terms.specs.declared.names.Role.{Role};
ghost use Rattle.dioc_terms.specs.declared.processes.ScopeHead.{ScopeHead};
ghost use Rattle.dioc_terms.specs.Expressions.{Expression};
ghost use Rattle.dioc_terms.specs.Processes.{Process, IfLead, WhileLead, WhileFollow, ScopeLead, ScopeFollow};
ghost use Rattle.dpoc_process.specs.Handed.{Handed, handed};
ghost use Rattle.flat_role.specs.declared.marks.Mark.TheVariants as kept;
ghost use Rattle.flat_role.specs.MovedMarks.{Moves, runs_update, awaited_or, body_or, came, count_from, gathered_or, left_or, scope_or, taken_in, told_or, turn_or};
ghost use Rattle.flat_role.specs.PlanMarks.{plan_len, static_at};
ghost use Rattle.process_steps.specs.Steps.{ended};

use crate::marks::Mark;
use dioc_terms::Payload;
use dpoc_process::Got;
use flat_code::{Op, Plan};

/// The mark of a place once it has done its act, and whether nothing is left to do there: a place
/// with this mark that acts itself and none of its parts, where no other process runs and none
/// comes. `pick` is what a leader picks. It takes no memory.
pub(crate) fn moved(plan: &Plan, place: usize, mark: &Mark, pick: bool, got: &Got) -> (Mark, bool)
    requires inside { place < plan_len plan.now }
    ensures moved { Moves (static_at plan.now place) mark.now pick (handed got.now) result }
    ensures own { runs_update result.0 ≡ false }
{
    match plan.code.op_at(place) {
        Op::IfLead {
            others,
            yes,
            no,
            ..
        } => {
            let yes_ended = is_ended(plan, *yes);
            led_choice(others.len(), yes_ended, is_ended(plan, *no), mark, pick)
        }
        Op::IfFollow { yes, no, .. } => {
            let yes_ended = is_ended(plan, *yes);
            branch(flag_of(got), yes_ended, is_ended(plan, *no))
        }
        Op::WhileLead { others, body, .. } => {
            led_loop(others.len(), is_ended(plan, *body), mark, pick)
        }
        Op::WhileFollow { body, .. } => followed_loop(is_ended(plan, *body), mark, flag_of(got)),
        Op::ScopeLead { others, body, .. } => led_scope(others.len(), is_ended(plan, *body), mark),
        Op::ScopeFollow { body, .. } => followed_scope(is_ended(plan, *body), mark),
        Op::Gather { keys } => waiting(next(taken(mark), keys.len())),
        _ => (Mark::Finished, true),
    }
}

/// Whether nothing is left to do of the process at a place, before it runs.
pub(crate) fn is_ended(plan: &Plan, place: usize) -> bool
    requires { place < plan_len plan.now }
    ensures { result ≡ ended (static_at plan.now place) }
{
    plan.level(place).ended
}

/// A choice that the role leads.
fn led_choice(
    others: usize,
    yes_ended: bool,
    no_ended: bool,
    mark: &Mark,
    pick: bool,
) -> (Mark, bool)
    ensures { (runs_update result.0 ≡ false) ×
        ((i : Index) (g : Expression) (all : List Role) (P Q : Process) (h : Handed)
        → length all ≡ others → ended P ≡ yes_ended → ended Q ≡ no_ended
        → Moves (IfLead i g all P Q) mark.now pick h result) }
{
    match mark {
        Mark::Telling(flag, done) => {
            let then = branch(*flag, yes_ended, no_ended);
            telling(next(*done, others), *flag, then)
        }
        _ => telling(first(others), pick, branch(pick, yes_ended, no_ended)),
    }
}

/// A loop that the role leads.
fn led_loop(others: usize, body_ended: bool, mark: &Mark, pick: bool) -> (Mark, bool)
    ensures { (runs_update result.0 ≡ false) ×
        ((i : Index) (g : Expression) (all : List Role) (P : Process) (h : Handed)
        → length all ≡ others → ended P ≡ body_ended
        → Moves (WhileLead i g all P) mark.now pick h result) }
{
    match mark {
        Mark::Telling(flag, done) => {
            telling(next(*done, others), *flag, turn(others, body_ended))
        }
        Mark::Gathering(done) => gathering(next(*done, others), (Mark::Untouched, false)),
        Mark::Left(done) => leaving(next(*done, others)),
        _ => picked_turn(others, body_ended, pick),
    }
}

/// The begin of a turn of a loop that the role leads, or its end.
fn picked_turn(others: usize, body_ended: bool, pick: bool) -> (Mark, bool)
    ensures { result ≡ (if pick
        then told_or (count_from 0 others) pick (turn_or body_ended others)
        else left_or (count_from 0 others)) }
{
    if pick {
        telling(first(others), true, turn(others, body_ended))
    } else {
        leaving(first(others))
    }
}

/// What a leader of a loop does once it has told that there is a turn.
fn turn(others: usize, body_ended: bool) -> (Mark, bool)
    ensures { result ≡ turn_or body_ended others }
{
    inside(
        body_ended,
        gathering(first(others), (Mark::Untouched, false)),
    )
}

/// A loop that another role leads.
fn followed_loop(body_ended: bool, mark: &Mark, flag: bool) -> (Mark, bool)
    ensures { (runs_update result.0 ≡ false) ×
        ((i : Index) (leader : Role) (P : Process) (h : Handed) → came h ≡ flag
        → ended P ≡ body_ended → (pick : Bool)
        → Moves (WhileFollow i leader P) mark.now pick h result) }
{
    match mark {
        Mark::Ending => (Mark::Untouched, false),
        _ => followed_turn(body_ended, flag),
    }
}

/// The begin of a turn of a loop that another role leads, or its end.
fn followed_turn(body_ended: bool, flag: bool) -> (Mark, bool)
    ensures { result ≡ (if flag then body_or body_ended (kept.Ending, false)
        else (kept.Finished, true)) }
{
    if flag {
        inside(body_ended, (Mark::Ending, false))
    } else {
        (Mark::Finished, true)
    }
}

/// A scope that the role leads.
fn led_scope(others: usize, body_ended: bool, mark: &Mark) -> (Mark, bool)
    ensures { (runs_update result.0 ≡ false) ×
        ((head : ScopeHead) (all : List Role) (P : Process) (h : Handed)
        → length all ≡ others → ended P ≡ body_ended → (pick : Bool)
        → Moves (ScopeLead head all P) mark.now pick h result) }
{
    match mark {
        Mark::Telling(_, done) => { telling(next(*done, others), true, scope(others, body_ended)) }
        Mark::Gathering(done) => gathering(next(*done, others), leaving(first(others))),
        Mark::Left(done) => leaving(next(*done, others)),
        _ => telling(first(others), true, scope(others, body_ended)),
    }
}

/// What the leader of a scope does once it has told that the scope keeps its body.
fn scope(others: usize, body_ended: bool) -> (Mark, bool)
    ensures { result ≡ scope_or body_ended others }
{
    inside(body_ended, gathering(first(others), leaving(first(others))))
}

/// A scope that another role leads.
fn followed_scope(body_ended: bool, mark: &Mark) -> (Mark, bool)
    ensures { (runs_update result.0 ≡ false) ×
        ((i : Index) (leader : Role) (P : Process) (h : Handed) → ended P ≡ body_ended
        → (pick : Bool) → Moves (ScopeFollow i leader P) mark.now pick h result) }
{
    match mark {
        Mark::Ending => (Mark::Waiting(0), false),
        Mark::Waiting(_) => (Mark::Finished, true),
        _ => inside(body_ended, (Mark::Ending, false)),
    }
}

/// In the branch of a flag.
fn branch(flag: bool, yes_ended: bool, no_ended: bool) -> (Mark, bool)
    ensures { result ≡ (kept.Branch flag, (if flag then yes_ended else no_ended)) }
{
    (Mark::Branch(flag), if flag { yes_ended } else { no_ended })
}

/// In the body, or what is next where nothing is to be done in it.
fn inside(body_ended: bool, next: (Mark, bool)) -> (Mark, bool)
    ensures { result ≡ body_or body_ended next }
{
    if body_ended {
        next
    } else {
        (Mark::Body, false)
    }
}

/// A leader tells the others, or goes on.
fn telling(done: Option<usize>, flag: bool, next: (Mark, bool)) -> (Mark, bool)
    ensures { result ≡ told_or done flag next }
{
    match done {
        Some(done) => (Mark::Telling(flag, done), false),
        None => next,
    }
}

/// A leader takes the ends of the others, or goes on.
fn gathering(done: Option<usize>, next: (Mark, bool)) -> (Mark, bool)
    ensures { result ≡ gathered_or done next }
{
    match done {
        Some(done) => (Mark::Gathering(done), false),
        None => next,
    }
}

/// The last messages are told.
fn leaving(done: Option<usize>) -> (Mark, bool)
    ensures { result ≡ left_or done }
{
    match done {
        Some(done) => (Mark::Left(done), false),
        None => (Mark::Finished, true),
    }
}

/// The last messages are taken.
fn waiting(done: Option<usize>) -> (Mark, bool)
    ensures { result ≡ awaited_or done }
{
    match done {
        Some(done) => (Mark::Waiting(done), false),
        None => (Mark::Finished, true),
    }
}

/// The flag that comes; false where none does.
fn flag_of(got: &Got) -> bool
    ensures { result ≡ came (handed got.now) }
{
    match got {
        Got::Payload(Payload::Flag(flag)) => *flag,
        _ => false,
    }
}

/// How many of the last messages are taken.
fn taken(mark: &Mark) -> usize
    ensures { result ≡ taken_in mark.now }
{
    match mark {
        Mark::Waiting(done) => *done,
        _ => 0,
    }
}

/// None is done yet, where there are any.
fn first(all: usize) -> Option<usize>
    ensures { result ≡ count_from 0 all }
{
    if all == 0 { None } else { Some(0) }
}

/// One more than so many is done, where some are left.
fn next(done: usize, all: usize) -> Option<usize>
    ensures { result ≡ count_from (done + 1) all }
{
    if done < all && all - done > 1 {
        Some(done + 1)
    } else {
        None
    }
}
