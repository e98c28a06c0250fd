//! The acts of a role over code, listed anew in a list from before.

ghost use Rattle.std.specs.Prelude.{◌≡◌, ◌<◌, ◌≤◌, ◌+◌, ◌-◌, ◌++◌, ◌∷◌, [], true, false, drop, get_or, take, OnOk, length};
ghost use Rattle.std.specs.List.{between};
ghost use Rattle.flat_role.specs.Leaves.{is_leaf};
ghost use Rattle.flat_role.specs.PlanMarks.{plan_len, plan_marks, static_at};
ghost use Rattle.flat_role.specs.Progress.{IsProgress, acts_at, acts_there, marks_by, runs_by};
ghost use Rattle.process_steps.specs.Steps.{offers};

use crate::leaves::offers_at;
use crate::marks::Mark;
use crate::progress::Progress;
use crate::updates::add_place;
use dioc_terms::{Act, Memory, Role};
use flat_code::Plan;
use std::alloc::Global;

/// Lists the acts that the process offers, from left to right, in a list from before: those at
/// its front and at its back that are the same stay as they are.
pub(crate) fn refresh_acts(
    progress: &Progress,
    alloc: Global,
    me: &Role,
    plan: &Plan,
    acts: &mut Vec<Act>,
) -> Result<(), Memory>
    requires { IsProgress me.now plan.now progress.now }
    ensures { OnOk result (acts.new.items ≡ offers me.now (runs_by me.now plan.now progress.now)) }
{
    let before = acts.as_slice();
    let front = same_front(progress, me, plan, before);
    let back = same_back(progress, me, plan, before, front);
    let end = progress.active.len() - back;
    let mut fresh = Vec::new(alloc);
    add_acts(progress, alloc, me, plan, front, end, &mut fresh)?;
    put_between(acts, front, back, fresh)
}

/// How many places from the left offer just the act that stands there in the list.
fn same_front(progress: &Progress, me: &Role, plan: &Plan, acts: &[Act]) -> usize
    requires { IsProgress me.now plan.now progress.now }
    ensures acts { result ≤ length acts.now }
    ensures places { result ≤ length progress.now.active.items }
    ensures same { take result acts.now
        ≡ acts_at me.now plan.now progress.now (take result progress.now.active.items) }
{
    let places = progress.active.len();
    let count = acts.len();
    let most = places.min(count);
    for at in 0..most {
        if differs(progress, me, plan, at, &acts[at]) {
            return at;
        }
    }
    most
}

/// How many places from the right, but for so many from the left, offer just the act that
/// stands there in the list, counted from its end.
fn same_back(progress: &Progress, me: &Role, plan: &Plan, acts: &[Act], front: usize) -> usize
    requires progress { IsProgress me.now plan.now progress.now }
    requires acts { front ≤ length acts.now }
    requires places { front ≤ length progress.now.active.items }
    ensures acts { front + result ≤ length acts.now }
    ensures places { front + result ≤ length progress.now.active.items }
    ensures same { drop (length acts.now - result) acts.now ≡ acts_at me.now plan.now progress.now
        (drop (length progress.now.active.items - result) progress.now.active.items) }
{
    let places = progress.active.len();
    let count = acts.len();
    let most = places.min(count) - front;
    for back in 0..most {
        let at = places - 1 - back;
        let last = count - 1 - back;
        if differs(progress, me, plan, at, &acts[last]) {
            return back;
        }
    }
    most
}

/// Adds the acts that the places offer from the one of this number to that of another.
#[cycle(acts)]
pub(crate) fn add_acts(
    progress: &Progress,
    alloc: Global,
    me: &Role,
    plan: &Plan,
    from: usize,
    to: usize,
    acts: &mut Vec<Act>,
) -> Result<(), Memory>
    requires progress { IsProgress me.now plan.now progress.now }
    requires order { from ≤ to }
    requires inside { to ≤ length progress.now.active.items }
    ensures { OnOk result (acts.new.items ≡ acts.old.items
        ++ acts_at me.now plan.now progress.now (between from to progress.now.active.items)) }
{
    let marks = progress.marks.as_slice();
    for at in from..to {
        let place = progress.active[at];
        add_place(alloc, me, plan, marks, place, acts)?;
    }
    Ok(())
}

/// Whether the place of this number, of those that can act, may offer anything but just the act.
fn differs(progress: &Progress, me: &Role, plan: &Plan, at: usize, act: &Act) -> bool
    requires progress { IsProgress me.now plan.now progress.now }
    requires inside { at < length progress.now.active.items }
    ensures { result ≡ false → acts_there me.now plan.now (marks_by me.now plan.now progress.now)
        (get_or progress.now.active.items at 0) ≡ act.now ∷ [] }
{
    let place = progress.active[at];
    let marks = progress.marks.as_slice();
    !offers_just(me, plan, marks, place, act)
}

/// Whether the act is all that a place offers. Of an update it isn't asked: that may offer many.
fn offers_just(me: &Role, plan: &Plan, marks: &[Mark], place: usize, act: &Act) -> bool
    requires inside { place < plan_len plan.now }
    requires as_long { length marks.now ≡ plan_len plan.now }
    requires leaf { is_leaf (plan_marks me.now plan.now marks.now place) (static_at plan.now place)
        ≡ true }
    ensures { result ≡ true → acts_there me.now plan.now (plan_marks me.now plan.now marks.now)
        place ≡ act.now ∷ [] }
{
    match &marks[place] {
        Mark::Became(_) => false,
        _ => offers_at(me, plan, marks, place, act),
    }
}

/// Puts acts in the place of all but so many at the front and so many at the back.
fn put_between(
    acts: &mut Vec<Act>,
    front: usize,
    back: usize,
    fresh: Vec<Act>,
) -> Result<(), Memory>
    requires { front + back ≤ length acts.old.items }
    ensures { OnOk result (acts.new.items ≡ take front acts.old.items
        ++ (fresh.items ++ drop (length acts.old.items - back) acts.old.items)) }
{
    remove_between(acts, front, back);
    insert_at(acts, front, fresh)
}

/// Removes all but so many at the front and so many at the back.
fn remove_between(acts: &mut Vec<Act>, front: usize, back: usize)
    requires { front + back ≤ length acts.old.items }
    ensures front { take front acts.new.items ≡ take front acts.old.items }
    ensures back { drop front acts.new.items
        ≡ drop (length acts.old.items - back) acts.old.items }
    ensures inside { front ≤ length acts.new.items }
{
    let kept = front + back;
    for _ in kept..acts.len() {
        drop(acts.remove(front));
    }
}

/// Inserts acts behind so many.
fn insert_at(acts: &mut Vec<Act>, place: usize, fresh: Vec<Act>) -> Result<(), Memory>
    requires { place ≤ length acts.old.items }
    ensures { OnOk result (acts.new.items
        ≡ take place acts.old.items ++ (fresh.items ++ drop place acts.old.items)) }
{
    let mut left = fresh;
    while let Some(act) = left.pop() {
        acts.insert(place, act)?;
    }
    Ok(())
}
