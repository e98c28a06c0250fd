//! The place that offers an act, by the number of the act among all that the process offers.
//!
//! A place that can act offers just one act unless an update runs there.

ghost use Rattle.std.specs.Prelude.{◌≡◌, ◌<◌, ◌≤◌, ℕ, false, get_or, length};
ghost use Rattle.dioc_terms.specs.declared.names.Role.{Role as RoleName};
ghost use Rattle.dpoc_process.specs.LocalStates.{IsNumbered};
ghost use Rattle.flat_code.specs.declared.plan.Plan.{Plan as PlanOf};
ghost use Rattle.flat_role.specs.Leaves.{is_became};
ghost use Rattle.flat_role.specs.PlanMarks.{plan_marks};
ghost use Rattle.flat_role.specs.Progress.{IsFound, IsProgress, marks_by, runs_by};
ghost use Rattle.process_steps.specs.Steps.{offers};

use crate::marks::Mark;
use crate::progress::Progress;
use dioc_terms::{Act, Role};
use flat_code::Plan;

/// Where the first place that offers the act stands among those that can act. Where no update runs
/// there or before it, that is the act's own number, so the act is compared with none.
pub(crate) fn find_at(
    progress: &Progress,
    me: &Role,
    plan: &Plan,
    number: usize,
    act: &Act,
) -> usize
    requires progress { IsProgress me.now plan.now progress.now }
    requires numbered { IsNumbered number act.now
        (offers me.now (runs_by me.now plan.now progress.now)) }
    ensures { IsFound me.now plan.now progress.now act.now result
        (get_or progress.now.active.items result 0) }
{
    if number < progress.active.len() {
        if !runs_updates(progress, me, plan, number + 1) {
            return number;
        }
    }
    match progress.find(me, plan, act) {
        Some(at) => at,
        None => unreachable!(),
    }
}

/// Whether an update runs at one of the first so many places that can act.
pub(crate) fn runs_updates(progress: &Progress, me: &Role, plan: &Plan, count: usize) -> bool
    requires progress { IsProgress me.now plan.now progress.now }
    requires inside { count ≤ length progress.now.active.items }
    ensures { result ≡ false → (at : ℕ) → at < count →
        is_became (marks_by me.now plan.now progress.now (get_or progress.now.active.items at 0))
        ≡ false }
{
    let marks = progress.marks.as_slice();
    for at in 0..count {
        let place = progress.active[at];
        if is_update(marks, place) {
            return true;
        }
    }
    false
}

/// Whether an update runs at a place.
fn is_update(marks: &[Mark], place: usize) -> bool
    requires { place < length marks.now }
    ensures { (me : RoleName) (plan : PlanOf) →
        result ≡ is_became (plan_marks me plan marks.now place) }
{
    matches!(&marks[place], Mark::Became(_))
}
