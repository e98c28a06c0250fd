//! What is made ready of an act before it is done.

ghost use Rattle.std.specs.Prelude.{◌≡◌, ◌<◌, true, None, IfOk, OnErr, OnOk, get_or, length};
ghost use Rattle.dioc_terms.specs.KeptStores.{store_of, room};
ghost use Rattle.dpoc_process.specs.RoleLaws.{local};
ghost use Rattle.dpoc_process.specs.RoleSteps.{IsPrepared, IsShown};
ghost use Rattle.flat_role.specs.Leaves.{is_leaf};
ghost use Rattle.flat_role.specs.PlanMarks.{mark_in, plan_len, plan_marks, static_at};
ghost use Rattle.flat_role.specs.Progress.{AreOf, IsFound, IsProgress, runs_by};
ghost use Rattle.flat_role.specs.ReadySteps.{IsChosenFor, IsKeptReady, IsNextOf, front_at};
ghost use Rattle.flat_role.specs.Updates.{IsChosen, IsInner, fresh_by};
ghost use Rattle.process_steps.specs.Steps.{is_offered, offers};

use crate::leaves::{Next, next_at};
use crate::marks::Mark;
use crate::progress::Progress;
use crate::showing::show;
use crate::steps::{Chosen, Own, clear};
use dioc_terms::{Act, Memory, Role, Store, give_up};
use dpoc_process::{Prepared, Shown};
use flat_code::Plan;
use std::alloc::Global;
use std::snapshot::Snapshot;

/// Notes that the place that stands there does the act. An update there is made ready for it: it
/// may be put in another form.
#[cycle(ready)]
pub(crate) fn make_ready(
    alloc: Global,
    me: &Role,
    plan: &Plan,
    progress: &mut Progress,
    found: (&Act, usize),
) -> Result<(), Memory>
    requires progress { IsProgress me.now plan.now progress.old }
    requires found { IsFound me.now plan.now progress.old found.0.now found.1
        (get_or progress.old.active.items found.1 0) }
    ensures progress { IsProgress me.now plan.now progress.new }
    ensures chosen { IsChosen me.now plan.now progress.new progress.new.chosen }
    ensures same { runs_by me.now plan.now progress.new ≡ runs_by me.now plan.now progress.old }
    ensures ready { OnOk result (IsChosenFor me.now plan.now progress.new found.entry.0.now
        progress.new.chosen) }
{
    let (act, at) = found;
    progress.chosen = None;
    let place = progress.active[at];
    step_at(alloc, me, plan, &mut progress.marks, (act, place))?;
    let snapshot = Snapshot::of(act);
    progress.chosen = Some(Chosen { act: snapshot, at });
    Ok(())
}

/// Makes an update at the place ready for an act, where one is there: it may be put in another
/// form.
#[cycle(ready)]
fn step_at(
    alloc: Global,
    me: &Role,
    plan: &Plan,
    marks: &mut Vec<Mark>,
    found: (&Act, usize),
) -> Result<(), Memory>
    requires inside { found.1 < plan_len plan.now }
    requires as_long { length marks.old.items ≡ plan_len plan.now }
    requires mine { AreOf me.now marks.old.items }
    requires offered { is_offered found.0.now
        (offers me.now (front_at me.now plan.now marks.old.items found.1)) ≡ true }
    ensures as_long { length marks.new.items ≡ plan_len plan.now }
    ensures same { plan_marks me.now plan.now marks.new.items
        ≡ plan_marks me.now plan.now marks.old.items }
    ensures mine { AreOf me.now marks.new.items }
    ensures inner { OnOk result (IsInner found.entry.0.now
        (mark_in marks.new.items found.entry.1)) }
{
    let (act, place) = found;
    if let Mark::Became(update) = &mut marks[place] {
        return update.prepare(alloc, me, act);
    }
    Ok(())
}

/// What is next at the place that does the act for which this is ready: in an update, the place in
/// it.
#[cycle(next)]
pub(crate) fn next_of<'a>(me: &Role, plan: &'a Plan, progress: &'a Progress, act: &Act) -> Next<'a>
    requires progress { IsProgress me.now plan.now progress.now }
    requires chosen { IsChosenFor me.now plan.now progress.now act.now progress.now.chosen }
    ensures { IsNextOf me.now act.now (runs_by me.now plan.now progress.now)
        (fresh_by progress.now progress.now.chosen) result }
{
    let place = progress.active[progress.chosen_place()];
    let mark = &progress.marks[place];
    match mark {
        Mark::Became(update) => update.next(me, act),
        _ => next_at(me, plan, progress.marks.as_slice(), place),
    }
}

/// Makes the place that stands there ready for the act that it offers, keeps all that the act
/// needs, and gives what is shown of it. There is room for one more variable then.
pub(crate) fn prepare_found(
    alloc: Global,
    me: &Role,
    plan: &Plan,
    progress: &mut Progress,
    store: &mut Store,
    ready: &mut Option<Own>,
    found: (&Act, usize),
) -> Result<Shown, Memory>
    requires progress { IsProgress me.now plan.now progress.old }
    requires found { IsFound me.now plan.now progress.old found.0.now found.1
        (get_or progress.old.active.items found.1 0) }
    ensures progress { IsProgress me.now plan.now progress.new }
    ensures same { runs_by me.now plan.now progress.new ≡ runs_by me.now plan.now progress.old }
    ensures same_store { store_of store.new ≡ store_of store.old }
    ensures has_room { OnOk result (0 < room store.new) }
    ensures chosen { OnOk result (IsChosenFor me.now plan.now progress.new found.entry.0.now
        progress.new.chosen) }
    ensures ready { OnOk result (IsKeptReady me.now plan.now progress.new (store_of store.new)
        found.entry.0.now ready.new) }
    ensures shown { IfOk result (IsShown (local me.now (runs_by me.now plan.now progress.old)
        (store_of store.old)) found.entry.0.now) }
    ensures kept { OnErr result (ready.new ≡ ready.old) }
{
    make_ready(alloc, me, plan, progress, found)?;
    let next = next_of(me, plan, progress, found.0);
    show(alloc, me, next, store, ready)
}

/// Makes it ready as `prepare_found` does, and gives what is shown with a copy of the act. After an
/// error nothing is kept.
pub(crate) fn prepare_whole(
    alloc: Global,
    me: &Role,
    plan: &Plan,
    progress: &mut Progress,
    store: &mut Store,
    ready: &mut Option<Own>,
    found: (&Act, usize),
) -> Result<Prepared, Memory>
    requires progress { IsProgress me.now plan.now progress.old }
    requires found { IsFound me.now plan.now progress.old found.0.now found.1
        (get_or progress.old.active.items found.1 0) }
    requires unready { ready.old ≡ None }
    ensures progress { IsProgress me.now plan.now progress.new }
    ensures same { runs_by me.now plan.now progress.new ≡ runs_by me.now plan.now progress.old }
    ensures same_store { store_of store.new ≡ store_of store.old }
    ensures has_room { OnOk result (0 < room store.new) }
    ensures chosen { OnOk result (IsChosenFor me.now plan.now progress.new found.entry.0.now
        progress.new.chosen) }
    ensures ready { OnOk result (IsKeptReady me.now plan.now progress.new (store_of store.new)
        found.entry.0.now ready.new) }
    ensures shown { IfOk result (IsPrepared (local me.now (runs_by me.now plan.now progress.old)
        (store_of store.old)) found.entry.0.now) }
    ensures unready { OnErr result (ready.new ≡ None) }
{
    let own = found.0.copy(alloc)?;
    match prepare_found(alloc, me, plan, progress, store, ready, found) {
        Ok(shown) => match shown.with_act(alloc, own) {
            Ok(prepared) => Ok(prepared),
            Err(fault) => {
                clear(ready);
                Err(fault)
            }
        },
        Err(fault) => give_up(own, fault),
    }
}
