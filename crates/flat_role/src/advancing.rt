//! An act that is done.

ghost use Rattle.std.specs.Prelude.{◌≡◌, ◌<◌, ◌≤◌, ◌+◌, ◌++◌, ℕ, true, None, Some, IfSome, drop, length, take, vec_capacity};
ghost use Rattle.dioc_terms.specs.declared.entries.Act.{Act as OneAct};
ghost use Rattle.dioc_terms.specs.declared.names.Role.{Role as RoleName};
ghost use Rattle.dioc_terms.specs.KeptStores.{store_of, room};
ghost use Rattle.dioc_terms.specs.Stores.{Store as Spec};
ghost use Rattle.dpoc_process.specs.Growth.{handed_value, with_written};
ghost use Rattle.dpoc_process.specs.Handed.{Brings, IsEnabled, handed};
ghost use Rattle.dpoc_process.specs.KeptGrowth.{write_of};
ghost use Rattle.dpoc_process.specs.RoleLaws.{local};
ghost use Rattle.dpoc_process.specs.RoleSteps.{IsStep};
ghost use Rattle.flat_role.specs.Advancing.{ComesTo, IsActed, IsActingBy, IsGoing, IsReplacedBy, entered_places};
ghost use Rattle.flat_role.specs.PlanMarks.{mark_in, plan_len, static_at};
ghost use Rattle.flat_role.specs.Progress.{AreOf, IsFound, IsProgress, runs_by};
ghost use Rattle.flat_role.specs.ReadySteps.{IsOwnOf, IsReadyBy};
ghost use Rattle.flat_role.specs.Replacing.{IsRoom, replaces, replacing};
ghost use Rattle.flat_role.specs.Updates.{IsInner, is_fresh};
ghost use Rattle.process_steps.specs.Steps.{Deed, Given};
ghost use Rattle.role_statuses.specs.Statuses.{Status, Became};

use crate::active::give_way;
use crate::climbing::{climb, write};
use crate::entering::enter;
use crate::marks::Mark;
use crate::moved::moved;
use crate::progress::Progress;
use crate::replacing::Room;
use crate::steps::{Own, take_value, write_store};
use dioc_terms::{Act, Role, Store};
use dpoc_process::Got;
use dpoc_process::growth::Write;
use flat_code::Plan;
use std::mem;

/// Does the act for which this was made ready, with what comes with it. It takes no memory: there
/// is room for one more variable.
#[cycle(advance)]
pub(crate) fn advance(
    me: &Role,
    plan: &Plan,
    act: &Act,
    progress: &mut Progress,
    store: &mut Store,
    own: &mut Own,
    got: &mut Got,
)
    requires progress { IsProgress me.now plan.now progress.old }
    requires ready { IsReadyBy me.now plan.now progress.old (store_of store.old) act.now own.old }
    requires has_room { 0 < room store.old }
    requires can { IsEnabled (local me.now (runs_by me.now plan.now progress.old)
        (store_of store.old)) act.now (handed got.old) }
    ensures progress { IsProgress me.now plan.now progress.new }
    ensures chosen { progress.new.chosen ≡ None }
    ensures steps { (given : Given) → Brings (local me.now (runs_by me.now plan.now progress.old)
        (store_of store.old)) act.now (handed got.old) given → IsStep (local me.now
        (runs_by me.now plan.now progress.old) (store_of store.old)) act.now given (local me.now
        (runs_by me.now plan.now progress.new) (store_of store.new)) }
{
    let at = progress.chosen_place();
    let place = progress.active[at];
    let over = act_at(me, plan, act, progress, store, place, (own, got));
    let stop = climb(me, plan, &mut progress.marks, place, over);
    go_on(me, plan, progress, at, stop);
    progress.chosen = None;
}

/// Does the act at the place, and writes its mark alone. The answer is whether nothing is left to
/// do there.
#[cycle(advance)]
fn act_at(
    me: &Role,
    plan: &Plan,
    act: &Act,
    progress: &mut Progress,
    store: &mut Store,
    place: usize,
    by: (&mut Own, &mut Got),
) -> bool
    requires progress { IsProgress me.now plan.now progress.old }
    requires has_room { 0 < room store.old }
    requires can { IsEnabled (local me.now (runs_by me.now plan.now progress.old)
        (store_of store.old)) act.now (handed by.1.now) }
    requires found { (at : ℕ) × IsFound me.now plan.now progress.old act.now at place }
    requires inner { IsInner act.now (mark_in progress.old.marks.items place) }
    requires own { IsOwnOf me.now (store_of store.old) act.now
        (runs_by me.now plan.now progress.old)
        (is_fresh (mark_in progress.old.marks.items place)) by.0.now }
    ensures as_long { length progress.new.marks.items ≡ plan_len plan.now }
    ensures active { progress.new.active ≡ progress.old.active }
    ensures fresh { progress.new.fresh ≡ progress.old.fresh }
    ensures mine { AreOf me.now progress.new.marks.items }
    ensures acted { IsActed me.now plan.now progress.old (store_of store.old) (store_of store.new)
        act.now (handed by.entry.1.now) place progress.new.marks.items result }
{
    let (own, got) = by;
    if let Mark::Became(update) = &mut progress.marks[place] {
        return update.step(me, act, store, own, got);
    }
    do_own(plan, &mut progress.marks, place, store, own, got)
}

/// Puts the places that can act where it goes on in the place of the one that acted.
fn go_on(me: &Role, plan: &Plan, progress: &mut Progress, at: usize, stop: Option<usize>)
    requires as_long { length progress.old.marks.items ≡ plan_len plan.now }
    requires inside { at < length progress.old.active.items }
    requires stops { IfSome stop (λ place. place < plan_len plan.now) }
    requires spare { length (entered_places me.now plan.now progress.old.marks.items stop)
        ≤ vec_capacity progress.old.fresh }
    requires room { length progress.old.active.items
        + length (entered_places me.now plan.now progress.old.marks.items stop)
        ≤ vec_capacity progress.old.active + 1 }
    ensures same { progress.new.marks ≡ progress.old.marks }
    ensures listed { progress.new.active.items ≡ take at progress.old.active.items
        ++ (entered_places me.now plan.now progress.old.marks.items stop
        ++ drop (at + 1) progress.old.active.items) }
    ensures room { vec_capacity progress.new.active ≡ vec_capacity progress.old.active }
    ensures spare { vec_capacity progress.new.fresh ≡ vec_capacity progress.old.fresh }
{
    progress.fresh.clear();
    if let Some(stop) = stop {
        if !matches!(progress.marks[stop], Mark::Both(_, _)) {
            enter(
                me,
                plan,
                progress.marks.as_slice(),
                stop,
                &mut progress.fresh,
            );
        }
    }
    give_way(&mut progress.active, at, progress.fresh.as_slice());
}

/// Does an act of the code at a place. The answer is whether nothing is left to do there.
fn do_own(
    plan: &Plan,
    marks: &mut Vec<Mark>,
    place: usize,
    store: &mut Store,
    own: &mut Own,
    got: &mut Got,
) -> bool
    requires inside { place < plan_len plan.now }
    requires as_long { length marks.old.items ≡ plan_len plan.now }
    requires has_room { 0 < room store.old }
    ensures as_long { length marks.new.items ≡ plan_len plan.now }
    ensures moved { (me : RoleName) (a : OneAct) (d : Deed) (y : Status) →
        IsActingBy me plan.now marks.old.items place (store_of store.old) own.old (handed got.old)
        a d y → ComesTo me plan.now marks.old.items marks.new.items place result y
        × (store_of store.new ≡ with_written (write_of own.old.write)
        (handed_value (handed got.old))
        (store_of store.old)) }
    ensures replaced { (me : RoleName) → IsReplacedBy me plan.now marks.old.items place own.old
        (handed got.old) → ComesTo me plan.now marks.old.items marks.new.items place result
        (Became (replacing me (static_at plan.now place) (handed got.old)))
        × (store_of store.new ≡ with_written (write_of own.old.write) None (store_of store.old)) }
    ensures mine { (me : RoleName) → AreOf me marks.old.items
        → IfSome own.old.room (λ room. room.value.me.value ≡ me) → AreOf me marks.new.items }
{
    if let Some(room) = own.room.take() {
        if room.is_for(got) {
            return put_other(plan, marks, place, store, (&mut own.write, room), got);
        }
        drop(room);
    }
    go_on_itself(plan, marks, place, store, own, got)
}

/// Puts another process in the place.
#[inline(never)]
fn put_other(
    plan: &Plan,
    marks: &mut Vec<Mark>,
    place: usize,
    store: &mut Store,
    by: (&mut Write, Box<Room>),
    got: &mut Got,
) -> bool
    requires inside { place < plan_len plan.now }
    requires as_long { length marks.old.items ≡ plan_len plan.now }
    requires has_room { 0 < room store.old }
    ensures as_long { length marks.new.items ≡ plan_len plan.now }
    ensures stored { store_of store.new ≡ with_written (write_of by.entry.0.now) None
        (store_of store.old) }
    ensures put { (me : RoleName) → IsRoom me (static_at plan.now place) by.entry.1.value →
        replaces (static_at plan.now place) (handed got.old) ≡ true →
        ComesTo me plan.now marks.old.items marks.new.items place result
        (Became (replacing me (static_at plan.now place) (handed got.old))) }
    ensures mine { (me : RoleName) → AreOf me marks.old.items → by.entry.1.value.me.value ≡ me
        → AreOf me marks.new.items }
{
    let (written, room) = by;
    write_store(store, written, None);
    let (mark, over) = Box::into_inner(room).filled(mem::replace(got, Got::Nothing));
    write(plan, marks, place, mark);
    over
}

/// The place goes on itself.
fn go_on_itself(
    plan: &Plan,
    marks: &mut Vec<Mark>,
    place: usize,
    store: &mut Store,
    own: &mut Own,
    got: &mut Got,
) -> bool
    requires inside { place < plan_len plan.now }
    requires as_long { length marks.old.items ≡ plan_len plan.now }
    requires has_room { 0 < room store.old }
    ensures as_long { length marks.new.items ≡ plan_len plan.now }
    ensures stored { store_of store.new ≡ with_written (write_of own.old.write)
        (handed_value (handed got.old))
        (store_of store.old) }
    ensures moved { (me : RoleName) (s : Spec) (a : OneAct) (d : Deed) (y : Status) →
        IsGoing me plan.now marks.old.items place s own.old.pick (handed got.old) a d y →
        ComesTo me plan.now marks.old.items marks.new.items place result y }
    ensures mine { (me : RoleName) → AreOf me marks.old.items → AreOf me marks.new.items }
{
    let (mark, over) = moved(plan, place, &marks[place], own.pick, got);
    write(plan, marks, place, mark);
    write_store(store, &mut own.write, take_value(got));
    over
}
