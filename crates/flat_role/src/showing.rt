//! What is shown of the act of what is next, and what is kept for its step.
//!
//! Most acts put or take an auxiliary message: they need nothing of the store and write nothing. So
//! they have functions of their own, which make no room for what the others need.

ghost use Rattle.std.specs.Prelude.{◌≡◌, ◌<◌, Bool, None, Some, IfOk, OnErr, OnOk};
ghost use Rattle.dioc_terms.specs.declared.entries.Act.{Act as OneAct};
ghost use Rattle.dioc_terms.specs.declared.entries.Entry.TheVariants as entries;
ghost use Rattle.dioc_terms.specs.KeptStores.{store_of, room};
ghost use Rattle.dioc_terms.specs.Processes.{Process, noted};
ghost use Rattle.dioc_terms.specs.Stores.{Store as Spec};
ghost use Rattle.dpoc_process.specs.Growth.{value_at};
ghost use Rattle.dpoc_process.specs.Shows.{message_shown};
ghost use Rattle.flat_role.specs.Leaves.{IsNext, is_first, load_of, tag_of};
ghost use Rattle.flat_role.specs.ReadySteps.{IsIdle, IsKeptOwn, IsNextOf, IsOwn, IsShownBy};
ghost use Rattle.flat_role.specs.Replacing.{IsRoomWhen};
ghost use Rattle.process_steps.specs.Steps.{key};

use crate::leaves::{Next, Sign, value_for, write_for};
use crate::making_room::room_for;
use crate::prepared::{entry_for, entry_of_put, entry_of_take, head_for, part_for};
use crate::steps::Own;
use dioc_terms::{Index, Memory, Role, Store, Tag, Value, give_up};
use dpoc_process::Shown;
use dpoc_process::growth::{Write, is_true};
use flat_code::Op;
use std::alloc::Global;

/// Keeps all that the act of what is next needs, and gives what is shown of it. There is room for
/// one more variable then.
#[inline(never)]
pub(crate) fn show(
    alloc: Global,
    me: &Role,
    next: Next<'_>,
    store: &mut Store,
    ready: &mut Option<Own>,
) -> Result<Shown, Memory>
    ensures same_store { store_of store.new ≡ store_of store.old }
    ensures has_room { OnOk result (0 < room store.new) }
    ensures own { (a : OneAct) (P : Process) (fresh : Bool) → IsNextOf me.now a P fresh next.entry →
        OnOk result (IsKeptOwn me.now (store_of store.old) a P fresh ready.new) }
    ensures shown { (a : OneAct) (P : Process) (fresh : Bool) → IsNextOf me.now a P fresh next.entry
        → IfOk result (IsShownBy me.now (store_of store.old) a P) }
    ensures kept { OnErr result (ready.new ≡ ready.old) }
{
    store.reserve(1)?;
    match next {
        Next::Put { to, index, sign } => show_put(alloc, me, to, index, sign, ready),
        Next::Take { from, index, sign } => show_take(alloc, from, me, index, sign.tag(), ready),
        Next::Op(Op::IfFollow { index, leader, .. }) => {
            show_take(alloc, leader, me, *index, Tag::Choice, ready)
        }
        Next::Op(Op::WhileFollow { index, leader, .. }) => {
            show_take(alloc, leader, me, *index, Tag::Go, ready)
        }
        _ => show_other(alloc, me, next, store, ready),
    }
}

/// The put of an auxiliary message.
fn show_put(
    alloc: Global,
    me: &Role,
    to: &Role,
    index: Index,
    sign: Sign,
    ready: &mut Option<Own>,
) -> Result<Shown, Memory>
    ensures entry { IfOk result (λ shown. shown.entry ≡ Some (entries.Put
        (key me.now to.now index (tag_of sign)) (noted (load_of sign)))) }
    ensures head { IfOk result (λ shown. shown.head ≡ None) }
    ensures message { IfOk result (λ shown. message_shown shown ≡ Some (load_of sign)) }
    ensures own { OnOk result (IsIdle ready.new) }
    ensures kept { OnErr result (ready.new ≡ ready.old) }
{
    let entry = entry_of_put(alloc, me, to, index, sign)?;
    *ready = Some(idle());
    Ok(Shown {
        entry,
        head: None,
        part: None,
    })
}

/// The take of an auxiliary message.
fn show_take(
    alloc: Global,
    from: &Role,
    me: &Role,
    index: Index,
    tag: Tag,
    ready: &mut Option<Own>,
) -> Result<Shown, Memory>
    ensures entry { IfOk result (λ shown. shown.entry
        ≡ Some (entries.Take (key from.now me.now index tag) None)) }
    ensures head { IfOk result (λ shown. shown.head ≡ None) }
    ensures own { OnOk result (IsIdle ready.new) }
    ensures kept { OnErr result (ready.new ≡ ready.old) }
{
    let entry = entry_of_take(alloc, from, me, index, tag)?;
    *ready = Some(idle());
    Ok(Shown {
        entry,
        head: None,
        part: None,
    })
}

/// What is kept of an act that writes nothing, picks nothing and puts no other process in its
/// place.
fn idle() -> Own
    ensures { IsIdle (Some result) }
{
    Own {
        write: Write::Nothing,
        pick: false,
        room: None,
    }
}

/// Any other act.
#[inline(never)]
fn show_other(
    alloc: Global,
    me: &Role,
    next: Next<'_>,
    store: &Store,
    ready: &mut Option<Own>,
) -> Result<Shown, Memory>
    ensures own { (a : OneAct) (P : Process) (fresh : Bool) → IsNextOf me.now a P fresh next.entry →
        OnOk result (IsKeptOwn me.now (store_of store.now) a P fresh ready.new) }
    ensures shown { (a : OneAct) (P : Process) (fresh : Bool) → IsNextOf me.now a P fresh next.entry
        → IfOk result (IsShownBy me.now (store_of store.now) a P) }
    ensures kept { OnErr result (ready.new ≡ ready.old) }
{
    let value = value_for(alloc, store, next)?;
    let own = own_for(alloc, me, &value, next)?;
    let entry = entry_for(alloc, me, &value, next)?;
    let part = part_for(alloc, next)?;
    let head = head_for(alloc, next)?;
    *ready = Some(own);
    Ok(Shown { entry, head, part })
}

/// What is made ready of what is next, with the value that it needs.
fn own_for(alloc: Global, me: &Role, value: &Value, next: Next<'_>) -> Result<Own, Memory>
    ensures own { (R : Process) (s : Spec) → value.now ≡ value_at s R
        → IsNext me.now next.entry R → IfOk result (IsOwn me.now s R) }
    ensures room { (R : Process) → IsNext me.now next.entry R →
        IfOk result (λ own. IsRoomWhen (is_first next.entry) me.now R own.room) }
{
    let write = write_for(alloc, value, next)?;
    match room_for(alloc, me, next) {
        Ok(room) => Ok(Own {
            write,
            pick: is_true(value),
            room,
        }),
        Err(fault) => give_up(write, fault),
    }
}
