//! What is made ready of an act, and how it is used when the act is done.

ghost use Rattle.std.specs.Prelude.{◌≡◌, ◌<◌, ◌↔◌, None, Some, IfOk, IsErrOf, OnOk};
ghost use Rattle.dioc_terms.specs.KeptStores.{store_of, room};
ghost use Rattle.dioc_terms.specs.Processes.{process, load};
ghost use Rattle.dpoc_process.specs.Acting.{acting};
ghost use Rattle.dpoc_process.specs.Changes.{replaced};
ghost use Rattle.dpoc_process.specs.Growth.{grown, handed_value, with_written};
ghost use Rattle.dpoc_process.specs.Growth as growths;
ghost use Rattle.dpoc_process.specs.Handed.{handed, Message};
ghost use Rattle.dpoc_process.specs.KeptGrowth.{growth_of, write_of};
ghost use Rattle.dpoc_process.specs.KeptReady.{IsMade, IsReadyFor};

use crate::changes::replaced;
use crate::growth::{Growth, Write, grown, growth_at, value_at, write_at};
use crate::offered::find;
use crate::prepared::prepared_at;
use crate::runs::{Got, PrepareFault, Prepared};
use dioc_terms::{Act, Memory, Name, Payload, Proc, Role, Store, Value, give_up};
use std::alloc::Global;
use std::mem;
use std::snapshot::Snapshot;

/// What was made ready of an act.
#[derive(Drop)]
pub(crate) struct Ready {
    pub act: Snapshot<Act>,
    pub growth: Growth,
    pub write: Write,
}

/// Lets go of what was made ready.
pub(crate) fn clear(place: &mut Option<Ready>)
    ensures { place.new ≡ None }
{
    drop(place.take());
}

/// Keeps what was made ready.
pub(crate) fn keep_ready(place: &mut Option<Ready>, ready: Ready)
    ensures { place.new ≡ Some ready }
{
    drop(mem::replace(place, Some(ready)));
}

/// All that the step by an act needs, room for a variable included, and what is shown of it. The
/// process doesn't offer the act exactly where the error is `NoAct`.
pub(crate) fn make_ready(
    alloc: Global,
    me: &Role,
    proc: &Proc,
    store: &mut Store,
    act: &Act,
) -> Result<(Ready, Prepared), PrepareFault>
    ensures same { store_of store.new ≡ store_of store.old }
    ensures has_room { OnOk result (0 < room store.new) }
    ensures no_act { IsErrOf result PrepareFault.NoAct ↔
        (acting me.now act.now (process proc.now) ≡ None) }
    ensures made { IfOk result (λ made.
        IsMade me.now (store_of store.old) act.now (acting me.now act.now (process proc.now)) made.0
        made.1) }
{
    match find(me, act, proc) {
        None => Err(PrepareFault::NoAct),
        Some(part) => {
            store.reserve(1)?;
            match made_ready(alloc, me, store, act, part) {
                Ok(made) => Ok(made),
                Err(_) => Err(PrepareFault::Memory),
            }
        }
    }
}

/// All that the step of a part needs, and what is shown of it.
fn made_ready(
    alloc: Global,
    me: &Role,
    store: &Store,
    act: &Act,
    part: &Proc,
) -> Result<(Ready, Prepared), Memory>
    ensures { IfOk result (λ made.
        IsMade me.now (store_of store.now) act.now (Some (process part.now)) made.0 made.1) }
{
    let value = value_at(alloc, store, part)?;
    let prepared = prepared_at(alloc, me, act, &value, part)?;
    match ready_at(alloc, me, act, &value, part) {
        Ok(ready) => Ok((ready, prepared)),
        Err(fault) => give_up(prepared, fault),
    }
}

/// What is made ready of a part.
fn ready_at(
    alloc: Global,
    me: &Role,
    act: &Act,
    value: &Value,
    part: &Proc,
) -> Result<Ready, Memory>
    ensures { IfOk result (IsReadyFor me.now act.now value.now (process part.now)) }
{
    let write = write_at(alloc, value, part)?;
    let growth = growth_at(alloc, me, value, part)?;
    Ok(Ready {
        act: Snapshot::of(act),
        growth,
        write,
    })
}

/// The process once an act is done for which this was made ready, with the store as the step writes
/// it. It takes no memory: there is room for one more variable.
pub(crate) fn advanced(
    me: &Role,
    act: &Act,
    proc: Proc,
    store: &mut Store,
    ready: Ready,
    got: Got,
) -> Proc
    requires { 0 < room store.old }
    ensures changed { process result ≡
        replaced me.now act.now (process proc) (grown (growth_of ready.growth) (handed got)) }
    ensures stored { store_of store.new ≡
        with_written (write_of ready.write) (handed_value (handed got)) (store_of store.old) }
{
    let Ready { growth, write, .. } = ready;
    let (value, got) = split(got);
    apply(store, write, value);
    replaced(me, act, proc, grown(growth, got))
}

/// The value that comes with the act, and the rest, which gives the same change. It takes no
/// memory.
pub fn split(got: Got) -> (Option<Value>, Got)
    ensures value { result.0 ≡ handed_value (handed got) }
    ensures rest { (made : growths.Growth) → grown made (handed result.1)
        ≡ grown made (handed got) }
{
    match got {
        Got::Payload(payload) => split_payload(payload),
        Got::Nothing => (None, Got::Nothing),
        Got::Keep => (None, Got::Keep),
        Got::Parts(parts) => (None, Got::Parts(parts)),
    }
}

#[tactic(auto, using(crate::proofs::Splits::value_grows_nothing))]
fn split_payload(payload: Payload) -> (Option<Value>, Got)
    ensures value { result.0 ≡ handed_value (Message (load payload)) }
    ensures rest { (made : growths.Growth) →
        grown made (handed result.1) ≡ grown made (Message (load payload)) }
{
    match &payload {
        Payload::Val(_) => (payload.into_value(), Got::Nothing),
        _ => (None, Got::Payload(payload)),
    }
}

/// Writes what the step writes. There is room for one more variable, so it takes no memory.
pub fn apply(store: &mut Store, write: Write, value: Option<Value>)
    requires { 0 < room store.old }
    ensures { store_of store.new ≡ with_written (write_of write) value (store_of store.old) }
{
    match write {
        Write::Nothing => {}
        Write::Keeps(var) => keep(store, var, value),
        Write::Sets(var, set) => store.set(var, set),
        Write::Reads(var) => {
            let input = store.next_input();
            store.set(var, input);
        }
    }
}

/// Keeps the value that came.
fn keep(store: &mut Store, var: Name, value: Option<Value>)
    requires { 0 < room store.old }
    ensures { store_of store.new ≡ with_written (growths.Keeps var) value (store_of store.old) }
{
    if let Some(came) = value {
        store.set(var, came);
    }
}
