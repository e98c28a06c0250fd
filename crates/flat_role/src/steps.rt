//! What was made ready of an act.

ghost use Rattle.std.specs.Prelude.{◌≡◌, ◌<◌, None};
ghost use Rattle.dioc_terms.specs.KeptStores.{store_of, room};
ghost use Rattle.dpoc_process.specs.Growth.{handed_value, with_written};
ghost use Rattle.dpoc_process.specs.Handed.{handed};
ghost use Rattle.dpoc_process.specs.KeptGrowth.{write_of};

use crate::replacing::Room;
use dioc_terms::{Act, Payload, Store, Value};
use dpoc_process::Got;
use dpoc_process::growth::Write;
use dpoc_process::ready::apply;
use std::mem;
use std::snapshot::Snapshot;

/// The act that a role over code is ready for, and where the place that does it stands among those
/// that can act.
#[derive(Drop)]
pub(crate) struct Chosen {
    pub act: Snapshot<Act>,
    pub at: usize,
}

/// What was made ready of an act, of the part that does it, however many updates it stands in: what
/// it writes, what a leader picks, and for the begin of a scope room for an update.
#[derive(Drop)]
pub(crate) struct Own {
    pub write: Write,
    pub pick: bool,
    pub room: Option<Box<Room>>,
}

/// Lets go of what was made ready.
// (Mostly nothing was, and to write that nothing is takes as long as to write all that might be.)
pub(crate) fn clear(ready: &mut Option<Own>)
    ensures { ready.new ≡ None }
{
    match ready {
        Some(_) => *ready = None,
        None => {}
    }
}

/// The value that came, taken out of what came; `Nil` is left in its place.
pub(crate) fn take_value(got: &mut Got) -> Option<Value>
    ensures { result ≡ handed_value (handed got.old) }
{
    match got {
        Got::Payload(Payload::Val(value)) => Some(mem::replace(value, Value::Nil)),
        _ => None,
    }
}

/// Writes what the act writes, which is mostly nothing. There is room for one more variable, so it
/// takes no memory.
#[inline(always)]
pub(crate) fn write_store(store: &mut Store, written: &mut Write, value: Option<Value>)
    requires { 0 < room store.old }
    ensures { store_of store.new ≡ with_written (write_of written.old) value (store_of store.old) }
{
    match written {
        Write::Nothing => {}
        _ => apply(store, mem::replace(written, Write::Nothing), value),
    }
}

/// Lets go of what is left of what came.
// (Apart, since most of what comes has nothing to let go.)
#[inline(never)]
pub(crate) fn drop_got(_got: Got) {}
