//! What bytes are written to, and writing all of them.

ghost use Rattle.std.specs.Prelude.{ℕ, ◌<◌, ◌≤◌, List, length, Option, IfOk, OnOk, OnErr};
ghost use Rattle.std.specs.Io.{WritesAtMost};
ghost use Rattle.std.specs.Io.KnownBytes.{Appends, WriteAppends};
ghost use Rattle.aioc_io.specs.Faults.{Rose};
ghost use Rattle.aioc_io.specs.Sink.{TakesPart, SinkState};

use crate::Failed;

/// What bytes are written to.
pub trait Sink {
    /// The bytes that were taken, where the sink tells them, and how often a call has failed: 0
    /// when the sink is made, and it never falls.
    ghost state: { Self → SinkState };

    /// Takes bytes from the front of `piece`, at least one, and answers their number.
    /// A call that fails has taken none.
    fn write(&mut self, piece: &[u8]) -> Result<usize, Failed>
        requires { 0 < length piece.now }
        ensures some { IfOk result (λ count. 0 < count) }
        ensures within { WritesAtMost result piece.now }
        ensures bytes { WriteAppends (state self.old).taken (state self.new).taken result
            piece.now }
        ensures never_falls { (state self.old).faults ≤ (state self.new).faults }
        ensures rose { OnErr result (Rose (state self.old).faults (state self.new).faults) };
}

/// Writes all the bytes, in as many calls as the sink needs. It stops at the first call that fails,
/// and takes no memory.
pub fn write_all<O: Sink>(out: &mut O, bytes: &[u8]) -> Result<(), Failed>
    ensures whole { OnOk result (Appends (O.state out.old).taken (O.state out.new).taken
        bytes.now) }
    ensures part { OnErr result (TakesPart (O.state out.old).taken (O.state out.new).taken
        bytes.now) }
    ensures rose { OnErr result (Rose (O.state out.old).faults (O.state out.new).faults) }
    ensures never_falls { (O.state out.old).faults ≤ (O.state out.new).faults }
{
    let mut done = 0;
    while done < bytes.len() {
        done += out.write(&bytes[done..])?;
    }
    Ok(())
}
