//! What bytes are read from, and reading a source to its end.

ghost use Rattle.std.specs.Prelude.{◌≡◌, ◌⊎◌, ℕ, ◌+◌, ◌<◌, ◌≤◌, List, length, drop, Option, Some, vec_len, IfSome, IfOk, OnOk, OnErr, IsErrOf};
ghost use Rattle.std.specs.Io.{ReadsAtMost};
ghost use Rattle.std.specs.Io.KnownBytes.{IsAtEnd, ReadConsumes};
ghost use Rattle.aioc_io.specs.declared.source.ReadAllFault.TheVariants.{Memory};
ghost use Rattle.aioc_io.specs.Faults.{Rose};
ghost use Rattle.aioc_io.specs.Source.{GivesAtMost, SourceState};

use crate::Failed;
use std::alloc::{AllocError, Global};
use std::error::Error;
use std::fmt;

/// What bytes are read from.
pub trait Source {
    /// The bytes that are left, where the source tells them, and how often a call has failed: 0
    /// when the source is made, and it never falls.
    ghost state: { Self → SourceState };

    /// Moves bytes to the front of `into`, no more than fit there, and answers their number, which
    /// is 0 only at the end. What stands behind them in `into` is left open. A call that fails has
    /// moved none.
    fn read(&mut self, into: &mut [u8]) -> Result<usize, Failed>
        requires { 0 < length into.old }
        ensures within { ReadsAtMost result into.new }
        ensures bytes { ReadConsumes (state self.old).left (state self.new).left result into.new }
        ensures never_falls { (state self.old).faults ≤ (state self.new).faults }
        ensures rose { OnErr result (Rose (state self.old).faults (state self.new).faults) };
}

/// Why a source was not read to its end.
#[derive(Clone, Copy, Debug, PartialEq, Eq)]
pub enum ReadAllFault {
    /// The source failed, and counted it.
    Fault,
    /// It gave more bytes than allowed.
    TooLong,
    /// There was no memory for its bytes.
    Memory,
}

impl fmt::Display for ReadAllFault {
    fn fmt<W: fmt::Write>(&self, f: &mut fmt::Formatter<W>) -> fmt::Result {
        f.write_str(match self {
            ReadAllFault::Fault => "the source failed",
            ReadAllFault::TooLong => "the source has too many bytes",
            ReadAllFault::Memory => "out of memory",
        })
    }
}

impl Error for ReadAllFault {}

impl From<AllocError> for ReadAllFault {
    ghost from_gives = { λ _ fault. fault ≡ Memory };

    fn from(_: AllocError) -> Self {
        ReadAllFault::Memory
    }
}

// How many bytes one call asks for at most.
const PIECE: usize = 4096;

/// Reads to the end of a source that has at most `limit` bytes left.
///
/// It asks for no byte past the first `limit + 1`: where so many come, they are too many. After an
/// error the bytes that were read are lost, and the source has what stood behind them.
pub fn read_all<S: Source>(
    alloc: Global,
    source: &mut S,
    limit: usize,
) -> Result<Vec<u8>, ReadAllFault>
    ensures bytes { IfOk result
        (λ all. IfSome (S.state source.old).left (λ told. all.items ≡ told)) }
    ensures end { OnOk result (IsAtEnd (S.state source.new).left) }
    ensures within { IfOk result (λ all. vec_len all ≤ limit) }

    // Too long is what gave `limit + 1` bytes, and nothing else.
    ensures too_long { IsErrOf result ReadAllFault.TooLong → IfSome (S.state source.old).left
        (λ told. (limit < length told)
        × ((S.state source.new).left ≡ Some (drop (limit + 1) told))) }
    ensures given { IsErrOf result ReadAllFault.TooLong
        ⊎ GivesAtMost limit (S.state source.old).left (S.state source.new).left }

    ensures fault { IsErrOf result ReadAllFault.Fault → Rose (S.state source.old).faults
        (S.state source.new).faults }
    ensures never_falls { (S.state source.old).faults ≤ (S.state source.new).faults }
{
    let mut bytes = Vec::new(alloc);
    let mut piece = [0; PIECE];
    loop {
        let room = limit - bytes.len();
        let Ok(count) = source.read(&mut piece[..room.min(PIECE - 1) + 1]) else {
            return Err(ReadAllFault::Fault);
        };
        if count == 0 {
            return Ok(bytes);
        }
        if count > room {
            return Err(ReadAllFault::TooLong);
        }
        bytes.extend_from_slice(&piece[..count])?;
    }
}
