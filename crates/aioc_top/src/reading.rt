//! From a source to what its bytes spell.

ghost use Rattle.std.specs.Prelude.{◌≡◌, ◌≤◌, length, Some, None, IfErr, IfOk};
ghost use Rattle.std.specs.Io.KnownBytes.{IsAtEnd};
ghost use Rattle.limits.specs.Limits.{most_bytes};
ghost use Rattle.aioc_top.specs.Calls.{IsRead, ReadsWithinLimit};
ghost use Rattle.aioc_top.specs.Faults.{Stops, StopsReading};
ghost use Rattle.aioc_top.specs.Replies.{session_options};
ghost use Rattle.aioc_top.specs.Spelled.{HasRead};

use crate::faults::Fault;
use aioc_io::{ReadAllFault, Source, read_all};
use bundle_text::{read_bundle, read_sessions_by};
use command_words::Command;
use dioc_terms::Bundle;
use limits::MOST_BYTES;
use std::alloc::Global;
use std::thread::Threads;

/// What the bytes that a command read spell.
#[derive(Drop)]
pub enum Spelled {
    /// Nothing: the command needs no source.
    Nothing,
    /// A bundle.
    Bundle(Bundle),
    /// The bundles of sessions.
    Sessions(Vec<Bundle>),
}

/// What all the bytes of the source spell for the command, which may be nothing that it reads.
/// Sessions are read by as many threads as the command has workers.
pub fn read_spelled<R: Threads + Sync, S: Source>(
    rt: &R,
    alloc: Global,
    command: &Command,
    source: &mut S,
) -> Result<Spelled, Fault>
    ensures read { IfOk result (HasRead command.now (S.state source.old) (S.state source.new)) }
    ensures fault { IfErr result
        (Stops (Some command.now) (S.state source.old) (S.state source.new)) }
{
    match command {
        Command::Sessions(options) => {
            let bytes = read_text(alloc, source)?;
            let workers = options.workers as usize;
            Ok(Spelled::Sessions(read_sessions_by(rt, alloc, &bytes, workers)?))
        }
        _ => read_spelled_alone(alloc, command, source),
    }
}

/// The same of a command that reads no sessions, and without a runtime.
pub fn read_spelled_alone<S: Source>(
    alloc: Global,
    command: &Command,
    source: &mut S,
) -> Result<Spelled, Fault>
    requires alone { session_options command.now ≡ None }
    ensures read { IfOk result (HasRead command.now (S.state source.old) (S.state source.new)) }
    ensures fault { IfErr result
        (Stops (Some command.now) (S.state source.old) (S.state source.new)) }
{
    match command {
        Command::Gen { .. } => Ok(Spelled::Nothing),
        Command::Sessions(_) => unreachable!(),
        _ => {
            let bytes = read_text(alloc, source)?;
            Ok(Spelled::Bundle(read_bundle(alloc, &bytes)?))
        }
    }
}

// All the bytes of the source, or why they aren't had.
fn read_text<S: Source>(alloc: Global, source: &mut S) -> Result<Vec<u8>, Fault>
    ensures bytes { IfOk result (λ bytes. IsRead (S.state source.old) bytes.items) }
    ensures end { IfOk result (λ bytes. IsAtEnd (S.state source.new).left) }
    ensures few { IfOk result (λ bytes. length bytes.items ≤ most_bytes) }
    ensures within { IfOk result
        (λ bytes. ReadsWithinLimit (S.state source.old) (S.state source.new)) }
    ensures fault { IfErr result (StopsReading (S.state source.old) (S.state source.new)) }
{
    match read_all(alloc, source, MOST_BYTES) {
        Ok(bytes) => Ok(bytes),
        Err(ReadAllFault::Fault) => Err(Fault::ReadFault),
        Err(ReadAllFault::TooLong) => Err(Fault::TooLong),
        Err(ReadAllFault::Memory) => Err(Fault::Memory),
    }
}
