//! From words and a source to a command that is ready to be executed.

ghost use Rattle.std.specs.Prelude.{◌≡◌, false, IfErr, IfOk, OnOk};
ghost use Rattle.aioc_top.specs.Faults.{IsRefusedSo, Stops};
ghost use Rattle.aioc_top.specs.Spelled.{Admits, Fits, IsReady, refusal_in};
ghost use Rattle.aioc_top.specs.Words.{asked, is_threaded};
ghost use Rattle.command_words.specs.Commands.{word_texts};

use crate::commands::monitor::accept_role;
use crate::faults::Fault;
use crate::reading::{Spelled, read_spelled, read_spelled_alone};
use aioc_io::Source;
use command_words::{Command, read_words};
use rule_checks::accept;
use std::alloc::Global;
use std::thread::Threads;

/// A command with what it has read.
#[derive(Drop)]
pub struct Task {
    /// What the words ask for.
    pub command: Command,
    /// What the bytes of the source spell.
    pub spelled: Spelled,
}

/// The command that the words ask for, with what it reads of the source, where it takes that; or
/// why it has no reply. Sessions are read by threads of the runtime.
pub fn prepare<R: Threads + Sync, S: Source>(
    rt: &R,
    alloc: Global,
    words: &[Vec<u8>],
    source: &mut S,
) -> Result<Task, Fault>
    ensures ready { IfOk result (IsReady (asked (word_texts words.now))
        (S.state source.old) (S.state source.new)) }
    ensures fault { IfErr result (Stops (asked (word_texts words.now))
        (S.state source.old) (S.state source.new)) }
{
    let Some(command) = read_words(alloc, words)? else {
        return Err(Fault::Usage);
    };
    let spelled = read_spelled(rt, alloc, &command, source)?;
    accept_spelled(alloc, &command, &spelled)?;
    Ok(Task { command, spelled })
}

/// The same of words that ask for no threads, and without a runtime.
pub fn prepare_alone<S: Source>(
    alloc: Global,
    words: &[Vec<u8>],
    source: &mut S,
) -> Result<Task, Fault>
    requires alone { is_threaded (word_texts words.now) ≡ false }
    ensures ready { IfOk result (IsReady (asked (word_texts words.now))
        (S.state source.old) (S.state source.new)) }
    ensures fault { IfErr result (Stops (asked (word_texts words.now))
        (S.state source.old) (S.state source.new)) }
{
    let Some(command) = read_words(alloc, words)? else {
        return Err(Fault::Usage);
    };
    let spelled = read_spelled_alone(alloc, &command, source)?;
    accept_spelled(alloc, &command, &spelled)?;
    Ok(Task { command, spelled })
}

// Whether the command takes what was read, or the first refusal. `mend` has tests of its own, and
// makes them as it mends; and no session keeps the others from being answered.
fn accept_spelled(alloc: Global, command: &Command, spelled: &Spelled) -> Result<(), Fault>
    requires fits { Fits command.now spelled.now }
    ensures admits { OnOk result (Admits command.now spelled.now) }
    ensures fault { IfErr result (IsRefusedSo (refusal_in command.now spelled.now)) }
{
    let Spelled::Bundle(bundle) = spelled else {
        return Ok(());
    };
    match command {
        Command::Mend => Ok(()),
        Command::Monitor(role) => Ok(accept_role(alloc, role, bundle)?),
        _ => Ok(accept(alloc, bundle)?),
    }
}
