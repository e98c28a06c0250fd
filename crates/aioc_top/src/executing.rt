//! From a command and what it has read to its reply.

ghost use Rattle.std.specs.Prelude.{◌≡◌, false, IfErr, IfOk, OnOk};
ghost use Rattle.aioc_top.specs.Faults.{IsRefusedSo};
ghost use Rattle.aioc_top.specs.Replies.{reply_of};
ghost use Rattle.aioc_top.specs.Spelled.{Admits, Fits, IsMendable, RepliesTo, refusal_in};
ghost use Rattle.aioc_top.specs.Words.{IsShort, needs_threads};

use crate::commands::check::check;
use crate::commands::drive::drive;
use crate::commands::generate::generate;
use crate::commands::mending::mend;
use crate::commands::monitor::monitor;
use crate::commands::project::project;
use crate::commands::replay::replay;
use crate::commands::resume::resume;
use crate::commands::run::run;
use crate::commands::sessions::sessions;
use crate::commands::step::step;
use crate::commands::upgrade::upgrade;
use crate::faults::Fault;
use crate::reading::Spelled;
use crate::replies::Written;
use command_words::Command;
use role_runner::Gate;
use std::alloc::Global;
use std::sync::Wait;
use std::thread::Threads;

/// What the command replies to what it has read, where nothing there is refused; only what `mend`
/// tests is tested here. `run` and `sessions` are done by threads of the runtime, and those of
/// `run` pass the gate.
pub fn execute<R: Threads + Wait + Sync, G: Gate + Sync>(
    rt: &R,
    alloc: Global,
    command: &Command,
    spelled: &mut Spelled,
    gate: &G,
) -> Result<Written, Fault>
    requires short { IsShort command.now }
    requires fits { Fits command.now spelled.old }
    requires admits { Admits command.now spelled.old }
    ensures reply { IfOk result
        (λ written. RepliesTo command.now spelled.old (reply_of written)) }
    ensures mendable { OnOk result (IsMendable command.now spelled.old) }
    ensures fault { IfErr result (IsRefusedSo (refusal_in command.now spelled.old)) }
{
    match command {
        Command::Run(options) => {
            let Spelled::Bundle(bundle) = spelled else {
                unreachable!()
            };
            Ok(run(rt, alloc, options, bundle, gate)?)
        }
        Command::Sessions(options) => {
            let Spelled::Sessions(bundles) = spelled else {
                unreachable!()
            };
            Ok(sessions(rt, alloc, options, bundles.as_slice())?)
        }
        _ => execute_alone(alloc, command, spelled),
    }
}

/// The same of a command that needs no threads, and without a runtime.
pub fn execute_alone(
    alloc: Global,
    command: &Command,
    spelled: &mut Spelled,
) -> Result<Written, Fault>
    requires short { IsShort command.now }
    requires alone { needs_threads command.now ≡ false }
    requires fits { Fits command.now spelled.old }
    requires admits { Admits command.now spelled.old }
    ensures reply { IfOk result
        (λ written. RepliesTo command.now spelled.old (reply_of written)) }
    ensures mendable { OnOk result (IsMendable command.now spelled.old) }
    ensures fault { IfErr result (IsRefusedSo (refusal_in command.now spelled.old)) }
{
    if let Command::Gen { number, size } = command {
        return Ok(generate(alloc, *number, *size)?);
    }
    let Spelled::Bundle(bundle) = spelled else {
        unreachable!()
    };
    match command {
        Command::Step(options) => Ok(step(alloc, options, bundle)?),
        Command::Check => Ok(check(alloc, bundle)?),
        Command::Project => Ok(project(alloc, bundle)?),
        Command::Replay => Ok(replay(alloc, bundle)?),
        Command::Drive(options) => Ok(drive(alloc, options, bundle)?),
        Command::Resume(options) => Ok(resume(alloc, options, bundle)?),
        Command::Monitor(role) => Ok(monitor(alloc, role, bundle)?),
        Command::Upgrade => Ok(upgrade(alloc, bundle)?),
        Command::Mend => Ok(mend(alloc, bundle)?),
        _ => unreachable!(),
    }
}
