//! `resume`: a run that stopped goes on from the entries of a bundle's trace.

ghost use Rattle.std.specs.Prelude.{◌≡◌, ◌≤◌, IfOk};
ghost use Rattle.dioc_terms.specs.Plain.{plain};
ghost use Rattle.net_core.specs.Nets.{IsSoundRun};
ghost use Rattle.rule_checks.specs.Refusals.{IsAccepted};
ghost use Rattle.command_words.specs.Commands.{most_steps};
ghost use Rattle.command_words.specs.declared.commands.Verb.{Verb};
ghost use Rattle.aioc_top.specs.Replies.{reply_of, resume_reply, run_reply};

use crate::replies::{Written, run_written, say_no};
use command_words::Options;
use dioc_terms::{Bundle, Memory, give_up};
use flat_role::FlatRole;
use net_core::Net;
use net_drive::{ResumeFault, resume_entries, run_strays_are_exact};
use schedule::run_seeded;
use std::alloc::Global;

/// The text of the run that goes on from the entries of the trace section, by the schedule and to
/// at most as many entries as the options say, those of the section included; where these are more,
/// it is that of the first of them. `no` with the number of the first entry that the network can't
/// do. What the section says in its last line isn't judged.
pub fn resume(alloc: Global, options: &Options, bundle: &Bundle) -> Result<Written, Memory>
    requires accepted { IsAccepted (plain bundle.now) }
    requires short { options.now.steps ≤ most_steps Verb.Resume }
    ensures { IfOk result (λ written. reply_of written
        ≡ resume_reply options.now (plain bundle.now)) }
{
    run_strays_are_exact();
    let entries = bundle.trace.entries.as_slice();
    match resume_entries(alloc, bundle, entries, options.steps) {
        Ok(mut net) => match run_seeded(&mut net, options.seed) {
            Ok(_) => say_run(alloc, options, net),
            Err(fault) => give_up(net, fault),
        },
        Err(ResumeFault::Full(net)) => say_run(alloc, options, net),
        Err(ResumeFault::Stray(number)) => say_no(alloc, number),
        Err(ResumeFault::Memory) => Err(Memory),
    }
}

/// The text of the run that a net has made, and whether it has ended.
pub(crate) fn say_run(
    alloc: Global,
    options: &Options,
    net: Net<FlatRole>,
) -> Result<Written, Memory>
    requires run { IsSoundRun net }
    ensures { IfOk result (λ written. reply_of written
        ≡ run_reply options.now net.bundle net.history) }
{
    run_written(alloc, options, net.history().as_slice(), net.is_ended())
}
