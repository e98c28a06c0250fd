//! `run`: the run of a bundle with a thread for each role.

ghost use Rattle.std.specs.Prelude.{◌≤◌, IfOk};
ghost use Rattle.dioc_terms.specs.Plain.{plain};
ghost use Rattle.rule_checks.specs.Refusals.{IsAccepted};
ghost use Rattle.command_words.specs.Commands.{most_steps};
ghost use Rattle.command_words.specs.declared.commands.Command.TheVariants as command;
ghost use Rattle.command_words.specs.declared.commands.Verb.{Verb};
ghost use Rattle.aioc_top.specs.Replies.{Replies, reply_of};

use crate::replies::{Written, run_written};
use command_words::Options;
use dioc_terms::{Bundle, Memory};
use net_laws::accepted_is_sound;
use role_runner::Gate;
use std::alloc::Global;
use std::sync::Wait;
use std::thread::Threads;

/// The text of a run in which each role has a thread, to at most as many entries as the options
/// say, and how it ended. The roles may interleave in any way, and a change that is due comes
/// before any entry of a role. Auxiliary entries are printed with `--aux` alone, and JSON objects
/// with `--json`.
pub fn run<R: Threads + Wait + Sync, G: Gate + Sync>(
    rt: &R,
    alloc: Global,
    options: &Options,
    bundle: &Bundle,
    gate: &G,
) -> Result<Written, Memory>
    requires accepted { IsAccepted (plain bundle.now) }
    requires short { options.now.steps ≤ most_steps Verb.Run }
    ensures { IfOk result
        (λ written. Replies (command.Run options.now) (plain bundle.now) (reply_of written)) }
{
    accepted_is_sound();
    let outcome = role_runner::run(rt, alloc, bundle, options.steps, gate)?;
    run_written(alloc, options, outcome.history.as_slice(), outcome.ended)
}
