//! `step`: the run of a bundle on one thread.

ghost use Rattle.std.specs.Prelude.{◌≡◌, ◌≤◌, IfOk};
ghost use Rattle.dioc_terms.specs.Plain.{plain};
ghost use Rattle.rule_checks.specs.Refusals.{IsAccepted};
ghost use Rattle.command_words.specs.Commands.{most_steps};
ghost use Rattle.command_words.specs.declared.commands.Verb.{Verb};
ghost use Rattle.aioc_top.specs.Replies.{reply_of, run_reply, step_history};
ghost use Rattle.aioc_top.specs.Endings.{end_of};

use crate::commands::resume::say_run;
use crate::replies::{End, Written};
use command_words::Options;
use dioc_terms::{Bundle, Memory, give_up};
use flat_role::FlatRole;
use net_core::Net;
use net_laws::accepted_is_sound;
use schedule::{Finish, run_seeded};
use std::alloc::Global;

/// The text of the run that the schedule takes from the start of the bundle's network, to at most
/// as many entries as the options say, and how it ended. Auxiliary entries are printed with `--aux`
/// alone, and JSON objects with `--json`.
pub fn step(alloc: Global, options: &Options, bundle: &Bundle) -> Result<Written, Memory>
    requires accepted { IsAccepted (plain bundle.now) }
    requires short { options.now.steps ≤ most_steps Verb.Step }
    ensures { IfOk result (λ written. reply_of written
        ≡ run_reply options.now (plain bundle.now)
        (step_history options.now (plain bundle.now))) }
{
    accepted_is_sound();
    let mut net: Net<FlatRole> = Net::start(alloc, bundle, options.steps)?;
    match run_seeded(&mut net, options.seed) {
        Ok(_) => say_run(alloc, options, net),
        Err(fault) => give_up(net, fault),
    }
}

pub(crate) fn end_of(finish: Finish) -> End
    ensures { result ≡ end_of finish }
{
    match finish {
        Finish::Ended => End::Done,
        Finish::Limit => End::Limit,
    }
}
