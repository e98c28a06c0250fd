//! `replay`: the judgement of a bundle's trace.

ghost use Rattle.std.specs.Prelude.{◌≡◌, ◌<◌, ◌+◌, length, true, false, None, Some, IfOk};
ghost use Rattle.dioc_terms.specs.Bundles.{IsFormed};
ghost use Rattle.dioc_terms.specs.Messages.{visible};
ghost use Rattle.dioc_terms.specs.Plain.{plain};
ghost use Rattle.global_follower.specs.KeptPlays.{setting_of, state_of};
ghost use Rattle.global_steps.specs.Follow.{play_from, stray_from};
ghost use Rattle.global_steps.specs.Running.{ended};
ghost use Rattle.aioc_top.specs.Judging.{is_cut_short};
ghost use Rattle.aioc_top.specs.Replies.{replay_reply, reply_of, yes, no};

use crate::replies::{Written, say_no, say_yes};
use aux_messages::is_aux;
use dioc_terms::{Bundle, Entry, Last, Memory};
use global_follower::Follower;
use std::alloc::Global;

/// The judgement of the entries of the trace section by the choreography: `yes` with how many were
/// judged, where each of them is played; else `no` with the number of the first that isn't, counted
/// from 1. Auxiliary entries are passed over, and have numbers all the same. Where the section says
/// that the run has ended and the choreography has not, the number is one past the last entry.
pub fn replay(alloc: Global, bundle: &Bundle) -> Result<Written, Memory>
    requires formed { IsFormed (plain bundle.now) }
    ensures { IfOk result (λ written. reply_of written ≡ replay_reply (plain bundle.now)) }
{
    let entries = bundle.trace.entries.as_slice();
    let mut follower = Follower::new(alloc, bundle)?;
    let stray = follower.first_stray(alloc, entries);
    let is_over = follower.is_ended();
    drop(follower);
    match stray? {
        Some(number) => say_no(alloc, number),
        None => say_whole(alloc, &bundle.trace.last, is_over, entries),
    }
}

// The reply to a trace of which each entry is played.
fn say_whole(
    alloc: Global,
    last: &Option<Last>,
    is_over: bool,
    entries: &[Entry],
) -> Result<Written, Memory>
    ensures short { is_cut_short last.now is_over ≡ true
        → IfOk result (λ written. reply_of written ≡ no (length entries.now + 1)) }
    ensures whole { is_cut_short last.now is_over ≡ false
        → IfOk result (λ written. reply_of written ≡ yes (length (visible entries.now))) }
{
    if is_cut_short(last, is_over) {
        say_no(alloc, entries.len() as u64 + 1)
    } else {
        say_yes(alloc, visible_len(entries))
    }
}

/// Whether the section says that the run has ended, and it has not.
pub fn is_cut_short(last: &Option<Last>, is_over: bool) -> bool
    ensures { result ≡ is_cut_short last.now is_over }
{
    match last {
        Some(Last::Ended(_)) => !is_over,
        _ => false,
    }
}

/// How many of the entries are visible.
pub fn visible_len(entries: &[Entry]) -> u64
    ensures { result ≡ length (visible entries.now) }
{
    let mut count: u64 = 0;
    for entry in entries {
        if !is_aux(entry) {
            count += 1;
        }
    }
    count
}
