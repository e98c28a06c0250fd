//! A run of a bundle from its start to its end or its limit.

ghost use Rattle.std.specs.Prelude.{◌≡◌, ◌≤◌, false, IfOk, length};
ghost use Rattle.dioc_terms.specs.Plain.{plain};
ghost use Rattle.marked_laws.specs.Laws.{IsSound};
ghost use Rattle.network_steps.specs.Network.{network_ended};
ghost use Rattle.network_steps.specs.Schedule.{IsPrompt};
ghost use Rattle.net_core.specs.Nets.{network_at};
ghost use Rattle.role_runner.specs.Endings.{IsRun};
ghost use Rattle.role_runner.specs.Runs.{IsWhole};
ghost use Rattle.schedule.specs.Turns.{has_ended};

use crate::gates::Gate;
use crate::threads::{Ending, run_roles};
use dioc_terms::{Bundle, Memory, give_up};
use flat_role::FlatRole;
use net_core::Net;
use schedule::run_seeded;
use stage::{Stage, others_leave_alone};
use std::alloc::Global;
use std::sync::Wait;
use std::thread::Threads;
use trace_book::History;

/// What a run gives.
#[derive(Drop)]
pub struct Outcome {
    /// The entries, in the order in which they were committed.
    pub history: History,
    /// Whether the network has ended; else the history has as many entries as it may.
    pub ended: bool,
}

/// Runs a bundle with a thread for each role, and one for the changes of its script, until its
/// network has ended or its history has `limit` entries. The roles may interleave in any way; a
/// change that is due comes before any entry of a role. It waits for its threads.
///
/// Where a thread can't be started no role has begun, and the caller runs the bundle by the
/// schedule without a seed. No gate is passed then, since no thread of a run comes to a place.
pub fn run<R: Threads + Wait + Sync, G: Gate + Sync>(
    rt: &R,
    alloc: Global,
    bundle: &Bundle,
    limit: u64,
    gate: &G,
) -> Result<Outcome, Memory>
    requires sound { IsSound (plain bundle.now) }
    requires small { limit ≤ 4294967295 }
    requires few { length bundle.now.cast ≤ 4294967295 }
    ensures run { IfOk result (λ outcome. IsRun (plain bundle.now) outcome.history.entries) }
    ensures prompt { IfOk result
        (λ outcome. IsPrompt (plain bundle.now) outcome.history.entries) }
    ensures within { IfOk result (λ outcome. length outcome.history.entries ≤ limit) }
    ensures ended { IfOk result (λ outcome. outcome.ended ≡ network_ended (plain bundle.now).cast
        (network_at (plain bundle.now) outcome.history.entries)) }
    ensures full { IfOk result (λ outcome. outcome.ended ≡ false
        → length outcome.history.entries ≡ limit) }
{
    dioc_terms::casts_are_roles();
    marked_laws::nothing_left();
    others_leave_alone();
    let (stage, seats) = Stage::new(alloc, bundle, limit)?;
    let (seats, ending) = run_roles(rt, alloc, &stage, seats, bundle, limit, gate);
    let Ok(history) = stage.close(seats) else {
        unreachable!()
    };
    let Some(ending) = ending else {
        drop(history);
        return run_alone(alloc, bundle, limit);
    };
    match ending {
        Ending::Ended => Ok(Outcome {
            history,
            ended: true,
        }),
        Ending::Limit => Ok(Outcome {
            history,
            ended: false,
        }),
        Ending::Memory => {
            drop(history);
            Err(Memory)
        }
    }
}

/// Runs a bundle on the caller's thread alone, by the schedule without a seed.
fn run_alone(alloc: Global, bundle: &Bundle, limit: u64) -> Result<Outcome, Memory>
    requires sound { IsSound (plain bundle.now) }
    requires small { limit ≤ 4294967295 }
    ensures { IfOk result (IsWhole (plain bundle.now) limit) }
{
    let mut net: Net<FlatRole> = Net::start(alloc, bundle, limit)?;
    match run_seeded(&mut net, None) {
        Ok(_finish) => Ok(outcome_of(net)),
        Err(fault) => give_up(net, fault),
    }
}

/// What the run of a net gives.
fn outcome_of(net: Net<FlatRole>) -> Outcome
    ensures history { result.history.entries ≡ net.history }
    ensures ended { result.ended ≡ has_ended net }
{
    let ended = net.is_ended();
    let history = net.into_history();
    Outcome { history, ended }
}
