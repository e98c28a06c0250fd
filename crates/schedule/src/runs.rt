//! A run by a schedule, to its end or to its limit.

ghost use Rattle.std.specs.Prelude.{◌≡◌, ◌≤◌, ◌<◌, ◌↔◌, [], true, false, None, Some, IfOk, OnErr, OnOk, length, map};
ghost use Rattle.network_steps.specs.Schedule.{IsPrompt, sched_from};
ghost use Rattle.net_core.specs.Nets.{IsSoundRun};
ghost use Rattle.schedule.specs.Agendas.{IsBehind, ready_seen};
ghost use Rattle.schedule.specs.Runs.{HasGone, IsOnTheWay, finish_at};
ghost use Rattle.schedule.specs.Turns.{Advances, has_ended};

use crate::agenda::keep_up;
use crate::numbers::next_seed;
use crate::roles::{Listed, ReadyRole};
use crate::turns::take_next;
use dioc_terms::Memory;
use dpoc_process::Runs;
use net_core::Net;

/// How a run finished: its network has ended, or its history is full.
#[derive(Clone, Copy)]
pub enum Finish {
    Ended,
    Limit,
}

/// Runs a network by the schedule until it has ended or its history is full: without a seed the
/// first move each time, and with a seed the one that the next number says.
///
/// After `Memory` the net has made the first entries of that run, possibly none. Called again
/// without a seed, where there was none, it goes on to the same end.
pub fn run_seeded<R: Runs>(net: &mut Net<R>, seed: Option<u64>) -> Result<Finish, Memory>
    requires { net.old.limit ≤ 4294967295 }
    ensures history { OnOk result (net.new.history
        ≡ sched_from net.old.bundle net.old.history seed net.old.limit) }
    ensures ended { IfOk result (λ finish. (finish ≡ Finish.Ended) ↔ (has_ended net.new ≡ true)) }
    ensures limit { IfOk result (λ finish. (finish ≡ Finish.Limit)
        ↔ ((length net.new.history ≡ net.new.limit) × (has_ended net.new ≡ false))) }
    ensures way { IsOnTheWay net.old.bundle net.old.history seed net.old.limit
        net.new.history }
    ensures again { seed ≡ None → sched_from net.new.bundle net.new.history None net.new.limit
        ≡ sched_from net.old.bundle net.old.history None net.old.limit }
    ensures run { IsSoundRun net.new }
    ensures prompt { seed ≡ None → IsPrompt net.old.bundle net.old.history
        → IsPrompt net.new.bundle net.new.history }
    ensures same_bundle { net.new.bundle ≡ net.old.bundle }
    ensures same_limit { net.new.limit ≡ net.old.limit }
{
    let mut made = None;
    let mut agenda = Vec::new(net.allocator());
    let finish = take_turns(net, seed, &mut made, &mut agenda);
    drop(agenda);
    finish
}

/// Takes turns until the network has ended or its history is full, with the last move and the
/// agenda from before it.
fn take_turns<R: Runs>(
    net: &mut Net<R>,
    seed: Option<u64>,
    made: &mut Option<Listed>,
    agenda: &mut Vec<ReadyRole>,
) -> Result<Finish, Memory>
    requires limit { net.old.limit ≤ 4294967295 }
    requires stale { IsBehind net.old made.old (map ready_seen agenda.old.items) }
    ensures goes { HasGone net.old seed net.new }
    ensures finish { IfOk result (λ finish. finish_at net.new ≡ Some finish) }
    ensures run { IsSoundRun net.new }
{
    let mut numbers = seed;
    'turns: loop {
        if let Some(finish) = finish_of(net) {
            return Ok(finish);
        }
        take_turn(net, numbers, made, agenda)?;
        numbers = next_seed(numbers);
    }
}

/// Takes one turn: brings the agenda up to date after the last move, and makes the next one. After
/// a refusal the net is unchanged, and the agenda may be half done.
fn take_turn<R: Runs>(
    net: &mut Net<R>,
    seed: Option<u64>,
    made: &mut Option<Listed>,
    agenda: &mut Vec<ReadyRole>,
) -> Result<(), Memory>
    requires run { IsSoundRun net.old }
    requires goes { has_ended net.old ≡ false }
    requires room { length net.old.history < net.old.limit }
    requires limit { net.old.limit ≤ 4294967295 }
    requires stale { IsBehind net.old made.old (map ready_seen agenda.old.items) }
    ensures advanced { OnOk result (Advances net.old seed net.new) }
    ensures stale { OnOk result (IsBehind net.new made.new (map ready_seen agenda.new.items)) }
    ensures err { OnErr result (net.new ≡ net.old) }
{
    keep_up(net, *made, agenda)?;
    let next = take_next(net, agenda.as_slice(), seed)?;
    *made = Some(next);
    Ok(())
}

/// How a run has finished where the net stands, if it has.
fn finish_of<R: Runs>(net: &Net<R>) -> Option<Finish>
    ensures finish { result ≡ finish_at net.now }
    ensures run { IsSoundRun net.now }
{
    let entries = net.history().len();
    if net.is_ended() {
        return Some(Finish::Ended);
    }
    if entries >= net.limit() {
        return Some(Finish::Limit);
    }
    None
}
