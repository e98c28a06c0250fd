//! The feeder: it makes the changes of the script.

ghost use Rattle.std.specs.Prelude.{◌≡◌, ◌≢◌};
ghost use Rattle.role_runner.specs.Ties.{LeftFor, WentOn};
ghost use Rattle.stage.specs.Faults.{feeder_fault};
ghost use Rattle.stage.specs.Holds.{IsFeeder};
ghost use Rattle.stage.specs.Seats.{HasMet};
ghost use Rattle.stage.specs.Stages.{IsSeatIn};
ghost use Rattle.turn_lock.specs.Words.{view};

use crate::gates::{Gate, Place};
use stage::{CommitFault, Home, Stage, Why};
use std::sync::Wait;
use turn_lock::Seat;

/// Makes the changes of the script, each once it is due, until none is left, the history is full,
/// every role has finished, memory runs out or the stage was stopped. It waits at this place, which
/// is past those of the roles. The seat comes back, with the fault for which the last change was
/// refused.
pub(crate) fn feed<R: Wait, G: Gate>(
    rt: &R,
    stage: &Stage,
    gate: &G,
    place: usize,
    seat: Seat<Home>,
) -> (Seat<Home>, CommitFault)
    requires of { IsSeatIn stage.now seat }
    requires feeder { IsFeeder (view seat) }
    requires met { HasMet (view seat) }
    ensures of { IsSeatIn stage.now result.0 }
    ensures went { WentOn (view seat) (view result.0) }
    ensures over { result.1 ≢ CommitFault.NotYet }
    ensures left { LeftFor feeder_fault (view seat) (view result.0) result.1 }
{
    let mut seat = seat;
    for _ in rt.forever() {
        let count = stage.holds_at(place);
        let (next, made) = stage.commit_change(rt, seat);
        seat = next;
        match made {
            Ok(()) => gate.pass(rt, Place::AfterChange),
            Err(fault) => match fault {
                CommitFault::NotYet => stage.wait_past_at(rt, place, count),
                CommitFault::Memory => return (stage.stop(rt, seat, Why::Memory(0)), fault),
                _ => return (seat, fault),
            },
        }
    }
    unreachable!()
}
