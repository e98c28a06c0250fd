//! A role that runs in its thread.

ghost use Rattle.std.specs.Prelude.{◌≡◌, ◌<◌, [], false, true, None, IfSome, length};
ghost use Rattle.dioc_terms.specs.Equality.{member};
ghost use Rattle.dioc_terms.specs.Plain.{plain};
ghost use Rattle.dpoc_process.specs.LocalStates.{offered};
ghost use Rattle.flat_role.specs.FlatStates.{local_of};
ghost use Rattle.marked_laws.specs.Laws.{IsSound};
ghost use Rattle.role_runner.specs.Plays.{AllNotYet, CanPlay, Left};
ghost use Rattle.role_runner.specs.Ties.{IfRefused, IsRefusedTry, IsSeated, IsTied, WentOn, is_not_yet};
ghost use Rattle.stage.specs.Owners.{cast_place};
ghost use Rattle.stage.specs.Seats.{HasMet, LookedOn};
ghost use Rattle.stage.specs.Stages.{IsSeatIn};
ghost use Rattle.turn_lock.specs.Words.{view};

use crate::acting::{Tried, commit};
use crate::actors::Actor;
use crate::gates::{Gate, Place};
use crate::scopes::begin;
use dioc_terms::Act;
use dpoc_process::{PrepareFault, Runs};
use flat_role::FlatRole;
use net_core::opening_state;
use stage::{CommitFault, Home, Why};
use std::sync::Wait;
use turn_lock::Seat;

/// A role's run, from its opening state on: until its process has ended, the history is full,
/// memory runs out or the stage was stopped. Its seat comes back, and with it the role's own state,
/// unless memory was wanting for that.
pub(crate) fn play<R: Wait, G: Gate>(
    rt: &R,
    actor: &Actor<'_, G>,
    seat: Seat<Home>,
) -> (Seat<Home>, Option<FlatRole>)
    requires sound { IsSound (plain actor.now.bundle.now) }
    requires of { IsSeatIn actor.now.stage.now seat }
    requires in_cast { member actor.now.role.now actor.now.bundle.now.cast ≡ true }
    requires seated { IsSeated (plain actor.now.bundle.now)
        (cast_place actor.now.bundle.now.cast actor.now.role.now) (view seat) }
    requires fresh { (view seat).seen ≡ [] }
    ensures of { IsSeatIn actor.now.stage.now result.0 }
    ensures went { WentOn (view seat) (view result.0) }
    ensures tied { IfSome result.1
        (λ state. IsTied (plain actor.now.bundle.now) actor.now.role.now (view result.0)
        (local_of state)) }
{
    dioc_terms::casts_are_roles();
    match opening_state(actor.alloc, actor.bundle, actor.role) {
        Ok(state) => play_on(rt, actor, seat, state),
        Err(_) => (actor.stage.stop(rt, seat, Why::Memory(actor.place)), None),
    }
}

/// The same, from where the role stands.
fn play_on<R: Wait, G: Gate>(
    rt: &R,
    actor: &Actor<'_, G>,
    seat: Seat<Home>,
    state: FlatRole,
) -> (Seat<Home>, Option<FlatRole>)
    requires can { CanPlay actor.now seat state }
    ensures of { IsSeatIn actor.now.stage.now result.0 }
    ensures went { WentOn (view seat) (view result.0) }
    ensures tied { IfSome result.1
        (λ state. IsTied (plain actor.now.bundle.now) actor.now.role.now (view result.0)
        (local_of state)) }
{
    let stage = actor.stage;
    let place = actor.place as usize;
    let mut seat = seat;
    let mut state = state;
    let mut acts = Vec::new(actor.alloc);
    for _ in rt.forever() {
        let count = stage.holds_at(place);
        if state.is_done() {
            return (stage.finish(rt, seat, actor.role), Some(state));
        }
        let (next, tried) = take_turn(rt, actor, seat, &mut state, &mut acts);
        seat = next;
        match tried {
            Tried::Done => {}
            Tried::Refused(CommitFault::NotYet) => stage.wait_past_at(rt, place, count),
            Tried::Refused(CommitFault::Full) => {
                return (stage.stop(rt, seat, Why::Limit), Some(state));
            }
            Tried::Refused(CommitFault::Memory) => {
                return (stage.stop(rt, seat, Why::Memory(actor.place)), Some(state));
            }
            Tried::Refused(_) => return (seat, Some(state)),
            Tried::Behind => {
                return (
                    stage.stop(rt, seat, Why::Memory(actor.place)),
                    given_up(state),
                );
            }
        }
    }
    unreachable!()
}

/// Lets go of the state of a role that is behind its seat.
fn given_up(state: FlatRole) -> Option<FlatRole>
    ensures { result ≡ None }
{
    drop(state);
    None
}

/// Lists the acts of the role's process, and goes once over them to do those that may come, until
/// one is refused for more than that it may not come yet. Where none may come yet each was refused
/// so. The list is for the acts, whatever it has.
fn take_turn<R: Wait, G: Gate>(
    rt: &R,
    actor: &Actor<'_, G>,
    seat: Seat<Home>,
    state: &mut FlatRole,
    acts: &mut Vec<Act>,
) -> (Seat<Home>, Tried)
    requires can { CanPlay actor.now seat state.old }
    ensures left { Left actor.now seat result.0 result.1 state.new }
    ensures tried { is_not_yet result.1 ≡ true
        → AllNotYet (offered (local_of state.old)) seat result.0 }
{
    let Ok(()) = state.refresh_acts(actor.alloc, acts) else {
        return (seat, Tried::Refused(CommitFault::Memory));
    };
    if only_takes(acts.as_slice()) {
        actor.stage.wait_for_mail(rt, actor.place as usize);
    }
    try_offered(rt, actor, seat, state, acts.as_slice())
}

/// Goes once over the acts. A single act, and one that takes no message, is tried at once.
fn try_offered<R: Wait, G: Gate>(
    rt: &R,
    actor: &Actor<'_, G>,
    seat: Seat<Home>,
    state: &mut FlatRole,
    acts: &[Act],
) -> (Seat<Home>, Tried)
    requires can { CanPlay actor.now seat state.old }
    ensures left { Left actor.now seat result.0 result.1 state.new }
    ensures tried { is_not_yet result.1 ≡ true → AllNotYet acts.now seat result.0 }
{
    if asks_first(acts) {
        return try_first(rt, actor, seat, state, acts);
    }
    match acts {
        [] => (seat, Tried::Refused(CommitFault::NotYet)),
        [act] => try_act(rt, actor, seat, state, act),
        [act, rest @ ..] => {
            let (next, tried) = try_act(rt, actor, seat, state, act);
            match tried {
                Tried::Done => go_round(rt, actor, next, state, rest),
                _ => {
                    if tried.is_not_yet() {
                        return try_first(rt, actor, next, state, acts);
                    }
                    (next, tried)
                }
            }
        }
    }
}

/// Asks the stage for the first act that may come, and tries it, until one is done or refused for
/// more than that it may not come yet, or none may come yet. Where one is done those behind it
/// follow.
fn try_first<R: Wait, G: Gate>(
    rt: &R,
    actor: &Actor<'_, G>,
    seat: Seat<Home>,
    state: &mut FlatRole,
    acts: &[Act],
) -> (Seat<Home>, Tried)
    requires can { CanPlay actor.now seat state.old }
    ensures left { Left actor.now seat result.0 result.1 state.new }
    ensures tried { is_not_yet result.1 ≡ true → AllNotYet acts.now seat result.0 }
{
    let mut seat = seat;
    for _ in rt.forever() {
        let (next, first) = actor.stage.first_ready(rt, seat, acts);
        seat = next;
        let Some(at) = first else {
            return (seat, Tried::Refused(CommitFault::NotYet));
        };
        let (next, tried) = try_act(rt, actor, seat, state, &acts[at]);
        seat = next;
        match tried {
            Tried::Done => return go_round(rt, actor, seat, state, &acts[at + 1..]),
            _ => {
                if !tried.is_not_yet() {
                    return (seat, tried);
                }
            }
        }
    }
    unreachable!()
}

/// Goes once over acts that were listed before another was done, and does those that may come. One
/// that isn't offered any more is passed over.
fn go_round<R: Wait, G: Gate>(
    rt: &R,
    actor: &Actor<'_, G>,
    seat: Seat<Home>,
    state: &mut FlatRole,
    acts: &[Act],
) -> (Seat<Home>, Tried)
    requires can { CanPlay actor.now seat state.old }
    ensures left { Left actor.now seat result.0 result.1 state.new }
    ensures over { is_not_yet result.1 ≡ false }
{
    let mut seat = seat;
    let mut rest = acts;
    for _ in 0..acts.len() {
        let (next, first) = next_to_try(rt, actor, seat, rest);
        seat = next;
        let Some(at) = first else {
            return (seat, Tried::Done);
        };
        let (next, tried) = try_act(rt, actor, seat, state, &rest[at]);
        seat = next;
        match tried {
            Tried::Done => {}
            _ => {
                if !tried.is_not_yet() {
                    return (seat, tried);
                }
            }
        }
        rest = &rest[at + 1..];
    }
    (seat, Tried::Done)
}

/// Where the act stands that is to be tried next: the first, where it is single or takes no
/// message, and else the first that may come.
fn next_to_try<R: Wait, G: Gate>(
    rt: &R,
    actor: &Actor<'_, G>,
    seat: Seat<Home>,
    acts: &[Act],
) -> (Seat<Home>, Option<usize>)
    requires of { IsSeatIn actor.now.stage.now seat }
    requires met { HasMet (view seat) }
    ensures of { IsSeatIn actor.now.stage.now result.0 }
    ensures looked { LookedOn (view seat) (view result.0) }
    ensures within { IfSome result.1 (λ at. at < length acts.now) }
{
    if acts.is_empty() {
        return (seat, None);
    }
    if asks_first(acts) {
        return actor.stage.first_ready(rt, seat, acts);
    }
    (seat, Some(0))
}

/// Whether there are several acts, and the first takes a message, which may not be there yet.
fn asks_first(acts: &[Act]) -> bool {
    matches!(acts, [Act::Take(_), _, ..])
}

/// Whether each act takes a message.
fn only_takes(acts: &[Act]) -> bool {
    acts.iter().all(|act| matches!(act, Act::Take(_)))
}

/// One try of an act: it is prepared outside the lock, committed inside it, and then done by the
/// role's own state. Nothing is done of one that isn't offered any more.
fn try_act<R: Wait, G: Gate>(
    rt: &R,
    actor: &Actor<'_, G>,
    seat: Seat<Home>,
    state: &mut FlatRole,
    act: &Act,
) -> (Seat<Home>, Tried)
    requires can { CanPlay actor.now seat state.old }
    ensures left { Left actor.now seat result.0 result.1 state.new }
    ensures refused { IfRefused result.1 (IsRefusedTry act.now (view seat) (view result.0)
        (local_of state.old) (local_of state.new)) }
{
    match state.prepare_act(actor.alloc, act) {
        Ok(shown) => {
            actor.gate.pass(rt, Place::BeforeStep(actor.role));
            match act {
                Act::Put(_) | Act::Take(_) | Act::Set(_) | Act::Input(_) | Act::Pick(_) => {
                    commit(rt, actor, seat, state, act, shown)
                }
                Act::Scope(_) => begin(rt, actor, seat, state, act, shown),
            }
        }
        Err(PrepareFault::NoAct) => (seat, Tried::Done),
        Err(PrepareFault::Memory) => (seat, Tried::Refused(CommitFault::Memory)),
    }
}
