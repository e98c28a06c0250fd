//! A stage that was stopped, one whose role has finished, and seats that are handed in with the
//! first one last.

ghost use Rattle.std.specs.Prelude.{◌≡◌, ◌∷◌, [], IfOk, IfSome, length};
ghost use Rattle.dioc_terms.specs.Plain.{plain};
ghost use Rattle.dioc_terms.specs.Bundles.{IsFormed};
ghost use Rattle.marked_laws.specs.Laws.{IsSound};
ghost use Rattle.stage.specs.Holds.{IsFeeder};
ghost use Rattle.stage.specs.Stages.{IsSeatIn};
ghost use Rattle.turn_lock.specs.Words.{view};

use bundle_text::read_bundle;
use dioc_terms::Bundle;
use net_laws::accepted_is_sound;
use role_runner::{Ending, OpenGate, run_roles};
use rule_checks::accept;
use stage::{CommitFault, Home, Stage, Why};
use std::alloc::Global;
use std::test::Fail;
use turn_lock::Seat;

const LIMIT: u64 = 8;

/// One role, and a change that is due from the start.
const SCRIPTED: &[u8] = b"aioc { x@a = 1 } script { after 0 env k = true }";

/// The bundle of a text, where it is accepted and has one role.
fn bundle_of(alloc: Global, text: &[u8]) -> Option<Bundle>
    ensures sound { IfSome result (λ bundle. IsSound (plain bundle)) }
    ensures one { IfSome result (λ bundle. length bundle.cast ≡ 1) }
{
    match read_bundle(alloc, text) {
        Ok(bundle) => accepted(alloc, bundle),
        Err(_) => None,
    }
}

/// The bundle, where it is accepted and has one role.
fn accepted(alloc: Global, bundle: Bundle) -> Option<Bundle>
    requires { IsFormed (plain bundle) }
    ensures sound { IfSome result (λ bundle. IsSound (plain bundle)) }
    ensures one { IfSome result (λ bundle. length bundle.cast ≡ 1) }
{
    accepted_is_sound();
    match accept(alloc, &bundle) {
        Ok(()) => of_one_role(bundle),
        Err(fault) => {
            drop((fault, bundle));
            None
        }
    }
}

/// The bundle, where it has one role.
fn of_one_role(bundle: Bundle) -> Option<Bundle>
    requires { IsSound (plain bundle) }
    ensures sound { IfSome result (λ bundle. IsSound (plain bundle)) }
    ensures one { IfSome result (λ bundle. length bundle.cast ≡ 1) }
{
    if bundle.cast.len() != 1 {
        drop(bundle);
        return None;
    }
    Some(bundle)
}

/// The two seats of a list of two.
fn both(seats: Vec<Seat<Home>>) -> Option<(Seat<Home>, Seat<Home>)>
    ensures { IfSome result (λ two. seats.items ≡ two.0 ∷ two.1 ∷ []) }
{
    let mut seats = seats;
    let feeder = seats.pop();
    let first = seats.pop();
    if !seats.is_empty() {
        drop((seats, first, feeder));
        return None;
    }
    drop(seats);
    Some((first?, feeder?))
}

/// Whether a stage that holds nothing more gives its history, with the first seat last.
fn closes(stage: Stage, alloc: Global, first: Seat<Home>, feeder: Seat<Home>) -> Result<u64, Fail>
    requires first { IsSeatIn stage first }
    requires feeder { IsSeatIn stage feeder }
{
    let mut seats = Vec::with_capacity(alloc, 2)?;
    seats.push_reserved(feeder);
    seats.push_reserved(first);
    match stage.close(seats) {
        Ok(history) => {
            let count = history.len();
            drop(history);
            Ok(count)
        }
        Err(back) => {
            drop(back);
            Err(Fail::new("it didn't close"))
        }
    }
}

/// A stage of the scripted bundle before its first entry, the seat of its role, and the feeder's.
fn opened(alloc: Global) -> Result<(Stage, Seat<Home>, Seat<Home>), Fail>
    ensures first { IfOk result (λ made. IsSeatIn made.0 made.1) }
    ensures second { IfOk result (λ made. IsSeatIn made.0 made.2) }
    ensures feeder { IfOk result (λ made. IsFeeder (view made.2)) }
{
    let Some(bundle) = bundle_of(alloc, SCRIPTED) else {
        return Err(Fail::new("not accepted"));
    };
    let made = Stage::new(alloc, &bundle, LIMIT);
    drop(bundle);
    let (stage, mut seats) = made?;
    let (Some(feeder), Some(first)) = (seats.pop(), seats.pop()) else {
        return Err(Fail::new("no seats"));
    };
    drop(seats);
    Ok((stage, first, feeder))
}

#[test]
fn the_first_stop_is_answered(rt: HostRuntime) -> Result<(), Fail> {
    let alloc = rt.alloc();
    let (stage, first, feeder) = opened(alloc)?;
    let first = stage.stop(&rt, first, Why::Memory(7));
    let feeder = stage.stop(&rt, feeder, Why::Memory(8));
    let (feeder, made) = stage.commit_change(&rt, feeder);
    let count = closes(stage, alloc, first, feeder)?;
    assert!(rt; made == Err(CommitFault::Stopped(Why::Memory(7))));
    assert!(rt; count == 0);
    Ok(())
}

#[test]
#[tactic(auto, using(crate::proofs::StageLemmas::feeder_after))]
fn a_change_after_all_have_finished(rt: HostRuntime) -> Result<(), Fail> {
    let alloc = rt.alloc();
    let Some(bundle) = bundle_of(alloc, SCRIPTED) else {
        panic!(rt; "not accepted")
    };
    let (stage, seats) = Stage::new(alloc, &bundle, LIMIT)?;
    let (seats, ending) = run_roles(&rt, alloc, &stage, seats, &bundle, LIMIT, &OpenGate);
    let Some((first, feeder)) = both(seats) else {
        panic!(rt; "no seats")
    };
    let (feeder, made) = stage.commit_change(&rt, feeder);
    let count = closes(stage, alloc, first, feeder)?;
    drop(bundle);
    let Some(Ending::Ended) = ending else {
        panic!(rt; "the role has not ended")
    };
    assert!(rt; made == Err(CommitFault::Ended));
    assert!(rt; count == 2);
    Ok(())
}

#[test]
fn a_stop_ends_all_waits(rt: HostRuntime) -> Result<(), Fail> {
    let alloc = rt.alloc();
    let (stage, first, feeder) = opened(alloc)?;
    let feeder = stage.stop(&rt, feeder, Why::Memory(0));
    stage.wait_past(&rt, u64::MAX);
    stage.wait_past_at(&rt, 0, u64::MAX);
    stage.wait_past_at(&rt, 1, u64::MAX);
    stage.wait_for_mail(&rt, 0);
    let holds = stage.holds(&rt);
    let count = closes(stage, alloc, first, feeder)?;
    assert!(rt; holds == 1);
    assert!(rt; count == 0);
    Ok(())
}
