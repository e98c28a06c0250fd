//! The start of the threads of a run. None does anything before all are started, and where one
//! can't be started all the others go home: a role waits for no thread that isn't there.

ghost use Rattle.std.specs.Prelude.{◌≡◌, ◌≤◌, [], length};
ghost use Rattle.dioc_terms.specs.Plain.{plain};
ghost use Rattle.marked_laws.specs.Laws.{IsSound};
ghost use Rattle.role_runner.specs.Jobs.{CanOpen, EachAt, EndsJob, OpensJob};
ghost use Rattle.role_runner.specs.Starts.{Gives, IsStarted};
ghost use Rattle.stage.specs.Stages.{IsSeatIn};
ghost use Rattle.turn_lock.specs.Words.{view};

use crate::actors::{Actor, Shared};
use crate::feeding::feed;
use crate::gates::Gate;
use crate::playing::play;
use crate::threads::Job;
use dioc_terms::Bundle;
use stage::{Home, Stage};
use std::snapshot::Snapshot;
use std::sync::Wait;
use std::thread::{self, Promise, PromisedHandle, Scope, Threads};
use turn_lock::Seat;

/// What the thread at a place promises: it leaves its seat as the run of the place does.
#[derive(Drop)]
pub(crate) struct Leaves {
    stage: Snapshot<Stage>,
    bundle: Snapshot<Bundle>,
    place: usize,
    seat: Snapshot<Seat<Home>>,
}

impl Promise<Job> for Leaves {
    ghost kept_by = { λ p job.
        EndsJob p.stage.value (plain p.bundle.value) p.place p.seat.value job };
}

/// A thread that was started, or what the caller has left of one that could not be.
#[derive(Drop)]
pub(crate) enum Started {
    There(PromisedHandle<Job, Leaves>),
    Refused(Job),
}

/// Starts a thread for each seat, in their order, and joins them. Says too whether all could be
/// started: else each went home. There is room for all of them.
pub(crate) fn run_jobs<R: Threads + Wait + Sync, G: Gate + Sync>(
    rt: &R,
    stage: &Stage,
    bundle: &Bundle,
    shared: &Shared<'_, G>,
    seats: Vec<Seat<Home>>,
    started: Vec<Started>,
    jobs: Vec<Job>,
) -> (Vec<Job>, bool)
    requires opens { CanOpen stage.now bundle.now seats.items }
    requires started { (started.items ≡ []) × (length seats.items ≤ started.cap) }
    requires jobs { (jobs.items ≡ []) × (length seats.items ≤ jobs.cap) }
    ensures all { length result.0.items ≡ length seats.items }
    ensures ends { EachAt (EndsJob stage.now (plain bundle.now)) seats.items result.0.items }
{
    let (alloc, gate, sign) = (shared.alloc, shared.gate, shared.sign);
    thread::scope(
        thread::scope_env(),
        rt,
        move |scope| -> (Vec<Job>, bool)
            requires opens { CanOpen stage.now bundle.now seats.items }
            requires started { (started.items ≡ []) × (length seats.items ≤ started.cap) }
            requires jobs { (jobs.items ≡ []) × (length seats.items ≤ jobs.cap) }
            ensures all { length result.0.items ≡ length seats.items }
            ensures ends { EachAt (EndsJob stage.entry.now (plain bundle.entry.now)) seats.items
                result.0.items }
        {
            let shared = Shared { alloc, gate, sign };
            let (started, are_whole) = start_all(scope, rt, stage, bundle, &shared, seats, started);
            sign.give(rt, true);
            (join_all(rt, started, jobs), are_whole)
        },
    )
}

/// Starts a thread for each seat, in their order. Says too whether all could be started. There is
/// room for all of them.
fn start_all<'s, E, R: Threads + Wait + Sync, G: Gate + Sync>(
    scope: &Scope<'s, E>,
    rt: &'s R,
    stage: &'s Stage,
    bundle: &'s Bundle,
    shared: &Shared<'s, G>,
    seats: Vec<Seat<Home>>,
    started: Vec<Started>,
) -> (Vec<Started>, bool)
    requires opens { CanOpen stage.now bundle.now seats.items }
    requires started { (started.items ≡ []) × (length seats.items ≤ started.cap) }
    ensures all { length result.0.items ≡ length seats.items }
    ensures starts { EachAt (IsStarted stage.now (plain bundle.now)) seats.items result.0.items }
{
    let mut started = started;
    let mut are_whole = true;
    for seat in seats {
        let place = started.len();
        let one = start(scope, rt, stage, bundle, shared, place, seat);
        are_whole = are_whole && one.is_there();
        started.push_reserved(one);
    }
    (started, are_whole)
}

/// Starts the thread of a place, which waits for the sign. Where it can't be started the sign is to
/// go home, if it wasn't given before, and the seat stays with the caller.
fn start<'s, E, R: Threads + Wait + Sync, G: Gate + Sync>(
    scope: &Scope<'s, E>,
    rt: &'s R,
    stage: &'s Stage,
    bundle: &'s Bundle,
    shared: &Shared<'s, G>,
    place: usize,
    seat: Seat<Home>,
) -> Started
    requires sound { IsSound (plain bundle.now) }
    requires few { length bundle.now.cast ≤ 4294967295 }
    requires opens { OpensJob stage.now (plain bundle.now) place seat }
    ensures { IsStarted stage.now (plain bundle.now) place seat result }
{
    let leaves = Leaves {
        stage: Snapshot::of(stage),
        bundle: Snapshot::of(bundle),
        place,
        seat: Snapshot::of(&seat),
    };
    let (alloc, gate, sign) = (shared.alloc, shared.gate, shared.sign);
    let job = move || {
        let shared = Shared { alloc, gate, sign };
        run_place(rt, stage, bundle, &shared, place, seat)
    };
    match scope.spawn_with(leaves, job) {
        Ok(handle) => Started::There(handle),
        Err(refused) => {
            sign.give(rt, false);
            Started::Refused((refused.value)())
        }
    }
}

impl Started {
    /// Whether the thread could be started.
    fn is_there(&self) -> bool {
        matches!(self, Started::There(_))
    }
}

/// Joins the threads, in their order. There is room for what they leave.
fn join_all<R: Threads>(rt: &R, started: Vec<Started>, jobs: Vec<Job>) -> Vec<Job>
    requires { (jobs.items ≡ []) × (length started.items ≤ jobs.cap) }
    ensures all { length result.items ≡ length started.items }
    ensures gives { EachAt (λ i. Gives) started.items result.items }
{
    let mut jobs = jobs;
    for one in started {
        jobs.push_reserved(join(rt, one));
    }
    jobs
}

/// What a thread leaves.
fn join<R: Threads>(rt: &R, one: Started) -> Job
    ensures { Gives one result }
{
    match one {
        Started::There(handle) => handle.join(rt),
        Started::Refused(job) => job,
    }
}

/// Waits for the sign, and then runs the role of that place of the cast, or, past the roles, the
/// changes of the script. Where the sign is to go home the seat comes back as it was.
fn run_place<R: Wait, G: Gate>(
    rt: &R,
    stage: &Stage,
    bundle: &Bundle,
    shared: &Shared<'_, G>,
    place: usize,
    seat: Seat<Home>,
) -> Job
    requires sound { IsSound (plain bundle.now) }
    requires few { length bundle.now.cast ≤ 4294967295 }
    requires opens { OpensJob stage.now (plain bundle.now) place seat }
    ensures ends { EndsJob stage.now (plain bundle.now) place seat result }
{
    dioc_terms::casts_are_roles();
    if !shared.sign.begins(rt) {
        return Job { seat, state: None };
    }
    match bundle.cast.as_slice().get(place) {
        Some(role) => {
            let actor = Actor {
                alloc: shared.alloc,
                stage,
                bundle,
                gate: shared.gate,
                role,
                place: place as u32,
            };
            let (seat, state) = play(rt, &actor, seat);
            Job { seat, state }
        }
        None => {
            let (seat, _fault) = feed(rt, stage, shared.gate, place, seat);
            Job { seat, state: None }
        }
    }
}
