//! The threads of a run: one for each role, and one for the changes of the script.

ghost use Rattle.std.specs.Prelude.{◌≡◌, ◌≢◌, ◌↔◌, ◌≤◌, [], All, IfOk, IfSome, None, Some, if◌then◌else◌, length, map, take};
ghost use Rattle.dioc_terms.specs.Plain.{plain};
ghost use Rattle.marked_laws.specs.Laws.{IsSound};
ghost use Rattle.role_runner.specs.Endings.{AllEnded, AllWent, SomeCut};
ghost use Rattle.role_runner.specs.Jobs.{ending_in, is_cut, has_done_state};
ghost use Rattle.stage.specs.Seats.{opening_views};
ghost use Rattle.stage.specs.Stages.{IsSeatIn};
ghost use Rattle.turn_lock.specs.Words.{view};

use crate::actors::Shared;
use crate::gates::Gate;
use crate::sign::Sign;
use crate::starting::{Started, run_jobs};
use dioc_terms::{Bundle, Memory};
use dpoc_process::Runs;
use flat_role::FlatRole;
use stage::{Home, Stage};
use std::alloc::Global;
use std::sync::Wait;
use std::thread::Threads;
use turn_lock::Seat;

/// How the roles of a stage came to their end.
#[derive(Clone, Copy)]
pub enum Ending {
    /// Each role's process has ended.
    Ended,
    /// The history has as many entries as it may, and some role's process has not ended.
    Limit,
    /// Memory ran out.
    Memory,
}

/// What the thread of a seat leaves: the seat, and a role's state. The feeder has none, and neither
/// has a role that found no memory for its own state or was sent home.
#[derive(Drop)]
pub(crate) struct Job {
    pub seat: Seat<Home>,
    pub state: Option<FlatRole>,
}

/// Runs the roles of a stage, each in a thread of its own, and the changes of its script in one
/// more, on this stage alone. All seats come back in their order. `Ended` comes exactly where each
/// role's process has ended after what its seat has seen, and `Limit` exactly where some role's
/// seat has seen as many entries as there may be and the role's process has not ended after them;
/// but where memory ran out the answer is `Memory`.
///
/// No role begins before all threads are started. Where one can't be, the others go home and the
/// answer is `None`. It waits for its threads.
pub fn run_roles<R: Threads + Wait + Sync, G: Gate + Sync>(
    rt: &R,
    alloc: Global,
    stage: &Stage,
    seats: Vec<Seat<Home>>,
    bundle: &Bundle,
    limit: u64,
    gate: &G,
) -> (Vec<Seat<Home>>, Option<Ending>)
    requires sound { IsSound (plain bundle.now) }
    requires few { length bundle.now.cast ≤ 4294967295 }
    requires of { All (λ s. IsSeatIn stage.now s) seats.items }
    requires fresh { map view seats.items
        ≡ opening_views (plain bundle.now, limit) (length bundle.now.cast) }
    ensures of { All (λ s. IsSeatIn stage.now s) result.0.items }
    ensures went { AllWent (map view seats.items) (map view result.0.items) }
    ensures ended { IfSome result.1 (λ ending. ending ≢ Ending.Memory → ((ending ≡ Ending.Ended)
        ↔ AllEnded (plain bundle.now) (map view result.0.items))) }
    ensures limit { IfSome result.1 (λ ending. ending ≢ Ending.Memory → ((ending ≡ Ending.Limit)
        ↔ SomeCut (plain bundle.now) limit (map view result.0.items))) }
{
    let Ok(
        Room {
            started,
            jobs,
            back,
        },
    ) = make_room(alloc, seats.len())
    else {
        return (seats, Some(Ending::Memory));
    };
    let sign = Sign::new();
    let shared = Shared {
        alloc,
        gate,
        sign: &sign,
    };
    let (jobs, are_whole) = run_jobs(rt, stage, bundle, &shared, seats, started, jobs);
    let ending = ending_if(are_whole, jobs.as_slice(), bundle.cast.len(), limit);
    (close_jobs(jobs, back), ending)
}

/// Room for threads, for what they leave, and for their seats.
struct Room {
    started: Vec<Started>,
    jobs: Vec<Job>,
    back: Vec<Seat<Home>>,
}

/// Room for so many of each.
fn make_room(alloc: Global, count: usize) -> Result<Room, Memory>
    ensures started { IfOk result (λ room. (room.started.items ≡ []) × (count ≤ room.started.cap)) }
    ensures jobs { IfOk result (λ room. (room.jobs.items ≡ []) × (count ≤ room.jobs.cap)) }
    ensures back { IfOk result (λ room. (room.back.items ≡ []) × (count ≤ room.back.cap)) }
{
    let started = Vec::with_capacity(alloc, count)?;
    let jobs = Vec::with_capacity(alloc, count)?;
    let back = Vec::with_capacity(alloc, count)?;
    Ok(Room {
        started,
        jobs,
        back,
    })
}

/// The seats of the jobs. There is room for all of them.
fn close_jobs(jobs: Vec<Job>, back: Vec<Seat<Home>>) -> Vec<Seat<Home>>
    requires empty { back.items ≡ [] }
    requires room { length jobs.items ≤ back.cap }
    ensures seats { result.items ≡ map (λ job. job.seat) jobs.items }
{
    let mut back = back;
    for job in jobs {
        let Job { seat, state } = job;
        drop(state);
        back.push_reserved(seat);
    }
    back
}

impl Job {
    /// Whether the role has its state, and its process has ended.
    fn is_done(&self) -> bool
        ensures { result ≡ has_done_state self.now }
    {
        match &self.state {
            Some(state) => state.is_done(),
            None => false,
        }
    }

    /// Whether the role has its state, its process has not ended, and its seat has seen as many
    /// entries as there may be.
    fn is_cut(&self, limit: u64) -> bool
        ensures { result ≡ is_cut limit self.now }
    {
        match &self.state {
            Some(state) => !state.is_done() && self.seat.seen() == limit,
            None => false,
        }
    }
}

/// How the jobs of so many roles, the first, came to their end.
fn ending_of(jobs: &[Job], roles: usize, limit: u64) -> Ending
    requires { roles ≤ length jobs.now }
    ensures { result ≡ ending_in limit (take roles jobs.now) }
{
    let jobs = &jobs[..roles];
    if jobs.iter().all(|job| job.is_done()) {
        return Ending::Ended;
    }
    if jobs.iter().any(|job| job.is_cut(limit)) {
        return Ending::Limit;
    }
    Ending::Memory
}

/// The same, where all threads could be started.
fn ending_if(are_whole: bool, jobs: &[Job], roles: usize, limit: u64) -> Option<Ending>
    requires { roles ≤ length jobs.now }
    ensures { result ≡ (if are_whole then Some (ending_in limit (take roles jobs.now)) else None) }
{
    if are_whole {
        return Some(ending_of(jobs, roles, limit));
    }
    None
}
