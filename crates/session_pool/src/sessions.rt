//! The pool.

ghost use Rattle.std.specs.Prelude.{◌≡◌, ◌+◌, ◌<◌, ◌≤◌, All, IfOk, OnOk, [], length, map};
ghost use Rattle.std.specs.List.{AllByRecursion};
ghost use Rattle.dioc_terms.specs.Bundles.{IsFormed};
ghost use Rattle.dioc_terms.specs.Plain.{plain};
ghost use Rattle.ticket_table.specs.Views.{holding};
ghost use Rattle.ticket_table.specs.Words.{IsDrawerOf, all_parts, view};
ghost use Rattle.session_pool.specs.Answers.{answer_seen, answers_of, numbered};
ghost use Rattle.session_pool.specs.Jobs.{IsWorkDone, HasClaimedNothing, MayRun, expected};

use crate::answers::Answer;
use crate::jobs::{Job, Order, all_done, work_all};
use crate::made::Made;
use crate::places::{empty_places, place_all, take_all};
use crate::watch::Watch;
use dioc_terms::{Bundle, Memory};
use std::alloc::Global;
use std::sync::Wait;
use std::thread::Threads;
use ticket_table::{Drawer, Tickets};

/// Runs each bundle by itself, in as many threads as there are workers, and gives the answers in
/// the order of the bundles. An answer is the first refusal of its bundle, or else the run that the
/// schedule takes of it, without a seed the first move each time and with one by its numbers, to at
/// most `limit` entries. So it depends neither on the number of workers nor on the other bundles.
///
/// The workers claim the bundles by their numbers, and `watch` is told of each claim. The call
/// waits where the watch does. `Err` is want of memory.
pub fn run_sessions<W: Watch + Sync, R: Threads + Wait + Sync>(
    rt: &R,
    alloc: Global,
    bundles: &[Bundle],
    workers: u32,
    seed: Option<u64>,
    limit: u64,
    watch: &W,
) -> Result<Vec<Answer>, Memory>
    requires formed { All (λ b. IsFormed (plain b)) bundles.now }
    requires few { length bundles.now ≤ 1000 }
    requires workers { 0 < workers }
    requires limit { limit ≤ 4294967295 }
    ensures answers { IfOk result (λ answers.
        map answer_seen answers.items ≡ answers_of seed limit (map plain bundles.now)) }
{
    let order = Order {
        bundles,
        seed,
        limit,
    };
    run_sessions_as(rt, alloc, &order, workers, watch)
}

/// The same, but gives what is made of each answer. The worker that ran a session makes it at once,
/// so nothing is kept of the session but that.
pub fn run_sessions_as<T: Made, W: Watch + Sync, R: Threads + Wait + Sync>(
    rt: &R,
    alloc: Global,
    order: &Order<'_>,
    workers: u32,
    watch: &W,
) -> Result<Vec<T>, Memory>
    requires order { MayRun order.now }
    requires workers { 0 < workers }
    ensures made { IfOk result (λ made. map T.seen made.items ≡ expected T.made_of order.now) }
{
    let Ok((tickets, mut first)) = Tickets::new(alloc, u64::from(workers) + 1) else {
        return Err(Memory);
    };
    let jobs = ready_jobs(alloc, &tickets, &mut first, workers as usize)?;
    let jobs = work_all(rt, alloc, order, watch, &tickets, jobs);
    if !all_done(jobs.as_slice()) {
        return Err(Memory);
    }
    collect(alloc, order, tickets, first, jobs)
}

/// So many workers, each with a right to claim that is cut off the first.
fn ready_jobs<T: Made>(
    alloc: Global,
    tickets: &Tickets,
    first: &mut Drawer,
    workers: usize,
) -> Result<Vec<Job<T>>, Memory>
    requires of { IsDrawerOf tickets.now first.old }
    requires view { view first.old ≡ holding (workers + 1) [] }
    ensures count { IfOk result (λ jobs. length jobs.items ≡ workers) }
    ensures ready { IfOk result (λ jobs. All (HasClaimedNothing tickets.now) jobs.items) }
    ensures of { OnOk result (IsDrawerOf tickets.now first.new) }
    ensures view { OnOk result (view first.new ≡ holding 1 []) }
{
    let mut jobs = Vec::with_capacity(alloc, workers)?;
    'jobs: while jobs.len() < workers {
        let drawer = tickets.split(first);
        jobs.push(Job {
            drawer,
            made: Vec::new(alloc),
            done: false,
        })?;
    }
    Ok(jobs)
}

/// What was made by workers that are done, in the order of the sessions. The rights to claim are
/// joined, and show that each session was claimed.
fn collect<T: Made>(
    alloc: Global,
    order: &Order<'_>,
    tickets: Tickets,
    mut first: Drawer,
    jobs: Vec<Job<T>>,
) -> Result<Vec<T>, Memory>
    requires of { IsDrawerOf tickets first }
    requires view { view first ≡ holding 1 [] }
    requires all { all_parts tickets ≡ 1 + length jobs.items }
    requires some { 0 < length jobs.items }
    requires done { AllByRecursion (IsWorkDone T.seen tickets (expected T.made_of order.now))
        jobs.items }
    ensures { IfOk result (λ made. map T.seen made.items ≡ expected T.made_of order.now) }
{
    let mut places = empty_places(alloc, order.bundles.len())?;
    for job in jobs {
        let Job {
            drawer,
            made,
            done: _,
        } = job;
        tickets.join(&mut first, drawer);
        place_all(&mut places, made);
    }
    tickets.close(first);
    take_all(alloc, places)
}
