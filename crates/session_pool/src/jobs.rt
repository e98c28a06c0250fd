//! The workers: each claims sessions one after another, and keeps what it answered.

ghost use Rattle.std.specs.Prelude.{◌≡◌, ◌<◌, ◌≤◌, All, OnOk, length, true, []};
ghost use Rattle.std.specs.Bool.{OnTrue};
ghost use Rattle.std.specs.List.{AllByRecursion};
ghost use Rattle.dioc_terms.specs.Bundles.{IsFormed};
ghost use Rattle.dioc_terms.specs.Plain.{plain};
ghost use Rattle.ticket_table.specs.Views.{holding};
ghost use Rattle.ticket_table.specs.Words.{IsDrawerOf, drawn_by, parts_of, view};
ghost use Rattle.session_pool.specs.Jobs.{IsWorkDone, HasClaimedNothing, MayRun, expected};

use crate::answers::answer_session;
use crate::made::Made;
use crate::watch::Watch;
use dioc_terms::{Bundle, Memory};
use std::alloc::Global;
use std::sync::Wait;
use std::thread::{self, Threads};
use ticket_table::{Drawer, Tickets};

/// What is run: the bundles of the sessions, from which seed, and to how many entries each.
#[derive(Clone, Copy)]
pub struct Order<'a> {
    /// The bundles, one for each session.
    pub bundles: &'a [Bundle],
    /// The seed of each schedule, where it has one.
    pub seed: Option<u64>,
    /// How many entries each run has at most.
    pub limit: u64,
}

/// What was made of an answer, with the number of its session.
#[derive(Drop)]
pub struct Numbered<T> {
    pub number: u32,
    pub made: T,
}

/// What a worker works with: its right to claim, and what it has made.
#[derive(Drop)]
pub struct Job<T> {
    pub drawer: Drawer,
    pub made: Vec<Numbered<T>>,
    /// Its last claim was past the last session. After its work it is false where memory ran out.
    pub done: bool,
}

/// Lets each worker work in a thread of its own, until all have come to their end.
pub fn work_all<T: Made, W: Watch + Sync, R: Threads + Wait + Sync>(
    rt: &R,
    alloc: Global,
    order: &Order<'_>,
    watch: &W,
    tickets: &Tickets,
    mut jobs: Vec<Job<T>>,
) -> Vec<Job<T>>
    requires order { MayRun order.now }
    requires some { 0 < length jobs.items }
    requires ready { All (HasClaimedNothing tickets.now) jobs.items }
    ensures same { length result.items ≡ length jobs.items }
    ensures done { All (λ job. job.done ≡ true
        → IsWorkDone T.seen tickets.now (expected T.made_of order.now) job) result.items }
{
    let count = jobs.len();
    let one = |_: usize, job: &mut Job<T>|
        requires { HasClaimedNothing tickets.now job.now × MayRun order.now }
        ensures { job.exit.now.done ≡ true → IsWorkDone T.seen tickets.entry.now
            (expected T.made_of order.entry.now) job.exit.now }
    { job.done = answer_all(rt, alloc, order, watch, tickets, job).is_ok() };
    thread::for_each_mut(rt, jobs.as_mut_slice(), count, &one);
    jobs
}

/// Claims sessions, and adds what is made of their answers to what the worker has made, until a
/// claim is past the last session or memory runs out.
fn answer_all<T: Made, W: Watch, R: Wait>(
    rt: &R,
    alloc: Global,
    order: &Order<'_>,
    watch: &W,
    tickets: &Tickets,
    job: &mut Job<T>,
) -> Result<(), Memory>
    requires order { MayRun order.now }
    requires ready { HasClaimedNothing tickets.now job.old }
    ensures { OnOk result (IsWorkDone T.seen tickets.now (expected T.made_of order.now) job.new) }
{
    'sessions: loop {
        let ticket = tickets.draw(&mut job.drawer);
        if ticket >= order.bundles.len() as u64 {
            return Ok(());
        }
        let number = ticket as u32;
        watch.claimed(rt, number);
        let bundle = &order.bundles[number as usize];
        let answer = answer_session(alloc, bundle, order.seed, order.limit)?;
        let one = T::make(alloc, number, answer)?;
        job.made.push(Numbered { number, made: one })?;
    }
}

/// Whether each worker has come past the last session.
pub fn all_done<T>(jobs: &[Job<T>]) -> bool
    ensures { OnTrue result (AllByRecursion (λ job. job.done ≡ true) jobs.now) }
{
    match jobs {
        [] => true,
        [first, rest @ ..] => first.done && all_done(rest),
    }
}
