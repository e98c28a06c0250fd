//! The calls that a case can name, each in a module of its own.

mod projections;
mod services;
mod sweeps;
mod threads;

use case_tables::{Case, Problem};
use std::alloc::Global;
use std::sync::Wait;
use std::thread::Threads;

/// The lines that answer a case.
pub fn answer<R: Threads + Wait + Sync>(
    rt: &R,
    alloc: Global,
    case: &Case,
) -> Result<Vec<u8>, Problem> {
    let mut out = Vec::new(alloc);
    answer_into(rt, alloc, case, &mut out)?;
    Ok(out)
}

// Appends the lines that answer a case.
fn answer_into<R: Threads + Wait + Sync>(
    rt: &R,
    alloc: Global,
    case: &Case,
    out: &mut Vec<u8>,
) -> Result<(), Problem> {
    match case.call.as_slice() {
        b"serve" => services::answer_threaded(rt, alloc, case, out),
        b"serve_alone" => services::answer(alloc, case, out),
        b"serve_over" => services::answer_over(alloc, case, out),
        b"serve_endless" => services::answer_endless(alloc, case, out),
        b"project" => projections::answer(alloc, case, out),
        b"each_read" => sweeps::answer_reads(alloc, case, out),
        b"each_write" => sweeps::answer_writes(alloc, case, out),
        b"each_front" => sweeps::answer_fronts(alloc, case, out),
        b"each_run" => threads::answer_runs(rt, alloc, case, out),
        b"each_workers" => threads::answer_workers(rt, alloc, case, out),
        _ => Err(Problem::Bad("there is no such call")),
    }
}
