//! The top call that may start threads, again and again.
//!
//! `each_run COUNT WORD..: BUNDLE`: the K-th time `run --aux` with these words, K from 1 to the
//! count, and then `replay` of the trace that it printed, put behind the bundle. An answer has a
//! line where how it goes changes: `from K` says from which time on it goes so.
//!
//! `each_workers W,..,W WORD..: SESSIONS`: with `--workers W` behind the words, for each W of
//! these. The answer has a line for each.

use crate::calls::sweeps::{Changes, part_of};
use crate::devices::{Devices, Outcome, serve, serve_threaded};
use case_tables::{Case, Problem, read_number};
use dioc_terms::Memory;
use std::alloc::Global;
use std::sync::Wait;
use std::thread::Threads;
use text_pieces::{write_bytes, write_number};

/// Appends how the runs go, and how their traces are judged.
pub fn answer_runs<R: Threads + Wait + Sync>(
    rt: &R,
    alloc: Global,
    case: &Case,
    out: &mut Vec<u8>,
) -> Result<(), Problem> {
    let (count, words) = case.first_option("the call has no count")?;
    let count = read_number(count)?;
    let all = copy_words(alloc, &[b"run", b"--aux"], words)?;
    let mut changes = Changes::new(alloc);
    for number in 1..=count {
        let line = judged_run(rt, alloc, &all, &case.text)?;
        changes.add(number, line, out)?;
    }
    Ok(())
}

// How a run with these words goes, and how its trace is judged.
fn judged_run<R: Threads + Wait + Sync>(
    rt: &R,
    alloc: Global,
    words: &[Vec<u8>],
    text: &[u8],
) -> Result<Vec<u8>, Problem> {
    let made = serve_threaded(rt, alloc, words, text)?;
    let judged = replayed(alloc, text, &made.out);
    let code = made.code;
    drop(made);
    Ok(judged_line(alloc, code, judged?)?)
}

// The exit code of `replay` of a trace, put behind the bundle.
fn replayed(alloc: Global, text: &[u8], trace: &[u8]) -> Result<u8, Problem> {
    let bundle = with_trace(alloc, text, trace)?;
    let judged = replay_of(alloc, &bundle);
    drop(bundle);
    judged
}

fn with_trace(alloc: Global, text: &[u8], trace: &[u8]) -> Result<Vec<u8>, Memory> {
    let mut bundle = text.to_vec(alloc)?;
    write_bytes(b"\ntrace {\n", &mut bundle)?;
    write_bytes(trace, &mut bundle)?;
    write_bytes(b"}\n", &mut bundle)?;
    Ok(bundle)
}

fn replay_of(alloc: Global, bundle: &[u8]) -> Result<u8, Problem> {
    let words = copy_words(alloc, &[b"replay"], &[])?;
    let judged = serve(alloc, &words, bundle, &Devices::usual())?;
    Ok(judged.code)
}

// The line of a run with this exit code, whose trace was replayed with the other.
fn judged_line(alloc: Global, code: u8, replayed: u8) -> Result<Vec<u8>, Memory> {
    let mut line = Vec::new(alloc);
    write_bytes(b"code ", &mut line)?;
    write_number(u64::from(code), &mut line)?;
    write_bytes(b", replayed with code ", &mut line)?;
    write_number(u64::from(replayed), &mut line)?;
    Ok(line)
}

// Some words, and the others behind them.
fn copy_words(alloc: Global, first: &[&[u8]], rest: &[Vec<u8>]) -> Result<Vec<Vec<u8>>, Memory> {
    let mut all = Vec::new(alloc);
    for word in first {
        all.push(word.to_vec(alloc)?)?;
    }
    for word in rest {
        all.push(word.to_vec(alloc)?)?;
    }
    Ok(all)
}

/// Appends how it goes with each of the numbers of workers that the first option tells.
pub fn answer_workers<R: Threads + Wait + Sync>(
    rt: &R,
    alloc: Global,
    case: &Case,
    out: &mut Vec<u8>,
) -> Result<(), Problem> {
    let (numbers, words) = case.first_option("the call has no numbers of workers")?;
    let mut first = None;
    for number in numbers.split(|byte| *byte == b',') {
        let made = serve_workers(rt, alloc, words, number, &case.text)?;
        write_workers(number, &made, &first, out)?;
        first = Some(first.unwrap_or(made));
    }
    Ok(())
}

// The top call with these words and so many workers.
fn serve_workers<R: Threads + Wait + Sync>(
    rt: &R,
    alloc: Global,
    words: &[Vec<u8>],
    number: &[u8],
    text: &[u8],
) -> Result<Outcome, Problem> {
    let mut all = copy_words(alloc, &[], words)?;
    all.push(b"--workers".to_vec(alloc)?)?;
    all.push(number.to_vec(alloc)?)?;
    serve_threaded(rt, alloc, &all, text)
}

// Appends how it went with so many workers: the exit code, and how long the text is, or that it is
// the first one again.
fn write_workers(
    number: &[u8],
    made: &Outcome,
    first: &Option<Outcome>,
    out: &mut Vec<u8>,
) -> Result<(), Memory> {
    write_bytes(b"workers ", out)?;
    write_bytes(number, out)?;
    write_bytes(b": code ", out)?;
    write_number(u64::from(made.code), out)?;
    match first {
        None => {
            write_bytes(b", bytes ", out)?;
            write_number(made.out.len() as u64, out)?;
        }
        Some(whole) => {
            write_bytes(b", ", out)?;
            write_bytes(part_of(&made.out, &whole.out).as_bytes(), out)?;
        }
    }
    write_bytes(b"\n", out)
}
