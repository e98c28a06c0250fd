//! The top call again and again, each time with another call of a device that fails, or on another
//! front of a text. An answer has a line where how it goes changes: `from K` says from which time
//! on it goes so.
//!
//! `each_read WORD..: BUNDLE`: the K-th call of the source fails, K from 1 on. A call gives at most
//! seven bytes.
//!
//! `each_write WORD..: BUNDLE`: the K-th call of `out` fails, K from 1 on. A call takes at most
//! seven bytes.
//!
//! `each_front WORD..: BUNDLE`: the input is the first K bytes of the text, K from 0 on.

use crate::devices::{Course, Devices, Outcome, serve};
use case_tables::{Case, Problem};
use dioc_terms::Memory;
use std::alloc::Global;
use text_pieces::{write_bytes, write_number};

// How many bytes a call moves at most.
const PIECE: usize = 7;

/// The lines that tell how it goes at one time after another, where that changes.
#[derive(Drop)]
pub struct Changes {
    /// How it went before.
    last: Vec<u8>,
}

impl Changes {
    /// Before the first time.
    pub fn new(alloc: Global) -> Changes {
        Changes {
            last: Vec::new(alloc),
        }
    }

    /// Appends how it goes from this time on, where that isn't how it went before.
    pub fn add(&mut self, number: usize, line: Vec<u8>, out: &mut Vec<u8>) -> Result<(), Memory> {
        if line != self.last {
            write_change(number, &line, out)?;
            self.last = line;
        }
        Ok(())
    }
}

fn write_change(number: usize, line: &[u8], out: &mut Vec<u8>) -> Result<(), Memory> {
    write_bytes(b"from ", out)?;
    write_number(number as u64, out)?;
    write_bytes(b": ", out)?;
    write_bytes(line, out)?;
    write_bytes(b"\n", out)
}

/// Appends how it goes where a call of the source fails.
pub fn answer_reads(alloc: Global, case: &Case, out: &mut Vec<u8>) -> Result<(), Problem> {
    let whole = serve(alloc, &case.options, &case.text, &Devices::usual())?;
    let calls = some_calls(case.text.len());
    answer_failures(alloc, case, calls, &with_source, &whole.out, out)
}

/// Appends how it goes where a call of `out` fails.
pub fn answer_writes(alloc: Global, case: &Case, out: &mut Vec<u8>) -> Result<(), Problem> {
    let whole = serve(alloc, &case.options, &case.text, &Devices::usual())?;
    let calls = some_calls(whole.out.len());
    answer_failures(alloc, case, calls, &with_out, &whole.out, out)
}

// Appends how it goes where one of so many calls fails, of the device to which `with` gives its
// course, beside the text that `out` takes where none fails.
fn answer_failures<F: Fn(Course) -> Devices>(
    alloc: Global,
    case: &Case,
    calls: usize,
    with: &F,
    whole: &[u8],
    out: &mut Vec<u8>,
) -> Result<(), Problem>
    requires { F.IsAlwaysCallable with.now }
{
    let mut changes = Changes::new(alloc);
    for number in 1..calls {
        let devices = with(Course::usual().in_pieces(PIECE).failing(number));
        let made = serve(alloc, &case.options, &case.text, &devices)?;
        let line = described(alloc, &made, whole)?;
        changes.add(number, line, out)?;
    }
    Ok(())
}

fn with_source(course: Course) -> Devices {
    let mut devices = Devices::usual();
    devices.source = course;
    devices
}

fn with_out(course: Course) -> Devices {
    let mut devices = Devices::usual();
    devices.out = course;
    devices
}

/// Appends how it goes with each front of the text.
pub fn answer_fronts(alloc: Global, case: &Case, out: &mut Vec<u8>) -> Result<(), Problem> {
    let mut changes = Changes::new(alloc);
    for length in 0..=case.text.len() {
        let made = serve(
            alloc,
            &case.options,
            &case.text[..length],
            &Devices::usual(),
        )?;
        let line = coded(alloc, &made)?;
        changes.add(length, line, out)?;
    }
    Ok(())
}

// A number that is two past that of the calls that move so many bytes and find their end.
fn some_calls(bytes: usize) -> usize {
    bytes / PIECE + 4
}

// The exit code of a call.
fn coded(alloc: Global, made: &Outcome) -> Result<Vec<u8>, Memory> {
    let mut line = Vec::new(alloc);
    write_bytes(b"code ", &mut line)?;
    write_number(u64::from(made.code), &mut line)?;
    Ok(line)
}

// How a call went, beside one with the same input in which nothing failed and `out` took `whole`.
fn described(alloc: Global, made: &Outcome, whole: &[u8]) -> Result<Vec<u8>, Memory> {
    let mut line = coded(alloc, made)?;
    write_bytes(b", out ", &mut line)?;
    write_bytes(part_of(&made.out, whole).as_bytes(), &mut line)?;
    write_bytes(b", err ", &mut line)?;
    match made.err.as_slice() {
        [] => write_bytes(b"nothing", &mut line)?,
        [said @ .., b'\n'] => write_bytes(said, &mut line)?,
        said => write_bytes(said, &mut line)?,
    }
    Ok(line)
}

/// Which part of the text that it takes where nothing fails `out` took.
pub fn part_of(taken: &[u8], whole: &[u8]) -> &'static str {
    if taken.is_empty() {
        "nothing"
    } else if taken == whole {
        "the text"
    } else if whole.starts_with(taken) {
        "a front of the text"
    } else {
        "another text"
    }
}
