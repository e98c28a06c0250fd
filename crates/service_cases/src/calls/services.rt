//! `serve_alone WORD..: BUNDLE`: the top call with these words, and the text as its input.
//! `serve WORD..: BUNDLE` is the one that may start threads and wait for them.
//!
//! `serve_over DEVICE,..,DEVICE WORD..: BUNDLE`: the same over devices that move few bytes a call,
//! or of which a call fails. `from=N` is for a source that gives at most N bytes a call,
//! `from-fails=K` for one whose K-th call fails; `to` stands for `out` in the place of `from`, and
//! `err` for `err`.
//!
//! `serve_endless WORD..: BUNDLE`: the same with a source that gives spaces behind the text, and
//! never ends.

use crate::devices::{Devices, Outcome, serve, serve_threaded};
use crate::endless::serve_endless;
use case_tables::{Case, Problem, read_number, write_lines};
use dioc_terms::Memory;
use std::alloc::Global;
use std::sync::Wait;
use std::thread::Threads;
use text_pieces::{write_bytes, write_number};

/// Appends `code N`, and the lines that were written to `out` and to `err`.
pub fn answer(alloc: Global, case: &Case, out: &mut Vec<u8>) -> Result<(), Problem> {
    let made = serve(alloc, &case.options, &case.text, &Devices::usual())?;
    Ok(write_outcome(&made, out)?)
}

/// Appends the same of the call that may start threads.
pub fn answer_threaded<R: Threads + Wait + Sync>(
    rt: &R,
    alloc: Global,
    case: &Case,
    out: &mut Vec<u8>,
) -> Result<(), Problem> {
    let made = serve_threaded(rt, alloc, &case.options, &case.text)?;
    Ok(write_outcome(&made, out)?)
}

/// Appends the same of the call over the devices that the first option tells.
pub fn answer_over(alloc: Global, case: &Case, out: &mut Vec<u8>) -> Result<(), Problem> {
    let (told, words) = case.first_option("the call has no devices")?;
    let devices = read_devices(told)?;
    let made = serve(alloc, words, &case.text, &devices)?;
    Ok(write_outcome(&made, out)?)
}

/// Appends the same of the call over a source that never ends.
pub fn answer_endless(alloc: Global, case: &Case, out: &mut Vec<u8>) -> Result<(), Problem> {
    let made = serve_endless(alloc, &case.options, &case.text)?;
    Ok(write_outcome(&made, out)?)
}

// The devices that an option tells, `NAME=N,..,NAME=N`.
fn read_devices(told: &[u8]) -> Result<Devices, Problem> {
    let mut devices = Devices::usual();
    for part in told.split(|byte| *byte == b',') {
        devices = with_device(devices, part)?;
    }
    Ok(devices)
}

fn with_device(devices: Devices, part: &[u8]) -> Result<Devices, Problem> {
    let Some(mark) = part.iter().position(|byte| *byte == b'=') else {
        return Err(Problem::Bad("a device has a number"));
    };
    let number = read_number(&part[mark + 1..])?;
    let mut told = devices;
    match &part[..mark] {
        b"from" => told.source = devices.source.in_pieces(number),
        b"from-fails" => told.source = devices.source.failing(number),
        b"to" => told.out = devices.out.in_pieces(number),
        b"to-fails" => told.out = devices.out.failing(number),
        b"err" => told.err = devices.err.in_pieces(number),
        b"err-fails" => told.err = devices.err.failing(number),
        _ => return Err(Problem::Bad("there is no such device")),
    }
    Ok(told)
}

fn write_outcome(made: &Outcome, out: &mut Vec<u8>) -> Result<(), Memory> {
    write_bytes(b"code ", out)?;
    write_number(u64::from(made.code), out)?;
    write_bytes(b"\n", out)?;
    write_sink(b"out ", &made.out, out)?;
    write_sink(b"err ", &made.err, out)
}

// The lines that a sink took, and a line that says so where they don't end in a line feed.
fn write_sink(head: &[u8], taken: &[u8], out: &mut Vec<u8>) -> Result<(), Memory> {
    write_lines(head, taken, out)?;
    match taken {
        [] | [.., b'\n'] => Ok(()),
        _ => {
            write_bytes(head, out)?;
            write_bytes(b"(no line feed)\n", out)
        }
    }
}
