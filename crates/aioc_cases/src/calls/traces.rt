//! `read_trace: TEXT`: the lines of a trace up to a `}`. `trace_line: TEXT` and `json_line: TEXT`:
//! a line, written again as it is and as JSON.

use case_tables::{Case, Problem, text_tokens, write_place};
use dioc_terms::{Entry, Memory, Trace};
use std::alloc::Global;
use text_pieces::{write_bytes, write_number};
use trace_text::{TraceFault, read_trace, write_json_line, write_last, write_line};

// What stands at the front of a text.
#[derive(Drop)]
enum Lines {
    // The lines up to a `}`, which is the token of this number.
    Closed(Trace, usize),
    // The line of this number is none.
    Bad(u64),
    // This byte is in no token.
    BadByte(usize),
}

fn front_lines(alloc: Global, text: &[u8]) -> Result<Lines, Problem> {
    match text_tokens(alloc, text)? {
        Ok(found) => {
            let read = read_trace(alloc, text, &found, 0);
            drop(found);
            match read {
                Ok((trace, close)) => Ok(Lines::Closed(trace, close)),
                Err(TraceFault::BadLine(number)) => Ok(Lines::Bad(number)),
                Err(TraceFault::Memory) => Err(Problem::Memory),
            }
        }
        Err(byte) => Ok(Lines::BadByte(byte)),
    }
}

/// Appends the lines as they are written, and `closed by token N`; `bad line N`; or `bad byte N`.
pub fn answer_trace(alloc: Global, case: &Case, out: &mut Vec<u8>) -> Result<(), Problem> {
    let lines = front_lines(alloc, &case.text)?;
    let written = write_lines(&lines, out);
    drop(lines);
    Ok(written?)
}

fn write_lines(lines: &Lines, out: &mut Vec<u8>) -> Result<(), Memory> {
    match lines {
        Lines::Closed(trace, close) => {
            write_trace(trace, false, out)?;
            write_place("closed by token", *close, out)
        }
        Lines::Bad(number) => {
            write_bytes(b"bad line ", out)?;
            write_number(*number, out)
        }
        Lines::BadByte(byte) => write_place("bad byte", *byte, out),
    }
}

/// Appends the line as it is written, or as JSON; or `none`.
pub fn answer_line(
    alloc: Global,
    case: &Case,
    json: bool,
    out: &mut Vec<u8>,
) -> Result<(), Problem> {
    let text = closed(&case.text)?;
    let front = front_lines(alloc, &text);
    drop(text);
    let lines = front?;
    let written = match &lines {
        Lines::Closed(trace, _) => write_trace(trace, json, out),
        _ => write_bytes(b"none", out),
    };
    drop(lines);
    Ok(written?)
}

// The line with a `}` behind it, which closes the trace.
fn closed(line: &Vec<u8>) -> Result<Vec<u8>, Memory> {
    let mut text = line.clone()?;
    text.push(b'}')?;
    Ok(text)
}

fn write_trace(trace: &Trace, json: bool, out: &mut Vec<u8>) -> Result<(), Memory> {
    for entry in trace.entries.as_slice() {
        write_entry(entry, json, out)?;
        write_bytes(b"\n", out)?;
    }
    match &trace.last {
        Some(last) => {
            write_last(last, json, out)?;
            write_bytes(b"\n", out)
        }
        None => Ok(()),
    }
}

fn write_entry(entry: &Entry, json: bool, out: &mut Vec<u8>) -> Result<(), Memory> {
    if json {
        write_json_line(entry, out)
    } else {
        write_line(entry, out)
    }
}
