//! `read_bundle: TEXT`, `write_bundle: TEXT` and `read_sessions: TEXT`: whether a text spells a
//! bundle, how that bundle is written, and how many sessions a text spells.

use bundle_text::{read_bundle, read_sessions, write_bundle};
use case_tables::{Case, Problem, write_place};
use dioc_terms::{Bundle, SyntaxFault};
use std::alloc::Global;
use text_pieces::{write_bytes, write_number};

/// Appends `a bundle`, or `none` with the byte that the fault names.
pub fn answer_read(alloc: Global, case: &Case, out: &mut Vec<u8>) -> Result<(), Problem> {
    match read_bundle(alloc, &case.text).err() {
        None => Ok(write_bytes(b"a bundle", out)?),
        Some(fault) => write_fault(fault, out),
    }
}

fn write_fault(fault: SyntaxFault, out: &mut Vec<u8>) -> Result<(), Problem> {
    match fault {
        SyntaxFault::Syntax(byte) => Ok(write_place("none at byte", byte, out)?),
        SyntaxFault::Memory => Err(Problem::Memory),
    }
}

/// Appends the lines of the bundle as it is written, or `none`.
pub fn answer_written(alloc: Global, case: &Case, out: &mut Vec<u8>) -> Result<(), Problem> {
    let read = read_bundle(alloc, &case.text);
    let written = write_read(&read, out);
    drop(read);
    written
}

fn write_read(read: &Result<Bundle, SyntaxFault>, out: &mut Vec<u8>) -> Result<(), Problem> {
    match read {
        Ok(bundle) => Ok(write_bundle(bundle, out)?),
        Err(SyntaxFault::Syntax(_)) => Ok(write_bytes(b"none", out)?),
        Err(SyntaxFault::Memory) => Err(Problem::Memory),
    }
}

/// Appends how many sessions the text spells, or the byte that the fault names.
pub fn answer_sessions(alloc: Global, case: &Case, out: &mut Vec<u8>) -> Result<(), Problem> {
    let read = read_sessions(alloc, &case.text);
    let written = write_sessions(&read, out);
    drop(read);
    written
}

fn write_sessions(
    read: &Result<Vec<Bundle>, SyntaxFault>,
    out: &mut Vec<u8>,
) -> Result<(), Problem> {
    match read {
        Ok(sessions) => {
            write_number(sessions.len() as u64, out)?;
            Ok(write_bytes(b" sessions", out)?)
        }
        Err(fault) => write_fault(*fault, out),
    }
}
