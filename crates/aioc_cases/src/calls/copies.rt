//! `copy: TEXT` and `stamped EPOCH LEVEL: TEXT`: a choreography copied, as it is and as an update.

use crate::calls::indices::{number_of, write_indices};
use case_tables::{Case, Problem, whole_choreo};
use dioc_syntax::write_choreo;
use dioc_terms::{Choreo, Memory, stamped};
use std::alloc::Global;
use text_pieces::{write_bytes, write_number};

/// Appends the copy as it is written, a line with its indices, and a line with its scopes' levels.
pub fn answer_copy(alloc: Global, case: &Case, out: &mut Vec<u8>) -> Result<(), Problem> {
    let choreo = whole_choreo(alloc, case)?;
    let made = choreo.copy(alloc);
    // (before the copy is looked at, so that it can't be a part of what was copied)
    drop(choreo);
    write_made(made, out)
}

/// The same of the copy as an update.
pub fn answer_stamped(alloc: Global, case: &Case, out: &mut Vec<u8>) -> Result<(), Problem> {
    let (epoch, level) = numbers_of(case)?;
    let choreo = whole_choreo(alloc, case)?;
    let made = stamped(alloc, &choreo, epoch, level);
    drop(choreo);
    write_made(made, out)
}

fn numbers_of(case: &Case) -> Result<(u32, u32), Problem> {
    match case.options.as_slice() {
        [epoch, level] => Ok((number_of(epoch)?, number_of(level)?)),
        _ => Err(Problem::Bad("the options are an epoch and a level")),
    }
}

fn write_made(made: Result<Choreo, Memory>, out: &mut Vec<u8>) -> Result<(), Problem> {
    let copy = made?;
    let written = write_copy(&copy, out);
    drop(copy);
    Ok(written?)
}

fn write_copy(copy: &Choreo, out: &mut Vec<u8>) -> Result<(), Memory> {
    write_choreo(copy, out)?;
    write_bytes(b"\nindices", out)?;
    write_indices(copy, out)?;
    write_bytes(b"\nlevels", out)?;
    write_levels(copy, out)
}

fn write_levels(choreo: &Choreo, out: &mut Vec<u8>) -> Result<(), Memory> {
    match choreo {
        Choreo::Skip | Choreo::Com { .. } | Choreo::Set { .. } | Choreo::Input { .. } => Ok(()),
        Choreo::Seq(first, second) | Choreo::Par(first, second) => {
            write_levels(first, out)?;
            write_levels(second, out)
        }
        Choreo::If { yes, no, .. } => {
            write_levels(yes, out)?;
            write_levels(no, out)
        }
        Choreo::While { body, .. } => write_levels(body, out),
        Choreo::Scope { body, level, .. } => {
            write_bytes(b" ", out)?;
            write_number(u64::from(*level), out)?;
            write_levels(body, out)
        }
    }
}
