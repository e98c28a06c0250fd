//! `indices: TEXT`: the indices of a choreography. `indices EPOCH: TEXT`: those of the choreography
//! and of its copy in that epoch, one behind the other.

use case_tables::{Case, Problem, read_number, whole_choreo};
use dioc_terms::{Choreo, Index, Memory, give_up, new_boxes, stamped};
use index_marks::distinct;
use std::alloc::Global;
use text_pieces::write_bytes;
use trace_text::write_index;

/// Appends whether no index stands twice, and the indices in the order of the text.
pub fn answer(alloc: Global, case: &Case, out: &mut Vec<u8>) -> Result<(), Problem> {
    let epoch = match case.option()? {
        b"" => None,
        digits => Some(number_of(digits)?),
    };
    let choreo = whole_choreo(alloc, case)?;
    let asked = match epoch {
        None => choreo,
        Some(epoch) => twice(alloc, choreo, epoch)?,
    };
    let written = write_marks(alloc, &asked, out);
    drop(asked);
    Ok(written?)
}

/// The number of an epoch or a level.
pub fn number_of(digits: &[u8]) -> Result<u32, Problem> {
    match u32::try_from(read_number(digits)?) {
        Ok(number) => Ok(number),
        Err(_) => Err(Problem::Bad("an epoch or a level is too great")),
    }
}

// The choreography, and behind it its copy in that epoch. (A text alone gives no index twice.)
fn twice(alloc: Global, choreo: Choreo, epoch: u32) -> Result<Choreo, Memory> {
    match stamped(alloc, &choreo, epoch, 0) {
        Ok(again) => {
            let (first, second) = new_boxes(alloc, choreo, again)?;
            Ok(Choreo::Seq(first, second))
        }
        Err(fault) => give_up(choreo, fault),
    }
}

fn write_marks(alloc: Global, choreo: &Choreo, out: &mut Vec<u8>) -> Result<(), Memory> {
    let word = if distinct(alloc, choreo)? {
        "distinct"
    } else {
        "repeated"
    };
    write_bytes(word.as_bytes(), out)?;
    write_indices(choreo, out)
}

/// Appends the indices in the order of the text, each behind a space.
pub fn write_indices(choreo: &Choreo, out: &mut Vec<u8>) -> Result<(), Memory> {
    match choreo {
        Choreo::Skip => Ok(()),
        Choreo::Com { index, .. } | Choreo::Set { index, .. } | Choreo::Input { index, .. } => {
            write_spaced(*index, out)
        }
        Choreo::Seq(first, second) | Choreo::Par(first, second) => {
            write_indices(first, out)?;
            write_indices(second, out)
        }
        Choreo::If { index, yes, no, .. } => {
            write_spaced(*index, out)?;
            write_indices(yes, out)?;
            write_indices(no, out)
        }
        Choreo::While { index, body, .. } | Choreo::Scope { index, body, .. } => {
            write_spaced(*index, out)?;
            write_indices(body, out)
        }
    }
}

fn write_spaced(index: Index, out: &mut Vec<u8>) -> Result<(), Memory> {
    write_bytes(b" ", out)?;
    write_index(index, out)
}
