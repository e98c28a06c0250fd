//! `check: TEXT`: whether a choreography is connected.

use case_tables::{Case, Problem, whole_choreo};
use connectedness::{CheckFault, check};
use dioc_terms::{Choreo, Index, Memory, Role, casts_are_roles, roles};
use std::alloc::Global;
use text_pieces::write_bytes;
use trace_text::write_index;

/// Appends `connected`; or `unlinked I then J: R`, where the sequence of the constructs I and J
/// isn't linked by role R.
pub fn answer(alloc: Global, case: &Case, out: &mut Vec<u8>) -> Result<(), Problem> {
    let choreo = whole_choreo(alloc, case)?;
    let found = check_links(alloc, &choreo);
    drop(choreo);
    let checked = found?;
    let written = write_checked(&checked, out);
    drop(checked);
    written
}

// What the check says of a choreography with its own cast.
fn check_links(alloc: Global, choreo: &Choreo) -> Result<Result<(), CheckFault>, Memory> {
    casts_are_roles();
    let cast = roles(alloc, choreo)?;
    let checked = check(alloc, choreo, cast.as_slice());
    drop(cast);
    Ok(checked)
}

fn write_checked(checked: &Result<(), CheckFault>, out: &mut Vec<u8>) -> Result<(), Problem> {
    match checked {
        Ok(()) => Ok(write_bytes(b"connected", out)?),
        Err(
            CheckFault::Unlinked {
                first,
                second,
                role,
            },
        ) => Ok(write_gap(*first, *second, role, out)?),
        Err(CheckFault::Memory) => Err(Problem::Memory),
    }
}

fn write_gap(first: Index, second: Index, role: &Role, out: &mut Vec<u8>) -> Result<(), Memory> {
    write_bytes(b"unlinked ", out)?;
    write_index(first, out)?;
    write_bytes(b" then ", out)?;
    write_index(second, out)?;
    write_bytes(b": ", out)?;
    write_bytes(role.0.bytes(), out)
}
