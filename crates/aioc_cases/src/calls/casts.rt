//! `roles: TEXT`: the roles of a choreography, in the order in which its text first names them.

use crate::calls::lists::write_list;
use case_tables::{Case, Problem, whole_choreo};
use dioc_terms::{Memory, Role, roles};
use std::alloc::Global;
use text_pieces::write_bytes;

/// Appends the roles with a space between two, or `none`.
pub fn answer(alloc: Global, case: &Case, out: &mut Vec<u8>) -> Result<(), Problem> {
    let choreo = whole_choreo(alloc, case)?;
    let found = roles(alloc, &choreo);
    drop(choreo);
    let cast = found?;
    let written = write_list(cast.as_slice(), b" ", &write_role, out);
    drop(cast);
    Ok(written?)
}

fn write_role(role: &Role, out: &mut Vec<u8>) -> Result<(), Memory> {
    write_bytes(role.0.bytes(), out)
}
