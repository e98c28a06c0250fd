//! `project ROLE: TEXT`: the process of one role of a choreography.

use case_tables::{Case, Problem, whole_choreo};
use dioc_terms::{Choreo, Memory, Name, NameFault, Role, casts_are_roles, roles};
use projection::project;
use std::alloc::Global;
use trace_text::write_process;

/// Appends the text of the role's process.
pub fn answer(alloc: Global, case: &Case, out: &mut Vec<u8>) -> Result<(), Problem> {
    let choreo = whole_choreo(alloc, case)?;
    let written = write_process_of(alloc, case, &choreo, out);
    drop(choreo);
    written
}

// Appends the text of the process of the role that the option names.
fn write_process_of(
    alloc: Global,
    case: &Case,
    choreo: &Choreo,
    out: &mut Vec<u8>,
) -> Result<(), Problem> {
    let role = role_of(alloc, case)?;
    let written = write_projection(alloc, choreo, &role, out);
    drop(role);
    Ok(written?)
}

fn role_of(alloc: Global, case: &Case) -> Result<Role, Problem> {
    match Name::read(alloc, case.option()?) {
        Ok(name) => Ok(Role(name)),
        Err(NameFault::NotAName) => Err(Problem::Bad("the role is no name")),
        Err(NameFault::Memory) => Err(Problem::Memory),
    }
}

fn write_projection(
    alloc: Global,
    choreo: &Choreo,
    role: &Role,
    out: &mut Vec<u8>,
) -> Result<(), Memory> {
    casts_are_roles();
    let cast = roles(alloc, choreo)?;
    let projected = project(alloc, choreo, role, cast.as_slice());
    drop(cast);
    let proc = projected?;
    let written = write_process(&proc, out);
    drop(proc);
    written
}
