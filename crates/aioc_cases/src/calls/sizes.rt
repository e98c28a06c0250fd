//! `nodes: TEXT` and `depth: TEXT`: the size of a choreography.

use case_tables::{Case, Problem, whole_choreo};
use index_marks::{depth, nodes};
use std::alloc::Global;
use text_pieces::write_number;

/// Appends the number of nodes.
pub fn answer_nodes(alloc: Global, case: &Case, out: &mut Vec<u8>) -> Result<(), Problem> {
    let choreo = whole_choreo(alloc, case)?;
    let found = nodes(&choreo) as u64;
    drop(choreo);
    Ok(write_number(found, out)?)
}

/// Appends the depth.
pub fn answer_depth(alloc: Global, case: &Case, out: &mut Vec<u8>) -> Result<(), Problem> {
    let choreo = whole_choreo(alloc, case)?;
    let found = depth(&choreo) as u64;
    drop(choreo);
    Ok(write_number(found, out)?)
}
