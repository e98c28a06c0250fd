//! `read_choreo VERSION: TEXT`: the longest choreography at the front of a text.

use case_tables::{Case, Problem, front_choreo};
use dioc_syntax::write_choreo;
use std::alloc::Global;

/// Appends `reads N: ` with the choreography as it is written; `none at byte N`; or `bad byte N`.
pub fn answer(alloc: Global, case: &Case, out: &mut Vec<u8>) -> Result<(), Problem> {
    let front = front_choreo(alloc, &case.text, version_of(case)?)?;
    Ok(front.write(&|choreo, out| write_choreo(choreo, out), out)?)
}

/// The version that the only option names.
pub fn version_of(case: &Case) -> Result<u32, Problem> {
    match case.option()? {
        b"1" => Ok(1),
        b"2" => Ok(2),
        _ => Err(Problem::Bad("the version is 1 or 2")),
    }
}
