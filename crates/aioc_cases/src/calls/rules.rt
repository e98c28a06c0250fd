//! `read_rule VERSION: TEXT` and `read_change VERSION: TEXT`: the longest rule and the longest
//! change at the front of a text.

use crate::calls::choreographies::version_of;
use case_tables::{Case, Front, Problem, text_tokens};
use dioc_terms::{Memory, Rule};
use rule_syntax::{ReadChange, read_change, read_rule, write_rule};
use std::alloc::Global;
use text_pieces::write_bytes;

/// Appends `reads N: ` with the rule as it is written; `none at byte N`; or `bad byte N`.
pub fn answer_rule(alloc: Global, case: &Case, out: &mut Vec<u8>) -> Result<(), Problem> {
    let front = front_rule(alloc, &case.text, version_of(case)?)?;
    Ok(front.write(&|rule, out| write_rule(rule, out), out)?)
}

fn front_rule(alloc: Global, text: &[u8], version: u32) -> Result<Front<Rule>, Problem> {
    match text_tokens(alloc, text)? {
        Ok(found) => Front::of_read(read_rule(alloc, text, &found, 0, version), found.len()),
        Err(byte) => Ok(Front::BadByte(byte)),
    }
}

/// Appends `reads N: ` and `a change`; `none at byte N`; or `bad byte N`.
pub fn answer_change(alloc: Global, case: &Case, out: &mut Vec<u8>) -> Result<(), Problem> {
    let front = front_change(alloc, &case.text, version_of(case)?)?;
    Ok(front.write(&write_kind, out)?)
}

fn write_kind(_change: &ReadChange, out: &mut Vec<u8>) -> Result<(), Memory> {
    write_bytes(b"a change", out)
}

fn front_change(alloc: Global, text: &[u8], version: u32) -> Result<Front<ReadChange>, Problem> {
    match text_tokens(alloc, text)? {
        Ok(found) => Front::of_read(read_change(alloc, text, &found, 0, version), found.len()),
        Err(byte) => Ok(Front::BadByte(byte)),
    }
}
