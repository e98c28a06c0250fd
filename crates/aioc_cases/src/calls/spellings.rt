//! `name: BYTES` and `text: BYTES`: whether bytes are a name, or the value of a text.

use case_tables::{Case, Problem};
use dioc_terms::{Memory, Name, NameFault, Text, TextFault};
use std::alloc::Global;
use text_pieces::write_bytes;

/// Appends `a name` or `none`.
pub fn answer_name(alloc: Global, case: &Case, out: &mut Vec<u8>) -> Result<(), Problem> {
    match Name::read(alloc, &case.text) {
        Ok(name) => Ok(write_read(b"a name", name.bytes(), case, out)?),
        Err(NameFault::NotAName) => Ok(write_bytes(b"none", out)?),
        Err(NameFault::Memory) => Err(Problem::Memory),
    }
}

/// Appends `a text` or `none`.
pub fn answer_text(alloc: Global, case: &Case, out: &mut Vec<u8>) -> Result<(), Problem> {
    match Text::read(alloc, &case.text) {
        Ok(text) => Ok(write_read(b"a text", text.bytes(), case, out)?),
        Err(TextFault::NotText) => Ok(write_bytes(b"none", out)?),
        Err(TextFault::Memory) => Err(Problem::Memory),
    }
}

// What was read, and whether it has the bytes that it was read from.
fn write_read(what: &[u8], read: &[u8], case: &Case, out: &mut Vec<u8>) -> Result<(), Memory> {
    let is_same = read == case.text.as_slice();
    write_bytes(what, out)?;
    write_bytes(if is_same { b"" } else { b" of other bytes" }, out)
}
