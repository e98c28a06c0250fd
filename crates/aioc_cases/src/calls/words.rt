//! `read_words WORD..:`: the command that the words spell.

use case_tables::{Case, Problem};
use command_words::{Command, read_words};
use dioc_terms::Memory;
use std::alloc::Global;
use text_pieces::write_bytes;

/// Appends the command as it is declared, or `none`.
pub fn answer(alloc: Global, case: &Case, out: &mut Vec<u8>) -> Result<(), Problem> {
    let read = read_words(alloc, case.options.as_slice())?;
    let written = match &read {
        Some(command) => write_command(alloc, command, out),
        None => write_bytes(b"none", out),
    };
    drop(read);
    Ok(written?)
}

fn write_command(alloc: Global, command: &Command, out: &mut Vec<u8>) -> Result<(), Memory> {
    if let Command::Monitor(role) = command {
        write_bytes(b"Monitor ", out)?;
        write_bytes(role.0.bytes(), out)
    } else {
        let shown = format!(in alloc; "{command:?}")?;
        let written = write_bytes(shown.as_bytes(), out);
        drop(shown);
        written
    }
}
