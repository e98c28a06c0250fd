//! `accept: TEXT`: whether the bundle that a text spells may run.

use bundle_text::read_bundle;
use case_tables::{Case, Problem};
use dioc_terms::SyntaxFault;
use rule_checks::{Refusal, accept};
use std::alloc::Global;
use text_pieces::write_bytes;

/// Appends `accepted`, the text of the first refusal, or `no bundle`.
pub fn answer(alloc: Global, case: &Case, out: &mut Vec<u8>) -> Result<(), Problem> {
    match read_bundle(alloc, &case.text) {
        Ok(bundle) => {
            let accepted = accept(alloc, &bundle);
            drop(bundle);
            let written = write_accepted(alloc, &accepted, out);
            drop(accepted);
            written
        }
        Err(SyntaxFault::Syntax(_)) => Ok(write_bytes(b"no bundle", out)?),
        Err(SyntaxFault::Memory) => Err(Problem::Memory),
    }
}

fn write_accepted(
    alloc: Global,
    accepted: &Result<(), Refusal>,
    out: &mut Vec<u8>,
) -> Result<(), Problem> {
    match accepted {
        Ok(()) => Ok(write_bytes(b"accepted", out)?),
        Err(Refusal::Memory) => Err(Problem::Memory),
        Err(refusal) => {
            let told = refusal.to_string(alloc)?;
            let written = write_bytes(told.as_bytes(), out);
            drop(told);
            Ok(written?)
        }
    }
}
