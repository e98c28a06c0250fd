//! `tokens: TEXT`: the kinds and places of the tokens, or the first byte that is in none.

use crate::calls::lists::write_list;
use aioc_tokens::{Kind, Token};
use case_tables::{Case, Problem, text_tokens, write_place};
use dioc_terms::Memory;
use std::alloc::Global;
use text_pieces::{write_bytes, write_number};

/// Appends `KIND START-END` for each token, with `, ` between two; `none`; or `bad byte N`.
pub fn answer(alloc: Global, case: &Case, out: &mut Vec<u8>) -> Result<(), Problem> {
    match text_tokens(alloc, &case.text)? {
        Ok(found) => {
            let written = write_list(&found, b", ", &write_token, out);
            drop(found);
            Ok(written?)
        }
        Err(byte) => Ok(write_place("bad byte", byte, out)?),
    }
}

fn write_token(token: &Token, out: &mut Vec<u8>) -> Result<(), Memory> {
    write_place(kind_name(token.kind), token.start, out)?;
    write_bytes(b"-", out)?;
    write_number(token.end as u64, out)
}

fn kind_name(kind: Kind) -> &'static str {
    match kind {
        Kind::Name => "name",
        Kind::Number => "number",
        Kind::Text => "text",
        Kind::Symbol => "symbol",
    }
}
