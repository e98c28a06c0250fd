//! `lexemes: TEXT`: what the grammar sees of a text, a line for each lexeme and one for the end.

ghost use Rattle.aioc_tokens.specs.Lexing.{Lexes};

use aioc_tokens::{Lexed, Sort, Token, place};
use case_tables::{Case, Problem, text_tokens, write_place};
use dioc_terms::Memory;
use std::alloc::Global;
use text_pieces::write_bytes;

/// Appends `at N SORT VALUE` for each lexeme that begins at byte N, and `at N end`; or `bad byte
/// N`.
pub fn answer(alloc: Global, case: &Case, out: &mut Vec<u8>) -> Result<(), Problem> {
    match text_tokens(alloc, &case.text)? {
        Ok(found) => {
            let written = write_lexemes(alloc, &case.text, &found, out);
            drop(found);
            written
        }
        Err(byte) => Ok(write_place("bad byte", byte, out)?),
    }
}

fn write_lexemes(
    alloc: Global,
    text: &[u8],
    found: &[Token],
    out: &mut Vec<u8>,
) -> Result<(), Problem>
    requires { Lexes 0 text.now found.now }
{
    let lexed = Lexed::new(text, found);
    for at in 0..found.len() {
        write_place("at", place(text, found, at), out)?;
        write_lexeme(alloc, &lexed, at, out)?;
        write_bytes(b"\n", out)?;
    }
    write_place("at", place(text, found, found.len()), out)?;
    Ok(write_bytes(b" end", out)?)
}

// The sort and the value of a lexeme.
fn write_lexeme(
    alloc: Global,
    lexed: &Lexed<'_>,
    at: usize,
    out: &mut Vec<u8>,
) -> Result<(), Problem> {
    match lexed.sort(at) {
        Sort::Name => Ok(write_valued("name", lexed.name(at), out)?),
        Sort::Number => Ok(write_valued("number", lexed.digits(at), out)?),
        Sort::Text => {
            let value = lexed.text(alloc, at)?;
            let written = write_valued("text", &value, out);
            drop(value);
            Ok(written?)
        }
        Sort::Reserved(word) => Ok(write_valued("word", word.spelling(), out)?),
        Sort::Symbol(symbol) => Ok(write_valued("symbol", symbol.spelling(), out)?),
        Sort::Long => Ok(write_bytes(b" too long", out)?),
        Sort::End => Ok(()),
    }
}

fn write_valued(sort: &str, value: &[u8], out: &mut Vec<u8>) -> Result<(), Memory> {
    write_bytes(b" ", out)?;
    write_bytes(sort.as_bytes(), out)?;
    write_bytes(b" ", out)?;
    write_bytes(value, out)
}
