//! Texts that spell no bundle.

ghost use Rattle.std.specs.Prelude.{◌≤◌, length};
ghost use Rattle.aioc_tokens.specs.Lexing.{Lexes};

use crate::diagnostic::{Code, Diagnostic, Span};
use crate::places::span_at;
use crate::wording::{Piece, line_of, made, stated, token_bytes, write_found, write_items};
use aioc_tokens::{Lexed, Punctuator, Sort, Token, TokenFault, sorts, tokens};
use dioc_terms::Memory;
use limits::{
    MOST_BRACKETS, MOST_BYTES, MOST_DEPTH, MOST_EXPRESSION_DEPTH, MOST_NAME_BYTES, MOST_TEXT_BYTES,
};
use std::alloc::Global;
use text_pieces::write_bytes;
use wanted_items::{Item, may_end, wanted};
use wanted_tokens::{Goal, first_unwanted};

/// What is wrong with a text that spells no bundle, and whose reading ends at this byte.
pub fn of_syntax(alloc: Global, bytes: &[u8], byte: usize) -> Result<Diagnostic, Memory> {
    if bytes.len() > MOST_BYTES {
        return too_long(alloc, bytes);
    }
    let found = match tokens(alloc, bytes) {
        Ok(found) => found,
        Err(TokenFault::BadByte(at)) => return bad_byte(alloc, bytes, at),
        Err(TokenFault::Memory) => return Err(Memory),
    };
    let known = sorts(alloc, bytes, &found)?;
    let text = Lexed::with_sorts(bytes, &found, &known);
    match first_unwanted(alloc, &text, Goal::Bundle)? {
        Some(at) => unwanted(alloc, bytes, &found, &text, at.min(found.len())),
        None => past_limit(alloc, bytes, &found, &text, byte),
    }
}

fn too_long(alloc: Global, bytes: &[u8]) -> Result<Diagnostic, Memory> {
    let count = bytes.len();
    let message = format!(in alloc;
        "the text has {count} bytes, and a bundle at most {MOST_BYTES}"
    )?;
    let help = b"drop comments and spaces, or the trace, which may stand in a text of its own";
    stated(alloc, Code::TooLong, Span::at(MOST_BYTES), message, help)
}

/// A byte that is in no token.
fn bad_byte(alloc: Global, bytes: &[u8], at: usize) -> Result<Diagnostic, Memory> {
    let span = Span {
        start: at,
        end: at.saturating_add(1).min(bytes.len()),
    };
    match bytes.get(at) {
        Some(b'"') => open_text(alloc, span),
        Some(sign @ 0x21..=0x7e) => stray_sign(alloc, span, *sign),
        Some(byte) => stray_byte(alloc, span, *byte),
        None => stray_byte(alloc, span, 0),
    }
}

/// A text in quotes that doesn't end.
fn open_text(alloc: Global, span: Span) -> Result<Diagnostic, Memory> {
    let message = format!(in alloc; "a text in quotes begins here and doesn't end")?;
    let help = b"a text ends on its line; it has printable ASCII, and '\"' and '\\' behind a '\\'";
    stated(alloc, Code::BadByte, span, message, help)
}

/// A printable byte that is in no token.
fn stray_sign(alloc: Global, span: Span, byte: u8) -> Result<Diagnostic, Memory> {
    let sign = char::from(byte);
    let message = format!(in alloc; "found '{sign}', which is in no token")?;
    let help = b"a name has letters, digits and '_', and begins with a letter; \
        comments begin with '//'";
    stated(alloc, Code::BadByte, span, message, help)
}

/// Another byte that is in no token.
fn stray_byte(alloc: Global, span: Span, byte: u8) -> Result<Diagnostic, Memory> {
    let message = format!(in alloc; "found the byte {byte}, which is in no token")?;
    let help = b"outside of comments a bundle has printable ASCII, tabs and line ends alone";
    stated(alloc, Code::BadByte, span, message, help)
}

/// A token that may not stand where it does, or the end of the text where more is wanted.
fn unwanted(
    alloc: Global,
    bytes: &[u8],
    found: &[Token],
    text: &Lexed<'_>,
    at: usize,
) -> Result<Diagnostic, Memory>
    requires lexes { Lexes 0 bytes.now found.now }
    requires within { at ≤ length found.now }
{
    let span = span_at(bytes, found, at);
    let sort = text.sort(at);
    if sort == Sort::Long {
        return long(alloc, span, token_bytes(bytes, found, at));
    }
    let items = wanted(alloc, bytes, found, at)?;
    if sort == Sort::Number && items.contains(&Item::Number) {
        return great_number(alloc, span, token_bytes(bytes, found, at));
    }
    let over = may_end(alloc, bytes, found, at)?;
    let mut message = line_of(alloc, &[Piece::Bytes(b"expected ")])?;
    write_items(alloc, &items, over, &mut message)?;
    write_bytes(b", found ", &mut message)?;
    write_found(text, bytes, found, at, &mut message)?;
    made(alloc, Code::Syntax, span, message, help_of(sort, &items))
}

/// What helps where a token of this sort may not stand, and these may.
fn help_of(sort: Sort, items: &[Item]) -> &'static [u8] {
    match sort {
        Sort::End => b"the text ends too early; often a closing bracket is missing",
        Sort::Reserved(_) if items.contains(&Item::Name) => {
            b"a reserved word is no name: choose another name"
        }
        Sort::Name | Sort::Reserved(_) if items.contains(&Item::Symbol(Punctuator::Semicolon)) => {
            b"put a ';' between two steps, and behind each binding and input"
        }
        _ => b"docs/LANGUAGE.md has the grammar",
    }
}

/// A name or a text that is too long.
fn long(alloc: Global, span: Span, token: &[u8]) -> Result<Diagnostic, Memory> {
    if token.starts_with(b"\"") {
        let message = format!(in alloc;
            "this text is too long: a text has at most {MOST_TEXT_BYTES} bytes"
        )?;
        let help = b"split the text, and join its parts by '++' where they are used";
        return stated(alloc, Code::Long, span, message, help);
    }
    let count = token.len();
    let message = format!(in alloc;
        "this name has {count} bytes, and a name at most {MOST_NAME_BYTES}"
    )?;
    stated(alloc, Code::Long, span, message, b"choose a shorter name")
}

/// A number where one may stand, but a smaller one.
fn great_number(alloc: Global, span: Span, token: &[u8]) -> Result<Diagnostic, Memory> {
    let message = line_of(
        alloc,
        &[
            Piece::Bytes(b"the number "),
            Piece::Bytes(&token[..token.len().min(40)]),
            Piece::Bytes(b" is too great here"),
        ],
    )?;
    let help = b"a value is at most 9223372036854775807, \
        a place or an epoch 4294967295, a priority 1000000";
    made(alloc, Code::Number, span, message, help)
}

/// The place of the first bracket that is open with as many others as may be, if any.
fn bracket_past_limit(text: &Lexed<'_>) -> Option<usize> {
    let mut open = 0;
    for at in 0..text.len() {
        match text.sort(at) {
            Sort::Symbol(Punctuator::LeftBrace | Punctuator::LeftParen) => {
                if open >= MOST_BRACKETS {
                    return Some(at);
                }
                open += 1;
            }
            Sort::Symbol(Punctuator::RightBrace | Punctuator::RightParen) => {
                open = open.saturating_sub(1);
            }
            _ => {}
        }
    }
    None
}

/// A limit of brackets or depths is passed, and the reading ends at this byte.
fn past_limit(
    alloc: Global,
    bytes: &[u8],
    found: &[Token],
    text: &Lexed<'_>,
    byte: usize,
) -> Result<Diagnostic, Memory> {
    match bracket_past_limit(text) {
        Some(at) => too_many_brackets(alloc, span_at(bytes, found, at)),
        None => too_deep(alloc, Span::at(byte)),
    }
}

fn too_many_brackets(alloc: Global, span: Span) -> Result<Diagnostic, Memory> {
    let message = format!(in alloc;
        "too many brackets are open here: at most {MOST_BRACKETS} may be open at once"
    )?;
    let help = b"drop brackets around single steps and operands";
    stated(alloc, Code::Brackets, span, message, help)
}

fn too_deep(alloc: Global, span: Span) -> Result<Diagnostic, Memory> {
    let message = format!(in alloc;
        "what stands here is too deep: the tree of a choreography is at most {MOST_DEPTH} deep, \
        that of an expression at most {MOST_EXPRESSION_DEPTH}"
    )?;
    let help = b"a step behind ';' and a part behind '|' lie one deeper than the one before it: \
        put some into brackets";
    stated(alloc, Code::Depth, span, message, help)
}
