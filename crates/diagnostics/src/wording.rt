//! How a person is told of pieces, of items and of tokens.

ghost use Rattle.std.specs.Prelude.{◌≡◌, ◌++◌, OnOk, IfOk};
ghost use Rattle.std.specs.List.{flat_map};
ghost use Rattle.diagnostics.specs.Wording.{piece_text};

use crate::diagnostic::{Code, Diagnostic, Span};
use aioc_tokens::{Lexed, Punctuator, Sort, Token, Word};
use dioc_terms::{Memory, Role};
use std::alloc::Global;
use text_pieces::{write_bytes, write_number};
use wanted_items::Item::{self, Name, Number, Text};

/// A piece of a line.
#[derive(Clone, Copy)]
pub enum Piece<'a> {
    Bytes(&'a [u8]),
    Number(u64),
}

/// Appends a piece.
fn write_piece(piece: Piece<'_>, out: &mut Vec<u8>) -> Result<(), Memory>
    ensures { OnOk result (out.new.items ≡ out.old.items ++ piece_text piece.entry) }
{
    match piece {
        Piece::Bytes(bytes) => write_bytes(bytes, out),
        Piece::Number(number) => write_number(number, out),
    }
}

/// Appends pieces, one after the other.
pub fn write_pieces(pieces: &[Piece<'_>], out: &mut Vec<u8>) -> Result<(), Memory>
    ensures { OnOk result (out.new.items ≡ out.old.items ++ flat_map piece_text pieces.now) }
{
    for piece in pieces {
        write_piece(*piece, out)?;
    }
    Ok(())
}

/// A line of pieces.
pub fn line_of(alloc: Global, pieces: &[Piece<'_>]) -> Result<Vec<u8>, Memory>
    ensures { IfOk result (λ line. line.items ≡ flat_map piece_text pieces.now) }
{
    let mut line = Vec::new(alloc);
    write_pieces(pieces, &mut line)?;
    Ok(line)
}

/// A diagnostic with this message and help.
pub fn made(
    alloc: Global,
    code: Code,
    span: Span,
    message: Vec<u8>,
    help: &[u8],
) -> Result<Diagnostic, Memory> {
    Ok(Diagnostic {
        code,
        span,
        message,
        help: Vec::from_slice(alloc, help)?,
    })
}

/// As `made`, of a message that is a string.
pub fn stated(
    alloc: Global,
    code: Code,
    span: Span,
    message: String,
    help: &[u8],
) -> Result<Diagnostic, Memory> {
    made(alloc, code, span, message.into_bytes(), help)
}

/// What several items together are called.
#[derive(Clone, Copy)]
struct Group {
    name: &'static [u8],
    items: &'static [Item],
}

const TRUE: Item = Item::Reserved(Word::True);

const FALSE: Item = Item::Reserved(Word::False);

const NIL: Item = Item::Reserved(Word::Nil);

const MINUS: Item = Item::Symbol(Punctuator::Minus);

const OPEN_PAREN: Item = Item::Symbol(Punctuator::LeftParen);

const EXPRESSION: [Item; 8] = [Name, Number, Text, TRUE, FALSE, NIL, MINUS, OPEN_PAREN];

const VALUE: [Item; 6] = [Number, Text, TRUE, FALSE, NIL, MINUS];

const STEP: [Item; 6] = [
    Name,
    Item::Reserved(Word::Skip),
    Item::Reserved(Word::If),
    Item::Reserved(Word::While),
    Item::Reserved(Word::Scope),
    OPEN_PAREN,
];

const ARITHMETIC: [Item; 5] = [
    Item::Symbol(Punctuator::Plus),
    MINUS,
    Item::Symbol(Punctuator::Star),
    Item::Symbol(Punctuator::Slash),
    Item::Symbol(Punctuator::Percent),
];

const COMPARISON: [Item; 6] = [
    Item::Symbol(Punctuator::EqualEqual),
    Item::Symbol(Punctuator::NotEqual),
    Item::Symbol(Punctuator::Less),
    Item::Symbol(Punctuator::LessEqual),
    Item::Symbol(Punctuator::Greater),
    Item::Symbol(Punctuator::GreaterEqual),
];

fn items_called(name: &'static [u8], items: &'static [Item]) -> Option<Group> {
    Some(Group { name, items })
}

/// The groups, each before those that are a part of it.
fn group_at(number: usize) -> Option<Group> {
    match number {
        0 => items_called(b"an expression", EXPRESSION.as_slice()),
        1 => items_called(b"a value", VALUE.as_slice()),
        2 => items_called(b"a step", STEP.as_slice()),
        3 => items_called(b"an arithmetic operator", ARITHMETIC.as_slice()),
        4 => items_called(b"a comparison", COMPARISON.as_slice()),
        _ => None,
    }
}

const GROUPS: usize = 5;

/// Whether all of the first items are among the second.
fn are_among(some: &[Item], items: &[Item]) -> bool {
    some.iter().all(|item| items.contains(item))
}

/// The number of the group that stands for an item in a list of items.
fn group_of(item: Item, items: &[Item]) -> Option<usize> {
    for number in 0..GROUPS {
        if let Some(group) = group_at(number) {
            if group.items.contains(&item) && are_among(group.items, items) {
                return Some(number);
            }
        }
    }
    None
}

/// Whether an item is told by another one: words that are names, and the number 2, where any is
/// told.
fn is_implied(item: Item, items: &[Item]) -> bool {
    match item {
        Item::Two => items.contains(&Item::Number),
        Item::Placed(_) => items.contains(&Item::Name),
        _ => false,
    }
}

/// Appends what an item is called.
fn write_item(item: Item, out: &mut Vec<u8>) -> Result<(), Memory> {
    match item {
        Item::Name => write_bytes(b"a name", out),
        Item::Number => write_bytes(b"a number", out),
        Item::Text => write_bytes(b"a text", out),
        other => write_quoted_word(other.spelling(), out),
    }
}

/// Appends a word between `'`.
pub fn write_quoted_word(word: &[u8], out: &mut Vec<u8>) -> Result<(), Memory> {
    write_pieces(
        &[Piece::Bytes(b"'"), Piece::Bytes(word), Piece::Bytes(b"'")],
        out,
    )
}

/// The names of items, groups of them by one name, each once.
fn names_of(alloc: Global, items: &[Item], may_end: bool) -> Result<Vec<Vec<u8>>, Memory> {
    let mut names = Vec::new(alloc);
    let mut told = [false; GROUPS];
    for item in items {
        match group_of(*item, items) {
            Some(number) if number < GROUPS => {
                if !told[number] {
                    told[number] = true;
                    if let Some(group) = group_at(number) {
                        names.push(Vec::from_slice(alloc, group.name)?)?;
                    }
                }
            }
            _ => {
                if !is_implied(*item, items) {
                    let mut name = Vec::new(alloc);
                    write_item(*item, &mut name)?;
                    names.push(name)?;
                }
            }
        }
    }
    if may_end {
        names.push(Vec::from_slice(alloc, b"the end of the text")?)?;
    }
    Ok(names)
}

/// Appends names with `,` between two and `or` before the last.
fn write_choice(names: &[Vec<u8>], out: &mut Vec<u8>) -> Result<(), Memory> {
    for (number, name) in names.iter().enumerate() {
        if number > 0 {
            if number == names.len() - 1 {
                write_bytes(b" or ", out)?;
            } else {
                write_bytes(b", ", out)?;
            }
        }
        write_bytes(name, out)?;
    }
    Ok(())
}

/// Appends what may stand at a place.
pub fn write_items(
    alloc: Global,
    items: &[Item],
    may_end: bool,
    out: &mut Vec<u8>,
) -> Result<(), Memory> {
    let names = names_of(alloc, items, may_end)?;
    write_choice(&names, out)
}

/// The bytes of a token of a text, none past its end.
pub fn token_bytes<'a>(bytes: &'a [u8], tokens: &[Token], at: usize) -> &'a [u8] {
    match tokens.get(at) {
        Some(token) if token.start <= token.end && token.end <= bytes.len() => {
            &bytes[token.start..token.end]
        }
        _ => b"",
    }
}

/// So many bytes of a token are told at most.
const MOST_TOLD: usize = 70;

/// Appends what stands at a place.
pub fn write_found(
    text: &Lexed<'_>,
    bytes: &[u8],
    tokens: &[Token],
    at: usize,
    out: &mut Vec<u8>,
) -> Result<(), Memory> {
    let token = token_bytes(bytes, tokens, at);
    let told = &token[..token.len().min(MOST_TOLD)];
    match text.sort(at) {
        Sort::End => write_bytes(b"the end of the text", out),
        Sort::Long => write_bytes(b"a name or a text that is too long", out),
        Sort::Name => {
            write_bytes(b"name ", out)?;
            write_quoted_word(told, out)
        }
        Sort::Number => write_pieces(&[Piece::Bytes(b"number "), Piece::Bytes(told)], out),
        Sort::Text => write_pieces(&[Piece::Bytes(b"text "), Piece::Bytes(told)], out),
        Sort::Reserved(_) | Sort::Symbol(_) => write_quoted_word(told, out),
    }
}

/// Appends the names of roles, at most eight, with `,` between two.
pub fn write_roles(roles: &[Role], out: &mut Vec<u8>) -> Result<(), Memory> {
    for (number, role) in roles.iter().enumerate() {
        if number == 8 {
            return write_bytes(b", ..", out);
        }
        if number > 0 {
            write_bytes(b", ", out)?;
        }
        write_bytes(role.0.bytes(), out)?;
    }
    Ok(())
}
