//! The tokens of a text, packed: what the readers go over.

ghost use Rattle.std.specs.Prelude.{◌≡◌, ℕ, ◌<◌, ◌≤◌, true, false, length, vec_len, slice_index, IfOk, MatchOption};
ghost use Rattle.std.specs.Char.{is_ascii_alphabetic, is_ascii_digit};
ghost use Rattle.aioc_tokens.specs.declared.kinds.Kind.{Kind};
ghost use Rattle.aioc_tokens.specs.Tokens.{is_space, BeginsComment, IsFront};
ghost use Rattle.aioc_tokens.specs.Lexing.{Breaks};
ghost use Rattle.aioc_tokens.specs.Packed.{ArePacked, IsSortedToken, IsSymbolAt, HasNoToken, StandsInFront};

use crate::first_bytes::{First, first_of};
use crate::kinds::TokenFault;
use crate::scan::{begins_comment, line_length, name_length, number_length, text_length};
use crate::sort_byte::SortByte;
use crate::view::{name_sort, text_sort};
use crate::words::{Punctuator, Sort, lone_punctuator, longest_symbol};
use std::alloc::Global;

/// The tokens of a text, each by the place of its first byte and its sort.
#[derive(Drop)]
pub struct Packed {
    /// Where each token begins.
    pub starts: Vec<u32>,
    /// The sort of each token.
    pub sorts: Vec<SortByte>,
}

/// What stands at the front of a text, and how many bytes it takes.
#[derive(Drop)]
pub(crate) enum Front {
    /// A space or a comment.
    Blank(usize),
    /// The longest token there, by its sort, which is as the list keeps it.
    Token(SortByte, usize),
    /// None of these.
    Other,
}

/// The name at the front, which begins with a letter.
fn name_in_front(text: &[u8]) -> Front
    requires { is_ascii_alphabetic (slice_index text.now 0) ≡ true }
    ensures { StandsInFront text.now result }
{
    let count = name_length(text);
    Front::Token(SortByte::of(name_sort(&text[..count])), count)
}

/// The number at the front, which begins with a digit.
fn number_in_front(text: &[u8]) -> Front
    requires { is_ascii_digit (slice_index text.now 0) ≡ true }
    ensures { StandsInFront text.now result }
{
    Front::Token(SortByte::of(Sort::Number), number_length(text))
}

/// The text in quotes at the front, if one ends. The first byte is its quote.
fn text_in_front(text: &[u8]) -> Front
    requires { slice_index text.now 0 ≡ 34 }
    ensures { StandsInFront text.now result }
{
    match text_length(text) {
        Some(count) => Front::Token(SortByte::of(text_sort(&text[..count])), count),
        None => Front::Other,
    }
}

/// The symbol of one byte at the front, where none of two bytes stands there.
fn lone_symbol(text: &[u8]) -> Option<(Punctuator, usize)>
    requires some { 0 < length text.now }
    requires no_comment { ¬ BeginsComment text.now }
    requires no_pair { ¬ IsFront text.now Kind.Symbol 2 }
    ensures { MatchOption result ((count : ℕ) → ¬ IsFront text.now Kind.Symbol count)
        (λ found. IsSymbolAt text.now found.0 found.1) }
{
    match lone_punctuator(text[0]) {
        Some(punctuator) => Some((punctuator, 1)),
        None => None,
    }
}

/// The longest symbol at the front, and how many bytes it takes.
fn symbol_at(text: &[u8]) -> Option<(Punctuator, usize)>
    requires some { 0 < length text.now }
    requires no_comment { ¬ BeginsComment text.now }
    ensures { MatchOption result ((count : ℕ) → ¬ IsFront text.now Kind.Symbol count)
        (λ found. IsSymbolAt text.now found.0 found.1) }
{
    if text.len() < 2 {
        return lone_symbol(text);
    }
    longest_symbol(text[0], text[1])
}

/// The symbol at the front, if one stands there.
fn symbol_in_front(text: &[u8]) -> Front
    requires some { 0 < length text.now }
    requires no_comment { ¬ BeginsComment text.now }
    requires no_letter { is_ascii_alphabetic (slice_index text.now 0) ≡ false }
    requires no_digit { is_ascii_digit (slice_index text.now 0) ≡ false }
    requires no_quote { slice_index text.now 0 ≡ 34 → ⊥ }
    requires no_space { is_space (slice_index text.now 0) ≡ false }
    ensures { StandsInFront text.now result }
{
    match symbol_at(text) {
        Some((punctuator, count)) => Front::Token(SortByte::of(Sort::Symbol(punctuator)), count),
        None => Front::Other,
    }
}

/// What stands at the front.
fn in_front(text: &[u8]) -> Front
    requires { 0 < length text.now }
    ensures { StandsInFront text.now result }
{
    match first_of(text[0]) {
        First::Name => name_in_front(text),
        First::Space => Front::Blank(1),
        First::Number => number_in_front(text),
        First::Text => text_in_front(text),
        First::Lone(sort) => Front::Token(sort, 1),
        First::Rest if begins_comment(text) => Front::Blank(line_length(text)),
        First::Rest => symbol_in_front(text),
    }
}

/// The tokens of a text, packed, in one pass over its bytes: `tokens` with `sorts`, in 5 bytes a
/// token.
///
/// `BadByte` comes exactly where some byte is in no token, space or comment, and names the first
/// such byte, counted from 0; `Memory` where memory runs out.
pub fn packed_tokens(alloc: Global, bytes: &[u8]) -> Result<Packed, TokenFault>
    requires { length bytes.now ≤ 4294967295 }
    ensures found { IfOk result (λ found. ArePacked bytes.now found.starts.items
        found.sorts.items) }
    ensures bad { (at : ℕ) → result ≡ Err (TokenFault.BadByte at) → Breaks 0 bytes.now at }
    ensures few { IfOk result (λ found. vec_len found.sorts ≤ length bytes.now) }
{
    let mut starts = Vec::new(alloc);
    let mut sorts = Vec::new(alloc);
    let mut at = 0;
    while at < bytes.len() {
        let (sort, count) = match in_front(&bytes[at..]) {
            Front::Token(sort, count) => (sort, count),
            Front::Blank(count) => {
                at += count;
                continue;
            }
            Front::Other => return Err(TokenFault::BadByte(at)),
        };
        starts.push(at as u32).map_err(|_| TokenFault::Memory)?;
        sorts.push(sort).map_err(|_| TokenFault::Memory)?;
        at += count;
    }
    Ok(Packed { starts, sorts })
}
