//! Cutting a text into its tokens and its comments.

ghost use Rattle.std.specs.Prelude.{◌≡◌, ℕ, ◌+◌, ◌<◌, ◌≤◌, ◌↔◌, drop, length, IfOk, IsTrue, slice_get, Some};
ghost use Rattle.std.specs.List.{All, prefix_len};
ghost use Rattle.aioc_tokens.specs.Tokens.{BeginsComment, IsLongestToken, line_length};
ghost use Rattle.aioc_tokens.specs.Packed.{ArePacked};
ghost use Rattle.bundle_layout.specs.Pieces.{HasPieces};
ghost use Rattle.bundle_layout.specs.Parts.{IsTokenAt, LiesIn, comment_part, goes_on, pieces_of};

use aioc_tokens::{Kind, Sort, SortByte, find_punctuator};
use std::alloc::{AllocError, Global};

/// What a part of a text is.
#[derive(Clone, Copy)]
pub enum PartKind {
    Token(Kind),
    /// From `//` up to the end of the line.
    Comment,
}

/// A token or a comment, the bytes from `start` up to `end` of its text.
#[derive(Clone, Copy)]
pub(crate) struct Part {
    pub kind: PartKind,
    /// What the grammar sees of a token, and `End` of a comment.
    pub sort: Sort,
    pub start: u32,
    pub end: u32,
}

/// Whether this byte, directly behind a part of this kind, would belong to it, or make another
/// symbol or a comment of it.
pub(crate) fn goes_on(kind: PartKind, byte: u8) -> bool
    ensures { result ≡ goes_on kind byte }
{
    match kind {
        PartKind::Token(Kind::Name) => byte.is_ascii_alphanumeric() || byte == b'_',
        PartKind::Token(Kind::Number) => byte.is_ascii_digit(),
        PartKind::Token(Kind::Text) => false,
        PartKind::Token(Kind::Symbol) => matches!(byte, b'=' | b'+' | b'>' | b'/'),
        PartKind::Comment => byte != b'\n',
    }
}

/// How many bytes from the front on go on a part of this kind.
fn run_length(kind: PartKind, text: &[u8]) -> usize
    ensures value { result ≡ prefix_len (goes_on kind) text.now }
    ensures within { result ≤ length text.now }
{
    text.iter().take_while(|byte| goes_on(kind, **byte)).count()
}

/// How many bytes the text in quotes at the front takes.
fn quoted_length(text: &[u8]) -> usize
    requires { (count : ℕ) × IsLongestToken text.now Kind.Text count }
    ensures { IsLongestToken text.now Kind.Text result }
{
    let mut at = 1;
    let mut paired = false;
    while at < text.len() {
        let byte = text[at];
        at += 1;
        if paired {
            paired = false;
        } else if byte == b'"' {
            return at;
        } else {
            paired = byte == b'\\';
        }
    }
    unreachable!()
}

/// How many bytes the symbol at the front takes.
fn symbol_length(text: &[u8]) -> usize
    requires { (count : ℕ) × IsLongestToken text.now Kind.Symbol count }
    ensures { IsLongestToken text.now Kind.Symbol result }
{
    if text.len() > 1 && find_punctuator(&text[..2]).is_some() {
        2
    } else {
        1
    }
}

/// The kind of the token at the front, and how many bytes it takes.
fn token_length(text: &[u8]) -> (Kind, usize)
    requires { (kind : Kind) × (count : ℕ) × IsLongestToken text.now kind count }
    ensures { IsLongestToken text.now result.0 result.1 }
{
    let first = text[0];
    if first.is_ascii_alphabetic() {
        return (Kind::Name, run_length(PartKind::Token(Kind::Name), text));
    }
    if first.is_ascii_digit() {
        return (
            Kind::Number,
            run_length(PartKind::Token(Kind::Number), text),
        );
    }
    if first == b'"' {
        return (Kind::Text, quoted_length(text));
    }
    (Kind::Symbol, symbol_length(text))
}

fn begins_comment(text: &[u8]) -> bool
    ensures { IsTrue result ↔ BeginsComment text.now }
{
    text.starts_with(b"//")
}

/// Whether the token at a place of the list begins at this byte.
fn begins_at(starts: &[u32], next: usize, at: usize) -> bool
    ensures { IsTrue result ↔ (slice_get starts.now next ≡ Some at) }
{
    match starts.get(next) {
        Some(start) => *start as usize == at,
        None => false,
    }
}

/// The sort at a place of the list.
fn sort_of(sorts: &[SortByte], next: usize) -> Sort {
    match sorts.get(next) {
        Some(sort) => sort.get(),
        None => Sort::End,
    }
}

/// The token that begins at this place of the text.
fn token_at(text: &[u8], at: usize, sort: Sort) -> Part
    requires short { length text.now ≤ 4294967295 }
    requires within { at ≤ length text.now }
    requires begins { (kind : Kind) × (count : ℕ) × IsLongestToken (drop at text.now) kind count }
    ensures { IsTokenAt text.now at sort result }
{
    let (kind, count) = token_length(&text[at..]);
    let end = at + count;
    Part {
        kind: PartKind::Token(kind),
        sort,
        start: at as u32,
        end: end as u32,
    }
}

/// The comment that begins at this place of the text.
fn comment_at(text: &[u8], at: usize) -> Part
    requires short { length text.now ≤ 4294967295 }
    requires within { at ≤ length text.now }
    ensures { result ≡ comment_part at (at + line_length (drop at text.now)) }
{
    let end = at + run_length(PartKind::Comment, &text[at..]);
    Part {
        kind: PartKind::Comment,
        sort: Sort::End,
        start: at as u32,
        end: end as u32,
    }
}

/// The parts of a text whose tokens begin at these places and have these sorts, in order.
pub(crate) fn cut(
    alloc: Global,
    bytes: &[u8],
    starts: &[u32],
    sorts: &[SortByte],
) -> Result<Vec<Part>, AllocError>
    requires packed { ArePacked bytes.now starts.now sorts.now }
    requires short { length bytes.now ≤ 4294967295 }
    ensures pieces { IfOk result (λ v. HasPieces bytes.now (pieces_of bytes.now v.items)) }
    ensures lie { IfOk result (λ v. All (LiesIn bytes.now) v.items) }
{
    let mut parts = Vec::with_capacity(alloc, starts.len())?;
    let mut at = 0;
    let mut next = 0;
    while at < bytes.len() {
        if begins_at(starts, next, at) {
            let token = token_at(bytes, at, sort_of(sorts, next));
            parts.push(token)?;
            at = token.end as usize;
            next += 1;
            continue;
        }
        if begins_comment(&bytes[at..]) {
            let comment = comment_at(bytes, at);
            parts.push(comment)?;
            at = comment.end as usize;
            continue;
        }
        at += 1;
    }
    Ok(parts)
}
