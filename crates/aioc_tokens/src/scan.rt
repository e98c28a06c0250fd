//! Cutting a text into tokens.

ghost use Rattle.std.specs.Prelude.{◌≡◌, ℕ, ◌<◌, ◌≤◌, true, length, vec_len, slice_index, IfOk, IsTrue, ◌↔◌, MatchOption};
ghost use Rattle.std.specs.Char.{is_ascii_alphabetic, is_ascii_digit};
ghost use Rattle.std.specs.List.{prefix_len};
ghost use Rattle.aioc_tokens.specs.declared.kinds.Kind.{Kind};
ghost use Rattle.aioc_tokens.specs.Tokens.{is_space, is_name_byte, is_printable, needs_pair, line_length, BeginsComment, IsBlank, IsFront, IsLongestToken};
ghost use Rattle.aioc_tokens.specs.Lexing.{Lexes, Breaks, InOrder};

use crate::first_bytes::is_name_byte;
use crate::kinds::{Kind, Token, TokenFault};
use crate::words::find_punctuator;
use std::alloc::Global;

fn is_space(byte: u8) -> bool
    ensures { result ≡ is_space byte }
{
    matches!(byte, b' ' | b'\t' | b'\n' | b'\r')
}

fn is_printable(byte: u8) -> bool
    ensures { result ≡ is_printable byte }
{
    matches!(byte, 0x20..=0x7e)
}

fn needs_pair(byte: u8) -> bool
    ensures { result ≡ needs_pair byte }
{
    byte == b'"' || byte == b'\\'
}

pub(crate) fn begins_comment(text: &[u8]) -> bool
    ensures { IsTrue result ↔ BeginsComment text.now }
{
    text.starts_with(b"//")
}

/// How many bytes stand before the next line feed, or before the end.
pub(crate) fn line_length(text: &[u8]) -> usize
    ensures { result ≡ line_length text.now }
{
    text.iter().take_while(|byte| **byte != b'\n').count()
}

/// How many bytes at the front are a space, or a comment up to the end of its line.
fn blank_length(text: &[u8]) -> Option<usize>
    ensures { MatchOption result ((count : ℕ) → IsBlank text.now count → ⊥)
        (λ count. IsBlank text.now count) }
{
    if begins_comment(text) {
        return Some(line_length(text));
    }
    match text.first() {
        Some(first) if is_space(*first) => Some(1),
        _ => None,
    }
}

/// How many bytes from the front on can stand in a name.
pub(crate) fn name_length(text: &[u8]) -> usize
    ensures { result ≡ prefix_len is_name_byte text.now }
{
    text.iter().take_while(|byte| is_name_byte(**byte)).count()
}

/// How many bytes from the front on are digits.
pub(crate) fn number_length(text: &[u8]) -> usize
    ensures { result ≡ prefix_len is_ascii_digit text.now }
{
    text.iter().take_while(|byte| byte.is_ascii_digit()).count()
}

/// How many bytes a text in quotes takes, or `None` where no text ends. The first byte is its
/// quote.
pub(crate) fn text_length(text: &[u8]) -> Option<usize>
    requires { slice_index text.now 0 ≡ 34 }
    ensures { MatchOption result ((count : ℕ) → IsFront text.now Kind.Text count → ⊥)
        (λ count. IsLongestToken text.now Kind.Text count) }
{
    let inside = &text[1..];
    let mut paired = false;
    for (place, byte) in inside.iter().enumerate() {
        let byte = *byte;
        if paired {
            if !needs_pair(byte) {
                return None;
            }
            paired = false;
        } else if byte == b'"' {
            return Some(place + 2);
        } else if byte == b'\\' {
            paired = true;
        } else if !is_printable(byte) {
            return None;
        }
    }
    None
}

/// Whether the first bytes, as many as this, are a symbol.
fn is_symbol(text: &[u8], count: usize) -> bool
    ensures { IsTrue result ↔ IsFront text.now Kind.Symbol count }
{
    count <= text.len() && find_punctuator(&text[..count]).is_some()
}

/// How many bytes the longest symbol takes.
fn symbol_length(text: &[u8]) -> Option<usize>
    requires { ¬ BeginsComment text.now }
    ensures { MatchOption result ((count : ℕ) → IsFront text.now Kind.Symbol count → ⊥)
        (λ count. IsLongestToken text.now Kind.Symbol count) }
{
    if is_symbol(text, 2) {
        Some(2)
    } else if is_symbol(text, 1) {
        Some(1)
    } else {
        None
    }
}

/// The longest token at the front, its kind and how many bytes it takes.
fn longest_token(text: &[u8]) -> Option<(Kind, usize)>
    requires { ¬ BeginsComment text.now }
    ensures { MatchOption result ((kind : Kind) (count : ℕ) → IsFront text.now kind count → ⊥)
        (λ found. IsLongestToken text.now found.0 found.1) }
{
    let first = *text.first()?;
    if first.is_ascii_alphabetic() {
        return Some((Kind::Name, name_length(text)));
    }
    if first.is_ascii_digit() {
        return Some((Kind::Number, number_length(text)));
    }
    if first == b'"' {
        let length = text_length(text)?;
        return Some((Kind::Text, length));
    }
    let length = symbol_length(text)?;
    Some((Kind::Symbol, length))
}

/// The tokens of a text, in order.
///
/// The longest token is taken at each place, and a comment before the symbol `/`. Spaces and
/// comments may stand between any two tokens and are no tokens. `BadByte` comes exactly where some
/// byte is in no token, space or comment, and names the first such byte, counted from 0; `Memory`
/// where memory runs out.
pub fn tokens(alloc: Global, bytes: &[u8]) -> Result<Vec<Token>, TokenFault>
    ensures found { IfOk result (λ v. Lexes 0 bytes.now v.items) }
    ensures bad { (at : ℕ) → result ≡ Err (TokenFault.BadByte at) → Breaks 0 bytes.now at }
    ensures order { IfOk result (λ v. InOrder 0 (length bytes.now) v.items) }
    ensures few { IfOk result (λ v. vec_len v ≤ length bytes.now) }
{
    let mut found = Vec::new(alloc);
    let mut at = 0;
    while at < bytes.len() {
        let rest = &bytes[at..];
        if let Some(count) = blank_length(rest) {
            at += count;
            continue;
        }
        let Some((kind, count)) = longest_token(rest) else {
            return Err(TokenFault::BadByte(at));
        };
        let end = at + count;
        found
            .push(Token {
                kind,
                start: at,
                end,
            })
            .map_err(|_| TokenFault::Memory)?;
        at = end;
    }
    Ok(found)
}
