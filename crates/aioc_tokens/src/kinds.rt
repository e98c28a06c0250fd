//! What the tokens of a text are.

use thiserror::Error;

/// The kind of a token.
#[derive(Clone, Copy)]
pub enum Kind {
    /// A letter, and then letters, digits and `_`. A reserved word is a name here.
    Name,
    /// One or more digits.
    Number,
    /// Printable bytes in quotes, in which `\"` and `\\` stand for `"` and `\`.
    Text,
    /// One of the symbols.
    Symbol,
}

/// A token, the bytes from `start` up to `end` of its text.
#[derive(Clone, Copy)]
pub struct Token {
    pub kind: Kind,
    pub start: usize,
    pub end: usize,
}

/// Why a text has no tokens.
#[derive(Clone, Copy, Debug, PartialEq, Eq, Error)]
pub enum TokenFault {
    /// The first byte that is in no token, space or comment stands at this place.
    #[error("the byte at {0} is in no token")]
    BadByte(usize),
    /// Memory ran out.
    #[error("out of memory")]
    Memory,
}
