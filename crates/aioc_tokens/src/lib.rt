//! The tokens of the texts that the program reads, and what the grammar sees of them.
//!
//! `tokens` cuts a text into names, numbers, texts in quotes and symbols, or names the first byte
//! that is in none. `Lexed` shows a text with its tokens as a list of lexemes, which the readers of
//! the grammar speak of: names that aren't reserved, reserved words, symbols, digits, and the
//! values of texts. `laws` has what holds of every text.
#![tactic(auto)]

mod first_bytes;
mod kinds;
pub mod laws;
mod packed;
mod scan;
mod sort_byte;
mod view;
mod words;

pub use kinds::{Kind, Token, TokenFault};
pub use packed::{Packed, packed_tokens};
pub use scan::tokens;
pub use sort_byte::SortByte;
pub use view::{Lexed, place, sorts};
pub use words::{Punctuator, Sort, Word, find_punctuator, find_word};
