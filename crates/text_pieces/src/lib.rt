//! The pieces of which written texts are made: bytes, decimal digits, truth values, texts in quotes
//! and values.
//!
//! Each call appends its piece to the bytes that stand there. Where memory runs out, a part of the
//! piece may stand behind the old bytes; who writes a whole text cuts it off again, with
//! [`cut_back`].
#![tactic(auto)]

mod pieces;
mod values;

pub use pieces::{cut_back, write_bytes, write_number, write_quoted, write_truth};
pub use values::{Minus, write_value};
