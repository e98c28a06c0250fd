//! The rule book: which rules may replace scopes, in which order, and the environment of their
//! conditions.
#![tactic(auto)]

mod book;
mod keeping;
mod kept;

pub use book::Book;
#[doc(hidden)]
pub use kept::{KeptChange, KeptRule};
