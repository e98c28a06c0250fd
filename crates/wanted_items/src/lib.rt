//! What may stand at a place of a text, and how a person is told of it.
#![tactic(auto)]

mod items;
mod trials;
mod walks;

pub use items::Item;
pub use trials::{ITEMS, may_end, wanted};
