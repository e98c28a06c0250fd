//! The indices of a choreography's constructs, and its size.
#![tactic(auto)]

mod indices;
mod marks;
mod sizes;

pub use indices::distinct;
pub use marks::mark;
pub use sizes::{depth, nodes};
