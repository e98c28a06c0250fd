//! What the leader of a scope does with an update: its own part, and the messages with the parts of
//! the others.
#![tactic(auto)]

mod laws;
mod plans;

pub use laws::{leaders_tell, told_are_the_others};
pub use plans::plan_update;
