//! Auxiliary messages: which entries are theirs, and the keys of those that a leader sends.
#![tactic(auto)]

mod entries;
mod plans;

pub use entries::is_aux;
pub use plans::leader_plan;
