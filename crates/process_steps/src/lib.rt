//! One step of a role's process.
#![tactic(auto)]

mod laws;

pub use laws::{offers_are_steps, steps_show_their_acts};
