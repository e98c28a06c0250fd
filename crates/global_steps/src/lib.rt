//! The meaning of a choreography as one global program, rewritten entry by entry.
#![tactic(auto)]

mod laws;

pub use laws::{plays_go_on, settled_goes_on, strays_are_found};
