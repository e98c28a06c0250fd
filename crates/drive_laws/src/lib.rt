//! Nothing is lost: laws of runs that have no auxiliary move left, and of how many auxiliary
//! entries a run has.
#![tactic(auto)]

mod laws;

pub use laws::{auxiliary_ends, readiness};
