//! Which roles begin a part of a choreography, which groups of roles end one, and when the two are
//! linked.
#![tactic(auto)]

mod checks;
mod laws;
mod summaries;

pub use checks::{CheckFault, check};
pub use laws::{gaps_are_found, roles_at_ends, stamped_connected};
