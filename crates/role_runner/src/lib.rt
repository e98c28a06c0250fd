//! Runs of a bundle with a thread for each role and one for the changes of its script.
#![tactic(auto)]

mod acting;
mod actors;
mod feeding;
mod gates;
mod playing;
mod runs;
mod scopes;
mod sign;
mod starting;
mod threads;

pub use gates::{Gate, OpenGate, Place};
pub use runs::{Outcome, run};
pub use threads::{Ending, run_roles};
