//! The network of a bundle of every form, run by role states that keep their processes themselves.
#![tactic(auto)]

mod bodies;
mod changing;
mod faults;
mod laws;
mod listing;
mod network;
mod parts;
mod scopes;
mod starting;

pub use bodies::Coming;
pub use changing::make_change;
pub use faults::ChangeFault;
pub use laws::steps_run;
pub use listing::is_first_due;
pub use network::Net;
pub use network_steps::{Move, StepFault};
pub use starting::{keep_script, opening_state};
