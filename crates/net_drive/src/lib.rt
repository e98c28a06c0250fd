//! From a visible trace to a full one: what a settled trace of the choreography is as a run of the
//! network, and a net that is driven through it. And on from a full one: a run that stopped is
//! resumed.
#![tactic(auto)]

mod entries;
mod laws;
mod resumed_laws;
mod resuming;
mod steps;
mod traces;

pub use laws::{
    drive_strays_are_exact, driven_exactly, driven_runs, same_traces, strays_are_exact,
};
pub use resumed_laws::{resumed_nets, resumed_runs, run_strays_are_exact};
pub use resuming::{ResumeFault, resume, resume_entries};
pub use traces::{DriveFault, drive};
