//! The network of the roles' processes: its steps, its moves in the order of the schedule, and its
//! runs.
#![tactic(auto)]

mod moves;

pub use moves::{Move, StepFault};
