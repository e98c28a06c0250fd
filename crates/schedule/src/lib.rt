//! A run of a network by a schedule, with a seed or without, to its end or to its limit; and the
//! agenda by which it finds a move.
#![tactic(auto)]

mod agenda;
mod numbers;
mod roles;
mod runs;
mod turns;

pub use agenda::{catch_up, keep_up_with, list_ready};
pub use roles::{Listed, ReadyRole};
pub use runs::{Finish, run_seeded};
pub use turns::step_listed;
