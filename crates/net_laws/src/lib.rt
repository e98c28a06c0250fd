//! What holds of the runs of a network.
#![tactic(auto)]

mod laws;

pub use laws::{
    accepted_is_sound, every_run, moves_are_steps, runs_are_sound, schedules_are_prompt,
    schedules_read_no_version,
};
