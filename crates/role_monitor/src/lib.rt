//! A monitor of one role: it reads a full trace, and says whether the role kept to its process.
#![tactic(auto)]

mod entries;
mod hearing;
mod judging;
mod laws;
mod messages;
mod monitor;
mod others;
mod own;
mod scenes;
mod scopes;
mod script;
mod updates;

pub use laws::{kept_traces_are_runs, runs_never_deviate};
pub use monitor::{FeedFault, Monitor};
