//! Roles that run: a role with its process and its store, act by act.
//!
//! A process may be kept as a tree, as `RoleState` does, or in another form. The modules that are
//! public have what each form needs of the parts of a process: what a part offers, what it shows,
//! what it tells and gathers, and what it writes.
#![tactic(auto)]

mod changes;
pub mod growth;
mod laws;
pub mod makers;
pub mod offered;
pub mod prepared;
pub mod ready;
mod roles;
mod runs;
mod states;

pub use laws::{advances_are_steps, prepared_is_done};
pub use roles::{Begins, Runs};
pub use runs::{Got, PrepareFault, Prepared, Shown, noted_message};
pub use states::RoleState;
