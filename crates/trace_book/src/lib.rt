//! The history of a run: its entries, those that are visible, and those of one role.
#![tactic(auto)]

mod doers;
mod history;

pub use history::History;
