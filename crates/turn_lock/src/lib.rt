//! A lock whose word counts the items of the value under it, so that a seat's items are its own.
#![tactic(auto)]

mod chronicle;
mod law;
mod turns;
mod views;

pub use chronicle::Chronicle;
pub use turns::{Memory, Missing, Seat, Turn, Turns};
pub use views::{Claim, Known, View};
