//! Makes bundles of a stated shape, for programs to be tried on: all that is made is accepted.
#![tactic(auto)]

mod blocks;
mod bundles;
mod draws;
mod laws;
mod pieces;
mod rules;
mod texts;

pub use bundles::make;
pub use laws::made_are_accepted;
