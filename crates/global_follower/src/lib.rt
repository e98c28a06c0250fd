//! The choreography as a follower of a trace: it plays entry by entry, and refuses the first entry
//! that the choreography doesn't play.
#![tactic(auto)]

mod books;
mod effects;
mod follower;
mod plays;
mod rules;
mod running;
mod scopes;
mod shown;
mod stores;

pub use follower::{FollowFault, Follower};
