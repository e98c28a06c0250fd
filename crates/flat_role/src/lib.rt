//! A role that runs over flat code.
#![tactic(auto)]

mod active;
mod advancing;
mod climbing;
mod entering;
mod filling;
mod leaves;
mod making_room;
mod marks;
mod moved;
mod numbered;
mod parts;
mod plays;
mod prepared;
mod progress;
mod readying;
mod relisting;
mod replacing;
mod showing;
mod starting;
mod states;
mod steps;
mod updates;

pub use plays::{play, plays_agree};
pub use states::FlatRole;
