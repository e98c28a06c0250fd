//! Numbers from 0 up that many threads draw, each of them once.
#![tactic(auto)]

mod law;
mod tickets;
mod views;

pub use tickets::{Drawer, Memory, Tickets};
pub use views::View;
