//! Flat code: a process as a list of ops, each of which names its parts by their places.
#![tactic(auto)]

mod code;
mod compiled;
mod forms;
mod levels;
mod ops;
mod plan;
mod role_code;

pub use code::Code;
pub use compiled::{compile, link};
pub use levels::{Level, levels_of};
pub use ops::{Op, PartPlaces};
pub use plan::Plan;
pub use role_code::compile_role;
