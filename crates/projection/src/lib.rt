//! What each role does of a choreography.
//!
//! The modules that are public have what each way to make a role's process needs of a choreography:
//! which roles a part names, and what a leader knows.
#![tactic(auto)]

mod laws;
pub mod leaders;
pub mod named;
mod projected;

pub use laws::outsiders_have_ended;
pub use projected::project;
