//! What is wrong with the text of a bundle, as a person is told: where it is, why, and what helps.
#![tactic(auto)]

mod calls;
mod crowds;
mod diagnostic;
mod examining;
pub mod laws;
mod lines;
mod mending;
mod places;
mod refusals;
mod rendering;
mod standing;
mod syntax;
mod traces;
mod wording;

pub use calls::{
    Command, Options, Request, Status, explain, read_bytes, read_request, refuse, tell,
};
pub use diagnostic::{Code, Diagnostic, Span};
pub use examining::{examine, examine_trace};
pub use rendering::{write_json, write_text};
pub use wording::Piece;
