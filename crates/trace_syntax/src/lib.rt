//! Reads the lines of a trace from the tokens of a text.
#![tactic(auto)]

mod entries;
pub mod laws;
mod parts;
mod traces;
mod words;

pub use traces::{read_trace, trace_at};
pub use words::{Line, TraceFault};
