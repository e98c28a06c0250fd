//! Writes the lines of a trace, the text of a run, and the text of a process.
#![tactic(auto)]

mod json_lines;
pub mod laws;
mod lines;
mod pieces;
mod processes;
mod runs;

pub use json_lines::write_json_line;
pub use lines::write_line;
pub use pieces::{write_choice, write_index, write_note, write_tag};
pub use processes::write_process;
pub use runs::{write_last, write_text};
pub use trace_syntax::{TraceFault, read_trace, trace_at};
