//! Pictures of traces: sequence diagrams as plain text, for Mermaid, and as SVG.
#![tactic(auto)]

mod arrivals;
mod calls;
mod drawing;
mod fragments;
mod labels;
mod lanes;
pub mod laws;
mod mermaid;
mod reading;
mod runs;
mod scene;
mod shapes;
mod strokes;
mod svg;
mod svg_parts;
mod terminal;

pub use calls::{DrawFault, MOST_TRACE_BYTES, draw, tell};
pub use drawing::{MOST_ENTRIES, PictureFault, Style, write_picture};
pub use reading::{ReadFault, read_trace_text};
