//! Sources and sinks of bytes, and reading and writing of whole texts.
//!
//! A source or a sink may tell its bytes, and always tells how often it failed. What is written
//! over the two traits is proved for whatever device stands behind them: a failure is told only
//! where the device's own count shows it.
#![tactic(auto)]

mod failed;
mod memory;
mod plan;
mod sink;
mod source;
mod standard;
mod sure;

pub use failed::Failed;
pub use memory::{MemSink, MemSource};
pub use sink::{Sink, write_all};
pub use source::{ReadAllFault, Source, read_all};
pub use standard::{StdSink, StdSource};
pub use sure::{SureSink, SureSource};
