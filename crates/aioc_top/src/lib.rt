//! The program behind `main`: from the words of the command line and the bytes of a source to the
//! trace in a sink.
#![tactic(auto)]

mod commands;
mod executing;
mod faults;
mod preparing;
mod reading;
mod replies;
mod service;
mod status;
mod words;

pub use service::{serve, serve_alone};
pub use status::Status;
pub use words::is_threaded;
