//! The words of the command line: which command they spell.
//!
//! The first word names one of twelve commands. The others are options, flags and positional words,
//! which `clap` tells apart by the table of the command. Numbers and names are judged here, by
//! their digits and letters.
#![tactic(auto)]

mod commands;
mod reading;
mod splits;
mod tables;
mod values;

pub use commands::{Command, Options, Verb};
pub use reading::read_words;
