//! The commands: one module for each, from a bundle to its text.

pub mod check;
pub mod drive;
pub mod generate;
pub mod mending;
pub mod monitor;
pub mod project;
pub mod replay;
pub mod resume;
pub mod run;
pub mod sessions;
pub mod step;
pub mod upgrade;
