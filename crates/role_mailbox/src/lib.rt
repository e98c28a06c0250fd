//! The messages that are put and not taken yet.
#![tactic(auto)]

mod mail;

pub use mail::Mail;
