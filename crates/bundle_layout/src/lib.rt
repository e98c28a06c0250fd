//! The layout of a bundle's text: the same tokens and the same comments, with other white space
//! between them.
//!
//! `lay_out` cuts a text into its tokens and comments, decides the white space before each of them,
//! and writes them again. What it decides can't change what the text says: the bytes of tokens and
//! comments are copied, and two tokens are kept apart where they would join.
#![tactic(auto)]

mod gaps;
pub mod laws;
mod layout;
mod parts;
mod shapes;
mod written;

pub use layout::{LayoutFault, lay_out, lay_out_tokens};
pub use parts::PartKind;
