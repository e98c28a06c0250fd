//! Where things stand in a text: the line and the column of a byte, and the tokens at which a
//! choreography, a rule, a change, a role or a construct begins.
#![tactic(auto)]

mod known;
pub mod laws;
mod marks;
mod positions;

pub use known::tokens_of;
pub use marks::{Mark, find_mark};
pub use positions::{Position, line_at, position_at};
