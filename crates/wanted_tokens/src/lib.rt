//! What may come next in a text, token by token, and the first token that may not.
#![tactic(auto)]

mod choreographies;
mod expressions;
mod goals;
mod looks;
mod rules;
mod sections;
mod stack;
mod takings;
mod tokens;
mod traces;

pub use goals::Goal;
pub use looks::{Look, PlaceWord, look_at};
pub use stack::{first_unwanted, is_over, take};
