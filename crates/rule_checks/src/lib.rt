//! Which bundles may run: the refusals of a bundle in their order, and what an accepted bundle is.
#![tactic(auto)]

mod bounds;
mod checks;
mod laws;
mod refusals;
mod texts;

pub use checks::{accept, admit};
pub use laws::accepted_may_run;
pub use refusals::{Refusal, Where, Which};
