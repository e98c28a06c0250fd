//! A pool of workers that runs many bundles, each by itself.
#![tactic(auto)]

mod answers;
mod jobs;
mod made;
mod places;
mod sessions;
mod watch;

pub use answers::Answer;
pub use jobs::Order;
pub use made::Made;
pub use sessions::{run_sessions, run_sessions_as};
pub use watch::{OpenWatch, Watch};
