//! The stage on which roles run: what they share lies under a turn lock.
#![tactic(auto)]

mod changing;
mod committing;
mod ending;
mod faults;
mod feeding;
mod home;
mod laws;
mod leading;
mod marking;
mod marks;
mod messages;
mod opening;
mod pulse;
mod pulses;
mod seating;
mod stage;

pub use faults::{CommitFault, Why};
pub use home::Home;
pub use laws::{deeds_move, others_leave_alone};
pub use marks::Marks;
pub use stage::Stage;
