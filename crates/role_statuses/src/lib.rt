//! A role that runs, as its static process with a status for each construct that runs, and with a
//! mark for each place of its code.
#![tactic(auto)]

mod laws;

pub use laws::{
    kept_is_tested, marks_are_exact, places_are_exact, places_are_listed, statuses_are_exact,
};
