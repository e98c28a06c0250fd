//! The network of the roles' processes, and the laws that tie its runs to the choreography.
#![tactic(auto)]

mod laws;
mod mail_laws;

pub use laws::{
    distinct_offers, nothing_left, progress, runs_extend, runs_read_no_version, settlement,
    simulation, term_laws, unique_keys,
};
pub use mail_laws::mail_is_a_map;
