//! Connecting a choreography by adding messages, and so each choreography and rule of a bundle.
#![tactic(auto)]

mod building;
mod bundle_parts;
mod bundles;
mod calls;
mod checks;
mod copies;
mod ends;
mod faults;
mod laws;
mod mending;
mod names;
mod numbering;
mod refusals;
mod rules;
mod texts;

pub use bundles::mend_bundle;
pub use calls::{mend, mend_within};
pub use faults::MendFault;
pub use laws::{
    drops_to_input, mended_accepted, mended_connected, mended_plays_without, plays_without,
    stays_as_it_is,
};
pub use names::{first_taken, taken_in};
pub use refusals::MendRefusal;
