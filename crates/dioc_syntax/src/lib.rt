//! Choreographies in texts: their readers and their writer.
#![tactic(auto)]

mod choreographies;
mod extras;
mod found;
mod guards;
mod heads;
mod laws;
mod names;
mod places;
mod readers;
mod steps;
mod writer;

pub use choreographies::read_choreo;
pub use found::FoundChoreo;
pub use laws::{
    one_choreography, read_is_formed, read_is_indexed, written_is_read, written_is_spelled,
    written_text_is_read,
};
pub use places::{Place, Reader};
pub use readers::choreo_at;
pub use writer::write_choreo;
