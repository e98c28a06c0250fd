//! From the bytes of a text to the bundle that it spells, and back.
#![tactic(auto)]

mod bundles;
mod chunks;
mod items;
mod laws;
mod parts;
mod reader;
mod sections;
mod sessions;
mod stops;
mod writer;

pub use chunks::read_sessions_by;
pub use laws::{
    bundles_go_through, no_bundle_begins_so, no_sessions_begin_so, one_bundle,
    one_list_of_sessions, read_is_written, sessions_go_through, spelled_is_formed, written_is_read,
    written_is_spelled,
};
pub use reader::{read_bundle, read_bundle_with_tokens};
pub use sessions::read_sessions;
pub use writer::write_bundle;
