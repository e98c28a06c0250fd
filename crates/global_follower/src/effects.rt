//! What an entry does to a store.

use dioc_terms::{Name, Value};

/// What an entry does to the store of its role.
#[derive(Drop)]
pub(crate) enum Effect {
    /// Nothing.
    Leaves,
    /// The variable is set to the value.
    Assigns(Name, Value),
    /// The next input, which is the value, goes into the variable.
    Reads(Name, Value),
}
