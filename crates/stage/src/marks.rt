//! What the marks of a home are to contracts.

use crate::faults::Why;
use std::collections::LinkedList;

/// The marks of a home. No value of it is made: it stands in contracts alone.
pub struct Marks {
    /// For each role of the cast, whether it is marked as finished.
    pub finished: LinkedList<bool>,
    /// Why the stage was stopped.
    pub stopped: Option<Why>,
}
