//! Who is told of each claim.

use std::sync::Wait;

/// Is told of each claim of a worker. It has no effect on the answers.
pub trait Watch {
    /// A worker has claimed the session of that number, and hasn't run it yet. The worker goes on
    /// when this call returns.
    fn claimed<R: Wait>(&self, rt: &R, session: u32);
}

/// A watch that does nothing.
#[derive(Clone, Copy)]
pub struct OpenWatch;

impl Watch for OpenWatch {
    fn claimed<R: Wait>(&self, _rt: &R, _session: u32) {}
}
