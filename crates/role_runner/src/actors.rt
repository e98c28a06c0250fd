//! What the threads of a run share, and a role in its thread.

use crate::sign::Sign;
use dioc_terms::{Bundle, Role};
use stage::Stage;
use std::alloc::Global;

/// What the threads of a run share beside its stage and its bundle.
pub(crate) struct Shared<'a, G> {
    pub alloc: Global,
    pub gate: &'a G,
    /// For which they wait before they begin.
    pub sign: &'a Sign,
}

impl<G> Drop for Shared<'_, G> {
    fn drop(self) {
        let Shared {
            alloc: _,
            gate: _,
            sign: _,
        } = self;
    }
}

/// A role that runs in a thread, and what it needs of the run.
pub(crate) struct Actor<'a, G> {
    pub alloc: Global,
    pub stage: &'a Stage,
    pub bundle: &'a Bundle,
    pub gate: &'a G,
    pub role: &'a Role,
    /// The place of the role in the cast.
    pub place: u32,
}

impl<G> Drop for Actor<'_, G> {
    fn drop(self) {
        let Actor {
            alloc: _,
            stage: _,
            bundle: _,
            gate: _,
            role: _,
            place: _,
        } = self;
    }
}
