//! Where tests alone can hold a run with threads.

use dioc_terms::Role;
use std::sync::Wait;

/// What a thread of a run is about to do, or has done. No thread has the turn of the lock there.
#[derive(Clone, Copy)]
pub enum Place<'a> {
    /// The role is about to try a commit.
    BeforeStep(&'a Role),
    /// A commit of the role was made.
    AfterStep(&'a Role),
    /// The role, which leads a scope, is about to project the update that replaces it.
    Projecting(&'a Role),
    /// A change of the script was made.
    AfterChange,
}

/// What a thread of a run passes at each place. It has no effect on the run: a test may hold a
/// thread there. A run for which a thread could not be started comes to no place.
pub trait Gate {
    /// The thread that calls it is at this place. It returns once the thread may go on.
    fn pass<R: Wait>(&self, rt: &R, place: Place<'_>);
}

/// Holds no thread.
#[derive(Clone, Copy)]
pub struct OpenGate;

impl Gate for OpenGate {
    fn pass<R: Wait>(&self, _rt: &R, _place: Place<'_>) {}
}
