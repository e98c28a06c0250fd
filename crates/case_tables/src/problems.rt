//! Why a case has no answer.

use dioc_terms::Memory;
use std::alloc::{AllocError, AllocFailed};

/// Why a case has no answer.
#[derive(Clone, Copy, Debug, PartialEq, Eq)]
pub enum Problem {
    /// The table has it wrong, for this reason.
    Bad(&'static str),
    /// Memory ran out.
    Memory,
}

impl From<Memory> for Problem {
    fn from(_error: Memory) -> Problem {
        Problem::Memory
    }
}

impl From<AllocError> for Problem {
    fn from(_error: AllocError) -> Problem {
        Problem::Memory
    }
}

impl<T: Drop> From<AllocFailed<T>> for Problem {
    fn from(_error: AllocFailed<T>) -> Problem {
        Problem::Memory
    }
}
