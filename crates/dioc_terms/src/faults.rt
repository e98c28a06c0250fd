//! Why a call refuses.

ghost use Rattle.std.specs.Prelude.{◌≡◌};
ghost use Rattle.dioc_terms.specs.declared.faults.NameFault.TheVariants.{Memory as name_memory};
ghost use Rattle.dioc_terms.specs.declared.faults.TextFault.TheVariants.{Memory as text_memory};
ghost use Rattle.dioc_terms.specs.declared.faults.SyntaxFault.TheVariants.{Memory as syntax_memory};

use std::alloc::{AllocError, AllocFailed};
use thiserror::Error;

/// Memory ran out. Where a call answers nothing else, this is its error.
#[derive(Clone, Copy, Debug, PartialEq, Eq)]
pub struct Memory;

/// Why bytes are not read as a name.
#[derive(Clone, Copy, Debug, PartialEq, Eq, Error)]
pub enum NameFault {
    /// They aren't a letter followed by at most 63 letters, digits or `_`.
    #[error("not a name")]
    NotAName,
    /// Memory ran out.
    #[error("out of memory")]
    Memory,
}

/// Why bytes are not read as a text.
#[derive(Clone, Copy, Debug, PartialEq, Eq, Error)]
pub enum TextFault {
    /// There are more than 1,024 bytes, or one is outside 0x20 to 0x7E.
    #[error("not a text")]
    NotText,
    /// Memory ran out.
    #[error("out of memory")]
    Memory,
}

/// Why tokens are not read as what a reader of the grammar reads.
#[derive(Clone, Copy, Debug, PartialEq, Eq)]
pub enum SyntaxFault {
    /// No front of the tokens is what the reader reads; the place is a byte of the text.
    Syntax(usize),
    /// Memory ran out.
    Memory,
}

impl From<AllocError> for Memory {
    fn from(_error: AllocError) -> Memory {
        Memory
    }
}

impl<T: Drop> From<AllocFailed<T>> for Memory {
    fn from(_error: AllocFailed<T>) -> Memory {
        Memory
    }
}

impl From<Memory> for NameFault {
    ghost from_gives = { λ _ fault. fault ≡ name_memory };

    fn from(_error: Memory) -> NameFault {
        NameFault::Memory
    }
}

impl From<Memory> for TextFault {
    ghost from_gives = { λ _ fault. fault ≡ text_memory };

    fn from(_error: Memory) -> TextFault {
        TextFault::Memory
    }
}

impl From<Memory> for SyntaxFault {
    ghost from_gives = { λ _ fault. fault ≡ syntax_memory };

    fn from(_error: Memory) -> SyntaxFault {
        SyntaxFault::Memory
    }
}
