//! Why a change is refused.

use dioc_terms::Memory;
use thiserror::Error;

/// Why a change is refused. The answers but `Memory` come in this order.
#[derive(Clone, Copy, Debug, PartialEq, Eq, Error)]
pub enum ChangeFault {
    /// The history has as many entries as the limit allows.
    #[error("the history is full")]
    Full,
    /// All changes of the script were made.
    #[error("all changes were made")]
    NoMore,
    /// Fewer visible entries stand than the change is stated to come after.
    #[error("the change isn't due yet")]
    NotYet,
    /// Memory ran out.
    #[error("out of memory")]
    Memory,
}

impl From<Memory> for ChangeFault {
    ghost use Rattle.std.specs.Prelude.{◌≡◌};
    ghost use Rattle.net_core.specs.declared.faults.ChangeFault.TheVariants.{Memory as no_memory};

    ghost from_gives = { λ _ fault. fault ≡ no_memory };

    fn from(_: Memory) -> Self {
        ChangeFault::Memory
    }
}
