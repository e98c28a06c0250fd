//! What a network may do next, and why it may not.

ghost use Rattle.std.specs.Prelude.{◌≡◌};

use dioc_terms::{Act, Memory, Role};
use std::alloc::AllocFailed;

/// One move of a network: the script's next change, or an act of a role.
#[derive(Drop)]
pub enum Move {
    Change,
    Act(Role, Act),
}

/// Why a step was refused. The answers but `Memory` come in this order.
#[derive(Clone, Copy, Debug, PartialEq, Eq)]
pub enum StepFault {
    /// The network has ended.
    Ended,
    /// The history has as many entries as the limit allows.
    Full,
    /// The role isn't in the cast, or its process doesn't offer the act.
    NoAct,
    /// The act is a take whose message isn't pending.
    NotYet,
    /// Memory ran out.
    Memory,
}

impl From<Memory> for StepFault {
    ghost use Rattle.network_steps.specs.declared.moves.StepFault.TheVariants as fault;

    ghost from_gives = { λ _ e. e ≡ fault.Memory };

    fn from(_: Memory) -> Self {
        StepFault::Memory
    }
}

impl<T: Drop> From<AllocFailed<T>> for StepFault {
    ghost use Rattle.network_steps.specs.declared.moves.StepFault.TheVariants as fault;

    ghost from_gives = { λ _ e. e ≡ fault.Memory };

    fn from(_: AllocFailed<T>) -> Self {
        StepFault::Memory
    }
}
