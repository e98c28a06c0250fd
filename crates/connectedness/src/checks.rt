//! Whether a choreography is connected.

ghost use Rattle.std.specs.Prelude.{◌≡◌, true, None, IfErr, OnOk};
ghost use Rattle.dioc_terms.specs.Terms.{term};
ghost use Rattle.connectedness.specs.Checks.{IsFaultOf};
ghost use Rattle.connectedness.specs.Connected.{connected, first_gap};
ghost use Rattle.connectedness.specs.Laws.{HasRoles};

use crate::laws::gaps_are_found;
use crate::summaries::summary_of;
use dioc_terms::{Choreo, Index, Memory, Role};
use std::alloc::Global;
use thiserror::Error;

/// Why a choreography is refused.
#[derive(Debug, Drop, Error)]
pub enum CheckFault {
    /// A sequence whose second part is begun by a role that isn't in each group of roles that ends
    /// the first part.
    #[error("a sequence is not linked")]
    Unlinked {
        /// The index of the first construct of the first part.
        first: Index,
        /// The index of the first construct of the second part.
        second: Index,
        /// The first role of the cast that is missing so.
        role: Role,
    },
    /// Memory ran out.
    #[error("out of memory")]
    Memory,
}

impl From<Memory> for CheckFault {
    ghost use Rattle.connectedness.specs.declared.checks.CheckFault.TheVariants as why;

    ghost from_gives = { λ _ fault. fault ≡ why.Memory };

    fn from(_error: Memory) -> CheckFault {
        CheckFault::Memory
    }
}

/// Whether each sequence of a choreography is linked: whoever begins its second part is in each
/// group of roles that ends its first part. The cast has the roles of the choreography.
///
/// The error is `Unlinked` with the first sequence that isn't linked, and `Memory` where memory
/// runs out. An outer sequence comes before those inside it, and a left part before a right one; of
/// several roles the first of the cast is named. The time grows with the size of the choreography
/// times the number of roles, since each part is looked at once.
pub fn check(alloc: Global, choreo: &Choreo, cast: &[Role]) -> Result<(), CheckFault>
    requires { HasRoles cast.now (term choreo.now) }
    ensures connected { OnOk result (connected (term choreo.now) ≡ true) }
    ensures no_gap { OnOk result (first_gap cast.now (term choreo.now) ≡ None) }
    ensures unlinked { IfErr result (IsFaultOf cast.now (term choreo.now)) }
{
    gaps_are_found();
    let summary = summary_of(alloc, choreo, cast)?;
    match summary.gap {
        None => Ok(()),
        Some(gap) => Err(CheckFault::Unlinked {
            first: gap.first,
            second: gap.second,
            role: cast[gap.role].copy(alloc)?,
        }),
    }
}
