//! Why a bundle is not mended.

ghost use Rattle.std.specs.Prelude.{◌≡◌, Err};

use dioc_terms::{Memory, Name};
use rule_checks::{Refusal, Where};

/// Why a bundle is not mended. Its texts are those that a person is told.
#[derive(Debug, Drop)]
pub enum MendRefusal {
    /// What a bundle that may run would be refused for too: of the bundle as it was read too many
    /// nodes, roles, rules or changes, a role that isn't in the cast, a message of a role to
    /// itself, a body that is too big; of the mended bundle too many nodes, or a body that is too
    /// big. It is never a sequence that isn't linked. Memory ran out where it is `Memory`.
    Refused(Refusal),
    /// The first operation or variable that begins with `sq_`, as the names of added messages do,
    /// in the choreography, in the condition of a rule or in its body.
    NameTaken(Where, Name),
    /// The mended choreography is deeper than 256.
    TooDeep,
}

impl std::error::Error for MendRefusal {}

impl From<Memory> for MendRefusal {
    ghost use Rattle.std.specs.Prelude.{◌≡◌};
    ghost use Rattle.rule_checks.specs.declared.refusals.Refusal.TheVariants as why;
    ghost use Rattle.mend.specs.declared.refusals.MendRefusal.TheVariants as refusal;

    ghost from_gives = { λ _ made. made ≡ refusal.Refused why.Memory };

    fn from(_: Memory) -> Self {
        MendRefusal::Refused(Refusal::Memory)
    }
}

/// A value let go, for a refusal.
pub(crate) fn refuse<T: Drop, U: Drop>(_value: T, why: MendRefusal) -> Result<U, MendRefusal>
    ensures { result ≡ Err why }
{
    Err(why)
}
