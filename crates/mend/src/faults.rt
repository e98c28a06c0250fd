//! Why mending stops.

ghost use Rattle.std.specs.Prelude.{◌≡◌, Err};
ghost use Rattle.mend.specs.declared.faults.Stop.TheVariants as stop;

use dioc_terms::{Memory, Name};
use thiserror::Error;

/// Why a choreography is not mended.
#[derive(Debug, Drop, Error)]
pub enum MendFault {
    /// An operation or a variable begins with `sq_`, as the names of added messages do. It is the
    /// first such name in the text.
    #[error("a name that begins with sq_ is taken")]
    NameTaken(Name),
    /// Memory ran out.
    #[error("out of memory")]
    Memory,
}

/// Why a choreography is not built further.
#[derive(Drop)]
pub(crate) enum Stop {
    /// It would have more nodes than may be spent.
    TooMany,
    /// Memory ran out.
    Memory,
}

/// Lets go of a value that is not built further.
pub(crate) fn stopped<T: Drop, U: Drop>(_value: T, why: Stop) -> Result<U, Stop>
    ensures { result ≡ Err why }
{
    Err(why)
}

impl From<Memory> for Stop {
    ghost from_gives = { λ _ why. why ≡ stop.Memory };

    fn from(_error: Memory) -> Stop {
        Stop::Memory
    }
}
