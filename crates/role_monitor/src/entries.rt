//! What an entry shows: its role, and the role's act.

ghost use Rattle.std.specs.Prelude.{◌≡◌, IfOk, IsSome, Some, option_copied};
ghost use Rattle.dioc_terms.specs.Messages.{act_of, doer};

use dioc_terms::{Act, Entry, Memory, Role};
use std::alloc::Global;

/// The act that an entry of a role shows.
pub(crate) fn act_of(alloc: Global, entry: &Entry) -> Result<Act, Memory>
    requires { IsSome (doer entry.now) }
    ensures { IfOk result (λ act. act_of entry.now ≡ Some act) }
{
    match entry {
        Entry::Put { key, .. } => Ok(Act::Put(key.copy(alloc)?)),
        Entry::Take { key, .. } => Ok(Act::Take(key.copy(alloc)?)),
        Entry::Set { index, .. } => Ok(Act::Set(*index)),
        Entry::Input { index, .. } => Ok(Act::Input(*index)),
        Entry::Pick { index, .. } => Ok(Act::Pick(*index)),
        Entry::Scope { index, .. } => Ok(Act::Scope(*index)),
        Entry::Add { .. } | Entry::Drop { .. } | Entry::Env { .. } => unreachable!(),
    }
}
