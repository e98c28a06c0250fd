//! Whose an entry is.

ghost use Rattle.std.specs.Prelude.{◌≡◌};
ghost use Rattle.std.specs.Option.{option_copied};
ghost use Rattle.dioc_terms.specs.Messages.{doer};
ghost use Rattle.trace_book.specs.Histories.{is_of};

use dioc_terms::{Entry, Role};

/// Whether the entry is one of that role.
pub(crate) fn is_of(entry: &Entry, role: &Role) -> bool
    ensures { result ≡ is_of role.now entry.now }
{
    match entry.doer() {
        Some(doer) => doer == role,
        None => false,
    }
}
