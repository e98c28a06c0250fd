//! Which entries put or take an auxiliary message.

ghost use Rattle.std.specs.Prelude.{◌≡◌};
ghost use Rattle.dioc_terms.specs.Messages.{is_aux};

use dioc_terms::Entry;

/// Whether the entry puts or takes a message with an auxiliary tag. All other entries are visible.
/// It takes no memory.
pub fn is_aux(entry: &Entry) -> bool
    ensures { result ≡ is_aux entry.now }
{
    entry.is_aux()
}
