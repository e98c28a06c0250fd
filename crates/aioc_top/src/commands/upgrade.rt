//! `upgrade`: a bundle as it is written in the second version.

ghost use Rattle.std.specs.Prelude.{◌≡◌, IfOk};
ghost use Rattle.dioc_terms.specs.Plain.{plain};
ghost use Rattle.aioc_top.specs.Replies.{reply_of, upgrade_text};
ghost use Rattle.aioc_top.specs.declared.replies.End.TheVariants as end;

use crate::replies::{Written, bundle_written};
use dioc_terms::{Bundle, Memory};
use std::alloc::Global;

/// The text of the bundle with version 2. The bundle has that version from then on.
pub fn upgrade(alloc: Global, bundle: &mut Bundle) -> Result<Written, Memory>
    ensures { IfOk result (λ written. reply_of written
        ≡ record { end = end.Done; text = upgrade_text (plain bundle.old) }) }
{
    bundle.version = 2;
    bundle_written(alloc, bundle)
}
