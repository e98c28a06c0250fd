//! `mend`: a bundle as it is written when it has been mended.

ghost use Rattle.std.specs.Prelude.{◌≡◌, None, IfErr, IfOk, OnOk};
ghost use Rattle.dioc_terms.specs.Bundles.{IsFormed};
ghost use Rattle.dioc_terms.specs.Plain.{plain};
ghost use Rattle.mend.specs.Refusals.{mend_refusal, IsMendRefusalOf};
ghost use Rattle.aioc_top.specs.Replies.{reply_of, mend_text};
ghost use Rattle.aioc_top.specs.declared.replies.End.TheVariants as end;

use crate::replies::{Written, bundle_written};
use dioc_terms::Bundle;
use mend::{MendRefusal, mend_bundle};
use std::alloc::Global;

/// The text of the mended bundle, or the first reason why it can't be mended.
pub fn mend(alloc: Global, bundle: &Bundle) -> Result<Written, MendRefusal>
    requires formed { IsFormed (plain bundle.now) }
    ensures replied { IfOk result (λ written. reply_of written
        ≡ record { end = end.Done; text = mend_text (plain bundle.now) }) }
    ensures free { OnOk result (mend_refusal (plain bundle.now) ≡ None) }
    ensures refused { IfErr result (IsMendRefusalOf (mend_refusal (plain bundle.now))) }
{
    let made = mend_bundle(alloc, bundle)?;
    let written = bundle_written(alloc, &made);
    drop(made);
    Ok(written?)
}
