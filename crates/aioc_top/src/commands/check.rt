//! `check`: that a bundle may run, and how large it is.

ghost use Rattle.std.specs.Prelude.{◌≡◌, IfOk};
ghost use Rattle.dioc_terms.specs.Plain.{plain};
ghost use Rattle.rule_checks.specs.Refusals.{IsAccepted};
ghost use Rattle.aioc_top.specs.Replies.{check_line, done_reply, reply_of};

use crate::replies::{End, Written};
use dioc_terms::{Bundle, Memory};
use index_marks::nodes;
use std::alloc::Global;
use text_pieces::{write_bytes, write_number};

/// The line that says that the bundle may run, with the numbers of its roles, of the nodes of its
/// choreography, of its rules, and of the changes of its script.
pub fn check(alloc: Global, bundle: &Bundle) -> Result<Written, Memory>
    requires accepted { IsAccepted (plain bundle.now) }
    ensures { IfOk result (λ written. reply_of written
        ≡ done_reply (check_line (plain bundle.now))) }
{
    let mut text = Vec::new(alloc);
    write_bytes(b"accepted: roles ", &mut text)?;
    write_number(bundle.cast.len() as u64, &mut text)?;
    write_bytes(b", nodes ", &mut text)?;
    write_number(nodes(&bundle.choreo) as u64, &mut text)?;
    write_bytes(b", rules ", &mut text)?;
    write_number(bundle.rules.len() as u64, &mut text)?;
    write_bytes(b", changes ", &mut text)?;
    write_number(bundle.script.len() as u64, &mut text)?;
    write_bytes(b"\n", &mut text)?;
    Ok(Written {
        end: End::Done,
        text,
    })
}
