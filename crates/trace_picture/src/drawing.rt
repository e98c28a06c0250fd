//! The picture of a trace.

ghost use Rattle.std.specs.Prelude.{◌≡◌, ◌≤◌, ◌<◌, ◌++◌, length, OnOk, OnErr, IsErrOf};
ghost use Rattle.limits.specs.Limits.{most_roles};
ghost use Rattle.trace_picture.specs.Lanes.{lanes_of};
ghost use Rattle.trace_picture.specs.Pictures.{most_entries, picture};
ghost use Rattle.trace_picture.specs.declared.drawing.PictureFault.TheVariants.{Memory as picture_memory};

use crate::lanes::lanes_of;
use crate::mermaid::write_mermaid;
use crate::scene::Scene;
use crate::svg::write_svg;
use crate::terminal::write_terminal;
use dioc_terms::{Entry, Last, Memory, Role};
use limits::MOST_ROLES;
use std::alloc::Global;
use text_pieces::cut_back;
use thiserror::Error;

/// The most entries of a picture.
pub const MOST_ENTRIES: usize = 1_000_000;

/// How a picture is written.
#[derive(Clone, Copy)]
pub enum Style {
    /// In letters, for a terminal.
    Terminal,
    /// As a Mermaid sequence diagram.
    Mermaid,
    /// As an SVG that stands alone.
    Svg,
}

/// Why a trace has no picture.
#[derive(Clone, Copy, Debug, PartialEq, Eq, Error)]
pub enum PictureFault {
    /// It has more than 1,000,000 entries.
    #[error("too many entries")]
    TooManyEntries,
    /// It names more than 32 roles.
    #[error("too many roles")]
    TooManyRoles,
    /// Memory ran out.
    #[error("out of memory")]
    Memory,
}

impl From<Memory> for PictureFault {
    ghost from_gives = { λ _ fault. fault ≡ picture_memory };

    fn from(_error: Memory) -> PictureFault {
        PictureFault::Memory
    }
}

/// Appends the picture of a trace.
///
/// It goes over the entries three times at most, in time linear in their text. The error is
/// `TooManyEntries` exactly where there are more than 1,000,000, else `TooManyRoles` exactly where
/// they name more than 32 roles, and `Memory` where memory runs out; `out` is then as it was.
pub fn write_picture(
    alloc: Global,
    style: Style,
    entries: &[Entry],
    last: &Option<Last>,
    out: &mut Vec<u8>,
) -> Result<(), PictureFault>
    ensures ok { OnOk result (out.new.items ≡ out.old.items
        ++ picture style entries.now last.now) }
    ensures unchanged { OnErr result (out.new.items ≡ out.old.items) }
    ensures fits { OnOk result ((length entries.now ≤ most_entries)
        × (length (lanes_of entries.now) ≤ most_roles)) }
    ensures long { IsErrOf result PictureFault.TooManyEntries
        → most_entries < length entries.now }
    ensures few { IsErrOf result PictureFault.TooManyRoles
        → length entries.now ≤ most_entries }
    ensures many { IsErrOf result PictureFault.TooManyRoles
        → most_roles < length (lanes_of entries.now) }
{
    if entries.len() > MOST_ENTRIES {
        return Err(PictureFault::TooManyEntries);
    }
    let lanes = lanes_of(alloc, entries)?;
    if lanes.len() > MOST_ROLES {
        return Err(PictureFault::TooManyRoles);
    }
    let scene = Scene {
        lanes: &lanes,
        entries,
        last,
    };
    let start = out.len();
    let written = match style {
        Style::Terminal => write_terminal(alloc, &scene, out),
        Style::Mermaid => write_mermaid(alloc, &scene, out),
        Style::Svg => write_svg(alloc, &scene, out),
    };
    cut_back(written, start, out)?;
    Ok(())
}
