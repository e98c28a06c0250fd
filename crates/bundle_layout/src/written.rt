//! Writing parts with white space between them.

ghost use Rattle.std.specs.Prelude.{◌≡◌, ℕ, Err, ◌≤◌, length, ◌∷◌, [], ◌++◌, slice_range, vec_len, IsTrue, OnOk, IfOk};
ghost use Rattle.std.specs.List.{All, list_all};
ghost use Rattle.limits.specs.Limits.{most_bytes};
ghost use Rattle.aioc_tokens.specs.Tokens.{is_space};
ghost use Rattle.bundle_layout.specs.Pieces.{HasPieces};
ghost use Rattle.bundle_layout.specs.Parts.{pieces_of, LiesIn, EndsBefore};

use crate::gaps::{Gap, MOST_BLANKS, Pen};
use crate::layout::LayoutFault;
use crate::parts::{Part, PartKind, goes_on};
use aioc_tokens::Kind;
use limits::MOST_BYTES;
use std::alloc::Global;
use text_pieces::write_bytes;

/// What stands before the first part: nothing goes on a text in quotes.
const NONE_BEFORE: PartKind = PartKind::Token(Kind::Text);

/// The longest gap: two line feeds, and 64 spaces.
fn longest_gap() -> &'static [u8]
    ensures spaces { IsTrue (list_all is_space result.now) }
    ensures length { length result.now ≡ 66 }
{
    b"\n\n                                                                "
}

/// The bytes of a gap: at most two line feeds, and at most 64 spaces.
fn gap_bytes(gap: Gap) -> &'static [u8]
    ensures { IsTrue (list_all is_space result.now) }
{
    // Most parts have no gap before them.
    if gap.lines == 0 && gap.blanks == 0 {
        return b"";
    }
    let longest = longest_gap();
    let start = 2 - usize::from(gap.lines.min(2));
    let end = 2 + usize::from(gap.blanks.min(MOST_BLANKS));
    &longest[start..end]
}

/// White space that ends a part of any kind: the end of the line for a comment, else a space.
fn least_gap(kind: PartKind) -> &'static [u8]
    ensures spaces { IsTrue (list_all is_space result.now) }
    ensures ends { (others : _) → EndsBefore kind (result.now ++ others) }
{
    match kind {
        PartKind::Comment => b"\n",
        PartKind::Token(_) => b" ",
    }
}

/// The bytes of a gap between a part of this kind and one that begins with this byte; where the
/// gap would join them it is the least one that doesn't.
fn safe_gap(kind: PartKind, gap: Gap, first: u8) -> &'static [u8]
    ensures spaces { IsTrue (list_all is_space result.now) }
    ensures ends { (others : _) → EndsBefore kind (result.now ++ first ∷ others) }
{
    let wanted = gap_bytes(gap);
    let next = match wanted.first() {
        Some(byte) => *byte,
        None => first,
    };
    if goes_on(kind, next) {
        least_gap(kind)
    } else {
        wanted
    }
}

/// Whether these bytes stand from one place up to another.
fn stands(bytes: &[u8], from: usize, to: usize, wanted: &[u8]) -> bool
    ensures { IsTrue result → (from ≤ to) × (slice_range bytes.now from to ≡ wanted.now) }
{
    match bytes.get(from..to) {
        Some(between) => between == wanted,
        None => false,
    }
}

/// Appends the parts of a text, each behind its gap. Where the text has the same bytes between two
/// parts, they are copied with both at once.
fn write_parts(
    bytes: &[u8],
    parts: &[Part],
    pen: &mut Pen<'_>,
    out: &mut Vec<u8>,
) -> Result<(), LayoutFault>
    requires lie { All (LiesIn bytes.now) parts.now }
    requires empty { out.old.items ≡ [] }
    ensures ok { OnOk result (HasPieces out.new.items (pieces_of bytes.now parts.now)) }
    ensures fault { (at : ℕ) → result ≡ Err (LayoutFault.BadByte at) → ⊥ }
{
    let mut kind = NONE_BEFORE;
    // What is to be copied next.
    let mut from = 0;
    let mut to = 0;
    for (place, part) in parts.iter().enumerate() {
        let gap = pen.gap_at(place)?;
        let start = part.start as usize;
        let before = safe_gap(kind, gap, bytes[start]);
        if !stands(bytes, to, start, before) {
            write_bytes(&bytes[from..to], out)?;
            write_bytes(before, out)?;
            if out.len() > MOST_BYTES {
                return Err(LayoutFault::TooLong);
            }
            from = start;
        }
        to = part.end as usize;
        kind = part.kind;
    }
    write_bytes(&bytes[from..to], out)?;
    write_bytes(b"\n", out)?;
    Ok(())
}

/// The parts of a text with the gaps of a pen before them and a line feed at the end.
pub(crate) fn written(
    alloc: Global,
    bytes: &[u8],
    parts: &[Part],
    pen: &mut Pen<'_>,
) -> Result<Vec<u8>, LayoutFault>
    requires { All (LiesIn bytes.now) parts.now }
    ensures pieces { IfOk result (λ v. HasPieces v.items (pieces_of bytes.now parts.now)) }
    ensures short { IfOk result (λ v. vec_len v ≤ most_bytes) }
    ensures fault { (at : ℕ) → result ≡ Err (LayoutFault.BadByte at) → ⊥ }
{
    let mut out = Vec::with_capacity(alloc, bytes.len())?;
    write_parts(bytes, parts, pen, &mut out)?;
    if out.len() > MOST_BYTES {
        return Err(LayoutFault::TooLong);
    }
    Ok(out)
}
