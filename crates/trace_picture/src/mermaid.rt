//! The picture of a trace as a Mermaid sequence diagram.

ghost use Rattle.std.specs.Prelude.{◌≡◌, ◌≤◌, ◌++◌, decimal, length, flat_map, OnOk, OnErr};
ghost use Rattle.limits.specs.Limits.{most_roles};
ghost use Rattle.text_pieces.specs.Pieces.{KeepsFront};
ghost use Rattle.trace_picture.specs.Runs.{pieces_from};
ghost use Rattle.trace_picture.specs.Mermaid.{is_quiet, mermaid_byte, mermaid_words, participant, participants, across, arrow_front, over_front, mermaid_front, mermaid_entry, mermaid_last, title_text, mermaid_head, mermaid_picture};

use crate::labels::{short_label, write_last_line};
use crate::scene::Scene;
use crate::shapes::{Shape, shape_of};
use dioc_terms::{Entry, Last, Memory, Role};
use std::alloc::Global;
use text_pieces::{write_bytes, write_number};

/// As many bytes of a label are shown.
const MOST_MERMAID: usize = 48;

/// Whether a byte stands as it is.
fn is_quiet(byte: u8) -> bool
    ensures { result ≡ is_quiet byte }
{
    byte.is_ascii_alphabetic()
        || byte.is_ascii_digit()
        || byte == b'_'
        || byte == b' '
        || byte == b'.'
        || byte == b'='
}

/// Appends a byte, by its number where it has a meaning of its own.
#[tactic(auto, unfolding(crate::specs::Mermaid::mermaid_byte))]
fn write_mermaid_byte(byte: u8, out: &mut Vec<u8>) -> Result<(), Memory>
    ensures ok { OnOk result (out.new.items ≡ out.old.items ++ mermaid_byte byte) }
    ensures memory { OnErr result (KeepsFront out.old.items out.new.items) }
{
    if is_quiet(byte) {
        return write_bytes(&[byte], out);
    }
    write_bytes(b"#", out)?;
    write_number(u64::from(byte), out)?;
    write_bytes(b";", out)
}

fn write_mermaid_words(bytes: &[u8], out: &mut Vec<u8>) -> Result<(), Memory>
    ensures ok { OnOk result (out.new.items ≡ out.old.items ++ mermaid_words bytes.now) }
    ensures memory { OnErr result (KeepsFront out.old.items out.new.items) }
{
    for byte in bytes {
        write_mermaid_byte(*byte, out)?;
    }
    Ok(())
}

/// Appends a number between two texts.
fn write_numbered(before: &[u8], number: u64, after: &[u8], out: &mut Vec<u8>) -> Result<(), Memory>
    ensures ok { OnOk result (out.new.items ≡ out.old.items
        ++ (before.now ++ decimal number ++ after.now)) }
    ensures memory { OnErr result (KeepsFront out.old.items out.new.items) }
{
    write_bytes(before, out)?;
    write_number(number, out)?;
    write_bytes(after, out)
}

#[tactic(auto, unfolding(crate::specs::Mermaid::participant))]
fn write_participant(lane: usize, role: &Role, out: &mut Vec<u8>) -> Result<(), Memory>
    ensures ok { OnOk result (out.new.items ≡ out.old.items ++ participant lane role.now) }
    ensures memory { OnErr result (KeepsFront out.old.items out.new.items) }
{
    write_numbered(b"    participant r", lane as u64, b" as ", out)?;
    write_mermaid_words(role.0.bytes(), out)?;
    write_bytes(b"\n", out)
}

fn write_all_participants(lanes: &[Role], out: &mut Vec<u8>) -> Result<(), Memory>
    ensures ok { OnOk result (out.new.items ≡ out.old.items
        ++ pieces_from participant 0 lanes.now) }
    ensures memory { OnErr result (KeepsFront out.old.items out.new.items) }
{
    for (lane, role) in lanes.iter().enumerate() {
        write_participant(lane, role, out)?;
    }
    Ok(())
}

/// Appends the lanes. A trace that names no role has one all the same, for its changes.
#[tactic(auto, unfolding(crate::specs::Mermaid::participants))]
fn write_participants(lanes: &[Role], out: &mut Vec<u8>) -> Result<(), Memory>
    ensures ok { OnOk result (out.new.items ≡ out.old.items ++ participants lanes.now) }
    ensures memory { OnErr result (KeepsFront out.old.items out.new.items) }
{
    if lanes.is_empty() {
        return write_bytes(b"    participant r0 as nobody\n", out);
    }
    write_all_participants(lanes, out)
}

/// Appends what begins a note across so many lanes.
#[tactic(auto, unfolding(crate::specs::Mermaid::across))]
fn write_across(lanes: usize, out: &mut Vec<u8>) -> Result<(), Memory>
    ensures ok { OnOk result (out.new.items ≡ out.old.items ++ across lanes) }
    ensures memory { OnErr result (KeepsFront out.old.items out.new.items) }
{
    if lanes <= 1 {
        return write_bytes(b"    Note over r0: ", out);
    }
    write_numbered(b"    Note over r0,r", lanes as u64 - 1, b": ", out)
}

/// Appends an arrow between two lanes.
#[tactic(auto, unfolding(crate::specs::Mermaid::arrow_front))]
fn write_arrow(from: usize, to: usize, out: &mut Vec<u8>) -> Result<(), Memory>
    ensures ok { OnOk result (out.new.items ≡ out.old.items ++ arrow_front from to) }
    ensures memory { OnErr result (KeepsFront out.old.items out.new.items) }
{
    write_numbered(b"    r", from as u64, b"-)r", out)?;
    write_number(to as u64, out)?;
    write_bytes(b": ", out)
}

/// Appends what begins a note over a lane.
#[tactic(auto, unfolding(crate::specs::Mermaid::over_front))]
fn write_over(lane: usize, out: &mut Vec<u8>) -> Result<(), Memory>
    ensures ok { OnOk result (out.new.items ≡ out.old.items ++ over_front lane) }
    ensures memory { OnErr result (KeepsFront out.old.items out.new.items) }
{
    write_numbered(b"    Note over r", lane as u64, b": ", out)
}

/// Appends what stands before the label of an entry.
#[tactic(auto, unfolding(crate::specs::Mermaid::mermaid_front))]
fn write_front(lanes: usize, shape: Shape, out: &mut Vec<u8>) -> Result<(), Memory>
    ensures ok { OnOk result (out.new.items ≡ out.old.items ++ mermaid_front lanes shape) }
    ensures memory { OnErr result (KeepsFront out.old.items out.new.items) }
{
    match shape {
        Shape::Arrow { from, to } => write_arrow(from, to, out),
        Shape::Mark { at, .. } => write_over(at, out),
        Shape::Band => write_across(lanes, out),
    }
}

#[tactic(auto, unfolding(crate::specs::Mermaid::mermaid_entry))]
fn write_entry(
    alloc: Global,
    lanes: &[Role],
    entry: &Entry,
    out: &mut Vec<u8>,
) -> Result<(), Memory>
    ensures ok { OnOk result (out.new.items ≡ out.old.items ++ mermaid_entry lanes.now entry.now) }
    ensures memory { OnErr result (KeepsFront out.old.items out.new.items) }
{
    let shown = short_label(alloc, entry, MOST_MERMAID)?;
    write_front(lanes.len(), shape_of(lanes, entry), out)?;
    write_mermaid_words(&shown, out)?;
    write_bytes(b"\n", out)
}

#[tactic(auto, unfolding(crate::specs::Mermaid::mermaid_last))]
fn write_foot(lanes: &[Role], last: &Option<Last>, out: &mut Vec<u8>) -> Result<(), Memory>
    ensures ok { OnOk result (out.new.items ≡ out.old.items ++ mermaid_last lanes.now last.now) }
    ensures memory { OnErr result (KeepsFront out.old.items out.new.items) }
{
    match last {
        None => Ok(()),
        Some(end) => {
            write_across(lanes.len(), out)?;
            write_last_line(end, out)
        }
    }
}

#[tactic(auto, unfolding(crate::specs::Mermaid::title_text))]
fn write_title(out: &mut Vec<u8>) -> Result<(), Memory>
    ensures ok { OnOk result (out.new.items ≡ out.old.items ++ title_text) }
    ensures memory { OnErr result (KeepsFront out.old.items out.new.items) }
{
    write_bytes(b"sequenceDiagram\n", out)
}

#[tactic(auto, unfolding(crate::specs::Mermaid::mermaid_head))]
fn write_head(lanes: &[Role], out: &mut Vec<u8>) -> Result<(), Memory>
    ensures ok { OnOk result (out.new.items ≡ out.old.items ++ mermaid_head lanes.now) }
    ensures memory { OnErr result (KeepsFront out.old.items out.new.items) }
{
    write_title(out)?;
    write_participants(lanes, out)
}

/// Appends the Mermaid diagram of a trace.
pub fn write_mermaid(alloc: Global, scene: &Scene<'_>, out: &mut Vec<u8>) -> Result<(), Memory>
    ensures ok { OnOk result (out.new.items ≡ out.old.items
        ++ mermaid_picture scene.now.lanes.now scene.now.entries.now scene.now.last.now) }
    ensures memory { OnErr result (KeepsFront out.old.items out.new.items) }
{
    write_head(scene.lanes, out)?;
    for entry in scene.entries {
        write_entry(alloc, scene.lanes, entry, out)?;
    }
    write_foot(scene.lanes, scene.last, out)
}
