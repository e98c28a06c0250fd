//! The picture of a trace in letters.

ghost use Rattle.std.specs.Prelude.{◌≡◌, ◌≤◌, ◌<◌, ◌++◌, codes, length, flat_map, OnOk, OnErr, Some};
ghost use Rattle.limits.specs.Limits.{most_roles};
ghost use Rattle.text_pieces.specs.Pieces.{KeepsFront};
ghost use Rattle.trace_picture.specs.Labels.{ended_text};
ghost use Rattle.trace_picture.specs.Runs.{pieces_from, pieces_below};
ghost use Rattle.trace_picture.specs.Shapes.{IsWithin};
ghost use Rattle.trace_picture.specs.Strokes.{cell};
ghost use Rattle.trace_picture.specs.Terminal.{are_named, reach_of, heading, name_heading, number_heading, legend_line, head_rows, cells, owner_text, remark, beside, entry_row, foot_row, terminal_picture};

use crate::labels::{write_label, write_last_line};
use crate::lanes::longest_name;
use crate::runs::{write_repeated, write_shortened};
use crate::scene::Scene;
use crate::shapes::{Shape, shape_of};
use crate::strokes::write_cell;
use dioc_terms::{Entry, Last, Memory, Role};
use itoa::Buffer;
use std::alloc::Global;
use text_pieces::{write_bytes, write_number};

/// Up to so many lanes have names above them; more have numbers.
const MOST_NAMED: usize = 8;

/// As many bytes of a remark are shown.
const MOST_REMARK: usize = 72;

fn are_named(lanes: &[Role]) -> bool
    ensures { result ≡ are_named lanes.now }
{
    lanes.len() <= MOST_NAMED
}

/// How many bytes a lane has on each side beyond the three in its middle.
#[tactic(auto, unfolding(crate::specs::Terminal::reach_of))]
fn reach_of(lanes: &[Role]) -> usize
    ensures value { result ≡ reach_of lanes.now }
    ensures small { result ≤ 6 }
{
    if are_named(lanes) {
        return (longest_name(lanes) / 2).min(6).max(2);
    }
    if lanes.len() <= 16 { 1 } else { 0 }
}

/// Appends a word above a lane, in its middle.
#[tactic(auto, unfolding(crate::specs::Terminal::heading))]
fn write_heading(alloc: Global, reach: usize, word: &[u8], out: &mut Vec<u8>) -> Result<(), Memory>
    requires x { reach ≤ 6 }
    ensures ok { OnOk result (out.new.items ≡ out.old.items ++ heading reach word.now) }
    ensures memory { OnErr result (KeepsFront out.old.items out.new.items) }
{
    let width = reach + reach + 3;
    let mut shown = Vec::new(alloc);
    write_shortened(word, width - 1, &mut shown)?;
    let room = width.saturating_sub(shown.len());
    let before = room / 2;
    write_repeated(b' ', before, out)?;
    write_bytes(&shown, out)?;
    write_repeated(b' ', room - before, out)
}

#[tactic(auto, unfolding(crate::specs::Terminal::name_heading))]
fn write_name(alloc: Global, reach: usize, role: &Role, out: &mut Vec<u8>) -> Result<(), Memory>
    requires reach { reach ≤ 6 }
    ensures ok { OnOk result (out.new.items ≡ out.old.items ++ name_heading reach role.now) }
    ensures memory { OnErr result (KeepsFront out.old.items out.new.items) }
{
    write_heading(alloc, reach, role.0.bytes(), out)
}

fn write_names(alloc: Global, lanes: &[Role], out: &mut Vec<u8>) -> Result<(), Memory>
    ensures ok { OnOk result (out.new.items ≡ out.old.items
        ++ flat_map (name_heading (reach_of lanes.now)) lanes.now) }
    ensures memory { OnErr result (KeepsFront out.old.items out.new.items) }
{
    let reach = reach_of(lanes);
    for lane in lanes {
        write_name(alloc, reach, lane, out)?;
    }
    Ok(())
}

/// Appends which role has the lane of this number.
#[tactic(auto, unfolding(crate::specs::Terminal::legend_line))]
fn write_legend_line(lane: usize, role: &Role, out: &mut Vec<u8>) -> Result<(), Memory>
    requires lane { lane < most_roles }
    ensures ok { OnOk result (out.new.items ≡ out.old.items ++ legend_line lane role.now) }
    ensures memory { OnErr result (KeepsFront out.old.items out.new.items) }
{
    write_number(lane as u64 + 1, out)?;
    write_bytes(b" ", out)?;
    write_bytes(role.0.bytes(), out)?;
    write_bytes(b"\n", out)
}

/// Appends the legend of numbered lanes.
fn write_legend(lanes: &[Role], out: &mut Vec<u8>) -> Result<(), Memory>
    requires lanes { length lanes.now ≤ most_roles }
    ensures ok { OnOk result (out.new.items ≡ out.old.items
        ++ pieces_from legend_line 0 lanes.now) }
    ensures memory { OnErr result (KeepsFront out.old.items out.new.items) }
{
    for (lane, role) in lanes.iter().enumerate() {
        write_legend_line(lane, role, out)?;
    }
    Ok(())
}

#[tactic(auto, unfolding(crate::specs::Terminal::number_heading))]
fn write_lane_number(
    alloc: Global,
    reach: usize,
    lane: usize,
    out: &mut Vec<u8>,
) -> Result<(), Memory>
    requires reach { reach ≤ 6 }
    requires lane { lane < most_roles }
    ensures ok { OnOk result (out.new.items ≡ out.old.items ++ number_heading reach lane) }
    ensures memory { OnErr result (KeepsFront out.old.items out.new.items) }
{
    let mut digits = Buffer::new();
    write_heading(alloc, reach, digits.format(lane as u64 + 1).as_bytes(), out)
}

fn write_numbers(alloc: Global, lanes: &[Role], out: &mut Vec<u8>) -> Result<(), Memory>
    requires lanes { length lanes.now ≤ most_roles }
    ensures ok { OnOk result (out.new.items ≡ out.old.items
        ++ pieces_below (number_heading (reach_of lanes.now)) (length lanes.now)) }
    ensures memory { OnErr result (KeepsFront out.old.items out.new.items) }
{
    let reach = reach_of(lanes);
    for lane in 0..lanes.len() {
        write_lane_number(alloc, reach, lane, out)?;
    }
    Ok(())
}

#[tactic(auto, unfolding(crate::specs::Terminal::head_rows))]
fn write_head(alloc: Global, lanes: &[Role], out: &mut Vec<u8>) -> Result<(), Memory>
    requires lanes { length lanes.now ≤ most_roles }
    ensures ok { OnOk result (out.new.items ≡ out.old.items ++ head_rows lanes.now) }
    ensures memory { OnErr result (KeepsFront out.old.items out.new.items) }
{
    if are_named(lanes) {
        write_names(alloc, lanes, out)?;
    } else {
        write_legend(lanes, out)?;
        write_bytes(b"\n", out)?;
        write_numbers(alloc, lanes, out)?;
    }
    write_bytes(b"  entries\n", out)
}

/// Appends so many lanes as a shape crosses them.
fn write_crossed(reach: usize, shape: Shape, count: usize, out: &mut Vec<u8>) -> Result<(), Memory>
    ensures ok { OnOk result (out.new.items ≡ out.old.items
        ++ pieces_below (cell reach shape) count) }
    ensures memory { OnErr result (KeepsFront out.old.items out.new.items) }
{
    for lane in 0..count {
        write_cell(reach, shape, lane, out)?;
    }
    Ok(())
}

/// Appends the lanes as a shape crosses them.
#[tactic(auto, unfolding(crate::specs::Terminal::cells))]
fn write_cells(lanes: &[Role], shape: Shape, out: &mut Vec<u8>) -> Result<(), Memory>
    ensures ok { OnOk result (out.new.items ≡ out.old.items ++ cells lanes.now shape) }
    ensures memory { OnErr result (KeepsFront out.old.items out.new.items) }
{
    write_crossed(reach_of(lanes), shape, lanes.len(), out)
}

/// Appends whose entry has a shape, by the numbers of lanes.
#[tactic(auto, unfolding(crate::specs::Terminal::owner_text))]
fn write_owner(shape: Shape, out: &mut Vec<u8>) -> Result<(), Memory>
    requires shape { IsWithin most_roles shape }
    ensures ok { OnOk result (out.new.items ≡ out.old.items ++ owner_text shape) }
    ensures memory { OnErr result (KeepsFront out.old.items out.new.items) }
{
    match shape {
        Shape::Arrow { from, to } => {
            write_number(from as u64 + 1, out)?;
            write_bytes(b" -> ", out)?;
            write_number(to as u64 + 1, out)?;
            write_bytes(b": ", out)
        }
        Shape::Mark { at, .. } => {
            write_number(at as u64 + 1, out)?;
            write_bytes(b": ", out)
        }
        Shape::Band => Ok(()),
    }
}

#[tactic(auto, unfolding(crate::specs::Terminal::remark))]
fn write_remark(lanes: &[Role], entry: &Entry, out: &mut Vec<u8>) -> Result<(), Memory>
    requires lanes { length lanes.now ≤ most_roles }
    ensures ok { OnOk result (out.new.items ≡ out.old.items ++ remark lanes.now entry.now) }
    ensures memory { OnErr result (KeepsFront out.old.items out.new.items) }
{
    if are_named(lanes) {
        return write_label(entry, out);
    }
    write_owner(shape_of(lanes, entry), out)?;
    write_label(entry, out)
}

/// Appends what stands behind the lanes.
#[tactic(auto, unfolding(crate::specs::Terminal::beside))]
fn write_beside(said: &[u8], out: &mut Vec<u8>) -> Result<(), Memory>
    ensures ok { OnOk result (out.new.items ≡ out.old.items ++ beside said.now) }
    ensures memory { OnErr result (KeepsFront out.old.items out.new.items) }
{
    write_bytes(b"  ", out)?;
    write_shortened(said, MOST_REMARK, out)?;
    write_bytes(b"\n", out)
}

/// Appends the last line behind the lanes.
fn write_last_beside(last: &Last, out: &mut Vec<u8>) -> Result<(), Memory>
    ensures ok { OnOk result (out.new.items ≡ out.old.items
        ++ (codes "  " ++ ended_text last.now)) }
    ensures memory { OnErr result (KeepsFront out.old.items out.new.items) }
{
    write_bytes(b"  ", out)?;
    write_last_line(last, out)
}

/// Appends the line of an entry.
#[tactic(auto, unfolding(crate::specs::Terminal::entry_row))]
fn write_entry(
    alloc: Global,
    lanes: &[Role],
    entry: &Entry,
    out: &mut Vec<u8>,
) -> Result<(), Memory>
    requires lanes { length lanes.now ≤ most_roles }
    ensures ok { OnOk result (out.new.items ≡ out.old.items ++ entry_row lanes.now entry.now) }
    ensures memory { OnErr result (KeepsFront out.old.items out.new.items) }
{
    let mut remark = Vec::new(alloc);
    write_remark(lanes, entry, &mut remark)?;
    write_cells(lanes, shape_of(lanes, entry), out)?;
    write_beside(&remark, out)
}

#[tactic(auto, unfolding(crate::specs::Terminal::foot_row))]
fn write_foot(lanes: &[Role], last: &Option<Last>, out: &mut Vec<u8>) -> Result<(), Memory>
    ensures ok { OnOk result (out.new.items ≡ out.old.items ++ foot_row lanes.now last.now) }
    ensures memory { OnErr result (KeepsFront out.old.items out.new.items) }
{
    match last {
        None => Ok(()),
        Some(end) => {
            write_cells(lanes, Shape::Band, out)?;
            write_last_beside(end, out)
        }
    }
}

/// Appends the picture of a trace in letters.
pub fn write_terminal(alloc: Global, scene: &Scene<'_>, out: &mut Vec<u8>) -> Result<(), Memory>
    ensures ok { OnOk result (out.new.items ≡ out.old.items
        ++ terminal_picture scene.now.lanes.now scene.now.entries.now scene.now.last.now) }
    ensures memory { OnErr result (KeepsFront out.old.items out.new.items) }
{
    write_head(alloc, scene.lanes, out)?;
    for entry in scene.entries {
        write_entry(alloc, scene.lanes, entry, out)?;
    }
    write_foot(scene.lanes, scene.last, out)
}
