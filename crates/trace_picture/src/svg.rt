//! The picture of a trace as an SVG. Lengths are in pixels.

ghost use Rattle.std.specs.Prelude.{◌≡◌, ◌*◌, ◌≤◌, ◌<◌, ◌^◌, ◌++◌, length, IfOk, IfSome, OnOk, OnErr};
ghost use Rattle.limits.specs.Limits.{most_roles};
ghost use Rattle.text_pieces.specs.Pieces.{KeepsFront};
ghost use Rattle.trace_picture.specs.Runs.{pieces_from};
ghost use Rattle.trace_picture.specs.Shapes.{IsWithin};
ghost use Rattle.trace_picture.specs.Svg.{most_columns, longest_label, columns_of, half_gap, lane_x, before_x, width, row_y, sign_class, shape_class, entry_class, stands_back, message_line, drawing, group_front, svg_entry, svg_entries, name_box, svg_head, svg_last, svg_tail, svg_picture};

use crate::arrivals::arrivals_of;
use crate::fragments::Fragment::{Marked, Plain};
use crate::fragments::write_fragments;
use crate::labels::{short_label, write_label};
use crate::lanes::longest_name;
use crate::runs::write_shortened;
use crate::scene::Scene;
use crate::shapes::{Shape, Sign, shape_of};
use crate::svg_parts::{
    Point, write_arrow, write_lane_line, write_open, write_open_line, write_paper, write_rectangle,
    write_sign, write_words, write_words_beside,
};
use dioc_terms::{Entry, Last, Memory, Role};
use std::alloc::Global;
use text_pieces::write_bytes;
use trace_text::{write_last, write_line};

/// The lanes of a picture, and how many bytes of a label may stand between two.
#[derive(Clone, Copy)]
struct Frame<'a> {
    columns: usize,
    lanes: &'a [Role],
    ghost columns_within: { columns ≤ 34 },
    ghost lanes_within: { length lanes.now ≤ most_roles },
}

/// How long the longest label is, and `least` at least.
fn longest_label(alloc: Global, least: usize, entries: &[Entry]) -> Result<usize, Memory>
    ensures { IfOk result (λ most. most ≡ longest_label least entries.now) }
{
    let mut most = least;
    for entry in entries {
        let mut label = Vec::new(alloc);
        write_label(entry, &mut label)?;
        most = most.max(label.len());
    }
    Ok(most)
}

fn most_columns(lanes: &[Role]) -> usize
    ensures { result ≡ most_columns lanes.now }
{
    match lanes.len() {
        0..=4 => 34,
        5..=8 => 28,
        _ => 20,
    }
}

/// How many bytes of a label may stand between two lanes.
fn columns_of(alloc: Global, lanes: &[Role], entries: &[Entry]) -> Result<usize, Memory>
    ensures value { IfOk result (λ columns. columns ≡ columns_of lanes.now entries.now) }
    ensures within { IfOk result (λ columns. (10 ≤ columns) × (columns ≤ 34)) }
{
    let longest = longest_label(alloc, longest_name(lanes), entries)?;
    Ok(longest.min(most_columns(lanes)).max(10))
}

/// Half of what is between two lanes.
fn half_gap(columns: usize) -> u64
    requires columns { columns ≤ 34 }
    ensures value { result ≡ half_gap columns }
    ensures small { result ≤ 148 }
{
    4 * columns as u64 + 12
}

/// Where a lane stands.
fn lane_x(columns: usize, lane: usize) -> u64
    requires columns { columns ≤ 34 }
    requires lane { lane ≤ most_roles }
    ensures value { result ≡ lane_x columns lane }
    ensures right { 24 ≤ result }
    ensures small { result ≤ 148 * 66 }
{
    half_gap(columns) * (2 * lane as u64 + 2)
}

/// Where an arrow from one lane to another ends that doesn't arrive.
fn before_x(columns: usize, from: usize, to: usize) -> u64
    requires columns { columns ≤ 34 }
    requires to { to ≤ most_roles }
    ensures { result ≡ before_x columns from to }
{
    if from < to {
        half_gap(columns) * (2 * to as u64 + 1)
    } else {
        half_gap(columns) * (2 * to as u64 + 3)
    }
}

/// How wide the picture is.
fn width(frame: &Frame<'_>) -> u64
    ensures { result ≡ width frame.now.columns frame.now.lanes.now }
{
    half_gap(frame.columns) * (2 * frame.lanes.len().max(1) as u64 + 2)
}

/// Where the row of an entry stands.
fn row_y(row: usize) -> u64
    requires row { row < 2 ^ 32 }
    ensures value { result ≡ row_y row }
    ensures small { result < 2 ^ 40 }
    ensures below { 70 ≤ result }
{
    30 * row as u64 + 70
}

/// Where a row crosses a lane.
fn crossing(frame: &Frame<'_>, lane: usize, row: usize) -> Point
    requires lane { lane ≤ most_roles }
    requires row { row < 2 ^ 32 }
    ensures x { result.x ≡ lane_x frame.now.columns lane }
    ensures y { result.y ≡ row_y row }
{
    Point {
        x: lane_x(frame.columns, lane),
        y: row_y(row),
    }
}

fn sign_class(sign: Sign) -> &'static [u8]
    ensures { result.now ≡ sign_class sign }
{
    match sign {
        Sign::Take { .. } => b"take",
        Sign::Set => b"set",
        Sign::Input => b"input",
        Sign::Pick => b"pick",
        Sign::Keep => b"keep",
        Sign::Replace => b"replace",
        Sign::Own => b"put",
    }
}

fn shape_class(shape: Shape) -> &'static [u8]
    ensures { result.now ≡ shape_class shape }
{
    match shape {
        Shape::Arrow { .. } => b"put",
        Shape::Mark { sign, .. } => sign_class(sign),
        Shape::Band => b"change",
    }
}

fn entry_class(shape: Shape, entry: &Entry) -> &'static [u8]
    ensures { result.now ≡ entry_class shape entry.now }
{
    if entry.is_aux() {
        b"aux"
    } else {
        shape_class(shape)
    }
}

/// Whether the label of a sign stands on its left.
fn stands_back(sign: Sign) -> bool
    ensures { result ≡ stands_back sign }
{
    match sign {
        Sign::Take { back } => back,
        _ => false,
    }
}

/// Appends the arrow of a message that is put in one row and arrives in another, or never.
#[tactic(auto, unfolding(crate::specs::Svg::message_line))]
fn write_message(
    frame: &Frame<'_>,
    from: usize,
    to: usize,
    row: usize,
    arrives: Option<usize>,
    out: &mut Vec<u8>,
) -> Result<(), Memory>
    requires lanes { (from ≤ most_roles) × (to ≤ most_roles) }
    requires row { row < 2 ^ 32 }
    requires arrives { IfSome arrives (λ taken. taken < 2 ^ 32) }
    ensures ok { OnOk result (out.new.items ≡ out.old.items
        ++ message_line frame.now.columns from to row arrives) }
    ensures memory { OnErr result (KeepsFront out.old.items out.new.items) }
{
    let start = crossing(frame, from, row);
    match arrives {
        Some(taken) => write_arrow(start, crossing(frame, to, taken), out),
        None => {
            let x = before_x(frame.columns, from, to);
            write_open_line(start, Point { x, y: start.y + 9 }, out)
        }
    }
}

/// Appends the shape of an entry in a row with its label.
#[tactic(auto, unfolding(crate::specs::Svg::drawing))]
fn write_drawing(
    frame: &Frame<'_>,
    row: usize,
    arrives: Option<usize>,
    shape: Shape,
    said: &[u8],
    out: &mut Vec<u8>,
) -> Result<(), Memory>
    requires row { row < 2 ^ 32 }
    requires arrives { IfSome arrives (λ taken. taken < 2 ^ 32) }
    requires shape { IsWithin most_roles shape }
    ensures ok { OnOk result (out.new.items ≡ out.old.items
        ++ drawing frame.now.columns frame.now.lanes.now row arrives shape said.now) }
    ensures memory { OnErr result (KeepsFront out.old.items out.new.items) }
{
    let y = row_y(row);
    match shape {
        Shape::Arrow { from, to } => {
            write_words_beside(to < from, lane_x(frame.columns, from), y - 5, said, out)?;
            write_message(frame, from, to, row, arrives, out)
        }
        Shape::Mark { sign, at } => {
            let x = lane_x(frame.columns, at);
            write_sign(sign, x, y, 8 * frame.columns as u64 + 14, out)?;
            write_words_beside(stands_back(sign), x, y + 4, said, out)
        }
        Shape::Band => {
            write_paper(0, y, width(frame), out)?;
            write_words(12, y + 4, said, out)
        }
    }
}

/// Appends the tag of a group, and its title.
#[tactic(auto, unfolding(crate::specs::Svg::group_front))]
fn write_title<'a>(class: &'a [u8], title: &'a [u8], out: &mut Vec<u8>) -> Result<(), Memory>
    ensures ok { OnOk result (out.new.items ≡ out.old.items
        ++ group_front class.now title.now) }
    ensures memory { OnErr result (KeepsFront out.old.items out.new.items) }
{
    let fragments = [
        Plain(b"<g class=\""),
        Plain(class),
        Plain(b"\"><title>"),
        Marked(title),
        Plain(b"</title>"),
    ];
    write_fragments(&fragments, out)
}

/// Appends an entry: its class, its whole line as a title, and its shape with the label.
#[tactic(auto, unfolding(crate::specs::Svg::svg_entry))]
fn write_entry(
    alloc: Global,
    frame: &Frame<'_>,
    row: usize,
    arrives: Option<usize>,
    entry: &Entry,
    out: &mut Vec<u8>,
) -> Result<(), Memory>
    requires row { row < 2 ^ 32 }
    requires arrives { IfSome arrives (λ taken. taken < 2 ^ 32) }
    ensures ok { OnOk result (out.new.items ≡ out.old.items
        ++ svg_entry frame.now.columns frame.now.lanes.now row arrives entry.now) }
    ensures memory { OnErr result (KeepsFront out.old.items out.new.items) }
{
    let mut line = Vec::new(alloc);
    write_line(entry, &mut line)?;
    let shown = short_label(alloc, entry, frame.columns)?;
    let shape = shape_of(frame.lanes, entry);
    write_title(entry_class(shape, entry), &line, out)?;
    write_drawing(frame, row, arrives, shape, &shown, out)?;
    write_bytes(b"</g>\n", out)
}

/// Appends the box with a role's name.
#[tactic(auto, unfolding(crate::specs::Svg::name_box))]
fn write_box(
    alloc: Global,
    frame: &Frame<'_>,
    y: u64,
    lane: usize,
    role: &Role,
    out: &mut Vec<u8>,
) -> Result<(), Memory>
    requires lane { lane ≤ most_roles }
    requires low { y < 2 ^ 40 }
    ensures ok { OnOk result (out.new.items ≡ out.old.items
        ++ name_box frame.now.columns y lane role.now) }
    ensures memory { OnErr result (KeepsFront out.old.items out.new.items) }
{
    let mut shown = Vec::new(alloc);
    write_shortened(role.0.bytes(), frame.columns, &mut shown)?;
    write_title(b"role", role.0.bytes(), out)?;
    let x = half_gap(frame.columns) * (lane as u64 + lane as u64 + 1) + 8;
    write_rectangle(x, y, 8 * frame.columns as u64 + 8, 26, out)?;
    write_words(lane_x(frame.columns, lane), y + 17, &shown, out)?;
    write_bytes(b"</g>\n", out)
}

/// Appends the opening, and for each lane its line, down to its box below, and its box at the top.
#[tactic(auto, unfolding(crate::specs::Svg::svg_lane))]
fn write_head(
    alloc: Global,
    frame: &Frame<'_>,
    rows: usize,
    out: &mut Vec<u8>,
) -> Result<(), Memory>
    requires rows { rows < 2 ^ 32 }
    ensures ok { OnOk result (out.new.items ≡ out.old.items
        ++ svg_head frame.now.columns frame.now.lanes.now rows) }
    ensures memory { OnErr result (KeepsFront out.old.items out.new.items) }
{
    let floor = row_y(rows);
    write_open(width(frame), floor + 62, out)?;
    for (lane, role) in frame.lanes.iter().enumerate() {
        write_lane_line(lane_x(frame.columns, lane), floor, out)?;
        write_box(alloc, frame, 12, lane, role, out)?;
    }
    Ok(())
}

#[tactic(auto, unfolding(crate::specs::Svg::svg_last))]
fn write_end(
    alloc: Global,
    floor: u64,
    last: &Option<Last>,
    out: &mut Vec<u8>,
) -> Result<(), Memory>
    requires low { floor < 2 ^ 40 }
    ensures ok { OnOk result (out.new.items ≡ out.old.items ++ svg_last floor last.now) }
    ensures memory { OnErr result (KeepsFront out.old.items out.new.items) }
{
    match last {
        None => Ok(()),
        Some(end) => {
            let mut said = Vec::new(alloc);
            write_last(end, false, &mut said)?;
            write_words(12, floor + 48, &said, out)?;
            write_bytes(b"\n", out)
        }
    }
}

fn write_tail(
    alloc: Global,
    frame: &Frame<'_>,
    rows: usize,
    last: &Option<Last>,
    out: &mut Vec<u8>,
) -> Result<(), Memory>
    requires rows { rows < 2 ^ 32 }
    ensures ok { OnOk result (out.new.items ≡ out.old.items
        ++ svg_tail frame.now.columns frame.now.lanes.now rows last.now) }
    ensures memory { OnErr result (KeepsFront out.old.items out.new.items) }
{
    let floor = row_y(rows);
    for (lane, role) in frame.lanes.iter().enumerate() {
        write_box(alloc, frame, floor, lane, role, out)?;
    }
    write_end(alloc, floor, last, out)?;
    write_bytes(b"</svg>\n", out)
}

fn write_entries(
    alloc: Global,
    frame: &Frame<'_>,
    entries: &[Entry],
    out: &mut Vec<u8>,
) -> Result<(), Memory>
    requires entries { length entries.now < 2 ^ 32 }
    ensures ok { OnOk result (out.new.items ≡ out.old.items
        ++ svg_entries frame.now.columns frame.now.lanes.now entries.now) }
    ensures memory { OnErr result (KeepsFront out.old.items out.new.items) }
{
    let arrivals = arrivals_of(alloc, entries)?;
    for (row, entry) in entries.iter().enumerate() {
        write_entry(alloc, frame, row, arrivals[row], entry, out)?;
    }
    Ok(())
}

/// Appends the SVG of a trace.
pub fn write_svg(alloc: Global, scene: &Scene<'_>, out: &mut Vec<u8>) -> Result<(), Memory>
    ensures ok { OnOk result (out.new.items ≡ out.old.items
        ++ svg_picture scene.now.lanes.now scene.now.entries.now scene.now.last.now) }
    ensures memory { OnErr result (KeepsFront out.old.items out.new.items) }
{
    let (lanes, entries) = (scene.lanes, scene.entries);
    let columns = columns_of(alloc, lanes, entries)?;
    let frame = Frame { columns, lanes };
    write_head(alloc, &frame, entries.len(), out)?;
    write_entries(alloc, &frame, entries, out)?;
    write_tail(alloc, &frame, entries.len(), scene.last, out)
}
