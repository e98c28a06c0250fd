//! The parts of an SVG, each appended to the bytes written so far. Lengths are in pixels.

ghost use Rattle.std.specs.Prelude.{◌≡◌, ◌≤◌, ◌<◌, ◌^◌, ◌++◌, OnOk, OnErr};
ghost use Rattle.text_pieces.specs.Pieces.{KeepsFront};
ghost use Rattle.trace_picture.specs.Svg.{circle, rectangle, paper, sign_mark, line_between, arrow_line, open_line, lane_line, words_in, words, words_beside, style_text, dark_text, tip_text, svg_tag, ground_text, svg_open};

use crate::fragments::Fragment::{Attribute, Marked, Number, Plain};
use crate::fragments::write_fragments;
use crate::shapes::Sign;
use dioc_terms::Memory;
use text_pieces::write_bytes;

/// An end of a line.
#[derive(Clone, Copy)]
pub struct Point {
    pub x: u64,
    pub y: u64,
}

/// Appends a circle around a place, in a tag that begins so.
#[tactic(auto, unfolding(crate::specs::Svg::circle))]
fn write_circle<'a>(tag: &'a [u8], x: u64, y: u64, out: &mut Vec<u8>) -> Result<(), Memory>
    ensures ok { OnOk result (out.new.items ≡ out.old.items ++ circle tag.now x y) }
    ensures memory { OnErr result (KeepsFront out.old.items out.new.items) }
{
    let fragments = [
        Plain(tag),
        Attribute(b"cx", x),
        Attribute(b"cy", y),
        Plain(b" r=\"4\"/>"),
    ];
    write_fragments(&fragments, out)
}

/// Appends a rectangle below and beside a place.
#[tactic(auto, unfolding(crate::specs::Svg::rectangle))]
pub fn write_rectangle(
    x: u64,
    y: u64,
    wide: u64,
    high: u64,
    out: &mut Vec<u8>,
) -> Result<(), Memory>
    ensures ok { OnOk result (out.new.items ≡ out.old.items ++ rectangle x y wide high) }
    ensures memory { OnErr result (KeepsFront out.old.items out.new.items) }
{
    let fragments = [
        Plain(b"<rect"),
        Attribute(b"x", x),
        Attribute(b"y", y),
        Attribute(b"width", wide),
        Attribute(b"height", high),
        Plain(b"/>"),
    ];
    write_fragments(&fragments, out)
}

/// Appends the paper of a note.
pub fn write_paper(x: u64, y: u64, wide: u64, out: &mut Vec<u8>) -> Result<(), Memory>
    requires low { 11 ≤ y }
    ensures ok { OnOk result (out.new.items ≡ out.old.items ++ paper x y wide) }
    ensures memory { OnErr result (KeepsFront out.old.items out.new.items) }
{
    write_rectangle(x, y - 11, wide, 22, out)
}

/// Appends a sign: a dot, and of a scope the paper of a note.
#[tactic(auto, unfolding(crate::specs::Svg::sign_mark))]
pub fn write_sign(sign: Sign, x: u64, y: u64, wide: u64, out: &mut Vec<u8>) -> Result<(), Memory>
    requires low { 11 ≤ y }
    ensures ok { OnOk result (out.new.items ≡ out.old.items ++ sign_mark sign x y wide) }
    ensures memory { OnErr result (KeepsFront out.old.items out.new.items) }
{
    match sign {
        Sign::Keep => write_paper(x, y, wide, out),
        Sign::Replace => write_paper(x, y, wide, out),
        Sign::Take { .. } => write_circle(b"<circle", x, y, out),
        Sign::Set => write_circle(b"<circle", x, y, out),
        Sign::Input => write_circle(b"<circle", x, y, out),
        Sign::Pick => write_circle(b"<circle", x, y, out),
        Sign::Own => write_circle(b"<circle", x, y, out),
    }
}

/// Appends a line from one point to another, in a tag that begins so and goes on.
#[tactic(auto, unfolding(crate::specs::Svg::line_between))]
fn write_line_between(tag: &[u8], start: Point, end: Point, out: &mut Vec<u8>) -> Result<(), Memory>
    ensures ok { OnOk result (out.new.items ≡ out.old.items
        ++ line_between tag.now start.x start.y end.x end.y) }
    ensures memory { OnErr result (KeepsFront out.old.items out.new.items) }
{
    let fragments = [
        Plain(tag),
        Attribute(b"x1", start.x),
        Attribute(b"y1", start.y),
        Attribute(b"x2", end.x),
        Attribute(b"y2", end.y),
    ];
    write_fragments(&fragments, out)
}

/// Appends a line with a tip at its end.
#[tactic(auto, unfolding(crate::specs::Svg::arrow_line))]
pub fn write_arrow(start: Point, end: Point, out: &mut Vec<u8>) -> Result<(), Memory>
    ensures ok { OnOk result (out.new.items ≡ out.old.items
        ++ arrow_line start.x start.y end.x end.y) }
    ensures memory { OnErr result (KeepsFront out.old.items out.new.items) }
{
    write_line_between(b"<line", start, end, out)?;
    write_bytes(b" marker-end=\"url(#tip)\"/>", out)
}

/// Appends a line with an open circle at its end.
#[tactic(auto, unfolding(crate::specs::Svg::open_line))]
pub fn write_open_line(start: Point, end: Point, out: &mut Vec<u8>) -> Result<(), Memory>
    ensures ok { OnOk result (out.new.items ≡ out.old.items
        ++ open_line start.x start.y end.x end.y) }
    ensures memory { OnErr result (KeepsFront out.old.items out.new.items) }
{
    write_line_between(b"<line", start, end, out)?;
    write_bytes(b"/>", out)?;
    write_circle(b"<circle class=\"open\"", end.x, end.y, out)
}

/// Appends the line of a lane at `x`, down to `floor`.
#[tactic(auto, unfolding(crate::specs::Svg::lane_line))]
pub fn write_lane_line(x: u64, floor: u64, out: &mut Vec<u8>) -> Result<(), Memory>
    ensures ok { OnOk result (out.new.items ≡ out.old.items ++ lane_line x floor) }
    ensures memory { OnErr result (KeepsFront out.old.items out.new.items) }
{
    let start = Point { x, y: 38 };
    let end = Point { x, y: floor };
    write_line_between(b"<line class=\"lane\"", start, end, out)?;
    write_bytes(b"/>\n", out)
}

/// Appends words at a place, in a tag that begins so.
#[tactic(auto, unfolding(crate::specs::Svg::words_in))]
fn write_words_in<'a>(
    tag: &'a [u8],
    x: u64,
    y: u64,
    bytes: &'a [u8],
    out: &mut Vec<u8>,
) -> Result<(), Memory>
    ensures ok { OnOk result (out.new.items ≡ out.old.items ++ words_in tag.now x y bytes.now) }
    ensures memory { OnErr result (KeepsFront out.old.items out.new.items) }
{
    let fragments = [
        Plain(tag),
        Attribute(b"x", x),
        Attribute(b"y", y),
        Plain(b">"),
        Marked(bytes),
        Plain(b"</text>"),
    ];
    write_fragments(&fragments, out)
}

/// Appends words at a place.
pub fn write_words(x: u64, y: u64, bytes: &[u8], out: &mut Vec<u8>) -> Result<(), Memory>
    ensures ok { OnOk result (out.new.items ≡ out.old.items ++ words x y bytes.now) }
    ensures memory { OnErr result (KeepsFront out.old.items out.new.items) }
{
    write_words_in(b"<text", x, y, bytes, out)
}

/// Appends words beside a lane, on its left where `back` says so.
#[tactic(auto, unfolding(crate::specs::Svg::words_beside))]
pub fn write_words_beside(
    back: bool,
    x: u64,
    y: u64,
    said: &[u8],
    out: &mut Vec<u8>,
) -> Result<(), Memory>
    requires right { (9 ≤ x) × (x < 2 ^ 40) }
    ensures ok { OnOk result (out.new.items ≡ out.old.items ++ words_beside back x y said.now) }
    ensures memory { OnErr result (KeepsFront out.old.items out.new.items) }
{
    if back {
        write_words_in(b"<text class=\"back\"", x - 9, y, said, out)
    } else {
        write_words(x + 9, y, said, out)
    }
}

/// The colours.
#[tactic(auto, unfolding(crate::specs::Svg::style_text))]
fn style_text() -> &'static [u8]
    ensures { result.now ≡ style_text }
{
    b"<style>text{font:12px monospace;fill:#222}.back{text-anchor:end}\
    .ground{fill:#fff}.lane{stroke:#b8b8b8;stroke-dasharray:5 4}\
    .role rect{fill:#e8eef8;stroke:#42659c}\
    .role text{text-anchor:middle;font-weight:bold}\
    .put line,.put .open{stroke:#1d4f91;stroke-width:1.6}\
    .aux line{stroke:#999;stroke-dasharray:3 3}.aux .open{stroke:#999}\
    g text{paint-order:stroke;stroke:#fff;stroke-width:7px;stroke-linejoin:round}\
    .put circle,.take circle{fill:#1d4f91}.input circle{fill:#2e8540}\
    .set circle{fill:#fff;stroke:#1d4f91;stroke-width:2}\
    .pick circle{fill:#8a3ab9}.aux circle{fill:#999}\
    g .open{fill:#fff}#tip{fill:#1d4f91}#pale{fill:#999}\
    .aux [marker-end]{marker-end:url(#pale)}\
    .keep rect{fill:#f4f4f4;stroke:#999}.replace rect{fill:#ffe2b8;stroke:#c77700}\
    .change rect{fill:#ddf1dd;stroke:#2e8540}\
    .role text,.keep text,.replace text,.change text{stroke:none}\n"
}

/// The colours on a dark ground.
#[tactic(auto, unfolding(crate::specs::Svg::dark_text))]
fn dark_text() -> &'static [u8]
    ensures { result.now ≡ dark_text }
{
    b"@media(prefers-color-scheme:dark){\
    text{fill:#e4e4e4}.ground{fill:#16181d}\
    .lane{stroke:#5c616b}.role rect{fill:#233049;stroke:#7fa8e8}\
    .put line,.put .open{stroke:#7fb0ff}.aux line,.aux .open{stroke:#8a8f99}\
    g text{stroke:#16181d}.put circle,.take circle{fill:#7fb0ff}\
    .set circle{fill:#16181d;stroke:#7fb0ff}.input circle{fill:#5ecb7b}\
    .pick circle{fill:#c792ea}.aux circle{fill:#8a8f99}g .open{fill:#16181d}\
    #tip{fill:#7fb0ff}#pale{fill:#8a8f99}.keep rect{fill:#2a2d34;stroke:#8a8f99}\
    .replace rect{fill:#4a3413;stroke:#e09a3e}\
    .change rect{fill:#1d3a24;stroke:#5ecb7b}}</style>\n"
}

/// The tips of arrows.
#[tactic(auto, unfolding(crate::specs::Svg::tip_text))]
fn tip_text() -> &'static [u8]
    ensures { result.now ≡ tip_text }
{
    b"<defs><marker id=\"tip\" viewBox=\"0 0 10 8\" refX=\"14\" refY=\"4\" \
    markerWidth=\"10\" markerHeight=\"8\" markerUnits=\"userSpaceOnUse\" orient=\"auto\">\
    <path d=\"M0 0L10 4L0 8z\"/></marker>\n\
    <marker id=\"pale\" viewBox=\"0 0 10 8\" refX=\"14\" refY=\"4\" \
    markerWidth=\"10\" markerHeight=\"8\" markerUnits=\"userSpaceOnUse\" orient=\"auto\">\
    <path d=\"M0 0L10 4L0 8z\"/></marker></defs>\n"
}

/// Appends the tag that opens a picture of this size.
#[tactic(auto, unfolding(crate::specs::Svg::svg_tag))]
fn write_tag(wide: u64, high: u64, out: &mut Vec<u8>) -> Result<(), Memory>
    ensures ok { OnOk result (out.new.items ≡ out.old.items ++ svg_tag wide high) }
    ensures memory { OnErr result (KeepsFront out.old.items out.new.items) }
{
    let fragments = [
        Plain(b"<svg xmlns=\"http://www.w3.org/2000/svg\""),
        Attribute(b"width", wide),
        Attribute(b"height", high),
        Plain(b" viewBox=\"0 0 "),
        Number(wide),
        Plain(b" "),
        Number(high),
        Plain(b"\">\n"),
    ];
    write_fragments(&fragments, out)
}

/// Appends the ground of a picture of this size.
#[tactic(auto, unfolding(crate::specs::Svg::ground_text))]
fn write_ground(wide: u64, high: u64, out: &mut Vec<u8>) -> Result<(), Memory>
    ensures ok { OnOk result (out.new.items ≡ out.old.items ++ ground_text wide high) }
    ensures memory { OnErr result (KeepsFront out.old.items out.new.items) }
{
    let fragments = [
        Plain(b"<rect class=\"ground\""),
        Attribute(b"width", wide),
        Attribute(b"height", high),
        Plain(b"/>\n"),
    ];
    write_fragments(&fragments, out)
}

/// Appends the opening of a picture of this size, with what its parts refer to.
#[tactic(auto, unfolding(crate::specs::Svg::svg_open))]
pub fn write_open(wide: u64, high: u64, out: &mut Vec<u8>) -> Result<(), Memory>
    ensures ok { OnOk result (out.new.items ≡ out.old.items ++ svg_open wide high) }
    ensures memory { OnErr result (KeepsFront out.old.items out.new.items) }
{
    write_tag(wide, high, out)?;
    write_bytes(style_text(), out)?;
    write_bytes(dark_text(), out)?;
    write_bytes(tip_text(), out)?;
    write_ground(wide, high, out)
}
