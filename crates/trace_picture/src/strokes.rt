//! How a shape crosses a lane in letters.

ghost use Rattle.std.specs.Prelude.{◌≡◌, if◌then◌else◌, ◌++◌, OnOk, OnErr};
ghost use Rattle.text_pieces.specs.Pieces.{KeepsFront};
ghost use Rattle.trace_picture.specs.Strokes.{sign_byte, comes, goes, is_drawn, ends, tip_byte, side_byte, near_byte, center_byte, cell};

use crate::runs::write_repeated;
use crate::shapes::{Shape, Sign};
use dioc_terms::Memory;
use text_pieces::write_bytes;

/// A side of a lane.
#[derive(Clone, Copy)]
enum Side {
    Left,
    Right,
}

fn sign_byte(sign: Sign) -> u8
    ensures { result ≡ sign_byte sign }
{
    match sign {
        Sign::Take { .. } => b'*',
        Sign::Set => b'o',
        Sign::Input => b'i',
        Sign::Pick => b'?',
        Sign::Keep => b'K',
        Sign::Replace => b'R',
        Sign::Own => b'@',
    }
}

/// Whether an arrow comes to the lane from its left.
fn comes(from: usize, to: usize, lane: usize) -> bool
    ensures { result ≡ comes from to lane }
{
    from.min(to) < lane && lane <= from.max(to)
}

/// Whether an arrow goes on to the right of the lane.
fn goes(from: usize, to: usize, lane: usize) -> bool
    ensures { result ≡ goes from to lane }
{
    from.min(to) <= lane && lane < from.max(to)
}

fn dash_where(drawn: bool) -> u8
    ensures { result ≡ (if drawn then 45 else 32) }
{
    if drawn { b'-' } else { b' ' }
}

/// Whether an arrow is drawn on this side of the lane.
fn is_drawn(side: Side, from: usize, to: usize, lane: usize) -> bool
    ensures { result ≡ is_drawn side from to lane }
{
    match side {
        Side::Left => comes(from, to, lane),
        Side::Right => goes(from, to, lane),
    }
}

/// Whether an arrow comes from this side and ends at the lane.
fn ends(side: Side, from: usize, to: usize, lane: usize) -> bool
    ensures { result ≡ ends side from to lane }
{
    match side {
        Side::Left => from < to && lane == to,
        Side::Right => to < from && lane == to,
    }
}

/// The tip of an arrow that comes from this side.
fn tip_byte(side: Side) -> u8
    ensures { result ≡ tip_byte side }
{
    match side {
        Side::Left => b'>',
        Side::Right => b'<',
    }
}

fn side_byte(side: Side, shape: Shape, lane: usize) -> u8
    ensures { result ≡ side_byte side shape lane }
{
    match shape {
        Shape::Arrow { from, to } => dash_where(is_drawn(side, from, to, lane)),
        Shape::Mark { .. } => b' ',
        Shape::Band => b'=',
    }
}

fn near_byte(side: Side, shape: Shape, lane: usize) -> u8
    ensures { result ≡ near_byte side shape lane }
{
    match shape {
        Shape::Arrow { from, to } if ends(side, from, to, lane) => tip_byte(side),
        Shape::Arrow { .. } | Shape::Mark { .. } | Shape::Band => side_byte(side, shape, lane),
    }
}

fn center_byte(shape: Shape, lane: usize) -> u8
    ensures { result ≡ center_byte shape lane }
{
    match shape {
        Shape::Arrow { from, to } if comes(from, to, lane) && goes(from, to, lane) => b'-',
        Shape::Arrow { .. } => b'|',
        Shape::Mark { sign, at } if lane == at => sign_byte(sign),
        Shape::Mark { .. } => b'|',
        Shape::Band => b'=',
    }
}

/// Appends a lane as a shape crosses it, with `reach` bytes more on each side of its middle.
#[tactic(auto, unfolding(crate::specs::Strokes::cell))]
pub fn write_cell(reach: usize, shape: Shape, lane: usize, out: &mut Vec<u8>) -> Result<(), Memory>
    ensures ok { OnOk result (out.new.items ≡ out.old.items ++ cell reach shape lane) }
    ensures memory { OnErr result (KeepsFront out.old.items out.new.items) }
{
    write_repeated(side_byte(Side::Left, shape, lane), reach, out)?;
    let middle = [
        near_byte(Side::Left, shape, lane),
        center_byte(shape, lane),
        near_byte(Side::Right, shape, lane),
    ];
    write_bytes(&middle, out)?;
    write_repeated(side_byte(Side::Right, shape, lane), reach, out)
}
