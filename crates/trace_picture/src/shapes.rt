//! What of a picture shows an entry.

ghost use Rattle.std.specs.Prelude.{◌≡◌, ℕ, ◌≤◌, length};
ghost use Rattle.trace_picture.specs.Shapes.{arrow_between, taken_at, choice_sign, shape_of, IsWithin};

use crate::lanes::lane_of;
use dioc_terms::{Chosen, Entry, Role};

/// A sign on a lane.
#[derive(Clone, Copy)]
pub enum Sign {
    /// A message was taken; `back` where it came from the right.
    Take { back: bool },
    /// A variable was set.
    Set,
    /// A variable was set to an input.
    Input,
    /// A decision was made.
    Pick,
    /// A scope keeps its body.
    Keep,
    /// A scope is replaced by a rule.
    Replace,
    /// A role sent a message to itself.
    Own,
}

/// What shows an entry.
#[derive(Clone, Copy)]
pub enum Shape {
    /// An arrow between two lanes.
    Arrow { from: usize, to: usize },
    /// A sign on a lane.
    Mark { sign: Sign, at: usize },
    /// A band across all lanes.
    Band,
}

/// The shape of an entry: of a put an arrow, of a change a band, else a sign.
pub fn shape_of(lanes: &[Role], entry: &Entry) -> Shape
    ensures value { result ≡ shape_of lanes.now entry.now }
    ensures within { IsWithin (length lanes.now) result }
{
    match entry {
        Entry::Put { key, .. } => arrow(lane_of(lanes, &key.from), lane_of(lanes, &key.to)),
        Entry::Take { key, .. } => taken(lane_of(lanes, &key.from), lane_of(lanes, &key.to)),
        Entry::Set { role, .. } => mark(Sign::Set, lane_of(lanes, role)),
        Entry::Input { role, .. } => mark(Sign::Input, lane_of(lanes, role)),
        Entry::Pick { role, .. } => mark(Sign::Pick, lane_of(lanes, role)),
        Entry::Scope { role, chosen, .. } => mark(choice_sign(chosen), lane_of(lanes, role)),
        Entry::Add { .. } => Shape::Band,
        Entry::Drop { .. } => Shape::Band,
        Entry::Env { .. } => Shape::Band,
    }
}

fn mark(sign: Sign, at: usize) -> Shape
    ensures { result ≡ Shape.Mark sign at }
{
    Shape::Mark { sign, at }
}

/// The sign of a take on the lane of its receiver.
fn taken(from: usize, to: usize) -> Shape
    ensures { result ≡ taken_at from to }
{
    mark(Sign::Take { back: to < from }, to)
}

fn arrow(from: usize, to: usize) -> Shape
    ensures value { result ≡ arrow_between from to }
    ensures within { (most : ℕ) → from ≤ most → to ≤ most → IsWithin most result }
{
    if from == to {
        mark(Sign::Own, from)
    } else {
        Shape::Arrow { from, to }
    }
}

fn choice_sign(chosen: &Chosen) -> Sign
    ensures { result ≡ choice_sign chosen.now }
{
    match chosen {
        Chosen::Keep => Sign::Keep,
        Chosen::Rule { .. } => Sign::Replace,
    }
}
