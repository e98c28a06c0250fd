//! How large a choreography is.

ghost use Rattle.std.specs.Prelude.{◌≡◌, ◌^◌, ◌-◌, ◌+◌, suc, max, min};
ghost use Rattle.dioc_terms.specs.Terms.{term, depth, nodes};

use dioc_terms::Choreo;

/// How many nodes the choreography has, each `Skip`, `Seq` and `Par` counted; the greatest `usize`
/// where it has more.
pub fn nodes(choreo: &Choreo) -> usize
    ensures { result ≡ min (nodes (term choreo.now)) (2 ^ 64 - 1) }
{
    match choreo {
        Choreo::Seq(left, right) | Choreo::Par(left, right) => both(nodes(left), nodes(right)),
        Choreo::If { yes, no, .. } => both(nodes(yes), nodes(no)),
        Choreo::While { body, .. } | Choreo::Scope { body, .. } => nodes(body).saturating_add(1),
        Choreo::Skip | Choreo::Com { .. } | Choreo::Set { .. } | Choreo::Input { .. } => 1,
    }
}

/// A node with two parts of so many nodes.
fn both(left: usize, right: usize) -> usize
    ensures { result ≡ min (suc (left + right)) (2 ^ 64 - 1) }
{
    left.saturating_add(right).saturating_add(1)
}

/// How deep the choreography's tree is: a leaf is 1 deep, and any other node one deeper than its
/// deepest part. The greatest `usize` where it is deeper.
pub fn depth(choreo: &Choreo) -> usize
    ensures { result ≡ min (depth (term choreo.now)) (2 ^ 64 - 1) }
{
    match choreo {
        Choreo::Seq(left, right) | Choreo::Par(left, right) => above(depth(left), depth(right)),
        Choreo::If { yes, no, .. } => above(depth(yes), depth(no)),
        Choreo::While { body, .. } | Choreo::Scope { body, .. } => depth(body).saturating_add(1),
        Choreo::Skip | Choreo::Com { .. } | Choreo::Set { .. } | Choreo::Input { .. } => 1,
    }
}

/// The depth of a node with two parts of these depths.
fn above(left: usize, right: usize) -> usize
    ensures { result ≡ min (suc (max left right)) (2 ^ 64 - 1) }
{
    left.max(right).saturating_add(1)
}
