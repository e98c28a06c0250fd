//! The seats of a new stage.

ghost use Rattle.std.specs.Prelude.{◌≡◌, All, IfOk, length, map};
ghost use Rattle.stage.specs.declared.marks.Marks.{Marks};
ghost use Rattle.stage.specs.Held.{IsNewWith};
ghost use Rattle.stage.specs.Seats.{Base, opening_views};
ghost use Rattle.turn_lock.specs.Views.{first_view};
ghost use Rattle.turn_lock.specs.Words.{view, known, IsSeatOf};

use crate::home::Home;
use dioc_terms::{Memory, Role};
use std::alloc::Global;
use turn_lock::{Seat, Turns};

/// The seats of a new stage: one for each role, in the cast's order, and the feeder's last. They
/// are numbered from 0.
pub(crate) fn make_seats(
    alloc: Global,
    turns: &Turns<Home>,
    mut first: Seat<Home>,
    cast: &[Role],
) -> Result<Vec<Seat<Home>>, Memory>
    requires of { IsSeatOf turns.now first }
    requires made { (view first).made ≡ 1 }
    ensures of { IfOk result (λ seats. All (λ s. IsSeatOf turns.now s) seats.items) }
    ensures views { (base : Base) → view first ≡ first_view base → IfOk result
        (λ seats. map view seats.items ≡ opening_views base (length cast.now)) }
    ensures knows { (marks : Marks) → IsNewWith marks (known first) → IfOk result
        (λ seats. All (λ s. IsNewWith marks (known s)) seats.items) }
{
    let mut seats = Vec::with_capacity(alloc, cast.len())?;
    for _role in cast {
        let (left, next) = turns.split(first);
        first = left;
        seats.push_reserved(next);
    }
    seats.insert(0, first)?;
    Ok(seats)
}
