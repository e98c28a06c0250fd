//! What is known of the places of code before a role runs.

ghost use Rattle.std.specs.Prelude.{◌≡◌, ◌<◌, ◌+◌, ◌++◌, ◌∷◌, ◌&&◌, [], List, IfOk, OnOk, length};
ghost use Rattle.dioc_terms.specs.Processes.{Process};
ghost use Rattle.flat_code.specs.Codes.{process_of};
ghost use Rattle.flat_code.specs.Layout.{Lies, inner};
ghost use Rattle.flat_code.specs.Levels.{AreLevels, AreLevelsAdded, all_ended, layout_of};
ghost use Rattle.flat_code.specs.Places.{at, op_process, part_places, processes};
ghost use Rattle.process_steps.specs.Steps.{ended};
ghost use Rattle.role_statuses.specs.PlaceLaws.{IsCodeOf};

use crate::code::Code;
use crate::ops::{Op, PartPlaces};
use dioc_terms::Memory;
use std::alloc::Global;

/// What is known of a place of code, and of the process there.
#[derive(Clone, Copy)]
pub struct Level {
    /// The place of the construct around it.
    pub parent: usize,
    /// The first of the places of the process, of which its own is the last.
    pub low: usize,
    /// Whether nothing is left to do of it.
    pub ended: bool,
}

/// What is known of each place of the code's process. As the construct around the whole it names
/// the place behind that of the whole. It takes time and memory by the process's size.
pub fn levels_of(alloc: Global, code: &Code) -> Result<Vec<Level>, Memory>
    ensures longer { IfOk result (λ levels. length levels.items ≡ code.now.start + 1) }
    ensures levels { IfOk result (λ levels.
        AreLevels levels.items (code.now.start + 1) 0 (process_of code.now)) }
    ensures says { IfOk result (λ levels. IsCodeOf (layout_of code.now.ops.items levels.items)
        (length levels.items) (process_of code.now)) }
{
    let mut levels = Vec::with_capacity(alloc, code.start + 1)?;
    let _ended = add_levels(code, code.start, code.start + 1, &mut levels)?;
    Ok(levels)
}

/// Adds what is known of the places of the process at a place, with the place of the construct
/// around it. The answer is whether nothing is left to do of it.
fn add_levels(
    code: &Code,
    place: usize,
    parent: usize,
    levels: &mut Vec<Level>,
) -> Result<bool, Memory>
    requires inside { place < length code.now.ops.items }
    requires begins { place ≡
        length levels.old.items + inner (at (processes code.now.ops.items) place) }
    requires lies { Lies code.now.ops.items (length levels.old.items)
        (at (processes code.now.ops.items) place) }
    ensures ended { IfOk result (λ over.
        over ≡ ended (at (processes code.now.ops.items) place)) }
    ensures added { OnOk result (AreLevelsAdded levels.old.items levels.new.items parent
        (at (processes code.now.ops.items) place)) }
{
    let low = levels.len();
    let op = code.op_at(place);
    match op.parts() {
        PartPlaces::Zero => close(op, true, parent, low, levels),
        PartPlaces::One(body) => {
            let ended = add_levels(code, body, place, levels)?;
            close(op, ended, parent, low, levels)
        }
        PartPlaces::Two(first, second) => {
            let first_ended = add_levels(code, first, place, levels)?;
            let second_ended = add_levels(code, second, place, levels)?;
            close(op, both(first_ended, second_ended), parent, low, levels)
        }
    }
}

// (Apart, since a test among the arguments would make for two ways to the call.)
pub(crate) fn both(first: bool, second: bool) -> bool
    ensures { result ≡ (first && second) }
{
    first && second
}

/// Adds what is known of the place of an op, behind its parts.
fn close(
    op: &Op,
    parts_ended: bool,
    parent: usize,
    low: usize,
    levels: &mut Vec<Level>,
) -> Result<bool, Memory>
    ensures ended { (done : List Process) → parts_ended ≡ all_ended done (part_places op.now)
        → IfOk result (λ over. over ≡ ended (op_process done op.now)) }
    ensures pushed { IfOk result (λ over. levels.new.items
        ≡ levels.old.items ++ record { parent = parent; low = low; ended = over } ∷ []) }
{
    let ended = op.is_ended(parts_ended);
    levels.push(Level { parent, low, ended })?;
    Ok(ended)
}
