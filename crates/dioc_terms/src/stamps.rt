//! The body of a rule, as an update.

ghost use Rattle.std.specs.Prelude.{◌≡◌, IfOk};
ghost use Rattle.dioc_terms.specs.Terms.{term, stamped};

use crate::choreographies::Choreo;
use crate::faults::Memory;
use std::alloc::Global;

/// A copy of a rule's body as the update of this number: each index is of that epoch, and each
/// scope at that level.
pub fn stamped(alloc: Global, choreo: &Choreo, epoch: u32, level: u32) -> Result<Choreo, Memory>
    ensures { IfOk result (λ copy. term copy ≡ stamped (term choreo.now) epoch level) }
{
    let mut copy = choreo.copy(alloc)?;
    stamp(&mut copy, epoch, level);
    Ok(copy)
}

fn stamp(choreo: &mut Choreo, epoch: u32, scope_level: u32)
    ensures { term choreo.new ≡ stamped (term choreo.old) epoch scope_level }
{
    match choreo {
        Choreo::Skip => (),
        Choreo::Com { index, .. } => index.epoch = epoch,
        Choreo::Set { index, .. } => index.epoch = epoch,
        Choreo::Input { index, .. } => index.epoch = epoch,
        Choreo::Seq(first, second) => {
            stamp(first, epoch, scope_level);
            stamp(second, epoch, scope_level);
        }
        Choreo::Par(left, right) => {
            stamp(left, epoch, scope_level);
            stamp(right, epoch, scope_level);
        }
        Choreo::If { index, yes, no, .. } => {
            index.epoch = epoch;
            stamp(yes, epoch, scope_level);
            stamp(no, epoch, scope_level);
        }
        Choreo::While { index, body, .. } => {
            index.epoch = epoch;
            stamp(body, epoch, scope_level);
        }
        Choreo::Scope {
            index,
            body,
            level,
            ..
        } => {
            index.epoch = epoch;
            *level = scope_level;
            stamp(body, epoch, scope_level);
        }
    }
}
