//! The acts of a role over code, filled in where a list lacks some of them.

ghost use Rattle.std.specs.Prelude.{◌≡◌, ◌≤◌, ◌+◌, ◌++◌, List, length, OnOk};
ghost use Rattle.dioc_terms.specs.declared.entries.Act.{Act as OneAct};
ghost use Rattle.dpoc_process.specs.LocalStates.{LacksAt};
ghost use Rattle.flat_role.specs.Progress.{IsProgress, runs_by};
ghost use Rattle.process_steps.specs.Steps.{offers};

use crate::numbered::runs_updates;
use crate::progress::Progress;
use crate::relisting::{add_acts, refresh_acts};
use dioc_terms::{Act, Memory, Role};
use flat_code::Plan;
use std::alloc::Global;

/// Fills in the acts that a list lacks, which come one behind the other at the place `at`.
///
/// A place offers just one act unless an update runs there. So where none runs, the lengths of the
/// lists say how many acts are missing and which places offer them: no act is compared.
pub(crate) fn fill_acts(
    progress: &Progress,
    alloc: Global,
    me: &Role,
    plan: &Plan,
    acts: &mut Vec<Act>,
    at: usize,
) -> Result<(), Memory>
    requires progress { IsProgress me.now plan.now progress.now }
    requires inside { at ≤ length acts.old.items }
    requires lacks { LacksAt at acts.old.items
        (offers me.now (runs_by me.now plan.now progress.now)) }
    ensures { OnOk result (acts.new.items ≡ offers me.now (runs_by me.now plan.now progress.now)) }
{
    let places = progress.active.len();
    if runs_updates(progress, me, plan, places) {
        return refresh_acts(progress, alloc, me, plan, acts);
    }
    let missing = places - acts.len();
    // Listed at the end and moved from there, they need no list of their own.
    add_acts(progress, alloc, me, plan, at, at + missing, acts)?;
    bring_forward(acts, at, missing);
    Ok(())
}

/// Moves so many acts from the end to the place `at`.
fn bring_forward(acts: &mut Vec<Act>, at: usize, count: usize)
    requires { at + count ≤ length acts.old.items }
    ensures { (front behind last : List OneAct) → acts.old.items ≡ front ++ (behind ++ last) →
        length front ≡ at → length last ≡ count → acts.new.items ≡ front ++ (last ++ behind) }
{
    acts[at..].rotate_right(count);
}
