//! The lanes of a picture: the roles of a trace.

ghost use Rattle.std.specs.Prelude.{◌≡◌, ◌≤◌, IfOk, OnOk, length};
ghost use Rattle.std.specs.List.{fold};
ghost use Rattle.indexmap.specs.IndexSet.{insert_key};
ghost use Rattle.dioc_terms.specs.Equality.{role_eq};
ghost use Rattle.trace_picture.specs.Lanes.{with_lanes, lanes_of, lane_of, longest_name};

use dioc_terms::{Entry, Memory, Role};
use indexmap::IndexSet;
use std::alloc::Global;

/// The roles that a trace names, each once, in the order in which it first names them.
pub fn lanes_of(alloc: Global, entries: &[Entry]) -> Result<Vec<Role>, Memory>
    ensures { IfOk result (λ lanes. lanes.items ≡ lanes_of entries.now) }
{
    let mut seen = IndexSet::new(alloc);
    add_all(alloc, &mut seen, entries)?;
    Ok(seen.into_iter().collect(alloc)?)
}

fn add_all(alloc: Global, seen: &mut IndexSet<Role>, entries: &[Entry]) -> Result<(), Memory>
    ensures { OnOk result (seen.new.keys ≡ fold with_lanes seen.old.keys entries.now) }
{
    for entry in entries {
        add_roles(alloc, seen, entry)?;
    }
    Ok(())
}

/// Adds the roles that an entry names.
fn add_roles(alloc: Global, seen: &mut IndexSet<Role>, entry: &Entry) -> Result<(), Memory>
    ensures { OnOk result (seen.new.keys ≡ with_lanes seen.old.keys entry.now) }
{
    match entry {
        Entry::Put { key, .. } => {
            add_role(alloc, seen, &key.from)?;
            add_role(alloc, seen, &key.to)
        }
        Entry::Take { key, .. } => {
            add_role(alloc, seen, &key.from)?;
            add_role(alloc, seen, &key.to)
        }
        Entry::Set { role, .. } => add_role(alloc, seen, role),
        Entry::Input { role, .. } => add_role(alloc, seen, role),
        Entry::Pick { role, .. } => add_role(alloc, seen, role),
        Entry::Scope { role, .. } => add_role(alloc, seen, role),
        Entry::Add { .. } => Ok(()),
        Entry::Drop { .. } => Ok(()),
        Entry::Env { .. } => Ok(()),
    }
}

fn add_role(alloc: Global, seen: &mut IndexSet<Role>, role: &Role) -> Result<(), Memory>
    ensures { OnOk result (seen.new.keys ≡ insert_key role_eq seen.old.keys role.now) }
{
    if !seen.contains(role) {
        seen.insert(role.copy(alloc)?)?;
    }
    Ok(())
}

/// The number of the role's lane, counted from 0; as many as there are lanes where it has none.
pub fn lane_of(lanes: &[Role], role: &Role) -> usize
    ensures value { result ≡ lane_of lanes.now role.now }
    ensures within { result ≤ length lanes.now }
{
    lanes.iter().take_while(|lane| **lane != *role).count()
}

/// How long the longest name of a lane is.
pub fn longest_name(lanes: &[Role]) -> usize
    ensures { result ≡ longest_name 0 lanes.now }
{
    let mut most = 0;
    for lane in lanes {
        most = most.max(lane.0.bytes().len());
    }
    most
}
