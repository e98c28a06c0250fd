//! Where the messages of a trace arrive.

ghost use Rattle.std.specs.Prelude.{◌≡◌, ◌<◌, length, Some, if◌then◌else◌, IfOk, OnOk};
ghost use Rattle.indexmap.specs.IndexMap.{get};
ghost use Rattle.dioc_terms.specs.declared.processes.Key.{Key};
ghost use Rattle.dioc_terms.specs.Equality.{key_eq};
ghost use Rattle.trace_picture.specs.Arrivals.{takes, found_by, AreArrivals};

use dioc_terms::{Entry, Key, Memory};
use indexmap::IndexMap;
use std::alloc::Global;

/// For each entry that puts a message the row of the take where it arrives: the first behind it
/// that takes its key. It goes over the entries once, from the last to the first.
pub fn arrivals_of(alloc: Global, entries: &[Entry]) -> Result<Vec<Option<usize>>, Memory>
    ensures { IfOk result (λ arrivals. AreArrivals entries.now arrivals.items) }
{
    // The row of the next take of each key.
    let mut next = IndexMap::new(alloc);
    let mut arrivals = vec![in alloc; None; entries.len()]?;
    let mut row = entries.len();
    while row > 0 {
        row -= 1;
        let entry = &entries[row];
        arrivals[row] = find_take(entry, &next);
        note_take(alloc, row, entry, &mut next)?;
    }
    Ok(arrivals)
}

/// The row of the take of the message that an entry puts.
fn find_take(entry: &Entry, next: &IndexMap<Key, usize>) -> Option<usize>
    ensures { result ≡ found_by (get key_eq next.now) entry.now }
{
    match entry {
        Entry::Put { key, .. } => next.get(key).copied(),
        _ => None,
    }
}

/// Notes that the entry in this row is the next take of its key, where it is a take.
fn note_take(
    alloc: Global,
    row: usize,
    entry: &Entry,
    next: &mut IndexMap<Key, usize>,
) -> Result<(), Memory>
    ensures { OnOk result ((key : Key) → get key_eq next.new key
        ≡ (if takes key entry.now then Some row else get key_eq next.old key)) }
{
    match entry {
        Entry::Take { key, .. } => {
            next.insert(key.copy(alloc)?, row)?;
            Ok(())
        }
        _ => Ok(()),
    }
}
