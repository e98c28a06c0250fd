//! Each public call of a history, with values that were worked out by hand.

use crate::names::role;
use bundle_text::read_bundle;
use dioc_terms::{Entry, Role};
use std::alloc::Global;
use std::test::Fail;
use trace_book::History;

/// A bundle whose trace has the entries of the tests: those of `a` are 0 and 1, those of `b` 2, 3
/// and 4; 1 and 4 are auxiliary.
const BUNDLE: &[u8] = b"aioc { skip }
trace {
  put a -> b o#0.0 = 1
  put a -> b !choice#0.0 = true
  take a -> b o#0.0 x
  set x@b #0.1 = 1
  take a -> b !choice#0.0
  add k
}
";

fn history(alloc: Global, entries: &[Entry]) -> Result<History, Fail> {
    let mut history = History::new(alloc);
    fill(alloc, &mut history, entries)?;
    Ok(history)
}

fn fill(alloc: Global, history: &mut History, entries: &[Entry]) -> Result<(), Fail> {
    for entry in entries {
        history.reserve(1)?;
        let entry = entry.copy(alloc)?;
        history.push(entry);
    }
    Ok(())
}

/// Whether the history has these entries alone, in this order.
fn has_entries(history: &History, entries: &[Entry]) -> bool {
    for (number, entry) in entries.iter().enumerate() {
        if history.get(number as u64) != Some(entry) {
            return false;
        }
    }
    history.len() == 6
        && history.as_slice() == entries
        && history.get(6).is_none()
        && history.get(u64::MAX).is_none()
}

/// Whether the history of these entries has them.
fn keeps_entries(alloc: Global, entries: &[Entry]) -> Result<bool, Fail> {
    let history = history(alloc, entries)?;
    let told = has_entries(&history, entries);
    drop(history);
    Ok(told)
}

/// The same of the entries of the bundle.
fn keeps_all(alloc: Global) -> Result<bool, Fail> {
    let bundle = read_bundle(alloc, BUNDLE)?;
    let told = keeps_entries(alloc, bundle.trace.entries.as_slice());
    drop(bundle);
    told
}

#[test]
fn keeps_entries_in_order(rt: HostRuntime) -> Result<(), Fail> {
    let alloc = rt.alloc();
    assert!(rt; History::new(alloc).len() == 0);
    let told = keeps_all(alloc)?;
    assert!(rt; told);
    Ok(())
}

/// Whether the part has exactly the entries of these numbers, in this order.
fn is_part(part: &History, whole: &History, numbers: &[u64]) -> bool {
    let mut count = 0;
    for number in numbers {
        if part.get(count) != whole.get(*number) {
            return false;
        }
        count = count.saturating_add(1);
    }
    part.len() == count
}

/// Whether the visible entries are exactly those of these numbers.
fn has_visible(history: &History, numbers: &[u64]) -> Result<bool, Fail> {
    let part = history.visible()?;
    let count = numbers.len() as u64;
    let told = is_part(&part, history, numbers) && part.visible_len() == count;
    drop(part);
    Ok(told && history.visible_len() == count)
}

/// Whether the entries of the role of that letter are exactly those of these numbers.
fn has_of_role(
    alloc: Global,
    history: &History,
    letter: u8,
    numbers: &[u64],
) -> Result<bool, Fail> {
    let role = role(alloc, letter)?;
    let told = has_of(history, &role, numbers);
    drop(role);
    told
}

/// The same of the role.
fn has_of(history: &History, role: &Role, numbers: &[u64]) -> Result<bool, Fail> {
    let part = history.of_role(role)?;
    let told = is_part(&part, history, numbers);
    drop(part);
    Ok(told)
}

/// Whether the parts of the history are as they must be.
fn has_parts(alloc: Global, history: &History) -> Result<bool, Fail> {
    Ok(
        has_visible(history, &[0, 2, 3, 5])?
            && has_of_role(alloc, history, b'a', &[0, 1])?
            && has_of_role(alloc, history, b'b', &[2, 3, 4])?
            && has_of_role(alloc, history, b'c', &[])?,
    )
}

/// The history of the entries of the bundle.
fn whole(alloc: Global) -> Result<History, Fail> {
    let bundle = read_bundle(alloc, BUNDLE)?;
    let made = history(alloc, bundle.trace.entries.as_slice());
    drop(bundle);
    made
}

/// Whether its parts are as they must be.
fn finds_parts(alloc: Global) -> Result<bool, Fail> {
    let history = whole(alloc)?;
    let told = has_parts(alloc, &history);
    drop(history);
    told
}

#[test]
fn finds_the_visible_entries_and_those_of_a_role(rt: HostRuntime) -> Result<(), Fail> {
    let told = finds_parts(rt.alloc())?;
    assert!(rt; told);
    Ok(())
}
