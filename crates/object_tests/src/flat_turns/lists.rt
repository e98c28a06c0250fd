//! Random lists of acts, of the roles of made bundles and of a bundle with each form. There are
//! more than ten thousand, in seven tests, so that each ends soon where each access is checked too.

ghost use Rattle.std.specs.Prelude.{◌≤◌, All};
ghost use Rattle.dioc_terms.specs.Bundles.{IsFormed};
ghost use Rattle.dioc_terms.specs.Plain.{plain};

use crate::flat_turns::draws::Draws;
use crate::flat_turns::pairs::{Counts, turns_alike};
use crate::flat_turns::tasks::Task;
use crate::made::bundles;
use dioc_terms::{Bundle, Memory};
use std::alloc::Global;
use std::test::Fail;

/// How many lists a role with one task has.
const LISTS: u32 = 20;

/// How many acts a list has at most.
const MOST: u32 = 60;

/// How many lists were run.
#[derive(Clone, Copy)]
struct Tally {
    /// All lists.
    lists: u32,
    /// Those of which a role over flat code did another thing than the one over a tree.
    unlike: u32,
    /// Those with an update.
    updated: u32,
}

impl Tally {
    /// No list.
    fn new() -> Tally {
        Tally {
            lists: 0,
            unlike: 0,
            updated: 0,
        }
    }

    /// Adds a list.
    fn add(&mut self, found: Option<Counts>) {
        self.lists = self.lists.saturating_add(1);
        match found {
            Some(counts) => {
                if counts.updates > 0 {
                    self.updated = self.updated.saturating_add(1);
                }
            }
            None => self.unlike = self.unlike.saturating_add(1),
        }
    }

    /// Whether there are so many lists, all alike, and at least so many with an update.
    fn is_whole(&self, lists: u32, updated: u32) -> bool {
        self.lists == lists && self.unlike == 0 && self.updated >= updated
    }
}

/// The lists of a role with this task.
fn lists_of_task(
    alloc: Global,
    task: &Task,
    draws: &mut Draws,
    tally: &mut Tally,
) -> Result<(), Memory> {
    for _list in 0..LISTS {
        let found = turns_alike(alloc, task, draws, MOST)?;
        tally.add(found);
    }
    Ok(())
}

/// Fails unless the lists of ten programs, of each of the eight roles of each, from the program of
/// that number on, are alike, and some have an update.
fn try_programs(alloc: Global, first: u32) -> Result<(), Fail>
    requires { first ≤ 1000 }
{
    let mut tally = Tally::new();
    for number in first..first + 10 {
        lists_of_program(alloc, number, &mut tally)?;
    }
    if tally.is_whole(1600, 100) {
        Ok(())
    } else {
        Err(Fail::new("the lists are not alike"))
    }
}

/// The lists of the program of that number. A role has its parts of one, two or three bundles side
/// by side.
fn lists_of_program(alloc: Global, number: u32, tally: &mut Tally) -> Result<(), Memory> {
    let seed = u64::from(number) * 1000;
    let program = bundles(alloc, seed, 1 + number % 2, 1 + number % 3)?;
    let done = lists_of_bundles(alloc, number, program.as_slice(), tally);
    drop(program);
    done
}

/// The lists of a program of these bundles. Its updates have one or two bundles of other numbers.
fn lists_of_bundles(
    alloc: Global,
    number: u32,
    program: &[Bundle],
    tally: &mut Tally,
) -> Result<(), Memory> {
    let seed = u64::from(number) * 1000 + 500;
    let updates = bundles(alloc, seed, 1, 1 + number % 2)?;
    let done = lists_of_cast(alloc, seed, program, updates.as_slice(), tally);
    drop(updates);
    done
}

/// The lists of each role of the first bundle's cast, which is that of all, drawn from this seed.
fn lists_of_cast(
    alloc: Global,
    seed: u64,
    program: &[Bundle],
    updates: &[Bundle],
    tally: &mut Tally,
) -> Result<(), Memory>
    requires { All (λ b. IsFormed (plain b)) updates.now }
{
    let Some(bundle) = program.first() else {
        return Ok(());
    };
    let mut draws = Draws::Random(seed);
    for role in bundle.cast.as_slice() {
        let task = Task::new(alloc, program, updates, role)?;
        let done = lists_of_task(alloc, &task, &mut draws, tally);
        drop(task);
        done?;
    }
    Ok(())
}

#[test]
fn programs_from_0_on_are_alike(rt: HostRuntime) -> Result<(), Fail> {
    try_programs(rt.alloc(), 0)
}

#[test]
fn programs_from_10_on_are_alike(rt: HostRuntime) -> Result<(), Fail> {
    try_programs(rt.alloc(), 10)
}

#[test]
fn programs_from_20_on_are_alike(rt: HostRuntime) -> Result<(), Fail> {
    try_programs(rt.alloc(), 20)
}

#[test]
fn programs_from_30_on_are_alike(rt: HostRuntime) -> Result<(), Fail> {
    try_programs(rt.alloc(), 30)
}

#[test]
fn programs_from_40_on_are_alike(rt: HostRuntime) -> Result<(), Fail> {
    try_programs(rt.alloc(), 40)
}

#[test]
fn programs_from_50_on_are_alike(rt: HostRuntime) -> Result<(), Fail> {
    try_programs(rt.alloc(), 50)
}

/// The lists of the role of that letter in a bundle with each form, which reads an input, drawn
/// from so many seeds.
fn lists_of_forms(alloc: Global, letter: u8, seeds: u32, tally: &mut Tally) -> Result<(), Fail> {
    let task = Task::of_forms(alloc, letter)?;
    let done = lists_of_seeds(alloc, &task, seeds, tally);
    drop(task);
    Ok(done?)
}

/// The lists of a role with this task, drawn from so many seeds.
fn lists_of_seeds(alloc: Global, task: &Task, seeds: u32, tally: &mut Tally) -> Result<(), Memory> {
    for seed in 0..seeds {
        let mut draws = Draws::Random(u64::from(seed));
        lists_of_task(alloc, task, &mut draws, tally)?;
    }
    Ok(())
}

#[test]
fn roles_with_each_form_are_alike(rt: HostRuntime) -> Result<(), Fail> {
    let mut tally = Tally::new();
    lists_of_forms(rt.alloc(), b'a', 25, &mut tally)?;
    lists_of_forms(rt.alloc(), b'b', 25, &mut tally)?;
    assert!(rt; tally.is_whole(1000, 100));
    Ok(())
}
