//! What no contract sees: when the parts of updates are linked to the code; and that roles over
//! flat code answer where memory is ample, beside roles over trees.

mod draws;
mod lists;
mod pairs;
mod tasks;
mod turns;

use crate::flat_turns::draws::{Draw, Draws};
use crate::flat_turns::pairs::{Counts, turns_alike};
use crate::flat_turns::tasks::Task;
use crate::flat_turns::turns::{begun, turn};
use dioc_terms::{Act, Memory};
use dpoc_process::Runs;
use flat_role::FlatRole;
use std::alloc::Global;
use std::test::Fail;

/// How many ops a role has, those of its update among them, when it is prepared, and when it has
/// advanced, at each of so many turns by the first act that it offers.
fn lengths(alloc: Global, task: &Task, turns: u32) -> Result<Vec<(usize, usize)>, Memory> {
    let mut flat: FlatRole = begun(alloc, task)?;
    let mut lengths = Vec::new(alloc);
    let added = add_lengths(alloc, task, turns, &mut flat, &mut lengths);
    drop(flat);
    added?;
    Ok(lengths)
}

/// The same, added to a list.
fn add_lengths(
    alloc: Global,
    task: &Task,
    turns: u32,
    flat: &mut FlatRole,
    lengths: &mut Vec<(usize, usize)>,
) -> Result<(), Memory> {
    for number in 0..turns {
        let acts = flat.acts(alloc)?;
        let Some(act) = acts.as_slice().first() else {
            return Ok(());
        };
        let found = turn_lengths(alloc, task, number, flat, act);
        lengths.push(found)?;
    }
    Ok(())
}

/// The same of one turn, by this act.
fn turn_lengths(
    alloc: Global,
    task: &Task,
    number: u32,
    flat: &mut FlatRole,
    act: &Act,
) -> (usize, usize) {
    drop(flat.prepare(alloc, act));
    let prepared = flat.code_len();
    drop(turn(alloc, task, flat, act, Draw::of_turn(number)));
    (prepared, flat.code_len())
}

/// The lengths of five turns of a role `b` that gets a part of an update.
fn lengths_of_part(alloc: Global) -> Result<Vec<(usize, usize)>, Fail> {
    let bundle = b"aioc { scope @a { x@b = 1 } }";
    let update = b"aioc { while true @b { x@b = 2 } }";
    let task = Task::read(alloc, bundle, update, b'b')?;
    let found = lengths(alloc, &task, 5);
    drop(task);
    Ok(found?)
}

#[test]
fn a_part_is_compiled_once(rt: HostRuntime) -> Result<(), Fail> {
    let found = lengths_of_part(rt.alloc())?;
    // The scope has two ops. The part has two, what follows it three, and a sequence holds both.
    let want = [(2, 2), (8, 8), (8, 8), (8, 8), (8, 8)];
    assert!(rt; found.as_slice() == want.as_slice());
    Ok(())
}

/// The turns of the role of that letter in a bundle with each form, whose scope is replaced, each
/// turn by another of the acts that it offers.
fn turns_of_role(alloc: Global, letter: u8) -> Result<Option<Counts>, Fail> {
    let task = Task::of_forms(alloc, letter)?;
    let mut draws = Draws::Ordered(0);
    let found = turns_alike(alloc, &task, &mut draws, 100);
    drop(task);
    Ok(found?)
}

#[test]
fn roles_are_alike(rt: HostRuntime) -> Result<(), Fail> {
    for (letter, turns) in [(b'a', 16), (b'b', 23)] {
        let found = turns_of_role(rt.alloc(), letter)?;
        assert!(rt; found == Some(Counts { turns, updates: 1 }));
    }
    Ok(())
}
