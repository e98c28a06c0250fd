//! A role over flat code beside the same role over a tree, turn by turn.

use crate::flat_turns::draws::{Draw, Draws};
use crate::flat_turns::tasks::Task;
use crate::flat_turns::turns::{begun, is_update, turn};
use dioc_terms::{Act, Entry, Memory, Name, Payload, ScopeHead, Store, give_up};
use dpoc_process::{PrepareFault, Prepared, RoleState, Runs};
use flat_role::FlatRole;
use std::alloc::Global;

/// The same role in both forms.
#[derive(Drop)]
pub struct Pair {
    flat: FlatRole,
    tree: RoleState,
}

/// How many turns were made, and in how many of them an update came.
#[derive(Clone, Copy, PartialEq, Eq)]
pub struct Counts {
    /// All turns.
    pub turns: u32,
    /// Those with an update.
    pub updates: u32,
}

/// What a turn of both shows.
#[derive(Clone, Copy)]
enum Turned {
    /// They do the same.
    Alike,
    /// They do the same, and an update came.
    Updated,
    /// They don't do the same.
    Other,
    /// Neither offers an act.
    Over,
}

/// Makes at most so many turns of a role with this task, in both forms side by side, each as it is
/// drawn, until it offers nothing. `None` where the two differ.
pub fn turns_alike(
    alloc: Global,
    task: &Task,
    draws: &mut Draws,
    most: u32,
) -> Result<Option<Counts>, Memory> {
    let mut pair = begun_pair(alloc, task)?;
    let found = count_turns(alloc, task, &mut pair, draws, most);
    drop(pair);
    found
}

/// Both before their first act.
fn begun_pair(alloc: Global, task: &Task) -> Result<Pair, Memory> {
    let flat: FlatRole = begun(alloc, task)?;
    match begun::<RoleState>(alloc, task) {
        Ok(tree) => Ok(Pair { flat, tree }),
        Err(fault) => give_up(flat, fault),
    }
}

/// The same of these two.
fn count_turns(
    alloc: Global,
    task: &Task,
    pair: &mut Pair,
    draws: &mut Draws,
    most: u32,
) -> Result<Option<Counts>, Memory> {
    let mut updates: u32 = 0;
    for turns in 0..most {
        let draw = draws.next();
        match next_turn(alloc, task, pair, draw)? {
            Turned::Alike => {}
            Turned::Updated => updates = updates.saturating_add(1),
            Turned::Other => return Ok(None),
            Turned::Over => return Ok(Some(Counts { turns, updates })),
        }
    }
    Ok(Some(Counts {
        turns: most,
        updates,
    }))
}

/// A turn of both by one of the acts that they offer.
fn next_turn(alloc: Global, task: &Task, pair: &mut Pair, draw: Draw) -> Result<Turned, Memory> {
    let acts = pair.flat.acts(alloc)?;
    if !stand_alike(alloc, pair, acts.as_slice())? {
        return Ok(Turned::Other);
    }
    let count = acts.len();
    if count == 0 {
        return Ok(Turned::Over);
    }
    let act = &acts[draw.act % count];
    if !refuse_alike(alloc, pair, acts.as_slice(), act)? {
        return Ok(Turned::Other);
    }
    match is_same_turn(alloc, task, pair, act, draw)? {
        true => Ok(after(act, draw)),
        false => Ok(Turned::Other),
    }
}

/// What both show where they do the same.
fn after(act: &Act, draw: Draw) -> Turned {
    match is_update(act, draw) {
        true => Turned::Updated,
        false => Turned::Alike,
    }
}

/// Whether the tree offers these acts too, and both say the same of whether they are done.
fn stand_alike(alloc: Global, pair: &Pair, acts: &[Act]) -> Result<bool, Memory> {
    let others = pair.tree.acts(alloc)?;
    Ok(acts == others.as_slice() && pair.flat.is_done() == pair.tree.is_done())
}

/// Whether both refuse another kind of act at the place of one of these acts, where it isn't one of
/// them.
fn refuse_alike(alloc: Global, pair: &mut Pair, acts: &[Act], act: &Act) -> Result<bool, Memory> {
    let other = of_other_kind(alloc, act)?;
    let offered = acts.contains(&other);
    let answers = are_prepared(alloc, pair, &other);
    drop(other);
    Ok(answers? == (offered, offered))
}

/// An act of another kind at the same place.
fn of_other_kind(alloc: Global, act: &Act) -> Result<Act, Memory> {
    match act {
        Act::Put(key) => Ok(Act::Take(key.copy(alloc)?)),
        Act::Take(key) => Ok(Act::Put(key.copy(alloc)?)),
        Act::Set(index) => Ok(Act::Input(*index)),
        Act::Input(index) => Ok(Act::Pick(*index)),
        Act::Pick(index) => Ok(Act::Scope(*index)),
        Act::Scope(index) => Ok(Act::Set(*index)),
    }
}

/// Whether each of the two is prepared for an act.
fn are_prepared(alloc: Global, pair: &mut Pair, act: &Act) -> Result<(bool, bool), Memory> {
    let flat = is_prepared(alloc, &mut pair.flat, act)?;
    let tree = is_prepared(alloc, &mut pair.tree, act)?;
    Ok((flat, tree))
}

/// Whether a role is prepared for an act; else it refuses it.
fn is_prepared<R: Runs>(alloc: Global, state: &mut R, act: &Act) -> Result<bool, Memory> {
    match state.prepare(alloc, act) {
        Ok(prepared) => {
            drop(prepared);
            Ok(true)
        }
        Err(PrepareFault::NoAct) => Ok(false),
        Err(PrepareFault::Memory) => Err(Memory),
    }
}

/// A turn of both by the same act. Whether both showed the same, and have the same value where its
/// entry sets one.
fn is_same_turn(
    alloc: Global,
    task: &Task,
    pair: &mut Pair,
    act: &Act,
    draw: Draw,
) -> Result<bool, Memory> {
    let shown = shown_by(alloc, task, &mut pair.flat, act, draw)?;
    match shown_by(alloc, task, &mut pair.tree, act, draw) {
        Ok(other) => {
            let same = are_alike(&shown, &other, pair.flat.store(), pair.tree.store());
            drop((shown, other));
            Ok(same)
        }
        Err(fault) => give_up(shown, fault),
    }
}

/// What a role shows of a turn by an act, `None` where it refuses it.
fn shown_by<R: Runs>(
    alloc: Global,
    task: &Task,
    state: &mut R,
    act: &Act,
    draw: Draw,
) -> Result<Option<Prepared>, Memory> {
    match turn(alloc, task, state, act, draw) {
        Ok(shown) => Ok(Some(shown)),
        Err(PrepareFault::NoAct) => Ok(None),
        Err(PrepareFault::Memory) => Err(Memory),
    }
}

/// Whether both show the same, and these stores have the same value where the entry sets one.
fn are_alike(
    shown: &Option<Prepared>,
    other: &Option<Prepared>,
    first: &Store,
    second: &Store,
) -> bool {
    match (shown, other) {
        (Some(shown), Some(other)) => {
            is_same_act(shown, other) && is_same_value(first, second, &shown.entry)
        }
        _ => false,
    }
}

/// Whether the same is shown of an act.
fn is_same_act(shown: &Prepared, other: &Prepared) -> bool {
    shown.act == other.act
        && shown.entry == other.entry
        && is_same_head(&shown.head, &other.head)
        && is_same_payload(&shown.payload, &other.payload)
}

/// Whether two scopes show the book the same.
fn is_same_head(shown: &Option<ScopeHead>, other: &Option<ScopeHead>) -> bool {
    match (shown, other) {
        (Some(shown), Some(other)) => {
            shown.index == other.index
                && shown.leader == other.leader
                && shown.roles.as_slice() == other.roles.as_slice()
                && shown.props.as_slice() == other.props.as_slice()
                && shown.level == other.level
        }
        (None, None) => true,
        _ => false,
    }
}

/// Whether two messages carry the same, but for the processes of parts.
fn is_same_payload(shown: &Option<Payload>, other: &Option<Payload>) -> bool {
    match (shown, other) {
        (Some(Payload::Val(shown)), Some(Payload::Val(other))) => shown == other,
        (Some(Payload::Flag(shown)), Some(Payload::Flag(other))) => shown == other,
        (Some(Payload::Part { epoch: shown, .. }), Some(Payload::Part { epoch: other, .. })) =>
            shown == other,
        (Some(Payload::Keep), Some(Payload::Keep))
        | (Some(Payload::Done), Some(Payload::Done))
        | (None, None) => true,
        _ => false,
    }
}

/// The variable that an entry sets.
fn variable(entry: &Option<Entry>) -> Option<&Name> {
    match entry {
        Some(Entry::Take { var: Some(var), .. }) => Some(var),
        Some(Entry::Set { var, .. }) => Some(var),
        Some(Entry::Input { var, .. }) => Some(var),
        _ => None,
    }
}

/// Whether two stores have the same value there.
fn is_same_value(first: &Store, second: &Store, entry: &Option<Entry>) -> bool {
    match variable(entry) {
        Some(var) => first.get(var) == second.get(var),
        None => true,
    }
}
