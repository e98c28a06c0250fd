//! Room for another process in a place, where its act may put one there.

ghost use Rattle.std.specs.Prelude.{◌≡◌, ◌<◌, Box, List, IfOk, Some, false, length};
ghost use Rattle.std.specs.Global.{Global};
ghost use Rattle.dioc_terms.specs.declared.names.Role.{Role as RoleName};
ghost use Rattle.dioc_terms.specs.declared.processes.Tag.TheVariants as tags;
ghost use Rattle.flat_role.specs.declared.replacing.Room.{Room};
ghost use Rattle.dioc_terms.specs.Processes.{Done, Process, process};
ghost use Rattle.dpoc_process.specs.Growth.{follower_end, leader_end};
ghost use Rattle.flat_code.specs.Places.{op_process};
ghost use Rattle.flat_role.specs.Leaves.{IsNext, is_first};
ghost use Rattle.flat_role.specs.Replacing.{IsRoomFor, IsRoomWhen};
ghost use Rattle.process_steps.specs.Steps.{after, gather, gathering, tell};

use crate::leaves::Next;
use crate::marks::{State, Update};
use crate::replacing::{Follow, Lead, Room, What, telling, then};
use dioc_terms::{
    Index, Items, Key, Memory, Messages, Payload, Proc, Role, Tag, give_up, new_box, new_boxes,
};
use dpoc_process::makers::{keys_from, letters_to};
use flat_code::Op;
use std::alloc::Global;
use std::slice;
use std::snapshot::Snapshot;

/// Room for another process, where the first act of a place may put one there.
pub(crate) fn room_for(
    alloc: Global,
    me: &Role,
    next: Next<'_>,
) -> Result<Option<Box<Room>>, Memory>
    ensures { (R : Process) → IsNext me.now next.entry R →
        IfOk result (IsRoomWhen (is_first next.entry) me.now R) }
{
    match next {
        Next::Op(op) => room_of(alloc, me, op),
        _ => Ok(None),
    }
}

/// Room for another process in the place of an op, where its first act may put one there.
fn room_of(alloc: Global, me: &Role, op: &Op) -> Result<Option<Box<Room>>, Memory>
    ensures { (done : List Process) → IfOk result (IsRoomFor me.now (op_process done op.now)) }
{
    match op {
        Op::ScopeLead { .. } | Op::ScopeFollow { .. } | Op::Tell { .. } => {
            replaced_room(alloc, me, op)
        }
        _ => Ok(None),
    }
}

/// Room for another process in the place of a scope or of a tell.
// (Apart, since it is rare, and no other op is to make room for it.)
#[inline(never)]
fn replaced_room(alloc: Global, me: &Role, op: &Op) -> Result<Option<Box<Room>>, Memory>
    ensures { (done : List Process) → IfOk result (IsRoomFor me.now (op_process done op.now)) }
{
    match op {
        Op::ScopeLead { head, others, .. } => {
            let lead = led_room(alloc, me, head.index, others.as_slice())?;
            room(alloc, me, What::Leads(lead))
        }
        Op::ScopeFollow { index, leader, .. } => {
            let follow = followed_room(alloc, me, *index, leader)?;
            room(alloc, me, What::Follows(follow))
        }
        Op::Tell {
            messages: Messages::More(_, _, rest),
        } => {
            let left = new_box(alloc, rest.copy(alloc)?)?;
            room(alloc, me, What::Tells(left))
        }
        _ => Ok(None),
    }
}

/// Room for this, with an update in which nothing is left to do.
fn room(alloc: Global, me: &Role, what: What) -> Result<Option<Box<Room>>, Memory>
    ensures { IfOk result (λ room. (made : Box Room Global) × (room ≡ Some made)
        × (made.value.what ≡ what) × (made.value.me.value ≡ me.now)) }
{
    let nothing = Update {
        me: Snapshot::of(me),
        state: State::Came(Proc::Skip),
    };
    match new_box(alloc, nothing) {
        Ok(update) => {
            let room = Room {
                me: Snapshot::of(me),
                what,
                update,
            };
            Ok(Some(new_box(alloc, room)?))
        }
        Err(fault) => give_up(what, fault),
    }
}

/// A box for a process.
fn hole(alloc: Global) -> Result<Box<Proc>, Memory> {
    new_box(alloc, Proc::Skip)
}

/// Room for the leader's part of an update.
fn led_room(alloc: Global, me: &Role, index: Index, others: &[Role]) -> Result<Lead, Memory>
    ensures { IfOk result (λ lead. process lead.last.value
        ≡ leader_end me.now others.now index) }
{
    let last = led_end(alloc, me, index, others)?;
    Ok(Lead {
        first: hole(alloc)?,
        own: hole(alloc)?,
        last,
        inner: hole(alloc)?,
    })
}

/// What the leader of a scope does after its part: it takes the ends of the others, and tells them
/// the release.
fn led_end(alloc: Global, me: &Role, index: Index, others: &[Role]) -> Result<Box<Proc>, Memory>
    ensures { IfOk result (λ end. process end.value ≡ leader_end me.now others.now index) }
{
    let ends = gathered(alloc, me, others, index)?;
    match told(alloc, me, others, index) {
        Ok(release) => joined(alloc, ends, release),
        Err(fault) => give_up(ends, fault),
    }
}

/// Takes the ends of these roles, one by one.
fn gathered(alloc: Global, me: &Role, others: &[Role], index: Index) -> Result<Proc, Memory>
    ensures { IfOk result (λ proc. process proc ≡ gather me.now others.now index tags.End) }
{
    let keys = keys_from(alloc, me, others, index, &Tag::End)?;
    Ok(gathering(keys))
}

/// Takes the messages of these keys.
fn gathering(keys: Vec<Key>) -> Proc
    ensures { process result ≡ gathering keys.items }
{
    if keys.is_empty() {
        return Proc::Skip;
    }
    Proc::Gather {
        keys: Items::new(keys),
    }
}

/// Tells each of these roles the release, one by one.
fn told(alloc: Global, me: &Role, others: &[Role], index: Index) -> Result<Proc, Memory>
    ensures { IfOk result (λ proc. process proc
        ≡ tell me.now others.now index tags.Out (λ q. Done)) }
{
    let messages = letters_to(alloc, me, others, index, &Tag::Out, &Payload::Done)?;
    Ok(telling(messages))
}

/// The first, and then the second, in boxes.
fn joined(alloc: Global, first: Proc, second: Proc) -> Result<Box<Proc>, Memory>
    ensures { IfOk result (λ whole. process whole.value ≡ after (process first) (process second)) }
{
    let (first, second) = new_boxes(alloc, first, second)?;
    new_box(alloc, then(first, second))
}

/// Room for another role's part of an update.
fn followed_room(alloc: Global, me: &Role, index: Index, leader: &Role) -> Result<Follow, Memory>
    ensures { IfOk result (λ follow. process follow.last.value
        ≡ follower_end me.now leader.now index) }
{
    let last = followed_end(alloc, me, index, leader)?;
    Ok(Follow {
        own: hole(alloc)?,
        last,
    })
}

/// What another role of a scope does after its part: it puts its end, and takes the release.
fn followed_end(alloc: Global, me: &Role, index: Index, leader: &Role) -> Result<Box<Proc>, Memory>
    ensures { IfOk result (λ end. process end.value ≡ follower_end me.now leader.now index) }
{
    let leaders = slice::from_ref(leader);
    let messages = letters_to(alloc, me, leaders, index, &Tag::End, &Payload::Done)?;
    let end = new_box(alloc, Proc::Tell { messages })?;
    let keys = keys_from(alloc, me, leaders, index, &Tag::Out)?;
    let release = new_box(
        alloc,
        Proc::Gather {
            keys: Items::new(keys),
        },
    )?;
    new_box(alloc, Proc::Seq(end, release))
}
