//! Processes that a step makes anew, and boxes for those that it moves.

ghost use Rattle.std.specs.Prelude.{◌≡◌, ◌∷◌, [], IfOk, map};
ghost use Rattle.dioc_terms.specs.declared.processes.Tag.TheVariants as tags;
ghost use Rattle.dioc_terms.specs.Processes.{process, letters, load, Gather, Done, Flag, More};
ghost use Rattle.dpoc_process.specs.Growth.{leader_end, follower_end};
ghost use Rattle.process_steps.specs.Steps.{after, key, letters_to, tell, gather, send_one};

use crate::changes::{gathering, telling, then};
use crate::offered::key_of;
use dioc_terms::{
    Index, Items, Key, Memory, Messages, Payload, Proc, Role, Tag, give_up, new_box, new_boxes,
};
use std::alloc::Global;

/// A box for a process that a step moves.
pub(crate) fn hole(alloc: Global) -> Result<Box<Proc>, Memory> {
    new_box(alloc, Proc::Skip)
}

/// A copy of the process in a box.
pub(crate) fn boxed_copy(alloc: Global, proc: &Proc) -> Result<Box<Proc>, Memory>
    ensures { IfOk result (λ copy. process copy.value ≡ process proc.now) }
{
    new_box(alloc, proc.copy(alloc)?)
}

/// Tells each of these roles the same, one by one.
pub(crate) fn tell(
    alloc: Global,
    me: &Role,
    others: &[Role],
    index: Index,
    tag: &Tag,
    carried: &Payload,
) -> Result<Proc, Memory>
    ensures { IfOk result (λ proc. process proc ≡ tell me.now others.now index tag.now
        (λ q. load carried.now)) }
{
    let messages = letters_to(alloc, me, others, index, tag, carried)?;
    Ok(telling(messages))
}

/// Tells each of these roles the flag, one by one.
pub(crate) fn tell_flag(
    alloc: Global,
    me: &Role,
    others: &[Role],
    index: Index,
    tag: &Tag,
    flag: bool,
) -> Result<Proc, Memory>
    ensures { IfOk result (λ proc. process proc ≡ tell me.now others.now index tag.now
        (λ q. Flag flag)) }
{
    let carried = Payload::Flag(flag);
    let told = tell(alloc, me, others, index, tag, &carried);
    drop(carried);
    told
}

/// The same message to each of these roles.
pub fn letters_to(
    alloc: Global,
    me: &Role,
    others: &[Role],
    index: Index,
    tag: &Tag,
    carried: &Payload,
) -> Result<Messages, Memory>
    ensures { IfOk result (λ messages.
        letters messages ≡ letters_to me.now others.now index tag.now (λ q. load carried.now)) }
{
    match others {
        [] => Ok(Messages::Nothing),
        [other, rest @ ..] => {
            let rest = letters_to(alloc, me, rest, index, tag, carried)?;
            match letter(alloc, me, other, index, tag, carried) {
                Ok((key, payload)) => more(alloc, key, payload, rest),
                Err(fault) => give_up(rest, fault),
            }
        }
    }
}

/// The key and the payload of one message.
fn letter(
    alloc: Global,
    me: &Role,
    other: &Role,
    index: Index,
    tag: &Tag,
    carried: &Payload,
) -> Result<(Key, Payload), Memory>
    ensures key { IfOk result (λ made. made.0 ≡ key me.now other.now index tag.now) }
    ensures payload { IfOk result (λ made. load made.1 ≡ load carried.now) }
{
    let key = key_with(alloc, me, other, index, tag)?;
    match carried.copy(alloc) {
        Ok(payload) => Ok((key, payload)),
        Err(fault) => give_up(key, fault),
    }
}

/// The key of a message, with a copy of the tag.
fn key_with(alloc: Global, from: &Role, to: &Role, index: Index, tag: &Tag) -> Result<Key, Memory>
    ensures { IfOk result (λ made. made ≡ key from.now to.now index tag.now) }
{
    let tag = tag.copy(alloc)?;
    key_of(alloc, from, to, index, tag)
}

/// The message, and those after it.
pub fn more(alloc: Global, key: Key, payload: Payload, rest: Messages) -> Result<Messages, Memory>
    ensures { IfOk result (λ messages. letters messages ≡ More key (load payload) (letters rest)) }
{
    match new_boxes(alloc, payload, rest) {
        Ok((payload, rest)) => Ok(Messages::More(key, payload, rest)),
        Err(fault) => give_up(key, fault),
    }
}

/// Takes a message of each of these roles, one by one.
pub(crate) fn gather(
    alloc: Global,
    me: &Role,
    others: &[Role],
    index: Index,
    tag: &Tag,
) -> Result<Proc, Memory>
    ensures { IfOk result (λ proc. process proc ≡ gather me.now others.now index tag.now) }
{
    let keys = keys_from(alloc, me, others, index, tag)?;
    Ok(gathering(keys))
}

/// The keys of the messages that these roles send.
pub fn keys_from(
    alloc: Global,
    me: &Role,
    others: &[Role],
    index: Index,
    tag: &Tag,
) -> Result<Vec<Key>, Memory>
    ensures { IfOk result (λ keys. keys.items ≡ map
        (λ other. key other me.now index tag.now) others.now) }
{
    let mut keys = Vec::with_capacity(alloc, others.len())?;
    for other in others {
        keys.push_reserved(key_with(alloc, other, me, index, tag)?);
    }
    Ok(keys)
}

/// Sends one message that carries nothing but its tag.
pub(crate) fn send_one(
    alloc: Global,
    from: &Role,
    to: &Role,
    index: Index,
    tag: Tag,
) -> Result<Proc, Memory>
    ensures { IfOk result (λ proc. process proc ≡ send_one (key from.now to.now index tag) Done) }
{
    let key = key_of(alloc, from, to, index, tag)?;
    let messages = more(alloc, key, Payload::Done, Messages::Nothing)?;
    Ok(Proc::Tell { messages })
}

/// Takes the release of a scope.
fn take_release(alloc: Global, me: &Role, leader: &Role, index: Index) -> Result<Proc, Memory>
    ensures { IfOk result (λ proc. process proc ≡ Gather
        (key leader.now me.now index tags.Out ∷ [])) }
{
    let mut keys = Vec::with_capacity(alloc, 1)?;
    keys.push_reserved(key_of(alloc, leader, me, index, Tag::Out)?);
    Ok(Proc::Gather {
        keys: Items::new(keys),
    })
}

/// What the leader of a scope does after its part: it takes the ends of the others, and tells them
/// the release.
pub(crate) fn leader_end(
    alloc: Global,
    me: &Role,
    others: &[Role],
    index: Index,
) -> Result<Box<Proc>, Memory>
    ensures { IfOk result (λ end. process end.value ≡ leader_end me.now others.now index) }
{
    let ends = gather(alloc, me, others, index, &Tag::End)?;
    match tell(alloc, me, others, index, &Tag::Out, &Payload::Done) {
        Ok(release) => joined(alloc, ends, release),
        Err(fault) => give_up(ends, fault),
    }
}

/// The first, and then the second, in boxes.
fn joined(alloc: Global, first: Proc, second: Proc) -> Result<Box<Proc>, Memory>
    ensures { IfOk result (λ whole. process whole.value ≡ after (process first) (process second)) }
{
    let (first, second) = new_boxes(alloc, first, second)?;
    new_box(alloc, then(first, second))
}

/// What another role of a scope does after its part: it puts its end, and takes the release.
pub(crate) fn follower_end(
    alloc: Global,
    me: &Role,
    leader: &Role,
    index: Index,
) -> Result<Box<Proc>, Memory>
    ensures { IfOk result (λ end. process end.value ≡ follower_end me.now leader.now index) }
{
    let end = new_box(alloc, send_one(alloc, me, leader, index, Tag::End)?)?;
    let release = new_box(alloc, take_release(alloc, me, leader, index)?)?;
    new_box(alloc, Proc::Seq(end, release))
}
