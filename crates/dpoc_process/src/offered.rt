//! What a process offers, and the part of it that does an act.

ghost use Rattle.std.specs.Prelude.{◌≡◌, ◌++◌, ◌∷◌, [], true, IfOk, OnOk, option_map};
ghost use Rattle.std.specs.Option.{option_to_list};
ghost use Rattle.dioc_terms.specs.declared.entries.Act.TheVariants as acts;
ghost use Rattle.dioc_terms.specs.declared.processes.Tag.TheVariants as tags;
ghost use Rattle.dioc_terms.specs.Equality.{key_eq, tag_eq};
ghost use Rattle.dioc_terms.specs.Processes.{process, letters};
ghost use Rattle.dioc_terms.specs.Processes.{Tell, Gather};
ghost use Rattle.dpoc_process.specs.Acting.{acting, is_single};
ghost use Rattle.process_steps.specs.Steps.{ended, key, offers, is_offered};

use dioc_terms::{Act, Index, Key, Memory, Messages, Name, Proc, Role, Tag};
use std::alloc::Global;

/// Whether nothing is left to do.
pub fn is_ended(proc: &Proc) -> bool
    ensures { result ≡ ended (process proc.now) }
{
    match proc {
        Proc::Skip => true,
        Proc::Seq(left, right) | Proc::Par(left, right) => is_ended(left) && is_ended(right),
        Proc::Tell { messages } => matches!(messages, Messages::Nothing),
        Proc::Gather { keys } => keys.is_empty(),
        _ => false,
    }
}

/// The key of a message.
#[inline(always)]
pub fn key_of(alloc: Global, from: &Role, to: &Role, index: Index, tag: Tag) -> Result<Key, Memory>
    ensures { IfOk result (λ made. made ≡ key from.now to.now index tag) }
{
    Ok(Key {
        from: from.copy(alloc)?,
        to: to.copy(alloc)?,
        index,
        tag,
    })
}

/// The key of an operation's message.
pub fn operation(
    alloc: Global,
    from: &Role,
    to: &Role,
    index: Index,
    op: &Name,
) -> Result<Key, Memory>
    ensures { IfOk result (λ made. made ≡ key from.now to.now index (tags.Op op.now)) }
{
    let tag = Tag::Op(op.copy(alloc)?);
    key_of(alloc, from, to, index, tag)
}

/// The acts that the process offers, from left to right.
pub fn offers_of(alloc: Global, me: &Role, proc: &Proc) -> Result<Vec<Act>, Memory>
    ensures { IfOk result (λ acts. acts.items ≡ offers me.now (process proc.now)) }
{
    let mut acts = Vec::new(alloc);
    add_offers(alloc, me, proc, &mut acts)?;
    Ok(acts)
}

/// Adds the acts that the process offers, from left to right.
fn add_offers(alloc: Global, me: &Role, proc: &Proc, acts: &mut Vec<Act>) -> Result<(), Memory>
    ensures { OnOk result (acts.new.items ≡ acts.old.items ++ offers me.now (process proc.now)) }
{
    match proc {
        Proc::Seq(first, second) => {
            if is_ended(first) {
                return add_offers(alloc, me, second, acts);
            }
            add_offers(alloc, me, first, acts)
        }
        Proc::Par(left, right) => {
            add_offers(alloc, me, left, acts)?;
            add_offers(alloc, me, right, acts)
        }
        single => add_offer(alloc, me, single, acts),
    }
}

/// Adds the act of a part, where it offers one.
fn add_offer(alloc: Global, me: &Role, single: &Proc, acts: &mut Vec<Act>) -> Result<(), Memory>
    requires { is_single (process single.now) ≡ true }
    ensures { OnOk result (acts.new.items ≡ acts.old.items ++ offers me.now (process single.now)) }
{
    if let Some(act) = offer(alloc, me, single)? {
        acts.push(act)?;
    }
    Ok(())
}

/// The act that a part offers.
fn offer(alloc: Global, me: &Role, single: &Proc) -> Result<Option<Act>, Memory>
    requires { is_single (process single.now) ≡ true }
    ensures { IfOk result (λ offer. option_to_list offer ≡ offers me.now (process single.now)) }
{
    match single {
        Proc::Assign { index, .. } => Ok(Some(Act::Set(*index))),
        Proc::Read { index, .. } => Ok(Some(Act::Input(*index))),
        Proc::IfLead { index, .. } | Proc::WhileLead { index, .. } => Ok(Some(Act::Pick(*index))),
        Proc::ScopeLead { head, .. } => Ok(Some(Act::Scope(head.index))),
        Proc::Send { index, op, to, .. } => {
            let key = operation(alloc, me, to, *index, op)?;
            Ok(Some(Act::Put(key)))
        }
        Proc::Recv {
            index,
            op,
            from,
            ..
        } => {
            let key = operation(alloc, from, me, *index, op)?;
            Ok(Some(Act::Take(key)))
        }
        Proc::IfFollow { index, leader, .. } => {
            offer_of_take(alloc, leader, me, *index, Tag::Choice)
        }
        Proc::WhileFollow { index, leader, .. } => {
            offer_of_take(alloc, leader, me, *index, Tag::Go)
        }
        Proc::ScopeFollow { index, leader, .. } => {
            offer_of_take(alloc, leader, me, *index, Tag::Begin)
        }
        Proc::Tell { messages } => offer_of_tell(alloc, me, messages),
        Proc::Gather { keys } => offer_of_gather(alloc, me, keys.as_slice()),
        _ => Ok(None),
    }
}

/// The act that takes an auxiliary message.
pub fn offer_of_take(
    alloc: Global,
    from: &Role,
    to: &Role,
    index: Index,
    tag: Tag,
) -> Result<Option<Act>, Memory>
    ensures { IfOk result (λ offer. option_to_list offer
        ≡ acts.Take (key from.now to.now index tag) ∷ []) }
{
    let key = key_of(alloc, from, to, index, tag)?;
    Ok(Some(Act::Take(key)))
}

/// The act that sends the next of these messages.
pub fn offer_of_tell(alloc: Global, me: &Role, messages: &Messages) -> Result<Option<Act>, Memory>
    ensures { IfOk result (λ offer. option_to_list offer
        ≡ offers me.now (Tell (letters messages.now))) }
{
    match messages {
        Messages::Nothing => Ok(None),
        Messages::More(key, _, _) => Ok(Some(Act::Put(key.copy(alloc)?))),
    }
}

/// The act that takes the message of the next of these keys.
pub fn offer_of_gather(alloc: Global, me: &Role, keys: &[Key]) -> Result<Option<Act>, Memory>
    ensures { IfOk result (λ offer. option_to_list offer ≡ offers me.now (Gather keys.now)) }
{
    match keys {
        [] => Ok(None),
        [key, ..] => Ok(Some(Act::Take(key.copy(alloc)?))),
    }
}

/// The part of the process that does the act, neither a sequence nor a parallel.
pub fn find<'a>(me: &Role, act: &Act, proc: &'a Proc) -> Option<&'a Proc>
    ensures { option_map (λ part. process part.now) result
        ≡ acting me.now act.now (process proc.now) }
{
    match proc {
        Proc::Seq(first, second) => {
            if is_ended(first) {
                return find(me, act, second);
            }
            find(me, act, first)
        }
        Proc::Par(left, right) => match find(me, act, left) {
            Some(part) => Some(part),
            None => find(me, act, right),
        },
        single => {
            if does(me, act, single) {
                return Some(single);
            }
            None
        }
    }
}

/// Whether a part offers the act.
fn does(me: &Role, act: &Act, single: &Proc) -> bool
    requires { is_single (process single.now) ≡ true }
    ensures { result ≡ is_offered act.now (offers me.now (process single.now)) }
{
    match single {
        Proc::Assign { index, .. } => sets(act, *index),
        Proc::Read { index, .. } => reads(act, *index),
        Proc::IfLead { index, .. } | Proc::WhileLead { index, .. } => picks(act, *index),
        Proc::ScopeLead { head, .. } => chooses(act, head.index),
        Proc::Send { index, op, to, .. } => sends(act, me, to, *index, op),
        Proc::Recv {
            index,
            op,
            from,
            ..
        } => receives(act, from, me, *index, op),
        Proc::IfFollow { index, leader, .. } => takes(act, leader, me, *index, &Tag::Choice),
        Proc::WhileFollow { index, leader, .. } => takes(act, leader, me, *index, &Tag::Go),
        Proc::ScopeFollow { index, leader, .. } => takes(act, leader, me, *index, &Tag::Begin),
        Proc::Tell { messages } => tells(act, me, messages),
        Proc::Gather { keys } => gathers(act, me, keys.as_slice()),
        _ => false,
    }
}

pub fn sets(act: &Act, index: Index) -> bool
    ensures { result ≡ is_offered act.now (acts.Set index ∷ []) }
{
    match act {
        Act::Set(at) => *at == index,
        _ => false,
    }
}

pub fn reads(act: &Act, index: Index) -> bool
    ensures { result ≡ is_offered act.now (acts.Input index ∷ []) }
{
    match act {
        Act::Input(at) => *at == index,
        _ => false,
    }
}

pub fn picks(act: &Act, index: Index) -> bool
    ensures { result ≡ is_offered act.now (acts.Pick index ∷ []) }
{
    match act {
        Act::Pick(at) => *at == index,
        _ => false,
    }
}

pub fn chooses(act: &Act, index: Index) -> bool
    ensures { result ≡ is_offered act.now (acts.Scope index ∷ []) }
{
    match act {
        Act::Scope(at) => *at == index,
        _ => false,
    }
}

pub fn sends(act: &Act, from: &Role, to: &Role, index: Index, op: &Name) -> bool
    ensures { result ≡ is_offered act.now (acts.Put
        (key from.now to.now index (tags.Op op.now)) ∷ []) }
{
    match act {
        Act::Put(key) => is_operation(key, from, to, index, op),
        _ => false,
    }
}

pub fn receives(act: &Act, from: &Role, to: &Role, index: Index, op: &Name) -> bool
    ensures { result ≡ is_offered act.now (acts.Take
        (key from.now to.now index (tags.Op op.now)) ∷ []) }
{
    match act {
        Act::Take(key) => is_operation(key, from, to, index, op),
        _ => false,
    }
}

pub fn takes(act: &Act, from: &Role, to: &Role, index: Index, tag: &Tag) -> bool
    ensures { result ≡ is_offered act.now (acts.Take (key from.now to.now index tag.now) ∷ []) }
{
    match act {
        Act::Take(key) => {
            key.from == *from && key.to == *to && key.index == index && key.tag == *tag
        }
        _ => false,
    }
}

pub fn tells(act: &Act, me: &Role, messages: &Messages) -> bool
    ensures { result ≡ is_offered act.now (offers me.now (Tell (letters messages.now))) }
{
    match (messages, act) {
        (Messages::More(key, _, _), Act::Put(other)) => other == key,
        _ => false,
    }
}

pub fn gathers(act: &Act, me: &Role, keys: &[Key]) -> bool
    ensures { result ≡ is_offered act.now (offers me.now (Gather keys.now)) }
{
    match (keys, act) {
        ([key, ..], Act::Take(other)) => other == key,
        _ => false,
    }
}

/// Whether it is the key of the operation's message.
fn is_operation(found: &Key, from: &Role, to: &Role, index: Index, op: &Name) -> bool
    ensures { result ≡ key_eq found.now (key from.now to.now index (tags.Op op.now)) }
{
    found.from == *from && found.to == *to && found.index == index && is_tag_of(&found.tag, op)
}

fn is_tag_of(tag: &Tag, op: &Name) -> bool
    ensures { result ≡ tag_eq tag.now (tags.Op op.now) }
{
    match tag {
        Tag::Op(name) => name == op,
        _ => false,
    }
}
