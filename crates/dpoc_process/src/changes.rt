//! What a step makes of the part that does it, in the boxes of the tree and in those that were
//! taken before.
//!
//! What is no longer needed is dropped by hand: a drop that is written is proved once, and one that
//! isn't anew in each arm, through all forms of a process.

ghost use Rattle.std.specs.Prelude.{◌≡◌, if◌then◌else◌};
ghost use Rattle.dioc_terms.specs.Processes.{process, letters, Tell, Gather};
ghost use Rattle.dpoc_process.specs.Changes.{replaced, changed, rest_of, branched, body_entered};
ghost use Rattle.dpoc_process.specs.KeptChanges.{part_change};
ghost use Rattle.process_steps.specs.Steps.{after, telling, gathering};

use crate::offered::{find, is_ended};
use dioc_terms::{Act, Items, Key, Messages, Proc, Role};
use std::mem;

/// What the part that does an act becomes.
#[derive(Drop)]
pub(crate) enum Change {
    /// This process in its place.
    Becomes(Proc),
    /// What is left to tell or to gather.
    Rest,
    /// The branch for the flag, after what is told first.
    Branches { first: Box<Proc>, flag: bool },
    /// A turn of a loop, and the loop again.
    Turns(Turn),
    /// The body of a scope, between what is told first and what follows.
    Enters(Entrance),
}

/// A turn of a loop: what is told first, the body, its end, and the boxes that the sequences need.
#[derive(Drop)]
pub(crate) struct Turn {
    pub first: Box<Proc>,
    pub body: Box<Proc>,
    pub last: Box<Proc>,
    pub again: Box<Proc>,
    pub rest: Box<Proc>,
    pub inner: Box<Proc>,
}

/// What stands before and after the body of a scope, and the box that the sequence needs.
#[derive(Drop)]
pub(crate) struct Entrance {
    pub first: Box<Proc>,
    pub last: Box<Proc>,
    pub inner: Box<Proc>,
}

/// The process with the part that does the act changed. It takes no memory.
pub(crate) fn replaced(me: &Role, act: &Act, proc: Proc, by: Change) -> Proc
    ensures { process result ≡ replaced me.now act.now (process proc) (part_change by) }
{
    match &proc {
        Proc::Seq(_, _) => {
            let (first, second) = proc.into_two();
            if is_ended(&first) {
                return replaced(me, act, Box::into_inner(second), by);
            }
            let (hole, part) = opened(first);
            let part = replaced(me, act, part, by);
            then(closed(hole, part), second)
        }
        Proc::Par(_, _) => {
            let (left, right) = proc.into_two();
            if find(me, act, &left).is_some() {
                let (hole, part) = opened(left);
                let part = replaced(me, act, part, by);
                return Proc::Par(closed(hole, part), right);
            }
            let (hole, part) = opened(right);
            let part = replaced(me, act, part, by);
            Proc::Par(left, closed(hole, part))
        }
        _ => changed(proc, by),
    }
}

/// What the part becomes.
fn changed(part: Proc, by: Change) -> Proc
    ensures { process result ≡ changed (part_change by) (process part) }
{
    match by {
        Change::Becomes(proc) => {
            drop(part);
            proc
        }
        Change::Rest => rest_of(part),
        Change::Branches { first, flag } => branched(first, flag, part),
        Change::Turns(turn) => turned(turn, part),
        Change::Enters(entrance) => entered(entrance, part),
    }
}

/// The first, and then the second.
pub(crate) fn then(first: Box<Proc>, second: Box<Proc>) -> Proc
    ensures { process result ≡ after (process first.value) (process second.value) }
{
    if is_ended(&first) {
        return Box::into_inner(second);
    }
    Proc::Seq(first, second)
}

/// The middle between the first and the last, with a box for the sequence inside.
pub(crate) fn within(first: Box<Proc>, middle: Box<Proc>, last: Box<Proc>, inner: Box<Proc>) -> Proc
    ensures { process result ≡ after (process first.value)
        (after (process middle.value) (process last.value)) }
{
    let rest = then(middle, last);
    then(first, closed(inner, rest))
}

/// The box, with nothing to do in it, and what was in it.
fn opened(at: Box<Proc>) -> (Box<Proc>, Proc)
    ensures { result.1 ≡ at.value }
{
    let mut hole = at;
    let part = mem::replace(&mut *hole, Proc::Skip);
    (hole, part)
}

/// The box with the process in it.
pub(crate) fn closed(hole: Box<Proc>, proc: Proc) -> Box<Proc>
    ensures { result.value ≡ proc }
{
    let mut filled = hole;
    drop(mem::replace(&mut *filled, proc));
    filled
}

/// What is left to tell or to gather.
fn rest_of(part: Proc) -> Proc
    ensures { process result ≡ rest_of (process part) }
{
    match &part {
        Proc::Tell { .. } => told(part.into_messages()),
        Proc::Gather { .. } => gathered(part.into_keys().into_vec()),
        _ => {
            drop(part);
            Proc::Skip
        }
    }
}

/// What is left once the first of these messages is sent.
fn told(messages: Messages) -> Proc
    ensures { process result ≡ rest_of (Tell (letters messages)) }
{
    match &messages {
        Messages::Nothing => {
            drop(messages);
            Proc::Skip
        }
        Messages::More(_, _, _) => telling(Box::into_inner(messages.into_rest())),
    }
}

/// Sends these messages.
pub(crate) fn telling(messages: Messages) -> Proc
    ensures { process result ≡ telling (letters messages) }
{
    match &messages {
        Messages::Nothing => {
            drop(messages);
            Proc::Skip
        }
        Messages::More(_, _, _) => Proc::Tell { messages },
    }
}

/// What is left once the message of the first of these keys is taken.
fn gathered(keys: Vec<Key>) -> Proc
    ensures { process result ≡ rest_of (Gather keys.items) }
{
    let mut left = keys;
    if left.is_empty() {
        return Proc::Skip;
    }
    let _taken = left.remove(0);
    gathering(left)
}

/// Takes the messages of these keys.
pub(crate) fn gathering(keys: Vec<Key>) -> Proc
    ensures { process result ≡ gathering keys.items }
{
    if keys.is_empty() {
        return Proc::Skip;
    }
    Proc::Gather {
        keys: Items::new(keys),
    }
}

/// The branch for the flag.
fn branched(first: Box<Proc>, flag: bool, part: Proc) -> Proc
    ensures { process result ≡ branched (process first.value) flag (process part) }
{
    match &part {
        Proc::IfLead { .. } | Proc::IfFollow { .. } => {
            let (yes, no) = part.into_two();
            branch(first, flag, yes, no)
        }
        _ => {
            drop((first, part));
            Proc::Skip
        }
    }
}

fn branch(first: Box<Proc>, flag: bool, yes: Box<Proc>, no: Box<Proc>) -> Proc
    ensures { process result ≡
        after (process first.value) (if flag then process yes.value else process no.value) }
{
    if flag {
        drop(no);
        return then(first, yes);
    }
    drop(yes);
    then(first, no)
}

/// A turn of the loop, and the loop again.
fn turned(turn: Turn, part: Proc) -> Proc
    ensures { process result ≡ after (process turn.first.value)
        (after (process turn.body.value) (after (process turn.last.value) (process part))) }
{
    let Turn {
        first,
        body,
        last,
        again,
        rest,
        inner,
    } = turn;
    let end = then(last, closed(again, part));
    within(first, body, closed(rest, end), inner)
}

/// The body of the scope, between what is told first and what follows.
fn entered(entrance: Entrance, part: Proc) -> Proc
    ensures { process result ≡
        body_entered (process entrance.first.value) (process entrance.last.value) (process part) }
{
    let Entrance { first, last, inner } = entrance;
    match &part {
        Proc::ScopeLead { .. } | Proc::ScopeFollow { .. } => {
            within(first, part.into_body(), last, inner)
        }
        _ => {
            drop(((first, last), (inner, part)));
            Proc::Skip
        }
    }
}
