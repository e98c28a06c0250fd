//! What is shown of an act before it is done.
//!
//! What is shown is large. So it is made of small pieces, each by what is next.

ghost use Rattle.std.specs.Prelude.{◌≡◌, List, None, Some, IfOk, option_map};
ghost use Rattle.dioc_terms.specs.declared.entries.Entry.TheVariants as entries;
ghost use Rattle.dioc_terms.specs.declared.names.Role.{Role as RoleName};
ghost use Rattle.dioc_terms.specs.declared.processes.Tag.TheVariants as tags;
ghost use Rattle.dioc_terms.specs.Processes.{Process, Tell, Val, letters, load, noted};
ghost use Rattle.dpoc_process.specs.Acting.{lead_head, lead_of};
ghost use Rattle.dpoc_process.specs.Growth.{entry_at};
ghost use Rattle.dpoc_process.specs.Shows.{boxed_head, boxed_process, process_in};
ghost use Rattle.flat_code.specs.Places.{op_process};
ghost use Rattle.flat_role.specs.Leaves.{IsNext, load_of, process_brought, tag_of};
ghost use Rattle.process_steps.specs.Steps.{key};

use crate::leaves::{Next, Sign};
use dioc_terms::{
    Entry, Index, Memory, Messages, Name, Note, Payload, Proc, Role, ScopeHead, Tag, Value, new_box,
};
use dpoc_process::growth::is_true;
use dpoc_process::offered::{key_of, operation};
use dpoc_process::prepared::{gather_entry, input_entry, pick_entry, set_entry, tell_entry};
use flat_code::Op;
use std::alloc::Global;

/// What is known of the entry of what is next: all of it, but for a scope, whose choice isn't known
/// yet.
pub(crate) fn entry_for(
    alloc: Global,
    me: &Role,
    value: &Value,
    next: Next<'_>,
) -> Result<Option<Entry>, Memory>
    ensures { (R : Process) → IsNext me.now next.entry R →
        IfOk result (λ entry. entry ≡ entry_at me.now value.now R) }
{
    match next {
        Next::Op(op) => entry_of(alloc, me, value, op),
        Next::Put { to, index, sign } => entry_of_put(alloc, me, to, index, sign),
        Next::Take { from, index, sign } => entry_of_take(alloc, from, me, index, sign.tag()),
        Next::Gather(keys) => gather_entry(alloc, me, value, keys),
        Next::Tell(messages) => tell_entry(alloc, me, value, messages),
        Next::Nothing => Ok(None),
    }
}

/// What is known of the entry of an op.
fn entry_of(alloc: Global, me: &Role, value: &Value, op: &Op) -> Result<Option<Entry>, Memory>
    ensures { IfOk result (λ entry. (done : List Process) →
        entry ≡ entry_at me.now value.now (op_process done op.now)) }
{
    match op {
        Op::Send { index, op, to, .. } => entry_of_send(alloc, me, to, *index, op, value),
        Op::Recv {
            index,
            op,
            from,
            var,
        } => entry_of_receive(alloc, from, me, *index, op, var),
        Op::Assign { index, var, .. } => set_entry(alloc, *index, me, var, value),
        Op::Read { index, var } => input_entry(alloc, *index, me, var, value),
        Op::IfLead { index, .. } | Op::WhileLead { index, .. } => {
            pick_entry(alloc, *index, me, is_true(value))
        }
        Op::IfFollow { index, leader, .. } => {
            entry_of_take(alloc, leader, me, *index, Tag::Choice)
        }
        Op::WhileFollow { index, leader, .. } => {
            entry_of_take(alloc, leader, me, *index, Tag::Go)
        }
        Op::ScopeFollow { index, leader, .. } => {
            entry_of_take(alloc, leader, me, *index, Tag::Begin)
        }
        Op::Tell { messages } => tell_entry(alloc, me, value, messages),
        Op::Gather { keys } => gather_entry(alloc, me, value, keys.as_slice()),
        _ => Ok(None),
    }
}

/// The entry of a send.
fn entry_of_send(
    alloc: Global,
    me: &Role,
    to: &Role,
    index: Index,
    op: &Name,
    value: &Value,
) -> Result<Option<Entry>, Memory>
    ensures { IfOk result (λ entry. entry ≡ Some (entries.Put
        (key me.now to.now index (tags.Op op.now)) (noted (Val value.now)))) }
{
    let key = operation(alloc, me, to, index, op)?;
    let note = Note::Val(value.copy(alloc)?);
    Ok(Some(Entry::Put { key, note }))
}

/// The entry of a receive.
fn entry_of_receive(
    alloc: Global,
    from: &Role,
    me: &Role,
    index: Index,
    op: &Name,
    var: &Name,
) -> Result<Option<Entry>, Memory>
    ensures { IfOk result (λ entry. entry ≡ Some (entries.Take
        (key from.now me.now index (tags.Op op.now)) (Some var.now))) }
{
    let key = operation(alloc, from, me, index, op)?;
    let var = Some(var.copy(alloc)?);
    Ok(Some(Entry::Take { key, var }))
}

/// The entry by which the role takes an auxiliary message of another.
pub(crate) fn entry_of_take(
    alloc: Global,
    from: &Role,
    me: &Role,
    index: Index,
    tag: Tag,
) -> Result<Option<Entry>, Memory>
    ensures { IfOk result (λ entry.
        entry ≡ Some (entries.Take (key from.now me.now index tag) None)) }
{
    let key = key_of(alloc, from, me, index, tag)?;
    Ok(Some(Entry::Take { key, var: None }))
}

/// The entry by which the role puts an auxiliary message.
pub(crate) fn entry_of_put(
    alloc: Global,
    me: &Role,
    to: &Role,
    index: Index,
    sign: Sign,
) -> Result<Option<Entry>, Memory>
    ensures { IfOk result (λ entry. entry ≡ Some (entries.Put
        (key me.now to.now index (tag_of sign)) (noted (load_of sign)))) }
{
    let key = key_of(alloc, me, to, index, sign.tag())?;
    Ok(Some(Entry::Put {
        key,
        note: sign.note(),
    }))
}

/// The process that the message of what is next brings, in a box.
pub(crate) fn part_for(alloc: Global, next: Next<'_>) -> Result<Option<Box<Proc>>, Memory>
    ensures { (me : RoleName) (R : Process) → IsNext me next.entry R →
        IfOk result (λ part. boxed_process part ≡ process_brought R) }
{
    match next {
        Next::Op(Op::Tell { messages }) => part_of_tell(alloc, messages),
        Next::Tell(messages) => part_of_tell(alloc, messages),
        _ => Ok(None),
    }
}

/// The process that the first of some messages brings, in a box.
#[inline(never)]
fn part_of_tell(alloc: Global, messages: &Messages) -> Result<Option<Box<Proc>>, Memory>
    ensures { IfOk result
        (λ part. boxed_process part ≡ process_brought (Tell (letters messages.now))) }
{
    match messages {
        Messages::More(_, payload, _) => part_of(alloc, payload),
        Messages::Nothing => Ok(None),
    }
}

/// The process that a message brings, in a box.
fn part_of(alloc: Global, payload: &Payload) -> Result<Option<Box<Proc>>, Memory>
    ensures { IfOk result
        (λ part. boxed_process part ≡ process_in (Some (load payload.now))) }
{
    match payload {
        Payload::Part { proc, .. } => Ok(Some(new_box(alloc, proc.copy(alloc)?)?)),
        _ => Ok(None),
    }
}

/// What the book sees of the scope that what is next begins.
pub(crate) fn head_for(alloc: Global, next: Next<'_>) -> Result<Option<Box<ScopeHead>>, Memory>
    ensures { (me : RoleName) (R : Process) → IsNext me next.entry R →
        IfOk result (λ head. boxed_head head ≡ option_map lead_head (lead_of R)) }
{
    match next {
        Next::Op(op) => head_of(alloc, op),
        _ => Ok(None),
    }
}

/// What the book sees of the scope that an op begins.
fn head_of(alloc: Global, op: &Op) -> Result<Option<Box<ScopeHead>>, Memory>
    ensures { IfOk result (λ head. (done : List Process) →
        boxed_head head ≡ option_map lead_head (lead_of (op_process done op.now))) }
{
    match op {
        Op::ScopeLead { head, .. } => copy_of_head(alloc, head),
        _ => Ok(None),
    }
}

/// (Apart, since no other op is to make room for it.)
#[inline(never)]
fn copy_of_head(alloc: Global, head: &ScopeHead) -> Result<Option<Box<ScopeHead>>, Memory>
    ensures { IfOk result (λ copy. boxed_head copy ≡ Some head.now) }
{
    Ok(Some(new_box(alloc, head.copy(alloc)?)?))
}
