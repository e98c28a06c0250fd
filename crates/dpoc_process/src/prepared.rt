//! What is shown of an act before it is done.

ghost use Rattle.std.specs.Prelude.{◌≡◌, None, Some, IfOk, option_map};
ghost use Rattle.dioc_terms.specs.declared.entries.Entry.TheVariants as entries;
ghost use Rattle.dioc_terms.specs.declared.processes.Tag.TheVariants as tags;
ghost use Rattle.dioc_terms.specs.Processes.{process, letters, load, noted, Val, Tell, Gather};
ghost use Rattle.dioc_terms.specs.Values.{is_true};
ghost use Rattle.dpoc_process.specs.Acting.{lead_of, lead_head};
ghost use Rattle.dpoc_process.specs.Growth.{entry_at, load_at};
ghost use Rattle.dpoc_process.specs.KeptReady.{IsPreparedFor};
ghost use Rattle.process_steps.specs.Steps.{key};

use crate::growth::is_true;
use crate::offered::{key_of, operation};
use crate::runs::Prepared;
use dioc_terms::{
    Act, Entry, Index, Key, Memory, Messages, Name, Note, Payload, Proc, Role, ScopeHead, Tag,
    Value, give_up,
};
use std::alloc::Global;

/// What is shown of the act that the part does, with the value that it needs.
pub(crate) fn prepared_at(
    alloc: Global,
    me: &Role,
    act: &Act,
    value: &Value,
    part: &Proc,
) -> Result<Prepared, Memory>
    ensures { IfOk result (IsPreparedFor me.now act.now value.now (process part.now)) }
{
    let act = act.copy(alloc)?;
    match entry_at(alloc, me, value, part) {
        Ok(entry) => with_entry(alloc, act, entry, value, part),
        Err(fault) => give_up(act, fault),
    }
}

/// The act and the entry, with the head of a scope and the message.
fn with_entry(
    alloc: Global,
    act: Act,
    entry: Option<Entry>,
    value: &Value,
    part: &Proc,
) -> Result<Prepared, Memory>
    ensures act { IfOk result (λ shown. shown.act ≡ act) }
    ensures entry { IfOk result (λ shown. shown.entry ≡ entry) }
    ensures head { IfOk result (λ shown. shown.head
        ≡ option_map lead_head (lead_of (process part.now))) }
    ensures payload { IfOk result (λ shown. option_map load shown.payload
        ≡ load_at value.now (process part.now)) }
{
    match head_at(alloc, part) {
        Ok(head) => with_head(alloc, act, entry, head, value, part),
        Err(fault) => give_up((act, entry), fault),
    }
}

/// These, with the message.
fn with_head(
    alloc: Global,
    act: Act,
    entry: Option<Entry>,
    head: Option<ScopeHead>,
    value: &Value,
    part: &Proc,
) -> Result<Prepared, Memory>
    ensures act { IfOk result (λ shown. shown.act ≡ act) }
    ensures entry { IfOk result (λ shown. shown.entry ≡ entry) }
    ensures head { IfOk result (λ shown. shown.head ≡ head) }
    ensures payload { IfOk result (λ shown. option_map load shown.payload
        ≡ load_at value.now (process part.now)) }
{
    match payload_at(alloc, value, part) {
        Ok(payload) => Ok(Prepared {
            act,
            entry,
            head,
            payload,
        }),
        Err(fault) => give_up((act, (entry, head)), fault),
    }
}

/// What is known of the entry: all of it, but for a scope, whose choice isn't known yet.
fn entry_at(alloc: Global, me: &Role, value: &Value, part: &Proc) -> Result<Option<Entry>, Memory>
    ensures { IfOk result (λ entry. entry ≡ entry_at me.now value.now (process part.now)) }
{
    match part {
        Proc::Send { index, op, to, .. } => { send_entry(alloc, me, to, *index, op, value) }
        Proc::Recv {
            index,
            op,
            from,
            var,
        } => receive_entry(alloc, from, me, *index, op, var),
        Proc::Assign { index, var, .. } => set_entry(alloc, *index, me, var, value),
        Proc::Read { index, var } => input_entry(alloc, *index, me, var, value),
        Proc::IfLead { index, .. } | Proc::WhileLead { index, .. } => {
            pick_entry(alloc, *index, me, is_true(value))
        }
        Proc::IfFollow { index, leader, .. } => {
            follow_entry(alloc, leader, me, *index, Tag::Choice)
        }
        Proc::WhileFollow { index, leader, .. } => {
            follow_entry(alloc, leader, me, *index, Tag::Go)
        }
        Proc::ScopeFollow { index, leader, .. } => {
            follow_entry(alloc, leader, me, *index, Tag::Begin)
        }
        Proc::Tell { messages } => tell_entry(alloc, me, value, messages),
        Proc::Gather { keys } => gather_entry(alloc, me, value, keys.as_slice()),
        _ => Ok(None),
    }
}

/// The entry of a send.
fn send_entry(
    alloc: Global,
    me: &Role,
    to: &Role,
    index: Index,
    op: &Name,
    value: &Value,
) -> Result<Option<Entry>, Memory>
    ensures { IfOk result (λ entry. entry ≡ Some (entries.Put
        (key me.now to.now index (tags.Op op.now)) (noted (Val value.now)))) }
{
    let found = operation(alloc, me, to, index, op)?;
    put_entry(alloc, found, value)
}

/// The entry of a receive.
fn receive_entry(
    alloc: Global,
    from: &Role,
    me: &Role,
    index: Index,
    op: &Name,
    var: &Name,
) -> Result<Option<Entry>, Memory>
    ensures { IfOk result (λ entry. entry ≡ Some (entries.Take
        (key from.now me.now index (tags.Op op.now)) (Some var.now))) }
{
    let found = operation(alloc, from, me, index, op)?;
    keep_entry(alloc, found, var)
}

/// The entry by which a role follows what another leads.
fn follow_entry(
    alloc: Global,
    leader: &Role,
    me: &Role,
    index: Index,
    tag: Tag,
) -> Result<Option<Entry>, Memory>
    ensures { IfOk result (λ entry. entry
        ≡ Some (entries.Take (key leader.now me.now index tag) None)) }
{
    let found = key_of(alloc, leader, me, index, tag)?;
    take_entry(found)
}

pub fn put_entry(alloc: Global, found: Key, value: &Value) -> Result<Option<Entry>, Memory>
    ensures { IfOk result (λ entry. entry ≡ Some (entries.Put found (noted (Val value.now)))) }
{
    match value.copy(alloc) {
        Ok(value) => Ok(Some(Entry::Put {
            key: found,
            note: Note::Val(value),
        })),
        Err(fault) => give_up(found, fault),
    }
}

pub fn keep_entry(alloc: Global, found: Key, var: &Name) -> Result<Option<Entry>, Memory>
    ensures { IfOk result (λ entry. entry ≡ Some (entries.Take found (Some var.now))) }
{
    match var.copy(alloc) {
        Ok(var) => Ok(Some(Entry::Take {
            key: found,
            var: Some(var),
        })),
        Err(fault) => give_up(found, fault),
    }
}

pub fn take_entry(found: Key) -> Result<Option<Entry>, Memory>
    ensures { IfOk result (λ entry. entry ≡ Some (entries.Take found None)) }
{
    Ok(Some(Entry::Take {
        key: found,
        var: None,
    }))
}

pub fn set_entry(
    alloc: Global,
    index: Index,
    me: &Role,
    var: &Name,
    value: &Value,
) -> Result<Option<Entry>, Memory>
    ensures { IfOk result (λ entry. entry ≡ Some (entries.Set index me.now var.now value.now)) }
{
    let (role, var, value) = copies(alloc, me, var, value)?;
    Ok(Some(Entry::Set {
        index,
        role,
        var,
        value,
    }))
}

pub fn input_entry(
    alloc: Global,
    index: Index,
    me: &Role,
    var: &Name,
    value: &Value,
) -> Result<Option<Entry>, Memory>
    ensures { IfOk result (λ entry. entry ≡ Some (entries.Input index me.now var.now value.now)) }
{
    let (role, var, value) = copies(alloc, me, var, value)?;
    Ok(Some(Entry::Input {
        index,
        role,
        var,
        value,
    }))
}

/// Copies of the role, the variable and the value.
fn copies(
    alloc: Global,
    me: &Role,
    var: &Name,
    value: &Value,
) -> Result<(Role, Name, Value), Memory>
    ensures role { IfOk result (λ made. made.0 ≡ me.now) }
    ensures var { IfOk result (λ made. made.1 ≡ var.now) }
    ensures value { IfOk result (λ made. made.2 ≡ value.now) }
{
    let role = me.copy(alloc)?;
    let var = match var.copy(alloc) {
        Ok(var) => var,
        Err(fault) => return give_up(role, fault),
    };
    match value.copy(alloc) {
        Ok(value) => Ok((role, var, value)),
        Err(fault) => give_up((role, var), fault),
    }
}

pub fn pick_entry(
    alloc: Global,
    index: Index,
    me: &Role,
    flag: bool,
) -> Result<Option<Entry>, Memory>
    ensures { IfOk result (λ entry. entry ≡ Some (entries.Pick index me.now flag)) }
{
    Ok(Some(Entry::Pick {
        index,
        role: me.copy(alloc)?,
        flag,
    }))
}

pub fn tell_entry(
    alloc: Global,
    me: &Role,
    value: &Value,
    messages: &Messages,
) -> Result<Option<Entry>, Memory>
    ensures { IfOk result (λ entry.
        entry ≡ entry_at me.now value.now (Tell (letters messages.now))) }
{
    match messages {
        Messages::Nothing => Ok(None),
        Messages::More(key, payload, _) => noted_entry(alloc, key, payload),
    }
}

/// The entry that sends a message.
fn noted_entry(alloc: Global, key: &Key, payload: &Payload) -> Result<Option<Entry>, Memory>
    ensures { IfOk result (λ entry. entry ≡ Some (entries.Put key.now (noted (load payload.now)))) }
{
    let note = note_of(alloc, payload)?;
    match key.copy(alloc) {
        Ok(key) => Ok(Some(Entry::Put { key, note })),
        Err(fault) => give_up(note, fault),
    }
}

pub fn gather_entry(
    alloc: Global,
    me: &Role,
    value: &Value,
    keys: &[Key],
) -> Result<Option<Entry>, Memory>
    ensures { IfOk result (λ entry. entry ≡ entry_at me.now value.now (Gather keys.now)) }
{
    match keys {
        [] => Ok(None),
        [key, ..] => take_entry(key.copy(alloc)?),
    }
}

/// What an entry shows of a payload.
fn note_of(alloc: Global, payload: &Payload) -> Result<Note, Memory>
    ensures { IfOk result (λ note. note ≡ noted (load payload.now)) }
{
    match payload {
        Payload::Val(value) => Ok(Note::Val(value.copy(alloc)?)),
        Payload::Flag(flag) => Ok(Note::Flag(*flag)),
        Payload::Keep => Ok(Note::Keep),
        Payload::Part { epoch, .. } => Ok(Note::Part(*epoch)),
        Payload::Done => Ok(Note::Done),
    }
}

/// A copy of what the act sends.
fn payload_at(alloc: Global, value: &Value, part: &Proc) -> Result<Option<Payload>, Memory>
    ensures { IfOk result (λ payload. option_map load payload
        ≡ load_at value.now (process part.now)) }
{
    match part {
        Proc::Send { .. } => Ok(Some(Payload::Val(value.copy(alloc)?))),
        Proc::Tell { messages } => payload_of_tell(alloc, value, messages),
        _ => Ok(None),
    }
}

fn payload_of_tell(
    alloc: Global,
    value: &Value,
    messages: &Messages,
) -> Result<Option<Payload>, Memory>
    ensures { IfOk result (λ payload.
        option_map load payload ≡ load_at value.now (Tell (letters messages.now))) }
{
    match messages {
        Messages::Nothing => Ok(None),
        Messages::More(_, payload, _) => Ok(Some(payload.copy(alloc)?)),
    }
}

/// What the book sees of the scope that the part begins.
fn head_at(alloc: Global, part: &Proc) -> Result<Option<ScopeHead>, Memory>
    ensures { IfOk result (λ head. head ≡ option_map lead_head (lead_of (process part.now))) }
{
    match part {
        Proc::ScopeLead { head, .. } => Ok(Some(head.copy(alloc)?)),
        _ => Ok(None),
    }
}
