//! What is put, taken or done, with its entry.

ghost use Rattle.std.specs.Prelude.{◌≡◌, ◌<◌, ◌++◌, [], ◌∷◌, IfErr, IfOk, OnErr, OnOk, None, Some};
ghost use Rattle.dioc_terms.specs.declared.entries.Entry.TheVariants as entry;
ghost use Rattle.dioc_terms.specs.Processes.{Load, load, noted};
ghost use Rattle.process_steps.specs.Steps.{Puts, Takes};
ghost use Rattle.role_mailbox.specs.Pending.{messages, payload_at, room};
ghost use Rattle.net_core.specs.Deeds.{MailAfter};
ghost use Rattle.stage.specs.Faults.{refusal_by};

use crate::faults::CommitFault;
use dioc_terms::{Entry, Key, Memory, Name, Note, Payload};
use role_mailbox::Mail;
use std::alloc::Global;
use trace_book::History;

/// Puts a message that isn't pending, and adds its entry. All memory is taken first: after a
/// refusal the messages and the entries are as they were.
pub(crate) fn put_message(
    alloc: Global,
    mail: &mut Mail,
    history: &mut History,
    key: Key,
    payload: Payload,
) -> Result<(), Memory>
    requires free { payload_at key mail.old ≡ None }
    ensures put { OnOk result (MailAfter (Puts key (load payload)) mail.old mail.new) }
    ensures pushed { OnOk result (history.new.entries
        ≡ history.old.entries ++ entry.Put key (noted (load payload)) ∷ []) }
    ensures same_mail { OnErr result (messages mail.new ≡ messages mail.old) }
    ensures same_history { OnErr result (history.new.entries ≡ history.old.entries) }
{
    match prepared_put(alloc, mail, history, &key, &payload) {
        Ok(entry) => {
            mail.put(key, payload);
            history.push(entry);
            Ok(())
        }
        Err(fault) => {
            drop(key);
            drop(payload);
            Err(fault)
        }
    }
}

/// The entry of a put, with room for it and for its message.
fn prepared_put(
    alloc: Global,
    mail: &mut Mail,
    history: &mut History,
    key: &Key,
    payload: &Payload,
) -> Result<Entry, Memory>
    ensures entry { IfOk result (λ e. e ≡ entry.Put key.now (noted (load payload.now))) }
    ensures mail_room { OnOk result (0 < room mail.new) }
    ensures history_room { OnOk result (0 < history.new.room) }
    ensures same_mail { messages mail.new ≡ messages mail.old }
    ensures same_history { history.new.entries ≡ history.old.entries }
{
    history.reserve(1)?;
    mail.reserve(1)?;
    let note = note_of(alloc, payload)?;
    let key = key.copy(alloc)?;
    Ok(Entry::Put { key, note })
}

/// What an entry shows of a payload.
fn note_of(alloc: Global, payload: &Payload) -> Result<Note, Memory>
    ensures { IfOk result (λ note. note ≡ noted (load payload.now)) }
{
    match payload {
        Payload::Val(value) => Ok(Note::Val(value.copy(alloc)?)),
        Payload::Flag(flag) => Ok(Note::Flag(*flag)),
        Payload::Keep => Ok(Note::Keep),
        Payload::Part { epoch, .. } => Ok(Note::Part(*epoch)),
        Payload::Done => Ok(Note::Done),
    }
}

/// Takes a message, and adds the entry. All memory is taken first: after a refusal the messages and
/// the entries are as they were.
pub(crate) fn take_message(
    alloc: Global,
    mail: &mut Mail,
    history: &mut History,
    key: &Key,
    var: Option<Name>,
) -> Result<Payload, CommitFault>
    ensures payload { IfOk result (λ p. payload_at key.now mail.old ≡ Some (load p)) }
    ensures taken { (l : Load) → OnOk result (MailAfter (Takes key.now var l) mail.old mail.new) }
    ensures pushed { OnOk result (history.new.entries
        ≡ history.old.entries ++ entry.Take key.now var ∷ []) }
    ensures fault { IfErr result (λ f. f ≡ refusal_by (payload_at key.now mail.old)) }
    ensures same_mail { OnErr result (messages mail.new ≡ messages mail.old) }
    ensures same_history { OnErr result (history.new.entries ≡ history.old.entries) }
{
    let Ok(copy) = take_room(alloc, history, key) else {
        drop(var);
        return Err(scarce_take(mail, key));
    };
    match mail.take(key) {
        Some(payload) => {
            history.push(Entry::Take { key: copy, var });
            Ok(payload)
        }
        None => {
            drop((copy, var));
            Err(CommitFault::NotYet)
        }
    }
}

/// Why a take is refused for which there is no memory: a message that isn't pending comes first.
fn scarce_take(mail: &Mail, key: &Key) -> CommitFault
    ensures { result ≡ refusal_by (payload_at key.now mail.now) }
{
    if mail.holds(key) {
        CommitFault::Memory
    } else {
        CommitFault::NotYet
    }
}

/// A copy of the key, with room for one entry.
fn take_room(alloc: Global, history: &mut History, key: &Key) -> Result<Key, Memory>
    ensures copy { IfOk result (λ copy. copy ≡ key.now) }
    ensures room { OnOk result (0 < history.new.room) }
    ensures same { history.new.entries ≡ history.old.entries }
{
    history.reserve(1)?;
    key.copy(alloc)
}

/// Adds an entry. After a refusal the entries are as they were, and the entry is dropped.
pub(crate) fn push_entry(history: &mut History, entry: Entry) -> Result<(), Memory>
    ensures pushed { OnOk result
        (history.new.entries ≡ history.old.entries ++ entry ∷ []) }
    ensures same { OnErr result (history.new.entries ≡ history.old.entries) }
{
    match history.reserve(1) {
        Ok(()) => {
            history.push(entry);
            Ok(())
        }
        Err(fault) => {
            drop(entry);
            Err(fault)
        }
    }
}
