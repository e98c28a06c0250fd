//! A role that runs, act by act.

ghost use Rattle.std.specs.Prelude.{◌≡◌, IsSome, Some, IfOk, option_map};
ghost use Rattle.dioc_terms.specs.declared.entries.Entry.TheVariants as entries;
ghost use Rattle.dioc_terms.specs.declared.entries.Note.{Note as OneNote};
ghost use Rattle.dioc_terms.specs.declared.processes.Key.{Key as OneKey};
ghost use Rattle.dioc_terms.specs.Processes.{load, process};
ghost use Rattle.dpoc_process.specs.Shows.{boxed_head, boxed_process, noted_message, process_in, process_or_skip, put_message};

use dioc_terms::{
    Act, Entry, Key, Memory, Note, Parts, Payload, Proc, ScopeHead, Store, give_up, new_box,
};
use std::alloc::Global;
use thiserror::Error;

/// What comes with an act from outside of the role.
#[derive(Drop)]
pub enum Got {
    /// Nothing, for an act that is neither a take nor a scope's.
    Nothing,
    /// The message of a take.
    Payload(Payload),
    /// The scope keeps its body.
    Keep,
    /// The scope is replaced by an update with these parts.
    Parts(Parts),
}

/// What is known of an act before it is done.
#[derive(Drop)]
pub struct Prepared {
    /// The act.
    pub act: Act,
    /// Its entry. It is missing exactly for a scope, whose choice isn't known yet.
    pub entry: Option<Entry>,
    /// What the book sees of the scope, there exactly for a scope.
    pub head: Option<ScopeHead>,
    /// A copy of the message, there exactly for a put.
    pub payload: Option<Payload>,
}

/// What is known of an act before it is done, but for the act itself. What is rare is in boxes, so
/// that little is moved at each step.
#[derive(Drop)]
pub struct Shown {
    /// Its entry. It is missing exactly for a scope, whose choice isn't known yet. That of a put
    /// shows all of the message but a process.
    pub entry: Option<Entry>,
    /// What the book sees of the scope, there exactly for a scope.
    pub head: Option<Box<ScopeHead>>,
    /// A copy of the process that the message brings, there exactly for a part of an update.
    pub part: Option<Box<Proc>>,
}

impl Prepared {
    ghost use Rattle.dpoc_process.specs.LocalStates.{LocalState};
    ghost use Rattle.dpoc_process.specs.RoleSteps.{IsPrepared, IsShown};
    ghost use Rattle.dioc_terms.specs.declared.entries.Act.{Act as OneAct};

    /// All but the act, which is dropped.
    pub fn into_shown(self, alloc: Global) -> Result<Shown, Memory>
        ensures { (s : LocalState) (a : OneAct) → IsPrepared s a self
            → IfOk result (IsShown s a) }
    {
        let Prepared {
            act,
            entry,
            head,
            payload,
        } = self;
        drop(act);
        match boxed(alloc, head, payload) {
            Ok((head, part)) => Ok(Shown { entry, head, part }),
            Err(fault) => give_up(entry, fault),
        }
    }

    /// What the book sees of the scope for which the role was made ready; the rest is dropped.
    pub fn into_head(self) -> ScopeHead
        requires { IsSome self.head }
        ensures { self.head ≡ Some result }
    {
        let Prepared {
            act,
            entry,
            head,
            payload,
        } = self;
        drop((act, (entry, payload)));
        known_head(head)
    }
}

impl Shown {
    ghost use Rattle.dpoc_process.specs.LocalStates.{LocalState};
    ghost use Rattle.dpoc_process.specs.RoleSteps.{IsPrepared, IsShown};
    ghost use Rattle.dpoc_process.specs.Shows.{head_shown, message_shown};

    /// The same with the act of which it is shown.
    pub fn with_act(self, alloc: Global, act: Act) -> Result<Prepared, Memory>
        ensures { (s : LocalState) → IsShown s act self → IfOk result (IsPrepared s act) }
    {
        let Shown { entry, head, part } = self;
        match put_message(alloc, &entry, part) {
            Ok(payload) => Ok(Prepared {
                act,
                entry,
                head: unboxed(head),
                payload,
            }),
            Err(fault) => give_up((act, (entry, head)), fault),
        }
    }

    /// The key and the message of a put; the rest is dropped.
    pub fn into_put(self) -> (Key, Payload)
        requires { IsSome (message_shown self) }
        ensures key { (k : OneKey) (n : OneNote) → self.entry ≡ Some (entries.Put k n)
            → result.0 ≡ k }
        ensures message { message_shown self ≡ Some (load result.1) }
    {
        let Shown { entry, head, part } = self;
        drop(head);
        let (key, note) = known_entry(entry).into_put();
        (key, note.into_payload(known_process(part)))
    }

    /// The entry of an act that begins no scope; the rest is dropped.
    pub fn into_entry(self) -> Entry
        requires { IsSome self.entry }
        ensures { self.entry ≡ Some result }
    {
        let Shown { entry, head, part } = self;
        drop((head, part));
        known_entry(entry)
    }

    /// What the book sees of the scope for which the role was made ready; the rest is dropped.
    pub fn into_head(self) -> ScopeHead
        requires { IsSome (head_shown self) }
        ensures { head_shown self ≡ Some result }
    {
        let Shown { entry, head, part } = self;
        drop((entry, part));
        known_head(unboxed(head))
    }
}

/// The head of a scope and the process of a message, each in a box; the rest of the message is
/// dropped.
fn boxed(
    alloc: Global,
    head: Option<ScopeHead>,
    payload: Option<Payload>,
) -> Result<(Option<Box<ScopeHead>>, Option<Box<Proc>>), Memory>
    ensures head { IfOk result (λ boxes. boxed_head boxes.0 ≡ head) }
    ensures part { IfOk result
        (λ boxes. boxed_process boxes.1 ≡ process_in (option_map load payload)) }
{
    match boxed_part(alloc, payload) {
        Ok(part) => match boxed_scope(alloc, head) {
            Ok(head) => Ok((head, part)),
            Err(fault) => give_up(part, fault),
        },
        Err(fault) => give_up(head, fault),
    }
}

/// The head of a scope in a box, where there is one.
fn boxed_scope(alloc: Global, head: Option<ScopeHead>) -> Result<Option<Box<ScopeHead>>, Memory>
    ensures { IfOk result (λ boxed. boxed_head boxed ≡ head) }
{
    match head {
        Some(head) => Ok(Some(new_box(alloc, head)?)),
        None => Ok(None),
    }
}

/// The process that a message brings, in a box; the rest of the message is dropped.
fn boxed_part(alloc: Global, payload: Option<Payload>) -> Result<Option<Box<Proc>>, Memory>
    ensures { IfOk result
        (λ boxed. boxed_process boxed ≡ process_in (option_map load payload)) }
{
    match payload {
        Some(payload) => match &payload {
            Payload::Part { .. } => Ok(Some(new_box(alloc, payload.into_part())?)),
            _ => {
                drop(payload);
                Ok(None)
            }
        },
        None => Ok(None),
    }
}

/// The head of a scope out of its box.
fn unboxed(head: Option<Box<ScopeHead>>) -> Option<ScopeHead>
    ensures { result ≡ boxed_head head }
{
    match head {
        Some(head) => Some(Box::into_inner(head)),
        None => None,
    }
}

/// The message that an entry puts, with the process that it brings.
fn put_message(
    alloc: Global,
    entry: &Option<Entry>,
    part: Option<Box<Proc>>,
) -> Result<Option<Payload>, Memory>
    ensures { IfOk result (λ payload.
        option_map load payload ≡ put_message entry.now (boxed_process part)) }
{
    match entry {
        Some(Entry::Put { note, .. }) => Ok(Some(noted_message(alloc, note, part)?)),
        _ => {
            drop(part);
            Ok(None)
        }
    }
}

/// The message that an entry notes so, with the process that it brings.
pub fn noted_message(alloc: Global, note: &Note, part: Option<Box<Proc>>) -> Result<Payload, Memory>
    ensures { IfOk result
        (λ payload. load payload ≡ noted_message note.now (boxed_process part)) }
{
    match note {
        Note::Val(value) => Ok(Payload::Val(value.copy(alloc)?)),
        Note::Flag(flag) => Ok(Payload::Flag(*flag)),
        Note::Keep => Ok(Payload::Keep),
        Note::Part(epoch) => Ok(Payload::Part {
            epoch: *epoch,
            proc: known_process(part),
        }),
        Note::Done => Ok(Payload::Done),
    }
}

/// The process out of its box; nothing to do where there is none.
fn known_process(part: Option<Box<Proc>>) -> Proc
    ensures { process result ≡ process_or_skip (boxed_process part) }
{
    match part {
        Some(proc) => Box::into_inner(proc),
        None => Proc::Skip,
    }
}

// (Apart, as `known_head` is.)
fn known_entry(entry: Option<Entry>) -> Entry
    requires { IsSome entry }
    ensures { entry ≡ Some result }
{
    entry.unwrap()
}

// (Apart, since letting go of the rest beside an `unwrap` makes for large goals.)
fn known_head(head: Option<ScopeHead>) -> ScopeHead
    requires { IsSome head }
    ensures { head ≡ Some result }
{
    head.unwrap()
}

/// Why an act is not prepared.
#[derive(Clone, Copy, Debug, PartialEq, Eq, Error)]
pub enum PrepareFault {
    /// The process doesn't offer the act.
    #[error("the process doesn't offer the act")]
    NoAct,
    /// Memory ran out.
    #[error("out of memory")]
    Memory,
}

impl From<Memory> for PrepareFault {
    ghost use Rattle.std.specs.Prelude.{◌≡◌};
    ghost use Rattle.dpoc_process.specs.declared.runs.PrepareFault.TheVariants.{Memory as no_memory};

    ghost from_gives = { λ _ fault. fault ≡ no_memory };

    fn from(_error: Memory) -> PrepareFault {
        PrepareFault::Memory
    }
}
