//! The parts of a step: where a role is, the room that a step needs, and what it does to a role,
//! the mail and the history.

ghost use Rattle.std.specs.Prelude.{◌≡◌, ◌<◌, ◌≤◌, ℕ, List, true, false, Option, None, Some, IsSome, IfErr, IfNone, IfOk, IfSome, OnErr, OnOk, is_some, length, map, slice_get};
ghost use Rattle.std.specs.Option.{option_map};
ghost use Rattle.std.specs.List.{list_all, position};
ghost use Rattle.dioc_terms.specs.declared.entries.Act.{Act as OneAct};
ghost use Rattle.dioc_terms.specs.declared.entries.Act.TheVariants as acts;
ghost use Rattle.dioc_terms.specs.declared.processes.Key.{Key as OneKey};
ghost use Rattle.dioc_terms.specs.declared.names.Role.{Role as OneRole};
ghost use Rattle.dioc_terms.specs.Equality.{member, role_eq};
ghost use Rattle.dioc_terms.specs.Plain.{PlainRule};
ghost use Rattle.dioc_terms.specs.Processes.{load};
ghost use Rattle.dpoc_process.specs.Acting.{Lead};
ghost use Rattle.dpoc_process.specs.Handed.{handed, given_like, StandsFor};
ghost use Rattle.dpoc_process.specs.RoleSteps.{IsShown};
ghost use Rattle.dpoc_process.specs.Shows.{boxed_process, put_message};
ghost use Rattle.dpoc_process.specs.LocalStates.{LocalState, offered, step_at};
ghost use Rattle.process_steps.specs.Laws.{is_done};
ghost use Rattle.process_steps.specs.Steps.{Alone, ended, is_offered};
ghost use Rattle.role_mailbox.specs.declared.mail.Mail.{Mail as OneMail};
ghost use Rattle.role_mailbox.specs.Pending.{messages, payload_at, room};
ghost use Rattle.net_core.specs.Acts.{given_from_mail, is_take, put_key, CanStep, IsNumberedIf};
ghost use Rattle.net_core.specs.Deeds.{given_to, asks_scope, is_there, ActDone, DoneAt, IsDone, RefusedFor, RoleDid};
ghost use Rattle.net_core.specs.Faults.{ReadyFault};
ghost use Rattle.net_core.specs.KeptParts.{body_seen};
ghost use Rattle.net_core.specs.Scopes.{KnownRules, Tells};
ghost use Rattle.net_core.specs.Standing.{body_of};
ghost use Rattle.rule_book.specs.KeptBooks.{book_of, IsBookOf};

use crate::scopes::{Fixed, begin_scope};
use dioc_terms::{Act, Entry, Key, Memory, Payload, Proc, Role, give_up};
use dpoc_process::{Got, PrepareFault, Runs, Shown, noted_message};
use network_steps::StepFault;
use role_mailbox::Mail;
use std::alloc::Global;
use trace_book::History;

/// The place of a role in the cast, `None` where it isn't of the cast.
pub(crate) fn place_of(cast: &[Role], role: &Role) -> Option<usize>
    ensures { result ≡ position (role_eq role.now) cast.now }
{
    cast.iter().position(|one| role == one)
}

/// Whether each of the roles has nothing left to do.
pub(crate) fn all_done<R: Runs>(roles: &[R]) -> bool
    ensures { result ≡ list_all (λ state. ended (R.local state).process) roles.now }
{
    roles.iter().all(|role| role.is_done())
}

/// Whether a role of the cast has nothing left to do.
pub(crate) fn is_done_at<R: Runs>(cast: &[Role], roles: &[R], role: &Role) -> bool
    requires lengths { length roles.now ≡ length cast.now }
    requires member { member role.now cast.now ≡ true }
    ensures { DoneAt cast.now (map R.local roles.now) role.now result }
{
    let Some(at) = place_of(cast, role) else {
        unreachable!()
    };
    let state = &roles[at];
    state.is_done()
}

/// Makes room for one message more and one entry more.
pub(crate) fn make_room(mail: &mut Mail, history: &mut History) -> Result<(), Memory>
    ensures mail_room { OnOk result (0 < room mail.new) }
    ensures history_room { OnOk result (0 < history.new.room) }
    ensures same_mail { messages mail.new ≡ messages mail.old }
    ensures same_history { history.new.entries ≡ history.old.entries }
{
    history.reserve(1)?;
    mail.reserve(1)
}

/// Whether what the act needs is there: every act but a take whose message isn't pending.
pub(crate) fn is_there(mail: &Mail, act: &Act) -> bool
    ensures { result ≡ is_there act.now mail.now }
{
    match act {
        Act::Take(key) => mail.holds(key),
        _ => true,
    }
}

/// The step of a role that is ready for a take, and whether it was made: it isn't exactly where the
/// message isn't there, and then all is as it was. It takes no memory.
pub(crate) fn commit_take<R: Runs>(
    state: &mut R,
    mail: &mut Mail,
    history: &mut History,
    act: &Act,
    key: &Key,
    shown: Shown,
) -> bool
    requires ready { R.is_ready state.old act.now }
    requires shown { IsShown (R.local state.old) act.now shown }
    requires take { act.now ≡ acts.Take key.now }
    requires can { is_there act.now mail.old ≡ true
        → is_done (step_at (R.local state.old) act.now (given_from_mail act.now mail.old)) ≡ true }
    requires history_room { 0 < history.old.room }
    ensures there { result ≡ is_there act.now mail.old }
    ensures done { result ≡ true → (count : ℕ)
        → IsDone act.now (given_from_mail act.now mail.old) (R.local state.old) mail.old
        count history.old.entries (R.local state.new) mail.new count history.new.entries }
    ensures same_local { result ≡ false → R.local state.new ≡ R.local state.old }
    ensures same_mail { result ≡ false → messages mail.new ≡ messages mail.old }
    ensures same_history { result ≡ false → history.new ≡ history.old }
{
    process_steps::steps_show_their_acts();
    let Some(came) = mail.take(key) else {
        drop(shown);
        return false;
    };
    let Shown { entry, head, part } = shown;
    drop((head, part));
    history.push(entry.unwrap());
    state.advance(act, Got::Payload(came));
    true
}

/// The step of a role that is ready for a put, with the memory for the message taken first. After a
/// refusal nothing is changed.
fn commit_put<R: Runs>(
    alloc: Global,
    state: &mut R,
    mail: &mut Mail,
    history: &mut History,
    act: &Act,
    key: Key,
    shown: Shown,
) -> Result<(), Memory>
    requires ready { R.is_ready state.old act.now }
    requires shown { IsShown (R.local state.old) act.now shown }
    requires put { act.now ≡ acts.Put key }
    requires can { is_done (step_at (R.local state.old) act.now Alone) ≡ true }
    requires free { payload_at key mail.old ≡ None }
    requires mail_room { 0 < room mail.old }
    requires history_room { 0 < history.old.room }
    ensures done { OnOk result ((count : ℕ) → IsDone act.now Alone (R.local state.old) mail.old
        count history.old.entries (R.local state.new) mail.new count history.new.entries) }
    ensures same_local { OnErr result (R.local state.new ≡ R.local state.old) }
    ensures same_mail { OnErr result (messages mail.new ≡ messages mail.old) }
    ensures same_history { OnErr result (history.new ≡ history.old) }
{
    process_steps::steps_show_their_acts();
    let Shown { entry, head, part } = shown;
    drop(head);
    let entry = entry.unwrap();
    match message_of(alloc, &entry, part) {
        Ok(payload) => {
            history.push(entry);
            state.advance(act, Got::Nothing);
            mail.put(key, payload);
            Ok(())
        }
        Err(fault) => give_up((entry, key), fault),
    }
}

/// The message that an entry puts, with the process that it brings.
fn message_of(alloc: Global, entry: &Entry, part: Option<Box<Proc>>) -> Result<Payload, Memory>
    requires { IsSome (put_message (Some entry.now) (boxed_process part)) }
    ensures { IfOk result (λ payload. put_message (Some entry.now) (boxed_process part)
        ≡ Some (load payload)) }
{
    match entry {
        Entry::Put { note, .. } => noted_message(alloc, note, part),
        _ => unreachable!(),
    }
}

/// The step of a role that is ready for what it does alone. It takes no memory.
fn commit_alone<R: Runs>(state: &mut R, history: &mut History, act: &Act, shown: Shown)
    requires ready { R.is_ready state.old act.now }
    requires shown { IsShown (R.local state.old) act.now shown }
    requires plain { asks_scope act.now ≡ false }
    requires no_put { put_key act.now ≡ None }
    requires no_take { is_take act.now ≡ false }
    requires can { is_done (step_at (R.local state.old) act.now Alone) ≡ true }
    requires history_room { 0 < history.old.room }
    ensures done { (mail : OneMail) (count : ℕ) → IsDone act.now Alone (R.local state.old) mail
        count history.old.entries (R.local state.new) mail count history.new.entries }
{
    process_steps::steps_show_their_acts();
    let Shown { entry, head, part } = shown;
    drop((head, part));
    history.push(entry.unwrap());
    state.advance(act, Got::Nothing);
}

/// An act that a role is asked to do, and its number among those that the role offers, where the
/// caller knows it.
#[derive(Clone, Copy)]
pub(crate) struct Asked<'a> {
    pub act: &'a Act,
    pub number: Option<usize>,
}

/// The step of one role by an act, with all its memory taken first. After a refusal nothing is
/// changed.
fn do_act<R: Runs>(
    fixed: &Fixed<'_>,
    state: &mut R,
    mail: &mut Mail,
    updates: &mut u32,
    history: &mut History,
    asked: Asked<'_>,
) -> Result<(), StepFault>
    requires numbered { IsNumberedIf asked.number asked.act.now (offered (R.local state.old)) }
    requires can { CanStep (R.local state.old) asked.act.now mail.old }
    requires updates { updates.old < 4294967295 }
    requires known { KnownRules fixed.now.cast.now fixed.now.book.now
        (map body_seen fixed.now.bodies.now) }
    requires tells { Tells fixed.now.cast.now (R.local state.old) asked.act.now }
    requires mail_room { 0 < room mail.old }
    requires history_room { 0 < history.old.room }
    ensures did { (rules : List PlainRule) → IsBookOf rules fixed.now.book.now
        → map body_seen fixed.now.bodies.now ≡ map body_of rules
        → OnOk result (ActDone asked.entry.act.now
        (λ s. given_to fixed.now.cast.now rules mail.old (book_of fixed.now.book.now) updates.old s
        asked.entry.act.now)
        (R.local state.old) mail.old updates.old history.old.entries
        (R.local state.new) mail.new updates.new history.new.entries) }
    ensures refused { IfErr result (ReadyFault (R.local state.old) mail.old asked.entry.act.now) }
    ensures same_local { OnErr result (R.local state.new ≡ R.local state.old) }
    ensures same_mail { OnErr result (messages mail.new ≡ messages mail.old) }
    ensures same_updates { OnErr result (updates.new ≡ updates.old) }
    ensures same_history { OnErr result (history.new ≡ history.old) }
{
    let Asked { act, number } = asked;
    match number {
        Some(number) => match state.prepare_at(fixed.alloc, number, act) {
            Ok(shown) => finish(fixed, state, mail, updates, history, act, shown),
            Err(_) => Err(StepFault::Memory),
        },
        None => match state.prepare_act(fixed.alloc, act) {
            Ok(shown) => finish(fixed, state, mail, updates, history, act, shown),
            Err(PrepareFault::NoAct) => Err(StepFault::NoAct),
            Err(PrepareFault::Memory) => Err(StepFault::Memory),
        },
    }
}

/// The step of one role that is ready for an act. After a refusal nothing is changed.
fn finish<R: Runs>(
    fixed: &Fixed<'_>,
    state: &mut R,
    mail: &mut Mail,
    updates: &mut u32,
    history: &mut History,
    act: &Act,
    shown: Shown,
) -> Result<(), StepFault>
    requires ready { R.is_ready state.old act.now }
    requires shown { IsShown (R.local state.old) act.now shown }
    requires can { CanStep (R.local state.old) act.now mail.old }
    requires updates { updates.old < 4294967295 }
    requires known { KnownRules fixed.now.cast.now fixed.now.book.now
        (map body_seen fixed.now.bodies.now) }
    requires tells { Tells fixed.now.cast.now (R.local state.old) act.now }
    requires mail_room { 0 < room mail.old }
    requires history_room { 0 < history.old.room }
    ensures did { (rules : List PlainRule) → IsBookOf rules fixed.now.book.now
        → map body_seen fixed.now.bodies.now ≡ map body_of rules
        → OnOk result (ActDone act.now
        (λ s. given_to fixed.now.cast.now rules mail.old (book_of fixed.now.book.now) updates.old s
        act.now)
        (R.local state.old) mail.old updates.old history.old.entries
        (R.local state.new) mail.new updates.new history.new.entries) }
    ensures refused { IfErr result (ReadyFault (R.local state.old) mail.old act.now) }
    ensures same_local { OnErr result (R.local state.new ≡ R.local state.old) }
    ensures same_mail { OnErr result (messages mail.new ≡ messages mail.old) }
    ensures same_updates { OnErr result (updates.new ≡ updates.old) }
    ensures same_history { OnErr result (history.new ≡ history.old) }
{
    match act {
        Act::Scope(_) => match begin_scope(fixed, state, updates, history, act, shown) {
            Ok(()) => Ok(()),
            Err(_) => Err(StepFault::Memory),
        },
        Act::Take(key) => {
            if commit_take(state, mail, history, act, key, shown) {
                Ok(())
            } else {
                Err(StepFault::NotYet)
            }
        }
        Act::Put(key) => {
            let Ok(key) = key.copy(fixed.alloc) else {
                drop(shown);
                return Err(StepFault::Memory);
            };
            match commit_put(fixed.alloc, state, mail, history, act, key, shown) {
                Ok(()) => Ok(()),
                Err(_) => Err(StepFault::Memory),
            }
        }
        _ => {
            commit_alone(state, history, act, shown);
            Ok(())
        }
    }
}

/// The step of the role at a place of the cast by an act. After a refusal the roles, the messages,
/// the number of updates and the history are as they were.
pub(crate) fn step_role<R: Runs>(
    fixed: &Fixed<'_>,
    roles: &mut Vec<R>,
    mail: &mut Mail,
    updates: &mut u32,
    history: &mut History,
    place: usize,
    asked: Asked<'_>,
) -> Result<(), StepFault>
    requires numbered { (local : LocalState)
        → slice_get (map R.local roles.old.items) place ≡ Some local
        → IsNumberedIf asked.number asked.act.now (offered local) }
    requires there { place < length roles.old.items }
    requires can { (local : LocalState) → slice_get (map R.local roles.old.items) place ≡ Some local
        → CanStep local asked.act.now mail.old }
    requires updates { updates.old < 4294967295 }
    requires known { KnownRules fixed.now.cast.now fixed.now.book.now
        (map body_seen fixed.now.bodies.now) }
    requires tells { (local : LocalState)
        → slice_get (map R.local roles.old.items) place ≡ Some local
        → Tells fixed.now.cast.now local asked.act.now }
    ensures did { (role : OneRole) (rules : List PlainRule)
        → slice_get fixed.now.cast.now place ≡ Some role → IsBookOf rules fixed.now.book.now
        → map body_seen fixed.now.bodies.now ≡ map body_of rules
        → OnOk result (RoleDid fixed.now.cast.now role asked.entry.act.now
        (λ s. given_to fixed.now.cast.now rules mail.old (book_of fixed.now.book.now) updates.old s
        asked.entry.act.now)
        (map R.local roles.old.items) mail.old updates.old history.old.entries
        (map R.local roles.new.items) mail.new updates.new history.new.entries) }
    ensures refused { (role : OneRole) → slice_get fixed.now.cast.now place ≡ Some role
        → IfErr result (RefusedFor fixed.now.cast.now (map R.local roles.old.items) mail.old role
        asked.entry.act.now) }
    ensures same_roles { OnErr result (map R.local roles.new.items ≡ map R.local roles.old.items) }
    ensures same_mail { OnErr result (messages mail.new ≡ messages mail.old) }
    ensures same_updates { OnErr result (updates.new ≡ updates.old) }
    ensures same_history { OnErr result (history.new.entries ≡ history.old.entries) }
{
    make_room(mail, history)?;
    let state = &mut roles[place];
    match do_act(fixed, state, mail, updates, history, asked) {
        Ok(()) => Ok(()),
        Err(fault) => Err(fault),
    }
}
