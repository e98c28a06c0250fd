//! A place in which another process comes: a scope that an update replaces, and a tell once its
//! first message is put.

ghost use Rattle.std.specs.Prelude.{◌≡◌};
ghost use Rattle.dioc_terms.specs.Processes.{letters, process};
ghost use Rattle.dpoc_process.specs.Handed.{Message, handed};
ghost use Rattle.dioc_terms.specs.Processes as terms;
ghost use Rattle.flat_role.specs.Replacing.{comes, coming};
ghost use Rattle.dioc_terms.specs.declared.names.Role.{Role as RoleName};
ghost use Rattle.dioc_terms.specs.Processes.{load};
ghost use Rattle.flat_role.specs.declared.marks.State.TheVariants as states;
ghost use Rattle.flat_role.specs.declared.replacing.What.TheVariants as whats;
ghost use Rattle.flat_role.specs.Updates.{IsSound, process_in};
ghost use Rattle.process_steps.specs.Steps.{after, ended, telling};

use crate::marks::{Mark, State, Update};
use dioc_terms::{Messages, Parts, Payload, Proc, Role};
use dpoc_process::Got;
use dpoc_process::offered::is_ended;
use std::mem;
use std::snapshot::Snapshot;

/// All that another process in the place needs, taken before it is known whether one comes.
#[derive(Drop)]
pub(crate) struct Room {
    pub me: Snapshot<Role>,
    pub what: What,
    pub update: Box<Update>,
}

/// For what there is room.
#[derive(Drop)]
pub(crate) enum What {
    /// A scope that the role leads, for the leader's part of an update and what tells the others.
    Leads(Lead),
    /// A scope that another role leads, for the part of an update.
    Follows(Follow),
    /// A tell: the messages that are left.
    Tells(Box<Messages>),
}

/// A scope that the role leads: what follows its part of an update, and boxes for what tells the
/// others, for the part, and for the sequence.
#[derive(Drop)]
pub(crate) struct Lead {
    pub first: Box<Proc>,
    pub own: Box<Proc>,
    pub last: Box<Proc>,
    pub inner: Box<Proc>,
}

/// A scope that another role leads: what follows the part of an update, and a box for it.
#[derive(Drop)]
pub(crate) struct Follow {
    pub own: Box<Proc>,
    pub last: Box<Proc>,
}

impl Room {
    ghost use Rattle.std.specs.Prelude.{◌≡◌, true};
    ghost use Rattle.dioc_terms.specs.declared.names.Role.{Role as RoleName};
    ghost use Rattle.dioc_terms.specs.Processes.{Process};
    ghost use Rattle.dpoc_process.specs.Handed.{handed};
    ghost use Rattle.flat_role.specs.KeptMarks.{meant};
    ghost use Rattle.flat_role.specs.Progress.{IsOf};
    ghost use Rattle.flat_role.specs.Replacing.{IsRoom, comes, replaces, replacing};
    ghost use Rattle.process_steps.specs.Steps.{ended};
    ghost use Rattle.role_statuses.specs.Marks as marks;

    /// Whether what there is room for comes.
    pub(crate) fn is_for(&self, got: &Got) -> bool
        ensures { result ≡ comes self.now.what (handed got.now) }
    {
        matches!(
            (&self.what, got),
            (What::Tells(_), _)
                | (What::Leads(_), Got::Parts(_))
                | (What::Follows(_), Got::Payload(Payload::Part { .. }))
        )
    }

    /// The mark of the place with what came in it, and whether nothing is left to do there. It
    /// takes no memory.
    pub(crate) fn filled(self, got: Got) -> (Mark, bool)
        ensures mark { (me : RoleName) (R P : Process) → IsRoom me R self →
            replaces R (handed got) ≡ true → meant me P result.0
            ≡ marks.Became (replacing me R (handed got)) }
        ensures mine { (me : RoleName) → self.me.value ≡ me → IsOf me result.0 }
        ensures over { (me : RoleName) (R : Process) → IsRoom me R self →
            replaces R (handed got) ≡ true → result.1 ≡ ended (replacing me R (handed got)) }
    {
        let Room { me, what, update } = self;
        let (state, over) = come(what, got);
        let mut filled = update;
        drop(mem::replace(&mut *filled, Update { me, state }));
        (Mark::Became(filled), over)
    }
}

/// What came, and whether nothing is left to do of it.
fn come(what: What, got: Got) -> (State, bool)
    ensures is { (me : RoleName) → process_in me result.0 ≡ coming what (handed got) }
    ensures sound { (me : RoleName) → IsSound me result.0 }
    ensures over { result.1 ≡ ended (coming what (handed got)) }
{
    match what {
        What::Leads(lead) => came(led(lead, got)),
        What::Follows(follow) => came(followed(follow, got)),
        What::Tells(messages) => {
            drop(got);
            let over = matches!(*messages, Messages::Nothing);
            (State::Told(messages, None), over)
        }
    }
}

/// A process as it came, and whether nothing is left to do of it.
fn came(proc: Proc) -> (State, bool)
    ensures is { result.0 ≡ states.Came proc }
    ensures over { result.1 ≡ ended (process proc) }
{
    let over = is_ended(&proc);
    (State::Came(proc), over)
}

/// What comes in the place of a scope that the role leads: the others are told their parts, and
/// then its own runs.
fn led(lead: Lead, got: Got) -> Proc
    ensures { process result ≡ coming (whats.Leads lead) (handed got) }
{
    match got {
        Got::Parts(parts) => {
            let Parts { own, tell } = parts;
            let Lead {
                first,
                own: hole,
                last,
                inner,
            } = lead;
            let second = put(inner, then(put(hole, own), last));
            then(put(first, telling(tell)), second)
        }
        other => nothing(lead, other),
    }
}

/// What comes in the place of a scope that another role leads.
fn followed(follow: Follow, got: Got) -> Proc
    ensures { process result ≡ coming (whats.Follows follow) (handed got) }
{
    match got {
        Got::Payload(payload) => part_of(follow, payload),
        other => nothing(follow, other),
    }
}

fn part_of(follow: Follow, payload: Payload) -> Proc
    ensures { process result ≡ coming (whats.Follows follow) (Message (load payload)) }
{
    match &payload {
        Payload::Part { .. } => {
            let Follow { own, last } = follow;
            then(put(own, payload.into_part()), last)
        }
        _ => nothing(follow, payload),
    }
}

/// Nothing, where what came doesn't fit; what was kept and what came are let go.
fn nothing<T: Drop, U: Drop>(_kept: T, _came: U) -> Proc
    ensures { process result ≡ terms.Skip }
{
    Proc::Skip
}

/// The first, and then the second.
pub(crate) fn then(first: Box<Proc>, second: Box<Proc>) -> Proc
    ensures { process result ≡ after (process first.value) (process second.value) }
{
    if is_ended(&first) {
        drop(first);
        return Box::into_inner(second);
    }
    Proc::Seq(first, second)
}

/// Sends these messages.
pub(crate) fn telling(messages: Messages) -> Proc
    ensures { process result ≡ telling (letters messages) }
{
    match &messages {
        Messages::Nothing => {
            drop(messages);
            Proc::Skip
        }
        Messages::More(_, _, _) => Proc::Tell { messages },
    }
}

/// The box with the process in it.
fn put(hole: Box<Proc>, proc: Proc) -> Box<Proc>
    ensures { process result.value ≡ process proc }
{
    let mut filled = hole;
    drop(mem::replace(&mut *filled, proc));
    filled
}
