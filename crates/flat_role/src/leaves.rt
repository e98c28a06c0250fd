//! What is next at a place that can act.

ghost use Rattle.std.specs.Prelude.{◌≡◌, ◌<◌, ◌++◌, ◌∷◌, [], List, true, false, drop, IfOk, OnOk, length};
ghost use Rattle.dioc_terms.specs.declared.entries.Act.TheVariants as acts_of;
ghost use Rattle.dioc_terms.specs.declared.names.Role.{Role};
ghost use Rattle.dioc_terms.specs.declared.processes.Key.{Key};
ghost use Rattle.dioc_terms.specs.KeptStores.{store_of};
ghost use Rattle.dioc_terms.specs.Processes.{Process, noted};
ghost use Rattle.dpoc_process.specs.Growth.{value_at, write_at};
ghost use Rattle.dpoc_process.specs.KeptGrowth.{write_of};
ghost use Rattle.flat_code.specs.Places.{op_process};
ghost use Rattle.flat_role.specs.KeptMarks.{awaited, end_keys, first_letters, gathered, last_keys, last_letters, left, letters_from, told};
ghost use Rattle.flat_role.specs.Leaves.{IsNext, front, is_first, is_leaf, is_single_next, load_of, tag_of};
ghost use Rattle.flat_role.specs.MovedMarks.{runs_update};
ghost use Rattle.flat_role.specs.PlanMarks.{mark_in, plan_len, plan_marks, static_at};
ghost use Rattle.flat_role.specs.Updates.{is_fresh};
ghost use Rattle.process_steps.specs.Steps.{gathering, is_offered, key, letters_to, offers, telling};
ghost use Rattle.role_statuses.specs.Marks as marks_of;
ghost use Rattle.role_statuses.specs.PlaceLaws.{status_at};
ghost use Rattle.role_statuses.specs.Statuses.{keys_of, leaves};

use crate::marks::Mark;
use crate::parts::{add_gathered, add_offer, add_take, add_told, does, value_of, write_of};
use dioc_terms::{Act, Index, Key, Memory, Messages, Note, Role, Roles, Store, Tag, Value};
use dpoc_process::growth::Write;
use dpoc_process::offered::{gathers, key_of, takes, tells};
use flat_code::{Op, Plan};
use std::alloc::Global;

/// A message between a leader and another role of its construct: what it is for and what it
/// carries.
#[derive(Clone, Copy)]
pub(crate) enum Sign {
    /// Which branch the leader picked.
    Choice(bool),
    /// Whether there is another turn.
    Go(bool),
    /// A turn has ended.
    Turn,
    /// The scope keeps its body.
    Begin,
    /// A part of a scope has ended.
    End,
    /// The scope has ended.
    Out,
}

/// What is next at a place that can act.
#[derive(Clone, Copy)]
pub(crate) enum Next<'a> {
    /// The op, of which nothing was done.
    Op(&'a Op),
    /// Puts a message.
    Put {
        to: &'a Role,
        index: Index,
        sign: Sign,
    },
    /// Takes a message.
    Take {
        from: &'a Role,
        index: Index,
        sign: Sign,
    },
    /// Takes the message of the first of these keys.
    Gather(&'a [Key]),
    /// Puts the first of these messages.
    Tell(&'a Messages),
    /// Nothing.
    Nothing,
}

impl Sign {
    pub(crate) fn tag(self) -> Tag
        ensures { result ≡ tag_of self }
    {
        match self {
            Sign::Choice(_) => Tag::Choice,
            Sign::Go(_) => Tag::Go,
            Sign::Turn => Tag::Turn,
            Sign::Begin => Tag::Begin,
            Sign::End => Tag::End,
            Sign::Out => Tag::Out,
        }
    }

    pub(crate) fn note(self) -> Note
        ensures { result ≡ noted (load_of self) }
    {
        match self {
            Sign::Choice(flag) | Sign::Go(flag) => Note::Flag(flag),
            Sign::Begin => Note::Keep,
            Sign::Turn | Sign::End | Sign::Out => Note::Done,
        }
    }
}

/// What is next at a place that can act itself, in whose place no other process runs.
pub(crate) fn next_at<'a>(me: &Role, plan: &'a Plan, marks: &'a [Mark], place: usize) -> Next<'a>
    requires inside { place < plan_len plan.now }
    requires as_long { length marks.now ≡ plan_len plan.now }
    requires own { runs_update (mark_in marks.now place) ≡ false }
    ensures next { IsNext me.now result
        (front me.now (plan_marks me.now plan.now marks.now place) (static_at plan.now place)) }
    ensures first { is_first result ≡ is_fresh (mark_in marks.now place) }
{
    let op = plan.code.op_at(place);
    match &marks[place] {
        Mark::Untouched => Next::Op(op),
        Mark::Telling(flag, done) => telling(op, *flag, *done),
        Mark::Gathering(done) => gathering(op, *done),
        Mark::Ending => ending(op),
        Mark::Left(done) => left(op, *done),
        Mark::Waiting(done) => waiting(op, *done),
        _ => Next::Nothing,
    }
}

/// The message to the role after so many of these.
fn put_to<'a>(others: &'a Roles, done: usize, index: Index, sign: Sign) -> Next<'a>
    ensures next { (me : Role) → IsNext me result (telling
        (letters_from done (letters_to me others.now index (tag_of sign) (λ q. load_of sign)))) }
    ensures first { is_first result ≡ false }
{
    match others.as_slice().get(done) {
        Some(to) => Next::Put { to, index, sign },
        None => Next::Nothing,
    }
}

/// The message of the role after so many of these.
fn take_from<'a>(others: &'a Roles, done: usize, index: Index, sign: Sign) -> Next<'a>
    ensures next { (me : Role) → IsNext me result
        (gathering (drop done (keys_of me others.now index (tag_of sign)))) }
    ensures first { is_first result ≡ false }
{
    match others.as_slice().get(done) {
        Some(from) => Next::Take { from, index, sign },
        None => Next::Nothing,
    }
}

/// What a leader tells before it goes on, after so many messages.
fn telling<'a>(op: &'a Op, flag: bool, done: usize) -> Next<'a>
    ensures next { (me : Role) (parts : List Process) → IsNext me result (front me
        (told flag (letters_from done (first_letters me (op_process parts op.now) flag)))
        (op_process parts op.now)) }
    ensures first { is_first result ≡ false }
{
    match op {
        Op::IfLead { index, others, .. } => put_to(others, done, *index, Sign::Choice(flag)),
        Op::WhileLead { index, others, .. } => put_to(others, done, *index, Sign::Go(flag)),
        Op::ScopeLead { head, others, .. } => put_to(others, done, head.index, Sign::Begin),
        _ => Next::Nothing,
    }
}

/// The end that a leader takes, after so many.
fn gathering<'a>(op: &'a Op, done: usize) -> Next<'a>
    ensures next { (me : Role) (parts : List Process) → IsNext me result (front me
        (gathered (drop done (end_keys me (op_process parts op.now)))) (op_process parts op.now)) }
    ensures first { is_first result ≡ false }
{
    match op {
        Op::WhileLead { index, others, .. } => take_from(others, done, *index, Sign::Turn),
        Op::ScopeLead { head, others, .. } => take_from(others, done, head.index, Sign::End),
        _ => Next::Nothing,
    }
}

/// The end that a follower puts.
fn ending<'a>(op: &'a Op) -> Next<'a>
    ensures next { (me : Role) (parts : List Process) →
        IsNext me result (front me marks_of.Ending (op_process parts op.now)) }
    ensures first { is_first result ≡ false }
{
    match op {
        Op::WhileFollow { index, leader, .. } => Next::Put {
            to: leader,
            index: *index,
            sign: Sign::Turn,
        },
        Op::ScopeFollow { index, leader, .. } => Next::Put {
            to: leader,
            index: *index,
            sign: Sign::End,
        },
        _ => Next::Nothing,
    }
}

/// The last that is told, after so many messages.
fn left<'a>(op: &'a Op, done: usize) -> Next<'a>
    ensures next { (me : Role) (parts : List Process) → IsNext me result (front me
        (left (letters_from done (last_letters me (op_process parts op.now))))
        (op_process parts op.now)) }
    ensures first { is_first result ≡ false }
{
    match op {
        Op::WhileLead { index, others, .. } => put_to(others, done, *index, Sign::Go(false)),
        Op::ScopeLead { head, others, .. } => put_to(others, done, head.index, Sign::Out),
        _ => Next::Nothing,
    }
}

/// The last that is taken, after so many messages.
fn waiting<'a>(op: &'a Op, done: usize) -> Next<'a>
    ensures next { (me : Role) (parts : List Process) → IsNext me result (front me
        (awaited (drop done (last_keys me (op_process parts op.now)))) (op_process parts op.now)) }
    ensures first { is_first result ≡ false }
{
    match op {
        Op::ScopeFollow { index, leader, .. } => match done {
            0 => Next::Take {
                from: leader,
                index: *index,
                sign: Sign::Out,
            },
            _ => Next::Nothing,
        },
        Op::Gather { keys } => gather_from(keys.as_slice(), done),
        _ => Next::Nothing,
    }
}

/// These keys without so many at the front.
fn gather_from<'a>(keys: &'a [Key], done: usize) -> Next<'a>
    ensures next { (me : Role) → IsNext me result (gathering (drop done keys.now)) }
    ensures first { is_first result ≡ false }
{
    if done < keys.len() {
        return Next::Gather(&keys[done..]);
    }
    Next::Nothing
}

/// Adds the acts that a place offers.
pub(crate) fn add_acts_at(
    alloc: Global,
    me: &Role,
    plan: &Plan,
    marks: &[Mark],
    place: usize,
    acts: &mut Vec<Act>,
) -> Result<(), Memory>
    requires inside { place < plan_len plan.now }
    requires as_long { length marks.now ≡ plan_len plan.now }
    requires own { runs_update (mark_in marks.now place) ≡ false }
    requires leaf { is_leaf (plan_marks me.now plan.now marks.now place) (static_at plan.now place)
        ≡ true }
    ensures { OnOk result (acts.new.items ≡ acts.old.items
        ++ leaves me.now (status_at (plan_marks me.now plan.now marks.now) place)
        (static_at plan.now place)) }
{
    let next = next_at(me, plan, marks, place);
    add_offers_of(alloc, me, next, acts)
}

/// Adds the acts of what is next.
#[inline(never)]
fn add_offers_of(
    alloc: Global,
    me: &Role,
    next: Next<'_>,
    acts: &mut Vec<Act>,
) -> Result<(), Memory>
    requires { is_single_next next ≡ true }
    ensures { (R : Process) → IsNext me.now next.entry R →
        OnOk result (acts.new.items ≡ acts.old.items ++ offers me.now R) }
{
    match next {
        Next::Op(op) => add_offer(alloc, me, op, acts),
        Next::Put { to, index, sign } => add_put(alloc, me, to, index, sign.tag(), acts),
        Next::Take { from, index, sign } => add_take(alloc, from, me, index, sign.tag(), acts),
        Next::Gather(keys) => add_gathered(alloc, me, keys, acts),
        Next::Tell(messages) => add_told(alloc, me, messages, acts),
        Next::Nothing => Ok(()),
    }
}

/// Adds the act that puts an auxiliary message.
fn add_put(
    alloc: Global,
    from: &Role,
    to: &Role,
    index: Index,
    tag: Tag,
    acts: &mut Vec<Act>,
) -> Result<(), Memory>
    ensures { OnOk result (acts.new.items ≡ acts.old.items
        ++ acts_of.Put (key from.now to.now index tag) ∷ []) }
{
    acts.push(Act::Put(key_of(alloc, from, to, index, tag)?))?;
    Ok(())
}

/// Whether a place offers the act.
pub(crate) fn offers_at(me: &Role, plan: &Plan, marks: &[Mark], place: usize, act: &Act) -> bool
    requires inside { place < plan_len plan.now }
    requires as_long { length marks.now ≡ plan_len plan.now }
    requires own { runs_update (mark_in marks.now place) ≡ false }
    requires leaf { is_leaf (plan_marks me.now plan.now marks.now place) (static_at plan.now place)
        ≡ true }
    ensures { result ≡ is_offered act.now
        (leaves me.now (status_at (plan_marks me.now plan.now marks.now) place)
        (static_at plan.now place)) }
{
    let next = next_at(me, plan, marks, place);
    offers_next(me, act, next)
}

/// Whether the act is one of what is next.
pub(crate) fn offers_next(me: &Role, act: &Act, next: Next<'_>) -> bool
    requires { is_single_next next ≡ true }
    ensures { (R : Process) → IsNext me.now next.entry R →
        result ≡ is_offered act.now (offers me.now R) }
{
    match next {
        Next::Op(op) => does(me, act, op),
        Next::Put { to, index, sign } => puts(act, me, to, index, &sign.tag()),
        Next::Take { from, index, sign } => takes(act, from, me, index, &sign.tag()),
        Next::Gather(keys) => gathers(act, me, keys),
        Next::Tell(messages) => tells(act, me, messages),
        Next::Nothing => false,
    }
}

/// Whether the act puts the message.
fn puts(act: &Act, from: &Role, to: &Role, index: Index, tag: &Tag) -> bool
    ensures { result ≡ is_offered act.now
        (acts_of.Put (key from.now to.now index tag.now) ∷ []) }
{
    match act {
        Act::Put(key) => {
            key.from == *from && key.to == *to && key.index == index && key.tag == *tag
        }
        _ => false,
    }
}

/// The one value that an act needs of its store.
pub(crate) fn value_for(alloc: Global, store: &Store, next: Next<'_>) -> Result<Value, Memory>
    ensures { (me : Role) (R : Process) → IsNext me next.entry R →
        IfOk result (λ value. value ≡ value_at (store_of store.now) R) }
{
    match next {
        Next::Op(op) => value_of(alloc, store, op),
        _ => Ok(Value::Nil),
    }
}

/// What its step writes.
pub(crate) fn write_for(alloc: Global, value: &Value, next: Next<'_>) -> Result<Write, Memory>
    ensures { (me : Role) (R : Process) → IsNext me next.entry R →
        IfOk result (λ write. write_of write ≡ write_at value.now R) }
{
    match next {
        Next::Op(op) => write_of(alloc, value, op),
        _ => Ok(Write::Nothing),
    }
}
