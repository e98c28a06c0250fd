//! What is made ready of an act before it is known what comes with it.
//!
//! Some errors are passed on by a `match`: a `?` is proved through all forms of a process that the
//! result may hold.

ghost use Rattle.std.specs.Prelude.{◌≡◌, true, false, IfOk};
ghost use Rattle.dioc_terms.specs.KeptStores.{store_of};
ghost use Rattle.dioc_terms.specs.Processes.{process, letters, load};
ghost use Rattle.dioc_terms.specs.Values.{is_true};
ghost use Rattle.dpoc_process.specs.Changes as changes;
ghost use Rattle.dpoc_process.specs.Growth.{growth, grown, leads_loop, value_at, write_at};
ghost use Rattle.dpoc_process.specs.Growth as growths;
ghost use Rattle.dpoc_process.specs.Handed.{handed, Message, Parted};
ghost use Rattle.dpoc_process.specs.KeptChanges.{part_change};
ghost use Rattle.dpoc_process.specs.KeptGrowth.{growth_of, write_of};
ghost use Rattle.process_steps.specs.Steps.{key, tell, gather, send_one};
ghost use Rattle.dioc_terms.specs.declared.processes.Tag.TheVariants as tags;
ghost use Rattle.dioc_terms.specs.Processes as loads;

use crate::changes::{Change, Entrance, Turn, closed, telling, then, within};
use crate::makers::{
    boxed_copy, follower_end, gather, hole, leader_end, send_one, tell, tell_flag,
};
use crate::runs::Got;
use dioc_terms::{
    Index, Memory, Name, Parts, Payload, Proc, Role, ScopeHead, Store, Tag, Value, eval, give_up,
    new_box, new_boxes,
};
use std::alloc::Global;

/// A change, or what is known of it before it is known what comes with the act.
#[derive(Drop)]
pub(crate) enum Growth {
    /// The change.
    Certain(Change),
    /// A branch, by the flag that comes; a box for what is told first.
    ByFlag(Box<Proc>),
    /// A turn where the flag that comes is true.
    Looping(Turn),
    /// A scope that the role leads; a box for its own part of an update.
    Leading { at: Entrance, own: Box<Proc> },
    /// A scope that another role leads; a box for the part of an update.
    Following { at: Entrance, own: Box<Proc> },
}

/// What a step writes into the store.
#[derive(Drop)]
pub enum Write {
    /// Nothing.
    Nothing,
    /// The value that comes, in this variable.
    Keeps(Name),
    /// This value in this variable.
    Sets(Name, Value),
    /// The next input, in this variable.
    Reads(Name),
}

/// The one value that the part needs of its store.
pub(crate) fn value_at(alloc: Global, store: &Store, part: &Proc) -> Result<Value, Memory>
    ensures { IfOk result (λ value. value ≡ value_at (store_of store.now) (process part.now)) }
{
    match part {
        Proc::Send { expr, .. } | Proc::Assign { expr, .. } => eval(alloc, expr, store),
        Proc::IfLead { guard, .. } | Proc::WhileLead { guard, .. } => eval(alloc, guard, store),
        Proc::Read { .. } => store.copy_of_next_input(alloc),
        _ => Ok(Value::Nil),
    }
}

/// What the step writes.
pub(crate) fn write_at(alloc: Global, value: &Value, part: &Proc) -> Result<Write, Memory>
    ensures { IfOk result (λ write. write_of write ≡ write_at value.now (process part.now)) }
{
    match part {
        Proc::Recv { var, .. } => Ok(Write::Keeps(var.copy(alloc)?)),
        Proc::Assign { var, .. } => set_write(alloc, var, value),
        Proc::Read { var, .. } => Ok(Write::Reads(var.copy(alloc)?)),
        _ => Ok(Write::Nothing),
    }
}

/// Sets the variable to the value.
fn set_write(alloc: Global, var: &Name, value: &Value) -> Result<Write, Memory>
    ensures { IfOk result (λ write. write_of write ≡ growths.Sets var.now value.now) }
{
    let var = var.copy(alloc)?;
    match value.copy(alloc) {
        Ok(value) => Ok(Write::Sets(var, value)),
        Err(fault) => give_up(var, fault),
    }
}

/// Whether the value is true.
pub fn is_true(value: &Value) -> bool
    ensures { result ≡ is_true value.now }
{
    match value {
        Value::Bool(flag) => *flag,
        _ => false,
    }
}

/// What is made ready of the part, with the value that it needs.
pub(crate) fn growth_at(
    alloc: Global,
    me: &Role,
    value: &Value,
    part: &Proc,
) -> Result<Growth, Memory>
    ensures { IfOk result (λ made. growth_of made ≡ growth me.now value.now (process part.now)) }
{
    match part {
        Proc::IfLead { index, others, .. } => {
            led_choice(alloc, me, *index, others.as_slice(), is_true(value))
        }
        Proc::WhileLead {
            index,
            others,
            body,
            ..
        } => led_loop(alloc, me, *index, others.as_slice(), body, is_true(value)),
        Proc::ScopeLead { head, others, .. } => led_scope(alloc, me, head, others.as_slice()),
        Proc::WhileFollow {
            index,
            leader,
            body,
        } => followed_loop(alloc, me, *index, leader, body),
        Proc::ScopeFollow { index, leader, .. } => followed_scope(alloc, me, *index, leader),
        Proc::IfFollow { .. } => match hole(alloc) {
            Ok(first) => Ok(Growth::ByFlag(first)),
            Err(fault) => Err(fault),
        },
        Proc::Tell { .. } | Proc::Gather { .. } => Ok(Growth::Certain(Change::Rest)),
        _ => Ok(Growth::Certain(Change::Becomes(Proc::Skip))),
    }
}

/// The pick of a branch: what is told, and then the branch.
fn led_choice(
    alloc: Global,
    me: &Role,
    index: Index,
    others: &[Role],
    flag: bool,
) -> Result<Growth, Memory>
    ensures { IfOk result (λ made. growth_of made ≡ growths.Certain
        (changes.Branches (tell me.now others.now index tags.Choice (λ q. loads.Flag flag)) flag)) }
{
    let told = tell_flag(alloc, me, others, index, &Tag::Choice, flag)?;
    let first = new_box(alloc, told)?;
    Ok(Growth::Certain(Change::Branches { first, flag }))
}

/// The pick before a turn.
fn led_loop(
    alloc: Global,
    me: &Role,
    index: Index,
    others: &[Role],
    body: &Proc,
    flag: bool,
) -> Result<Growth, Memory>
    ensures { IfOk result (λ made.
        growth_of made ≡ leads_loop me.now index others.now (process body.now) flag) }
{
    match flag {
        true => led_turn(alloc, me, index, others, body),
        false => led_end(alloc, me, index, others),
    }
}

/// What is told where there is a turn, and the turn.
fn led_turn(
    alloc: Global,
    me: &Role,
    index: Index,
    others: &[Role],
    body: &Proc,
) -> Result<Growth, Memory>
    ensures { IfOk result (λ made.
        growth_of made ≡ leads_loop me.now index others.now (process body.now) true) }
{
    let told = tell_flag(alloc, me, others, index, &Tag::Go, true)?;
    match gather(alloc, me, others, index, &Tag::Turn) {
        Ok(ends) => turn_between(alloc, told, body, ends),
        Err(fault) => give_up(told, fault),
    }
}

/// A turn between what is told first and the ends of the others.
fn turn_between(alloc: Global, told: Proc, body: &Proc, ends: Proc) -> Result<Growth, Memory>
    ensures { IfOk result (λ made. growth_of made ≡ growths.Certain
        (changes.Turns (process told) (process body.now) (process ends))) }
{
    let (first, last) = new_boxes(alloc, told, ends)?;
    let turn = turn(alloc, first, body, last)?;
    Ok(Growth::Certain(Change::Turns(turn)))
}

/// What is told where there is no further turn.
fn led_end(alloc: Global, me: &Role, index: Index, others: &[Role]) -> Result<Growth, Memory>
    ensures { IfOk result (λ made. growth_of made ≡ growths.Certain
        (changes.Becomes (tell me.now others.now index tags.Go (λ q. loads.Flag false)))) }
{
    match tell_flag(alloc, me, others, index, &Tag::Go, false) {
        Ok(told) => Ok(Growth::Certain(Change::Becomes(told))),
        Err(fault) => Err(fault),
    }
}

/// A turn of a loop that another role leads.
fn followed_loop(
    alloc: Global,
    me: &Role,
    index: Index,
    leader: &Role,
    body: &Proc,
) -> Result<Growth, Memory>
    ensures { IfOk result (λ made. growth_of made ≡ growths.Looping
        (process body.now) (send_one (key me.now leader.now index tags.Turn) loads.Done)) }
{
    let first = hole(alloc)?;
    let last = new_box(alloc, send_one(alloc, me, leader, index, Tag::Turn)?)?;
    Ok(Growth::Looping(turn(alloc, first, body, last)?))
}

/// A turn with a copy of the body.
fn turn(alloc: Global, first: Box<Proc>, body: &Proc, last: Box<Proc>) -> Result<Turn, Memory>
    ensures first { IfOk result (λ turn. process turn.first.value ≡ process first.value) }
    ensures body { IfOk result (λ turn. process turn.body.value ≡ process body.now) }
    ensures last { IfOk result (λ turn. process turn.last.value ≡ process last.value) }
{
    Ok(Turn {
        first,
        body: boxed_copy(alloc, body)?,
        last,
        again: hole(alloc)?,
        rest: hole(alloc)?,
        inner: hole(alloc)?,
    })
}

/// The begin of a scope: what is told where it keeps its body, and what follows the body.
fn led_scope(alloc: Global, me: &Role, head: &ScopeHead, others: &[Role]) -> Result<Growth, Memory>
    ensures { IfOk result (λ made. growth_of made ≡ growths.Leading
        (tell me.now others.now head.now.index tags.Begin (λ q. loads.Keep))
        (growths.leader_end me.now others.now head.now.index)) }
{
    let told = tell(alloc, me, others, head.index, &Tag::Begin, &Payload::Keep)?;
    match leader_end(alloc, me, others, head.index) {
        Ok(last) => led_entrance(alloc, told, last),
        Err(fault) => give_up(told, fault),
    }
}

/// Boxes for the begin of a scope.
fn led_entrance(alloc: Global, told: Proc, last: Box<Proc>) -> Result<Growth, Memory>
    ensures { IfOk result (λ made.
        growth_of made ≡ growths.Leading (process told) (process last.value)) }
{
    match new_boxes(alloc, told, Proc::Skip) {
        Ok((first, inner)) => leading(alloc, Entrance { first, last, inner }),
        Err(fault) => give_up(last, fault),
    }
}

/// A box for the leader's own part of an update.
fn leading(alloc: Global, at: Entrance) -> Result<Growth, Memory>
    ensures { IfOk result (λ made. growth_of made
        ≡ growths.Leading (process at.first.value) (process at.last.value)) }
{
    match hole(alloc) {
        Ok(own) => Ok(Growth::Leading { at, own }),
        Err(fault) => give_up(at, fault),
    }
}

/// The begin of a scope that another role leads: what follows the body.
fn followed_scope(alloc: Global, me: &Role, index: Index, leader: &Role) -> Result<Growth, Memory>
    ensures { IfOk result (λ made.
        growth_of made ≡ growths.Following (growths.follower_end me.now leader.now index)) }
{
    let at = Entrance {
        first: hole(alloc)?,
        last: follower_end(alloc, me, leader, index)?,
        inner: hole(alloc)?,
    };
    Ok(Growth::Following {
        at,
        own: hole(alloc)?,
    })
}

/// The change, once it is known what comes with the act. It takes no memory.
pub(crate) fn grown(growth: Growth, got: Got) -> Change
    ensures { part_change result ≡ grown (growth_of growth) (handed got) }
{
    match growth {
        Growth::Certain(change) => {
            drop(got);
            change
        }
        Growth::ByFlag(first) => by_flag(first, got),
        Growth::Looping(turn) => turned_by(turn, got),
        Growth::Leading { at, own } => led_by(at, own, got),
        Growth::Following { at, own } => followed_by(at, own, got),
    }
}

/// Nothing is left, where what came doesn't fit; what was kept and what came are let go.
fn nothing<T: Drop, U: Drop>(_kept: T, _came: U) -> Change
    ensures { part_change result ≡ changes.Becomes loads.Skip }
{
    Change::Becomes(Proc::Skip)
}

fn by_flag(first: Box<Proc>, got: Got) -> Change
    ensures { part_change result ≡ grown growths.ByFlag (handed got) }
{
    match got {
        Got::Payload(payload) => branch_of(first, payload),
        other => nothing(first, other),
    }
}

fn branch_of(first: Box<Proc>, payload: Payload) -> Change
    ensures { part_change result ≡ grown growths.ByFlag (Message (load payload)) }
{
    match &payload {
        Payload::Flag(flag) => {
            let flag = *flag;
            drop(payload);
            Change::Branches {
                first: closed(first, Proc::Skip),
                flag,
            }
        }
        _ => nothing(first, payload),
    }
}

fn turned_by(turn: Turn, got: Got) -> Change
    ensures { part_change result ≡
        grown (growths.Looping (process turn.body.value) (process turn.last.value)) (handed got) }
{
    match got {
        Got::Payload(payload) => turn_of(turn, payload),
        other => nothing(turn, other),
    }
}

fn turn_of(turn: Turn, payload: Payload) -> Change
    ensures { part_change result ≡
        grown (growths.Looping (process turn.body.value) (process turn.last.value))
        (Message (load payload)) }
{
    match &payload {
        Payload::Flag(flag) => {
            let flag = *flag;
            drop(payload);
            turn_for(turn, flag)
        }
        _ => nothing(turn, payload),
    }
}

fn turn_for(turn: Turn, flag: bool) -> Change
    ensures { part_change result ≡
        grown (growths.Looping (process turn.body.value) (process turn.last.value))
        (Message (loads.Flag flag)) }
{
    if flag {
        return Change::Turns(Turn {
            first: closed(turn.first, Proc::Skip),
            body: turn.body,
            last: turn.last,
            again: turn.again,
            rest: turn.rest,
            inner: turn.inner,
        });
    }
    nothing(turn, flag)
}

fn led_by(at: Entrance, own: Box<Proc>, got: Got) -> Change
    ensures { part_change result ≡
        grown (growths.Leading (process at.first.value) (process at.last.value)) (handed got) }
{
    match got {
        Got::Parts(parts) => parted(at, own, parts),
        other => {
            drop((own, other));
            Change::Enters(at)
        }
    }
}

/// The leader's own part of an update, after the others are told theirs.
fn parted(at: Entrance, own: Box<Proc>, parts: Parts) -> Change
    ensures { part_change result ≡
        grown (growths.Leading (process at.first.value) (process at.last.value))
        (Parted (process parts.own) (letters parts.tell)) }
{
    let Entrance { first, last, inner } = at;
    let Parts { own: part, tell } = parts;
    let first = closed(first, telling(tell));
    Change::Becomes(within(first, closed(own, part), last, inner))
}

fn followed_by(at: Entrance, own: Box<Proc>, got: Got) -> Change
    ensures { part_change result ≡ grown (growths.Following (process at.last.value)) (handed got) }
{
    match got {
        Got::Payload(payload) => begun_by(at, own, payload),
        other => {
            drop((own, other));
            kept(at)
        }
    }
}

fn begun_by(at: Entrance, own: Box<Proc>, payload: Payload) -> Change
    ensures { part_change result ≡ grown (growths.Following (process at.last.value))
        (Message (load payload)) }
{
    match &payload {
        Payload::Part { .. } => Change::Becomes(then(closed(own, payload.into_part()), at.last)),
        _ => {
            drop((own, payload));
            kept(at)
        }
    }
}

/// The body of the scope, with nothing told first.
fn kept(at: Entrance) -> Change
    ensures { part_change result ≡ changes.Enters loads.Skip (process at.last.value) }
{
    Change::Enters(Entrance {
        first: closed(at.first, Proc::Skip),
        last: at.last,
        inner: at.inner,
    })
}
