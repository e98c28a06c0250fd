//! What one op of the code offers, needs and writes.

ghost use Rattle.std.specs.Prelude.{◌≡◌, ◌++◌, ◌∷◌, [], List, true, IfOk, OnOk};
ghost use Rattle.dioc_terms.specs.declared.entries.Act.TheVariants as act;
ghost use Rattle.dioc_terms.specs.declared.processes.Tag.TheVariants as tags;
ghost use Rattle.dioc_terms.specs.KeptStores.{store_of};
ghost use Rattle.dioc_terms.specs.Processes.{Process, Gather, Tell, letters};
ghost use Rattle.dpoc_process.specs.Growth.{value_at, write_at};
ghost use Rattle.dpoc_process.specs.KeptGrowth.{write_of};
ghost use Rattle.flat_code.specs.Places.{op_process};
ghost use Rattle.flat_role.specs.Leaves.{is_single_op};
ghost use Rattle.process_steps.specs.Steps.{is_offered, key, offers};

use dioc_terms::{Act, Index, Key, Memory, Messages, Name, Role, Store, Tag, Value, eval};
use dpoc_process::growth::Write;
use dpoc_process::offered::{
    chooses, gathers, key_of, operation, picks, reads, receives, sends, sets, takes, tells,
};
use flat_code::Op;
use std::alloc::Global;

/// Adds the act of an op, where it offers one.
// (What makes a key stands apart: each arm would make room for its own at every op.)
pub(crate) fn add_offer(
    alloc: Global,
    me: &Role,
    op: &Op,
    acts: &mut Vec<Act>,
) -> Result<(), Memory>
    requires { is_single_op op.now ≡ true }
    ensures { OnOk result ((done : List Process) → acts.new.items
        ≡ acts.old.items ++ offers me.now (op_process done op.now)) }
{
    match op {
        Op::Assign { index, .. } => add_act(Act::Set(*index), acts),
        Op::Read { index, .. } => add_act(Act::Input(*index), acts),
        Op::IfLead { index, .. } | Op::WhileLead { index, .. } => {
            add_act(Act::Pick(*index), acts)
        }
        Op::ScopeLead { head, .. } => add_act(Act::Scope(head.index), acts),
        Op::Send { index, op, to, .. } => add_put(alloc, me, to, *index, op, acts),
        Op::Recv {
            index,
            op,
            from,
            ..
        } => add_take(alloc, from, me, *index, Tag::Op(op.copy(alloc)?), acts),
        Op::IfFollow { index, leader, .. } => {
            add_take(alloc, leader, me, *index, Tag::Choice, acts)
        }
        Op::WhileFollow { index, leader, .. } => {
            add_take(alloc, leader, me, *index, Tag::Go, acts)
        }
        Op::ScopeFollow { index, leader, .. } => {
            add_take(alloc, leader, me, *index, Tag::Begin, acts)
        }
        Op::Tell { messages } => add_told(alloc, me, messages, acts),
        Op::Gather { keys } => add_gathered(alloc, me, keys.as_slice(), acts),
        _ => Ok(()),
    }
}

/// Adds an act.
fn add_act(act: Act, acts: &mut Vec<Act>) -> Result<(), Memory>
    ensures { OnOk result (acts.new.items ≡ acts.old.items ++ act ∷ []) }
{
    acts.push(act)?;
    Ok(())
}

/// Adds the act that sends the message of an operation.
fn add_put(
    alloc: Global,
    me: &Role,
    to: &Role,
    index: Index,
    op: &Name,
    acts: &mut Vec<Act>,
) -> Result<(), Memory>
    ensures { OnOk result (acts.new.items ≡ acts.old.items
        ++ act.Put (key me.now to.now index (tags.Op op.now)) ∷ []) }
{
    acts.push(Act::Put(operation(alloc, me, to, index, op)?))?;
    Ok(())
}

/// Adds the act that takes the message of this tag.
pub(crate) fn add_take(
    alloc: Global,
    from: &Role,
    me: &Role,
    index: Index,
    tag: Tag,
    acts: &mut Vec<Act>,
) -> Result<(), Memory>
    ensures { OnOk result (acts.new.items ≡ acts.old.items
        ++ act.Take (key from.now me.now index tag) ∷ []) }
{
    acts.push(Act::Take(key_of(alloc, from, me, index, tag)?))?;
    Ok(())
}

/// Adds the act that sends the first of these messages.
#[inline(never)]
pub(crate) fn add_told(
    alloc: Global,
    me: &Role,
    messages: &Messages,
    acts: &mut Vec<Act>,
) -> Result<(), Memory>
    ensures { OnOk result (acts.new.items
        ≡ acts.old.items ++ offers me.now (Tell (letters messages.now))) }
{
    if let Messages::More(key, _, _) = messages {
        acts.push(Act::Put(key.copy(alloc)?))?;
    }
    Ok(())
}

/// Adds the act that takes the message of the first of these keys.
#[inline(never)]
pub(crate) fn add_gathered(
    alloc: Global,
    me: &Role,
    keys: &[Key],
    acts: &mut Vec<Act>,
) -> Result<(), Memory>
    ensures { OnOk result (acts.new.items ≡ acts.old.items ++ offers me.now (Gather keys.now)) }
{
    if let [key, ..] = keys {
        acts.push(Act::Take(key.copy(alloc)?))?;
    }
    Ok(())
}

/// Whether an op offers the act.
pub(crate) fn does(me: &Role, act: &Act, op: &Op) -> bool
    requires { is_single_op op.now ≡ true }
    ensures { (done : List Process) →
        result ≡ is_offered act.now (offers me.now (op_process done op.now)) }
{
    match op {
        Op::Assign { index, .. } => sets(act, *index),
        Op::Read { index, .. } => reads(act, *index),
        Op::IfLead { index, .. } | Op::WhileLead { index, .. } => picks(act, *index),
        Op::ScopeLead { head, .. } => chooses(act, head.index),
        Op::Send { index, op, to, .. } => sends(act, me, to, *index, op),
        Op::Recv {
            index,
            op,
            from,
            ..
        } => receives(act, from, me, *index, op),
        Op::IfFollow { index, leader, .. } => takes(act, leader, me, *index, &Tag::Choice),
        Op::WhileFollow { index, leader, .. } => takes(act, leader, me, *index, &Tag::Go),
        Op::ScopeFollow { index, leader, .. } => takes(act, leader, me, *index, &Tag::Begin),
        Op::Tell { messages } => tells(act, me, messages),
        Op::Gather { keys } => gathers(act, me, keys.as_slice()),
        _ => false,
    }
}

/// The one value that an op needs of its store.
pub(crate) fn value_of(alloc: Global, store: &Store, op: &Op) -> Result<Value, Memory>
    ensures { IfOk result (λ value. (done : List Process) →
        value ≡ value_at (store_of store.now) (op_process done op.now)) }
{
    match op {
        Op::Send { expr, .. } | Op::Assign { expr, .. } => eval(alloc, expr, store),
        Op::IfLead { guard, .. } | Op::WhileLead { guard, .. } => eval(alloc, guard, store),
        Op::Read { .. } => store.copy_of_next_input(alloc),
        _ => Ok(Value::Nil),
    }
}

/// What the step of an op writes.
pub(crate) fn write_of(alloc: Global, value: &Value, op: &Op) -> Result<Write, Memory>
    ensures { IfOk result (λ write. (done : List Process) →
        write_of write ≡ write_at value.now (op_process done op.now)) }
{
    match op {
        Op::Recv { var, .. } => Ok(Write::Keeps(var.copy(alloc)?)),
        Op::Assign { var, .. } => Ok(Write::Sets(var.copy(alloc)?, value.copy(alloc)?)),
        Op::Read { var, .. } => Ok(Write::Reads(var.copy(alloc)?)),
        _ => Ok(Write::Nothing),
    }
}
