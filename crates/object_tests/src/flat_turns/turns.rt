//! Turns of a role that runs, whatever form its process is kept in.

ghost use Rattle.std.specs.Prelude.{◌≡◌, true, IfOk};
ghost use Rattle.dioc_terms.specs.declared.processes.Tag.TheVariants as tags;
ghost use Rattle.dioc_terms.specs.Processes.{load};
ghost use Rattle.dpoc_process.specs.Handed.{given_like, handed};
ghost use Rattle.process_steps.specs.Laws.{given_fits, load_fits};

use crate::flat_turns::draws::Draw;
use crate::flat_turns::tasks::Task;
use dioc_terms::{
    Act, Items, Memory, Messages, Parts, Payload, Role, ScopeHead, Store, Tag, Value, give_up,
    roles,
};
use dpoc_process::makers::letters_to;
use dpoc_process::{Begins, Got, PrepareFault, Prepared, Runs};
use std::alloc::Global;

/// A role with a task before its first act, with one input.
pub fn begun<R: Begins>(alloc: Global, task: &Task) -> Result<R, Memory> {
    let role = task.role.copy(alloc)?;
    let mut inputs = Vec::new(alloc);
    inputs.push(Value::Int(5))?;
    let store = Store::new(alloc, Items::new(inputs));
    let cast = roles(alloc, &task.choreo)?;
    dioc_terms::casts_are_roles();
    let state = R::begin(alloc, role, &task.choreo, cast.as_slice(), store);
    drop(cast);
    state
}

/// What comes to an act of a role from outside, as it was drawn: a value, a flag, or what a scope
/// does.
fn coming(
    alloc: Global,
    task: &Task,
    act: &Act,
    head: &Option<ScopeHead>,
    draw: Draw,
) -> Result<Got, Memory>
    ensures { IfOk result (λ got. given_fits act.now (given_like (handed got)) ≡ true) }
{
    match act {
        Act::Take(key) => {
            let payload = payload(alloc, task, &key.tag, draw)?;
            Ok(Got::Payload(payload))
        }
        Act::Scope(_) if draw.keeps => Ok(Got::Keep),
        Act::Scope(_) => {
            let parts = parts(alloc, task, head, draw.epoch)?;
            Ok(Got::Parts(parts))
        }
        Act::Put(_) | Act::Set(_) | Act::Input(_) | Act::Pick(_) => Ok(Got::Nothing),
    }
}

/// Whether an update comes to the act.
pub fn is_update(act: &Act, draw: Draw) -> bool {
    match act {
        Act::Take(key) => key.tag == Tag::Begin && !draw.keeps,
        Act::Scope(_) => !draw.keeps,
        Act::Put(_) | Act::Set(_) | Act::Input(_) | Act::Pick(_) => false,
    }
}

/// The same of the message of a take.
fn payload(alloc: Global, task: &Task, tag: &Tag, draw: Draw) -> Result<Payload, Memory>
    ensures { IfOk result (λ payload. load_fits tag.now (load payload) ≡ true) }
{
    match tag {
        Tag::Op(_) => Ok(Payload::Val(Value::Int(draw.value))),
        Tag::Choice | Tag::Go => Ok(Payload::Flag(draw.flag)),
        Tag::Begin if draw.keeps => Ok(Payload::Keep),
        Tag::Begin => part(alloc, task, draw.epoch),
        Tag::Turn | Tag::End | Tag::Out => Ok(Payload::Done),
    }
}

/// The part of the role of an update, as a message carries it.
fn part(alloc: Global, task: &Task, epoch: u32) -> Result<Payload, Memory>
    ensures { IfOk result (λ payload. load_fits tags.Begin (load payload) ≡ true) }
{
    let proc = task.update.copy(alloc)?;
    Ok(Payload::Part { epoch, proc })
}

/// The parts of an update: that of the leader, and the messages to the others.
fn parts(
    alloc: Global,
    task: &Task,
    head: &Option<ScopeHead>,
    epoch: u32,
) -> Result<Parts, Memory> {
    let tell = match head {
        Some(head) => told(alloc, task, head, epoch)?,
        None => Messages::Nothing,
    };
    match task.update.copy(alloc) {
        Ok(own) => Ok(Parts { own, tell }),
        Err(fault) => give_up(tell, fault),
    }
}

/// The messages to the others of a scope. Each has the same part.
fn told(alloc: Global, task: &Task, head: &ScopeHead, epoch: u32) -> Result<Messages, Memory> {
    let others = others(alloc, head)?;
    let part = part(alloc, task, epoch)?;
    let told = letters_to(
        alloc,
        &head.leader,
        others.as_slice(),
        head.index,
        &Tag::Begin,
        &part,
    );
    drop((others, part));
    told
}

/// The roles of a scope but its leader.
fn others(alloc: Global, head: &ScopeHead) -> Result<Vec<Role>, Memory> {
    let mut others = Vec::new(alloc);
    for role in head.roles.as_slice() {
        if *role != head.leader {
            let role = role.copy(alloc)?;
            others.push(role)?;
        }
    }
    Ok(others)
}

/// A turn of a role: it is prepared for an act, and advances by it with what was drawn.
pub fn turn<R: Runs>(
    alloc: Global,
    task: &Task,
    state: &mut R,
    act: &Act,
    draw: Draw,
) -> Result<Prepared, PrepareFault> {
    process_steps::offers_are_steps();
    let prepared = state.prepare(alloc, act)?;
    match coming(alloc, task, act, &prepared.head, draw) {
        Ok(got) => {
            state.advance(act, got);
            Ok(prepared)
        }
        Err(fault) => {
            drop(prepared);
            Err(PrepareFault::from(fault))
        }
    }
}
