//! The acts of a role, but the begin of a scope: each is committed on the stage, and then done by
//! the role's own state.

ghost use Rattle.std.specs.Prelude.{◌≡◌, true, false, Err, IfErr, IfOk, IsSome, Ok, Some};
ghost use Rattle.dioc_terms.specs.Messages.{act_of};
ghost use Rattle.dioc_terms.specs.declared.entries.Act.TheVariants as acts;
ghost use Rattle.dioc_terms.specs.declared.processes.Key.{Key as OneKey};
ghost use Rattle.dioc_terms.specs.declared.processes.Payload.{Payload as OnePayload};
ghost use Rattle.dioc_terms.specs.Plain.{plain};
ghost use Rattle.flat_role.specs.FlatStates.{local_of, IsReady};
ghost use Rattle.dpoc_process.specs.declared.runs.Got.TheVariants as got;
ghost use Rattle.dpoc_process.specs.RoleSteps.{IsShown};
ghost use Rattle.marked_laws.specs.Laws.{IsSound};
ghost use Rattle.role_runner.specs.Acts.{is_alone, is_scope};
ghost use Rattle.role_runner.specs.Ties.{IfRefused, IsCommitted, IsRefusedTry, IsTied, IsUncommitted, Leaves, is_not_yet};
ghost use Rattle.stage.specs.Seats.{CanCommitOwn, CommittedOwn, RefusedFor};
ghost use Rattle.stage.specs.Faults.{role_fault};
ghost use Rattle.stage.specs.Stages.{IsSeatIn};
ghost use Rattle.turn_lock.specs.Words.{view};

use crate::actors::Actor;
use crate::gates::{Gate, Place};
use dioc_terms::{Act, Entry, Key, Payload};
use dpoc_process::{Got, Runs, Shown};
use flat_role::FlatRole;
use stage::{CommitFault, Home, Stage};
use std::sync::Wait;
use turn_lock::Seat;

/// How a try of an act ended.
#[derive(Clone, Copy)]
pub(crate) enum Tried {
    /// It was done.
    Done,
    /// It was refused. The role may try again after `NotYet` alone.
    Refused(CommitFault),
    /// It was committed, and then there was no memory for what follows it. The role's own state is
    /// behind its seat.
    Behind,
}

impl Tried {
    /// Whether the act was refused since it may not come yet.
    pub(crate) fn is_not_yet(&self) -> bool
        ensures { result ≡ is_not_yet self.now }
    {
        matches!(self, Tried::Refused(CommitFault::NotYet))
    }
}

/// Commits an act for which the role is ready, and lets the role's own state do it. A scope is
/// begun elsewhere.
pub(crate) fn commit<R: Wait, G: Gate>(
    rt: &R,
    actor: &Actor<'_, G>,
    seat: Seat<Home>,
    state: &mut FlatRole,
    act: &Act,
    shown: Shown,
) -> (Seat<Home>, Tried)
    requires sound { IsSound (plain actor.now.bundle.now) }
    requires of { IsSeatIn actor.now.stage.now seat }
    requires tied { IsTied (plain actor.now.bundle.now) actor.now.role.now (view seat)
        (local_of state.old) }
    requires shown { IsShown (local_of state.old) act.now shown }
    requires ready { IsReady state.old act.now }
    requires no_scope { is_scope act.now ≡ false }
    ensures of { IsSeatIn actor.now.stage.now result.0 }
    ensures leaves { Leaves (plain actor.now.bundle.now) actor.now.role.now (view seat)
        (view result.0) result.1 (local_of state.new) }
    ensures refused { IfRefused result.1 (IsRefusedTry act.now (view seat) (view result.0)
        (local_of state.old) (local_of state.new)) }
{
    let (seat, done) = on_stage(rt, actor, seat, state, act, shown);
    match done {
        Ok(got) => {
            actor.gate.pass(rt, Place::AfterStep(actor.role));
            state.advance(act, got);
            (seat, Tried::Done)
        }
        Err(fault) => (seat, Tried::Refused(fault)),
    }
}

/// Commits an act for which the role is ready. The role's own state stays as it is; what the commit
/// brings is what its step takes.
fn on_stage<R: Wait, G: Gate>(
    rt: &R,
    actor: &Actor<'_, G>,
    seat: Seat<Home>,
    state: &FlatRole,
    act: &Act,
    shown: Shown,
) -> (Seat<Home>, Result<Got, CommitFault>)
    requires sound { IsSound (plain actor.now.bundle.now) }
    requires of { IsSeatIn actor.now.stage.now seat }
    requires tied { IsTied (plain actor.now.bundle.now) actor.now.role.now (view seat)
        (local_of state.now) }
    requires shown { IsShown (local_of state.now) act.now shown }
    requires no_scope { is_scope act.now ≡ false }
    ensures of { IsSeatIn actor.now.stage.now result.0 }
    ensures done { IfOk result.1 (IsCommitted (plain actor.now.bundle.now) actor.now.role.now
        (view seat) (view result.0) (local_of state.now) act.now) }
    ensures refused { IfErr result.1 (IsUncommitted (plain actor.now.bundle.now)
        actor.now.role.now (view seat) (view result.0) (local_of state.now) act.now) }
{
    marked_laws::term_laws();
    process_steps::offers_are_steps();
    process_steps::steps_show_their_acts();
    match act {
        Act::Put(_) => {
            let (key, payload) = shown.into_put();
            let (seat, done) = actor.stage.commit_put(rt, seat, key, payload);
            (seat, nothing(done))
        }
        Act::Take(_) => {
            let (key, var) = shown.into_entry().into_take();
            let (seat, done) = actor.stage.commit_take(rt, seat, &key, var);
            (seat, message(done))
        }
        Act::Set(_) | Act::Input(_) | Act::Pick(_) => alone(rt, actor, seat, state, act, shown),
        Act::Scope(_) => unreachable!(),
    }
}

/// Commits what a role does alone, for which it is ready: it sets a variable, reads an input or
/// picks a branch.
fn alone<R: Wait, G: Gate>(
    rt: &R,
    actor: &Actor<'_, G>,
    seat: Seat<Home>,
    state: &FlatRole,
    act: &Act,
    shown: Shown,
) -> (Seat<Home>, Result<Got, CommitFault>)
    requires sound { IsSound (plain actor.now.bundle.now) }
    requires of { IsSeatIn actor.now.stage.now seat }
    requires tied { IsTied (plain actor.now.bundle.now) actor.now.role.now (view seat)
        (local_of state.now) }
    requires shown { IsShown (local_of state.now) act.now shown }
    requires alone { is_alone act.now ≡ true }
    ensures of { IsSeatIn actor.now.stage.now result.0 }
    ensures done { IfOk result.1 (IsCommitted (plain actor.now.bundle.now) actor.now.role.now
        (view seat) (view result.0) (local_of state.now) act.now) }
    ensures refused { IfErr result.1 (IsUncommitted (plain actor.now.bundle.now)
        actor.now.role.now (view seat) (view result.0) (local_of state.now) act.now) }
{
    marked_laws::term_laws();
    process_steps::offers_are_steps();
    process_steps::steps_show_their_acts();
    let entry = shown.into_entry();
    let (seat, done) = commit_alone(rt, actor.stage, seat, act, entry);
    (seat, nothing(done))
}

/// What comes of a commit that brings nothing.
fn nothing(done: Result<(), CommitFault>) -> Result<Got, CommitFault>
    ensures done { IfOk result (λ came. (came ≡ got.Nothing) × (done ≡ Ok tt)) }
    ensures refused { IfErr result (λ f. done ≡ Err f) }
{
    done?;
    Ok(Got::Nothing)
}

/// What comes of a commit that brings a message.
fn message(done: Result<Payload, CommitFault>) -> Result<Got, CommitFault>
    ensures done { IfOk result
        (λ came. (p : OnePayload) × (came ≡ got.Payload p) × (done ≡ Ok p)) }
    ensures refused { IfErr result (λ f. done ≡ Err f) }
{
    Ok(Got::Payload(done?))
}

/// Commits the entry of what a role does alone.
fn commit_alone<R: Wait>(
    rt: &R,
    stage: &Stage,
    seat: Seat<Home>,
    act: &Act,
    entry: Entry,
) -> (Seat<Home>, Result<(), CommitFault>)
    requires of { IsSeatIn stage.now seat }
    requires alone { is_alone act.now ≡ true }
    requires shows { act_of entry ≡ Some act.now }
    requires can { CanCommitOwn (view seat) entry }
    ensures of { IsSeatIn stage.now result.0 }
    ensures done { IfOk result.1
        (λ _. CommittedOwn role_fault (view seat) (view result.0) entry) }
    ensures refused { IfErr result.1 (λ f. RefusedFor role_fault (view seat) (view result.0) f) }
{
    match act {
        Act::Set(_) => stage.commit_set(rt, seat, entry),
        Act::Input(_) => stage.commit_input(rt, seat, entry),
        Act::Pick(_) => stage.commit_pick(rt, seat, entry),
        Act::Put(_) | Act::Take(_) | Act::Scope(_) => unreachable!(),
    }
}
