//! The begin of a scope by its leader: it is committed on the stage, and then the leader projects
//! the update, outside the lock.

ghost use Rattle.std.specs.Prelude.{◌≡◌, ◌<◌, ℕ, true, OnOk, Some, length, slice_get};
ghost use Rattle.dioc_terms.specs.declared.entries.Act.TheVariants as acts;
ghost use Rattle.dioc_terms.specs.declared.names.Index.{Index as OneIndex};
ghost use Rattle.dioc_terms.specs.Plain.{plain};
ghost use Rattle.dioc_terms.specs.Rules.{Book};
ghost use Rattle.dpoc_process.specs.Acting.{Lead, acting_lead};
ghost use Rattle.dpoc_process.specs.Handed.{IsEnabled, Kept};
ghost use Rattle.flat_role.specs.FlatStates.{local_of, IsReady};
ghost use Rattle.dpoc_process.specs.RoleSteps.{IsShown, IsStep};
ghost use Rattle.marked_laws.specs.Laws.{IsSound};
ghost use Rattle.net_core.specs.Scopes.{Tells};
ghost use Rattle.role_runner.specs.Acts.{book_given};
ghost use Rattle.role_runner.specs.Ties.{IfRefused, IsRefusedTry, IsTied, Leaves};
ghost use Rattle.stage.specs.Begins.{update_of};
ghost use Rattle.stage.specs.Stages.{IsSeatIn};
ghost use Rattle.turn_lock.specs.Words.{view};

use crate::acting::Tried;
use crate::actors::Actor;
use crate::gates::{Gate, Place};
use dioc_terms::{Act, Bundle, Memory, Rule, ScopeHead};
use dpoc_process::{Got, Runs, Shown};
use flat_role::FlatRole;
use scope_leader::plan_update;
use stage::Home;
use std::sync::Wait;
use turn_lock::Seat;

/// Begins a scope for which the role is ready.
pub(crate) fn begin<R: Wait, G: Gate>(
    rt: &R,
    actor: &Actor<'_, G>,
    seat: Seat<Home>,
    state: &mut FlatRole,
    act: &Act,
    shown: Shown,
) -> (Seat<Home>, Tried)
    requires sound { IsSound (plain actor.now.bundle.now) }
    requires of { IsSeatIn actor.now.stage.now seat }
    requires tied { IsTied (plain actor.now.bundle.now) actor.now.role.now (view seat)
        (local_of state.old) }
    requires ready { IsReady state.old act.now }
    requires shown { IsShown (local_of state.old) act.now shown }
    requires scope { (i : OneIndex) × (act.now ≡ acts.Scope i) }
    ensures of { IsSeatIn actor.now.stage.now result.0 }
    ensures leaves { Leaves (plain actor.now.bundle.now) actor.now.role.now (view seat)
        (view result.0) result.1 (local_of state.new) }
    ensures refused { IfRefused result.1 (IsRefusedTry act.now (view seat) (view result.0)
        (local_of state.old) (local_of state.new)) }
{
    scope_leader::leaders_tell();
    process_steps::offers_are_steps();
    let head = shown.into_head();
    let (seat, done) = actor.stage.commit_scope(rt, seat, &head, state.store());
    match done {
        Ok(update) => {
            actor.gate.pass(rt, Place::AfterStep(actor.role));
            match go_on(rt, actor, state, act, &head, update) {
                Ok(()) => (seat, Tried::Done),
                Err(_) => (seat, Tried::Behind),
            }
        }
        Err(fault) => (seat, Tried::Refused(fault)),
    }
}

/// Goes on in a scope whose begin was committed: into its body, or into the update that replaces
/// it, which the leader projects first. After a refusal the role has not gone on.
fn go_on<R: Wait, G: Gate>(
    rt: &R,
    actor: &Actor<'_, G>,
    state: &mut FlatRole,
    act: &Act,
    head: &ScopeHead,
    update: Option<(u32, u32)>,
) -> Result<(), Memory>
    requires sound { IsSound (plain actor.now.bundle.now) }
    requires ready { IsReady state.old act.now }
    requires can { IsEnabled (local_of state.old) act.now Kept }
    requires led { (lead : Lead) × (acting_lead (local_of state.old) act.now ≡ Some lead)
        × (lead.head ≡ head.now) }
    requires tells { Tells actor.now.bundle.now.cast (local_of state.old) act.now }
    requires chosen { (book : Book) × (count : ℕ) × (update
        ≡ update_of (plain actor.now.bundle.now).rules book count head.now
        (local_of state.old).store) }
    ensures steps { (book : Book) (count : ℕ) → update
        ≡ update_of (plain actor.now.bundle.now).rules book count head.now
        (local_of state.old).store
        → OnOk result (IsStep (local_of state.old) act.now
        (book_given (plain actor.now.bundle.now) book count (local_of state.old).store)
        (local_of state.new)) }
{
    dioc_terms::choices_go_on();
    dioc_terms::mentions_are_roles();
    let Some((number, epoch)) = update else {
        state.advance(act, Got::Keep);
        return Ok(());
    };
    actor.gate.pass(rt, Place::Projecting(actor.role));
    let rule = rule_at(actor.bundle, number);
    let cast = actor.bundle.cast.as_slice();
    let parts = plan_update(actor.alloc, head, cast, epoch, &rule.body)?;
    state.advance(act, Got::Parts(parts));
    Ok(())
}

/// The rule of that number.
fn rule_at(bundle: &Bundle, number: u32) -> &Rule
    requires { number < length bundle.now.rules }
    ensures { slice_get bundle.now.rules number ≡ Some result.now }
{
    &bundle.rules.as_slice()[number as usize]
}
