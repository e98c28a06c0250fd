//! The moves that entries show, and a net that makes them.

ghost use Rattle.std.specs.Prelude.{◌≡◌, ◌≢◌, ◌<◌, false, IfOk, length, map, slice_get};
ghost use Rattle.std.specs.Option.{option_map_or};
ghost use Rattle.dioc_terms.specs.Equality.{entry_eq};
ghost use Rattle.dioc_terms.specs.Plain.{setting};
ghost use Rattle.network_steps.specs.Network.{act_step, change_step};
ghost use Rattle.network_steps.specs.Schedule.{move_step};
ghost use Rattle.net_drive.specs.Making.{Makes, MakesListed, shown_move};
ghost use Rattle.net_core.specs.Nets.{IsSoundRun, network_of};
ghost use Rattle.schedule.specs.Agendas.{IsListed, agenda_of, ready_seen};

use crate::resumed_laws::known;
use dioc_terms::{Act, Entry, Memory, Role, give_up};
use dpoc_process::Runs;
use net_core::{ChangeFault, Net};
use network_steps::{Move, StepFault};
use schedule::{Listed, ReadyRole, step_listed};
use std::alloc::Global;
use trace_book::History;

/// The move that the entry shows: the act of its doer, or the script's next change.
pub(crate) fn move_of(alloc: Global, entry: &Entry) -> Result<Move, Memory>
    ensures { IfOk result (λ next. next ≡ shown_move entry.now) }
{
    match entry {
        Entry::Put { key, .. } => move_by(alloc, &key.from, Act::Put(key.copy(alloc)?)),
        Entry::Take { key, .. } => move_by(alloc, &key.to, Act::Take(key.copy(alloc)?)),
        Entry::Set { index, role, .. } => move_by(alloc, role, Act::Set(*index)),
        Entry::Input { index, role, .. } => move_by(alloc, role, Act::Input(*index)),
        Entry::Pick { index, role, .. } => move_by(alloc, role, Act::Pick(*index)),
        Entry::Scope { index, role, .. } => move_by(alloc, role, Act::Scope(*index)),
        Entry::Add { .. } | Entry::Drop { .. } | Entry::Env { .. } => Ok(Move::Change),
    }
}

/// The act as a move of the role.
fn move_by(alloc: Global, role: &Role, act: Act) -> Result<Move, Memory>
    ensures { IfOk result (λ next. next ≡ Move.Act role.now act) }
{
    match role.copy(alloc) {
        Ok(role) => Ok(Move::Act(role, act)),
        Err(fault) => give_up(act, fault),
    }
}

/// Whether the entry stands at that place.
pub(crate) fn is_noted(history: &History, place: u64, entry: &Entry) -> bool
    ensures { result ≡ option_map_or (entry_eq entry.now) (slice_get history.now.entries place)
        false }
{
    match history.get(place) {
        Some(noted) => entry == noted,
        None => false,
    }
}

/// Makes the move, where it can be made. Where it can't, the net is unchanged.
pub(crate) fn make<R: Runs>(net: &mut Net<R>, next: &Move) -> Result<bool, Memory>
    requires run { IsSoundRun net.old }
    requires room { length net.old.history < net.old.limit }
    requires few { (network_of net.old).updates < 4294967295 }
    ensures makes { IfOk result (Makes (move_step (setting net.old.bundle) (network_of net.old)
        next.now) net.old net.new) }
    ensures bundle { net.new.bundle ≡ net.old.bundle }
    ensures same_limit { net.new.limit ≡ net.old.limit }
{
    match next {
        Move::Change => change(net),
        Move::Act(role, act) => step(net, role, act),
    }
}

// Makes the step of the role, where there is one.
fn step<R: Runs>(net: &mut Net<R>, role: &Role, act: &Act) -> Result<bool, Memory>
    requires run { IsSoundRun net.old }
    requires room { length net.old.history < net.old.limit }
    requires few { (network_of net.old).updates < 4294967295 }
    ensures makes { IfOk result (Makes (act_step (setting net.old.bundle) (network_of net.old)
        role.now act.now) net.old net.new) }
    ensures bundle { net.new.bundle ≡ net.old.bundle }
    ensures same_limit { net.new.limit ≡ net.old.limit }
{
    known();
    match net.step(role, act) {
        Ok(()) => Ok(true),
        Err(fault) => no_step(fault),
    }
}

/// Makes the step that an agenda of the net lists there, where it can be made. Where it can't, the
/// net is unchanged.
pub(crate) fn make_listed<R: Runs>(
    net: &mut Net<R>,
    agenda: &[ReadyRole],
    doer: usize,
    place: usize,
) -> Result<bool, Memory>
    requires run { IsSoundRun net.old }
    requires room { length net.old.history < net.old.limit }
    requires few { (network_of net.old).updates < 4294967295 }
    requires agenda { map ready_seen agenda.now ≡ agenda_of net.old }
    requires listed { IsListed (map ready_seen agenda.now) (Listed.Act doer place) }
    ensures { IfOk result (MakesListed net.old (map ready_seen agenda.now) (Listed.Act doer place)
        net.new) }
{
    known();
    match step_listed(net, agenda, doer, place) {
        Ok(()) => Ok(true),
        Err(fault) => no_step(fault),
    }
}

// That no step was made, unless memory ran out.
fn no_step(fault: StepFault) -> Result<bool, Memory>
    ensures { IfOk result (λ is_made. (is_made ≡ false) × (fault ≢ StepFault.Memory)) }
{
    match fault {
        StepFault::Memory => Err(Memory),
        _ => Ok(false),
    }
}

// Makes the script's next change, where it may come.
fn change<R: Runs>(net: &mut Net<R>) -> Result<bool, Memory>
    requires room { length net.old.history < net.old.limit }
    ensures makes { IfOk result (Makes (change_step (setting net.old.bundle)
        (network_of net.old)) net.old net.new) }
    ensures bundle { net.new.bundle ≡ net.old.bundle }
    ensures same_limit { net.new.limit ≡ net.old.limit }
{
    match net.change() {
        Ok(()) => Ok(true),
        Err(ChangeFault::Memory) => Err(Memory),
        Err(_) => Ok(false),
    }
}
