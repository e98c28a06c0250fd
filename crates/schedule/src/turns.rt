//! One turn of a schedule: which move it takes, and how a net makes a move.

ghost use Rattle.std.specs.Prelude.{◌≡◌, ◌≢◌, ◌<◌, ◌≤◌, ◌+◌, ◌∷◌, false, None, Some, IfErr, IfOk, OnErr, OnOk, flat_map, length, map};
ghost use Rattle.dioc_terms.specs.Plain.{setting};
ghost use Rattle.network_steps.specs.Schedule.{move_place, moves};
ghost use Rattle.net_core.specs.Changes.{change_fault};
ghost use Rattle.net_core.specs.Nets.{IsSoundRun, network_of};
ghost use Rattle.network_steps.specs.declared.moves.Move.{Move as OneMove};
ghost use Rattle.network_steps.specs.declared.moves.Move.TheVariants as move;
ghost use Rattle.schedule.specs.Agendas.{IsBehind, IsListed, IsListedAs, agenda_of, move_at, moves_of, ready_seen};
ghost use Rattle.schedule.specs.Turns.{Advances, CanMakeListed, IsMoveOf, IsNext, IsRefusedAs, has_ended};

use crate::agenda::{count_acts, find_number};
use crate::numbers::move_place;
use crate::roles::{Listed, ReadyRole};
use dioc_terms::Memory;
use dpoc_process::Runs;
use net_core::{ChangeFault, Net};
use network_steps::StepFault;

/// Makes the schedule's next move, of those in the agenda, and tells where it lists it. After a
/// refusal the net is unchanged.
pub(crate) fn take_next<R: Runs>(
    net: &mut Net<R>,
    agenda: &[ReadyRole],
    seed: Option<u64>,
) -> Result<Listed, Memory>
    requires run { IsSoundRun net.old }
    requires goes { has_ended net.old ≡ false }
    requires room { length net.old.history < net.old.limit }
    requires limit { net.old.limit ≤ 4294967295 }
    requires agenda { map ready_seen agenda.now ≡ agenda_of net.old }
    ensures advanced { OnOk result (Advances net.old seed net.new) }
    ensures behind { IfOk result
        (λ made. IsBehind net.new (Some made) (map ready_seen agenda.now)) }
    ensures err { OnErr result (net.new ≡ net.old) }
{
    marked_laws::term_laws();
    marked_laws::progress();
    let next = next_move(net, agenda, seed);
    make(net, agenda, next)?;
    Ok(next)
}

/// Where the agenda lists the move that the schedule takes next: the script's next change has the
/// number 0 where it is due, and the acts come after it.
fn next_move<R: Runs>(net: &Net<R>, agenda: &[ReadyRole], seed: Option<u64>) -> Listed
    requires some { 0 < length (moves (setting net.now.bundle) (network_of net.now)) }
    requires agenda { map ready_seen agenda.now ≡ agenda_of net.now }
    ensures { IsNext net.now seed (map ready_seen agenda.now) result }
{
    if net.is_change_due() {
        let place = next_place(agenda, seed, 1);
        change_or_act(agenda, place)
    } else {
        let number = next_place(agenda, seed, 0);
        find_number(agenda, number)
    }
}

/// The place of the move that the schedule takes next, of the acts and so many moves before them.
/// Without a seed it is the first, so nothing is counted.
fn next_place(agenda: &[ReadyRole], seed: Option<u64>, before: u128) -> u128
    requires few { before ≤ 1 }
    requires some { 0 < length (flat_map moves_of (map ready_seen agenda.now)) + before }
    ensures place { result ≡ move_place seed
        (length (flat_map moves_of (map ready_seen agenda.now)) + before) }
    ensures below { result < length (flat_map moves_of (map ready_seen agenda.now)) + before }
{
    match seed {
        None => 0,
        Some(_) => move_place(seed, count_acts(agenda) + before),
    }
}

/// Where the move of that number is listed, where the change comes before the acts.
fn change_or_act(agenda: &[ReadyRole], place: u128) -> Listed
    requires { place < length (flat_map moves_of (map ready_seen agenda.now)) + 1 }
    ensures { IsListedAs (map ready_seen agenda.now)
        (move.Change ∷ flat_map moves_of (map ready_seen agenda.now)) place result }
{
    if place == 0 {
        Listed::Change
    } else {
        find_number(agenda, place - 1)
    }
}

/// Makes a move of the agenda that has no fault. After a refusal the net is unchanged.
fn make<R: Runs>(net: &mut Net<R>, agenda: &[ReadyRole], next: Listed) -> Result<(), Memory>
    requires run { IsSoundRun net.old }
    requires agenda { map ready_seen agenda.now ≡ agenda_of net.old }
    requires can { CanMakeListed net.old (map ready_seen agenda.now) next }
    requires few { (network_of net.old).updates < 4294967295 }
    ensures made { OnOk result ((m : OneMove) → move_at (map ready_seen agenda.now) next ≡ Some m
        → IsMoveOf net.old m net.new) }
    ensures err { OnErr result (net.new ≡ net.old) }
{
    match next {
        Listed::Change => make_change(net),
        Listed::Act(doer, place) => make_step(net, agenda, doer, place),
    }
}

/// Makes the script's next change, which has no fault.
fn make_change<R: Runs>(net: &mut Net<R>) -> Result<(), Memory>
    requires { change_fault net.old ≡ None }
    ensures made { OnOk result (IsMoveOf net.old move.Change net.new) }
    ensures err { OnErr result (net.new ≡ net.old) }
{
    match net.change() {
        Ok(()) => Ok(()),
        Err(ChangeFault::Memory) => Err(Memory),
        Err(_) => unreachable!(),
    }
}

/// Makes the step that the agenda lists there, which has no fault.
fn make_step<R: Runs>(
    net: &mut Net<R>,
    agenda: &[ReadyRole],
    doer: usize,
    place: usize,
) -> Result<(), Memory>
    requires run { IsSoundRun net.old }
    requires agenda { map ready_seen agenda.now ≡ agenda_of net.old }
    requires can { CanMakeListed net.old (map ready_seen agenda.now) (Listed.Act doer place) }
    requires few { (network_of net.old).updates < 4294967295 }
    ensures made { OnOk result ((m : OneMove) → move_at (map ready_seen agenda.now)
        (Listed.Act doer place) ≡ Some m → IsMoveOf net.old m net.new) }
    ensures err { OnErr result (net.new ≡ net.old) }
{
    match step_listed(net, agenda, doer, place) {
        Ok(()) => Ok(()),
        Err(fault) => Err(memory_of(fault)),
    }
}

/// The fault of a step that has no other.
fn memory_of(fault: StepFault) -> Memory
    requires { fault ≢ StepFault.Memory → ⊥ }
{
    match fault {
        StepFault::Memory => Memory,
        _ => unreachable!(),
    }
}

/// Makes the step that an agenda of the net lists there: of the role at the place `doer` of the
/// agenda, by the act at the place `place` of those that it can do, both counted from 0. The
/// refusals are those of `Net::step`; after any of them the net is unchanged.
pub fn step_listed<R: Runs>(
    net: &mut Net<R>,
    agenda: &[ReadyRole],
    doer: usize,
    place: usize,
) -> Result<(), StepFault>
    requires run { IsSoundRun net.old }
    requires agenda { map ready_seen agenda.now ≡ agenda_of net.old }
    requires listed { IsListed (map ready_seen agenda.now) (Listed.Act doer place) }
    requires few { (network_of net.old).updates < 4294967295 }
    ensures stepped { OnOk result ((m : OneMove) → move_at (map ready_seen agenda.now)
        (Listed.Act doer place) ≡ Some m → IsMoveOf net.old m net.new) }
    ensures refused { IfErr result (λ fault. fault ≢ StepFault.Memory
        → IsRefusedAs net.old (map ready_seen agenda.now) (Listed.Act doer place) fault) }
    ensures err { OnErr result (net.new ≡ net.old) }
{
    marked_laws::term_laws();
    let ready = &agenda[doer];
    let number = ready.ready[place];
    let act = &ready.acts[number];
    net.step_at(doer, number, act)
}
