//! A net driven towards an entry of a visible trace, and the auxiliary moves that it makes on the
//! way.

ghost use Rattle.std.specs.Prelude.{◌≡◌, ◌≢◌, ◌<◌, false, None, Some, IfOk, IfSome, OnOk, flat_map, length, map};
ghost use Rattle.std.specs.List.{find};
ghost use Rattle.dioc_terms.specs.Messages.{is_aux};
ghost use Rattle.dioc_terms.specs.Plain.{setting};
ghost use Rattle.drive_laws.specs.Laws.{is_aux_act};
ghost use Rattle.network_steps.specs.Schedule.{move_step};
ghost use Rattle.net_drive.specs.Driven.{first_auxiliary, is_aux_move};
ghost use Rattle.net_drive.specs.Driving.{HasRoom, IsFirstActAt, IsFirstListed, IsTried, IsTurn, judged};
ghost use Rattle.net_drive.specs.Making.{Makes, MakesListed, shown_move};
ghost use Rattle.net_core.specs.Nets.{IsSoundRun, network_of};
ghost use Rattle.schedule.specs.Agendas.{IsListed, IsStale, agenda_of, moves_of, ready_seen};

use crate::laws::known;
use crate::steps::{is_noted, make, make_listed};
use dioc_terms::{Act, Entry, Memory};
use dpoc_process::Runs;
use net_core::Net;
use network_steps::Move;
use schedule::{Listed, ReadyRole, catch_up, keep_up_with};
use std::alloc::Global;
use std::mem;

/// What became of an entry that was tried.
#[derive(Clone, Copy)]
pub(crate) enum Tried {
    /// It has come.
    Came,
    /// It may not come yet.
    Waits,
    /// It can't come.
    Strays,
}

/// A turn towards an entry: takes it where it may come, and else the first auxiliary move.
pub(crate) fn take_turn<R: Runs>(
    net: &mut Net<R>,
    agenda: &mut Vec<ReadyRole>,
    next: &Move,
    entry: &Entry,
) -> Result<Tried, Memory>
    requires run { IsSoundRun net.old }
    requires room { HasRoom net.old }
    requires agenda { map ready_seen agenda.old.items ≡ agenda_of net.old }
    requires next { next.now ≡ shown_move entry.now }
    requires shown { is_aux entry.now ≡ false }
    ensures turn { IfOk result (IsTurn net.old entry.now net.new) }
    ensures agenda { IfOk result
        (λ tried. tried ≢ Tried.Strays → map ready_seen agenda.new.items ≡ agenda_of net.new) }
{
    marked_laws::term_laws();
    known();
    match try_entry(net, next, entry)? {
        Tried::Came => {
            bring_up(net, next, agenda)?;
            Ok(Tried::Came)
        }
        Tried::Waits => {
            if take_auxiliary(net, agenda)? {
                Ok(Tried::Waits)
            } else {
                Ok(Tried::Strays)
            }
        }
        Tried::Strays => Ok(Tried::Strays),
    }
}

// Makes the move that the entry shows, and says what became of the entry. Where it may not come
// yet, the net is unchanged.
fn try_entry<R: Runs>(net: &mut Net<R>, next: &Move, entry: &Entry) -> Result<Tried, Memory>
    requires run { IsSoundRun net.old }
    requires room { length net.old.history < net.old.limit }
    requires few { (network_of net.old).updates < 4294967295 }
    requires next { next.now ≡ shown_move entry.now }
    ensures { IfOk result (IsTried net.old entry.now net.new) }
{
    marked_laws::term_laws();
    known();
    let place = net.history().len();
    let is_made = make(net, next)?;
    let is_noted = is_noted(net.history(), place, entry);
    Ok(judged(next, is_made, is_noted))
}

fn judged(next: &Move, is_made: bool, is_noted: bool) -> Tried
    ensures { result ≡ judged next.now is_made is_noted }
{
    if is_made {
        return if is_noted { Tried::Came } else { Tried::Strays };
    }
    match next {
        Move::Change => Tried::Strays,
        Move::Act(..) => Tried::Waits,
    }
}

/// Makes the first auxiliary move, where there is one. Where there is none, the net is unchanged.
pub(crate) fn take_auxiliary<R: Runs>(
    net: &mut Net<R>,
    agenda: &mut Vec<ReadyRole>,
) -> Result<bool, Memory>
    requires run { IsSoundRun net.old }
    requires room { length net.old.history < net.old.limit }
    requires few { (network_of net.old).updates < 4294967295 }
    requires agenda { map ready_seen agenda.old.items ≡ agenda_of net.old }
    ensures makes { IfOk result (Makes (first_auxiliary (setting net.old.bundle)
        (network_of net.old)) net.old net.new) }
    ensures agenda { OnOk result (map ready_seen agenda.new.items ≡ agenda_of net.new) }
{
    match find_auxiliary(agenda.as_slice()) {
        Some((doer, place)) => make_on(net, agenda, doer, place),
        None => Ok(false),
    }
}

// Makes the step that the agenda lists there, where it can be made, and brings the agenda up to
// date. Where it can't, the net is unchanged.
fn make_on<R: Runs>(
    net: &mut Net<R>,
    agenda: &mut Vec<ReadyRole>,
    doer: usize,
    place: usize,
) -> Result<bool, Memory>
    requires run { IsSoundRun net.old }
    requires room { length net.old.history < net.old.limit }
    requires few { (network_of net.old).updates < 4294967295 }
    requires agenda { map ready_seen agenda.old.items ≡ agenda_of net.old }
    requires listed { IsListed (map ready_seen agenda.old.items) (Listed.Act doer place) }
    ensures makes { IfOk result (MakesListed net.old (map ready_seen agenda.old.items)
        (Listed.Act doer place) net.new) }
    ensures agenda { OnOk result (map ready_seen agenda.new.items ≡ agenda_of net.new) }
{
    marked_laws::term_laws();
    known();
    if !make_listed(net, agenda.as_slice(), doer, place)? {
        return Ok(false);
    }
    catch_up(net, Listed::Act(doer, place), agenda.as_mut_slice())?;
    Ok(true)
}

// Puts the agenda after a move in place of the one before it.
fn bring_up<R: Runs>(net: &Net<R>, made: &Move, agenda: &mut Vec<ReadyRole>) -> Result<(), Memory>
    requires { IsStale net.now (Some made.now) (map ready_seen agenda.old.items) }
    ensures { OnOk result (map ready_seen agenda.new.items ≡ agenda_of net.now) }
{
    let before = mem::replace(agenda, Vec::new(net.allocator()));
    *agenda = keep_up_with(net, made, before)?;
    Ok(())
}

// Where an agenda lists the first auxiliary act: the place of its role, and the place of the act
// among those that the role can do.
fn find_auxiliary(agenda: &[ReadyRole]) -> Option<(usize, usize)>
    ensures found { IfSome result (λ at. IsFirstListed (map ready_seen agenda.now)
        (Listed.Act at.0 at.1)) }
    ensures none { result ≡ None
        → find is_aux_move (flat_map moves_of (map ready_seen agenda.now)) ≡ None }
{
    for doer in 0..agenda.len() {
        let ready = &agenda[doer];
        if let Some(place) = first_auxiliary(ready) {
            return Some((doer, place));
        }
    }
    None
}

// The place of the first auxiliary act among those that a role can do now.
fn first_auxiliary(ready: &ReadyRole) -> Option<usize>
    ensures found { IfSome result (λ place. IsFirstActAt (ready_seen ready.now).1 place) }
    ensures none { result ≡ None → find is_aux_act (ready_seen ready.now).1 ≡ None }
{
    for place in 0..ready.ready.len() {
        let number = ready.ready[place];
        let act = &ready.acts[number];
        if is_aux_act(act) {
            return Some(place);
        }
    }
    None
}

// Whether the act puts or takes an auxiliary message.
fn is_aux_act(act: &Act) -> bool
    ensures { result ≡ is_aux_act act.now }
{
    match act {
        Act::Put(key) | Act::Take(key) => key.tag.is_aux(),
        Act::Set(_) | Act::Input(_) | Act::Pick(_) | Act::Scope(_) => false,
    }
}

/// The history of a net is a run of its bundle. It does nothing.
pub(crate) fn has_run<R: Runs>(net: &Net<R>)
    ensures { IsSoundRun net.now }
{
    net.history();
}
