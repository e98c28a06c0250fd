//! A visible trace driven: its entries, each with the auxiliary moves that it needs before it.

ghost use Rattle.std.specs.Prelude.{◌≡◌, ◌≤◌, [], true, false, not, IfErr, IfOk, None, OnOk, Some, length, map};
ghost use Rattle.std.specs.List.{list_all};
ghost use Rattle.dioc_terms.specs.Messages.{is_aux, visible};
ghost use Rattle.dioc_terms.specs.Plain.{plain};
ghost use Rattle.marked_laws.specs.Laws.{IsSound};
ghost use Rattle.net_drive.specs.Driven.{driven};
ghost use Rattle.net_drive.specs.Driving.{HasRoom, IsDriven, Reaches, Settles};
ghost use Rattle.net_drive.specs.Making.{shown_move};
ghost use Rattle.net_drive.specs.Faults.{LostAt, LostCounted};
ghost use Rattle.net_core.specs.Nets.{IsSoundRun};
ghost use Rattle.rule_checks.specs.Refusals.{IsAccepted};
ghost use Rattle.schedule.specs.Agendas.{agenda_of, ready_seen};

use crate::entries::{Tried, has_run, take_auxiliary, take_turn};
use crate::laws::{drive_strays_are_exact, known};
use crate::steps::move_of;
use dioc_terms::{Bundle, Entry, Memory};
use dpoc_process::{Begins, Runs};
use net_core::Net;
use net_laws::accepted_is_sound;
use network_steps::Move;
use schedule::{ReadyRole, list_ready};
use std::alloc::Global;
use thiserror::Error;
use trace_book::History;

/// Why a trace isn't driven.
#[derive(Clone, Copy, Debug, PartialEq, Eq, Error)]
pub enum DriveFault {
    /// The entry of this number, counted from 1, is the first that makes a trace which the
    /// choreography doesn't play, or which isn't settled.
    #[error("entry {0} can't come")]
    Stray(u64),
    /// Memory ran out.
    #[error("out of memory")]
    Memory,
}

/// The net of a bundle that has been driven through a visible trace: before each entry it takes the
/// first auxiliary move, as often as it must for the entry to come, and after the last entry as
/// long as there is one. A change is taken as its entry comes.
///
/// The net's limit is the greatest number there is, so its history is never full.
pub fn drive<R: Begins>(
    alloc: Global,
    bundle: &Bundle,
    trace: &History,
) -> Result<Net<R>, DriveFault>
    requires accepted { IsAccepted (plain bundle.now) }
    requires shown { list_all (λ e. not (is_aux e)) trace.now.entries ≡ true }
    requires few { length trace.now.entries ≤ 1000000 }
    ensures driven { IfOk result
        (λ net. driven (plain bundle.now) trace.now.entries ≡ Some net.history) }
    ensures shows { IfOk result (λ net. visible net.history ≡ trace.now.entries) }
    ensures run { IfOk result IsSoundRun }
    ensures bundle { IfOk result (λ net. net.bundle ≡ plain bundle.now) }
    ensures limit { IfOk result (λ net. net.limit ≡ 18446744073709551615) }
    ensures stray { IfErr result (LostAt (plain bundle.now) trace.now.entries) }
    ensures counted { IfErr result (LostCounted (plain bundle.now) trace.now.entries) }
{
    drive_all(alloc, bundle, trace.as_slice())
}

// The same, of the entries of the trace.
fn drive_all<R: Begins>(
    alloc: Global,
    bundle: &Bundle,
    trace: &[Entry],
) -> Result<Net<R>, DriveFault>
    requires accepted { IsAccepted (plain bundle.now) }
    requires shown { list_all (λ e. not (is_aux e)) trace.now ≡ true }
    requires few { length trace.now ≤ 1000000 }
    ensures driven { IfOk result (λ net. driven (plain bundle.now) trace.now ≡ Some net.history) }
    ensures shows { IfOk result (λ net. visible net.history ≡ trace.now) }
    ensures run { IfOk result IsSoundRun }
    ensures bundle { IfOk result (λ net. net.bundle ≡ plain bundle.now) }
    ensures limit { IfOk result (λ net. net.limit ≡ 18446744073709551615) }
    ensures stray { IfErr result (LostAt (plain bundle.now) trace.now) }
    ensures counted { IfErr result (LostCounted (plain bundle.now) trace.now) }
{
    accepted_is_sound();
    let Ok(mut net) = Net::start(alloc, bundle, u64::MAX) else {
        return Err(DriveFault::Memory);
    };
    match drive_whole(&mut net, trace) {
        Ok(()) => Ok(net),
        Err(fault) => {
            drop(net);
            Err(fault)
        }
    }
}

// Drives a net through all entries of a trace, or says why it can't.
fn drive_whole<R: Runs>(net: &mut Net<R>, trace: &[Entry]) -> Result<(), DriveFault>
    requires sound { IsSound net.old.bundle }
    requires fresh { net.old.history ≡ [] }
    requires room { HasRoom net.old }
    requires shown { list_all (λ e. not (is_aux e)) trace.now ≡ true }
    requires few { length trace.now ≤ 1000000 }
    ensures driven { OnOk result (IsDriven net.old trace.now net.new None) }
    ensures run { OnOk result (IsSoundRun net.new) }
    ensures bundle { OnOk result (net.new.bundle ≡ net.old.bundle) }
    ensures limit { OnOk result (net.new.limit ≡ net.old.limit) }
    ensures stray { IfErr result (LostAt net.old.bundle trace.now) }
    ensures counted { IfErr result (LostCounted net.old.bundle trace.now) }
{
    drive_strays_are_exact();
    match drive_through(net, trace) {
        Ok(None) => Ok(()),
        Ok(Some(number)) => Err(DriveFault::Stray(number)),
        Err(Memory) => Err(DriveFault::Memory),
    }
}

// Drives a net through the entries of a trace, or says the number of the first that strays.
fn drive_through<R: Runs>(net: &mut Net<R>, trace: &[Entry]) -> Result<Option<u64>, Memory>
    requires fresh { net.old.history ≡ [] }
    requires room { HasRoom net.old }
    requires shown { list_all (λ e. not (is_aux e)) trace.now ≡ true }
    requires few { length trace.now ≤ 1000000 }
    ensures driven { IfOk result (IsDriven net.old trace.now net.new) }
    ensures run { IfOk result (λ stray. stray ≡ None → IsSoundRun net.new) }
    ensures bundle { IfOk result (λ stray. stray ≡ None → net.new.bundle ≡ net.old.bundle) }
    ensures limit { IfOk result (λ stray. stray ≡ None → net.new.limit ≡ net.old.limit) }
{
    marked_laws::term_laws();
    known();
    let mut agenda = list_ready(net)?;
    let mut number = 0;
    for entry in trace {
        has_run(net);
        number += 1;
        if !reach(net, &mut agenda, entry)? {
            return Ok(Some(number));
        }
    }
    settle(net, &mut agenda)?;
    has_run(net);
    Ok(None)
}

// Takes auxiliary moves until the entry comes, or says that it can't come.
fn reach<R: Runs>(
    net: &mut Net<R>,
    agenda: &mut Vec<ReadyRole>,
    entry: &Entry,
) -> Result<bool, Memory>
    requires room { HasRoom net.old }
    requires agenda { map ready_seen agenda.old.items ≡ agenda_of net.old }
    requires shown { is_aux entry.now ≡ false }
    ensures reached { IfOk result (Reaches net.old entry.now net.new) }
    ensures agenda { IfOk result
        (λ has_come. has_come ≡ true → map ready_seen agenda.new.items ≡ agenda_of net.new) }
{
    let next = move_of(net.allocator(), entry)?;
    let has_come = reach_by(net, agenda, &next, entry);
    drop(next);
    has_come
}

// The same, with the move that the entry shows.
fn reach_by<R: Runs>(
    net: &mut Net<R>,
    agenda: &mut Vec<ReadyRole>,
    next: &Move,
    entry: &Entry,
) -> Result<bool, Memory>
    requires room { HasRoom net.old }
    requires agenda { map ready_seen agenda.old.items ≡ agenda_of net.old }
    requires next { next.now ≡ shown_move entry.now }
    requires shown { is_aux entry.now ≡ false }
    ensures reached { IfOk result (Reaches net.old entry.now net.new) }
    ensures agenda { IfOk result
        (λ has_come. has_come ≡ true → map ready_seen agenda.new.items ≡ agenda_of net.new) }
{
    marked_laws::term_laws();
    known();
    'turns: loop {
        has_run(net);
        match take_turn(net, agenda, next, entry)? {
            Tried::Came => return Ok(true),
            Tried::Strays => return Ok(false),
            Tried::Waits => {}
        }
    }
}

// Takes auxiliary moves until none is left.
fn settle<R: Runs>(net: &mut Net<R>, agenda: &mut Vec<ReadyRole>) -> Result<(), Memory>
    requires room { HasRoom net.old }
    requires agenda { map ready_seen agenda.old.items ≡ agenda_of net.old }
    ensures { OnOk result (Settles net.old net.new) }
{
    marked_laws::term_laws();
    known();
    'turns: loop {
        has_run(net);
        if !take_auxiliary(net, agenda)? {
            return Ok(());
        }
    }
}
