//! A run that stopped, done again entry by entry.

ghost use Rattle.std.specs.Prelude.{◌≡◌, ◌≤◌, ◌<◌, [], IfErr, IfOk, OnOk, length};
ghost use Rattle.dioc_terms.specs.Plain.{plain};
ghost use Rattle.net_drive.specs.Faults.{FullAt, StrayCounted, StraysAt};
ghost use Rattle.net_drive.specs.Making.{shown_move};
ghost use Rattle.net_drive.specs.Redoing.{IsRedone, Redoes};
ghost use Rattle.net_drive.specs.Resumed.{IsNetAfter};
ghost use Rattle.net_core.specs.Nets.{IsSoundRun, network_of};
ghost use Rattle.rule_checks.specs.Refusals.{IsAccepted};

use crate::steps::{is_noted, make, move_of};
use dioc_terms::{Bundle, Entry, Memory};
use dpoc_process::{Begins, Runs};
use net_core::Net;
use net_laws::accepted_is_sound;
use network_steps::Move;
use std::alloc::Global;
use trace_book::History;

/// Why a run isn't resumed to its last entry.
#[derive(Drop)]
pub enum ResumeFault<R: Runs> {
    /// The entry of this number, counted from 1, is the first that the network can't do.
    Stray(u64),
    /// There are more entries than the limit allows. The network is the one after as many as that.
    Full(Net<R>),
    /// Memory ran out.
    Memory,
}

/// How far the entries were done.
#[derive(Clone, Copy)]
pub(crate) enum Redone {
    Whole,
    Stray(u64),
    Full,
}

/// The network of a bundle after the entries of a run, of which there may be at most `limit`.
///
/// Each entry is done again: the role that it names takes the act that it shows, or the script's
/// next change is made, and what the network notes is compared with it.
pub fn resume<R: Begins>(
    alloc: Global,
    bundle: &Bundle,
    entries: &History,
    limit: u64,
) -> Result<Net<R>, ResumeFault<R>>
    requires accepted { IsAccepted (plain bundle.now) }
    requires numbers { limit ≤ 4294967295 }
    ensures resumed { IfOk result (IsNetAfter (plain bundle.now) entries.now.entries limit) }
    ensures within { IfOk result (λ _. length entries.now.entries ≤ limit) }
    ensures full { IfErr result (FullAt (plain bundle.now) entries.now.entries limit) }
    ensures stray { IfErr result (StraysAt (plain bundle.now) entries.now.entries limit) }
    ensures counted { IfErr result (StrayCounted (plain bundle.now) entries.now.entries limit) }
{
    resume_entries(alloc, bundle, entries.as_slice(), limit)
}

/// The same, of entries as they stand, which needn't be a history.
pub fn resume_entries<R: Begins>(
    alloc: Global,
    bundle: &Bundle,
    entries: &[Entry],
    limit: u64,
) -> Result<Net<R>, ResumeFault<R>>
    requires accepted { IsAccepted (plain bundle.now) }
    requires numbers { limit ≤ 4294967295 }
    ensures resumed { IfOk result (IsNetAfter (plain bundle.now) entries.now limit) }
    ensures within { IfOk result (λ _. length entries.now ≤ limit) }
    ensures full { IfErr result (FullAt (plain bundle.now) entries.now limit) }
    ensures stray { IfErr result (StraysAt (plain bundle.now) entries.now limit) }
    ensures counted { IfErr result (StrayCounted (plain bundle.now) entries.now limit) }
{
    accepted_is_sound();
    let Ok(mut net) = Net::start(alloc, bundle, limit) else {
        return Err(ResumeFault::Memory);
    };
    match redo(alloc, &mut net, entries) {
        Ok(Redone::Whole) => Ok(net),
        Ok(Redone::Full) => Err(ResumeFault::Full(net)),
        Ok(Redone::Stray(number)) => {
            drop(net);
            Err(ResumeFault::Stray(number))
        }
        Err(Memory) => {
            drop(net);
            Err(ResumeFault::Memory)
        }
    }
}

// Does the entries, one after another, and says how far.
fn redo<R: Runs>(alloc: Global, net: &mut Net<R>, entries: &[Entry]) -> Result<Redone, Memory>
    requires fresh { net.old.history ≡ [] }
    requires limit { net.old.limit ≤ 4294967295 }
    ensures redone { IfOk result (IsRedone net.old entries.now net.new) }
    ensures bundle { net.new.bundle ≡ net.old.bundle }
    ensures same_limit { net.new.limit ≡ net.old.limit }
    ensures run { OnOk result (IsSoundRun net.new) }
{
    let mut number = net.history().len();
    for entry in entries {
        if number >= net.limit() {
            return Ok(Redone::Full);
        }
        number += 1;
        if !redo_entry(alloc, net, entry)? {
            return Ok(Redone::Stray(number));
        }
    }
    Ok(Redone::Whole)
}

// Does what the entry shows, and says whether the network noted that entry.
fn redo_entry<R: Runs>(alloc: Global, net: &mut Net<R>, entry: &Entry) -> Result<bool, Memory>
    requires run { IsSoundRun net.old }
    requires room { length net.old.history < net.old.limit }
    requires limit { net.old.limit ≤ 4294967295 }
    ensures redone { IfOk result (Redoes net.old entry.now net.new) }
    ensures bundle { net.new.bundle ≡ net.old.bundle }
    ensures same_limit { net.new.limit ≡ net.old.limit }
    ensures run { OnOk result (IsSoundRun net.new) }
{
    let next = move_of(alloc, entry)?;
    let is_redone = redo_by(net, &next, entry);
    drop(next);
    is_redone
}

// The same, with the move that the entry shows.
fn redo_by<R: Runs>(net: &mut Net<R>, next: &Move, entry: &Entry) -> Result<bool, Memory>
    requires run { IsSoundRun net.old }
    requires room { length net.old.history < net.old.limit }
    requires few { (network_of net.old).updates < 4294967295 }
    requires next { next.now ≡ shown_move entry.now }
    ensures redone { IfOk result (Redoes net.old entry.now net.new) }
    ensures bundle { net.new.bundle ≡ net.old.bundle }
    ensures same_limit { net.new.limit ≡ net.old.limit }
    ensures run { OnOk result (IsSoundRun net.new) }
{
    let place = net.history().len();
    let is_made = make(net, next)?;
    let is_noted = is_noted(net.history(), place, entry);
    Ok(is_made && is_noted)
}
