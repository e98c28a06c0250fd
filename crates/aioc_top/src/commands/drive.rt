//! `drive`: a bundle's visible trace with the auxiliary messages that it needs.

ghost use Rattle.std.specs.Prelude.{◌≡◌, ◌≤◌, ◌∷◌, ◌++◌, [], IfOk, OnOk, length};
ghost use Rattle.dioc_terms.specs.Messages.{visible};
ghost use Rattle.dioc_terms.specs.Plain.{plain};
ghost use Rattle.net_core.specs.Nets.{IsSoundRun};
ghost use Rattle.rule_checks.specs.Refusals.{IsAccepted};
ghost use Rattle.command_words.specs.Commands.{most_steps};
ghost use Rattle.command_words.specs.declared.commands.Verb.{Verb};
ghost use Rattle.aioc_top.specs.Replies.{drive_reply, driven_or_no, driven_reply, reply_of, section_number, trace_stray};

use crate::commands::replay::{is_cut_short, visible_len};
use crate::replies::{End, Written, last_line, say_no};
use aux_messages::is_aux;
use command_words::Options;
use dioc_terms::{Bundle, Entry, Last, Memory};
use flat_role::FlatRole;
use net_core::Net;
use net_drive::{DriveFault, drive_strays_are_exact};
use std::alloc::Global;
use trace_book::History;
use trace_text::write_text;

/// The text of the run that shows exactly the visible entries of the trace section, with the
/// auxiliary messages that they need; `no` with the number of the first entry that can't come, or
/// with one past the last where the section says that the run has ended and it has not. Nothing
/// where there are more visible entries than the options allow. Auxiliary entries of the section
/// are passed over, and have numbers all the same.
pub fn drive(alloc: Global, options: &Options, bundle: &Bundle) -> Result<Written, Memory>
    requires accepted { IsAccepted (plain bundle.now) }
    requires short { options.now.steps ≤ most_steps Verb.Drive }
    ensures { IfOk result (λ written. reply_of written
        ≡ drive_reply options.now (plain bundle.now)) }
{
    let count = visible_len(bundle.trace.entries.as_slice());
    if count > options.steps {
        return Ok(Written {
            end: End::Limit,
            text: Vec::new(alloc),
        });
    }
    drive_trace(alloc, bundle)
}

// The same, of few enough entries.
fn drive_trace(alloc: Global, bundle: &Bundle) -> Result<Written, Memory>
    requires accepted { IsAccepted (plain bundle.now) }
    requires few { length (visible (plain bundle.now).trace.entries) ≤ 1000000 }
    ensures { IfOk result (λ written. reply_of written
        ≡ driven_or_no (plain bundle.now) (trace_stray (plain bundle.now))) }
{
    drive_strays_are_exact();
    let entries = bundle.trace.entries.as_slice();
    let trace = copy_visible(alloc, entries)?;
    match net_drive::drive(alloc, bundle, &trace) {
        Ok(net) => say_driven(alloc, &bundle.trace.last, entries, &net),
        Err(DriveFault::Stray(number)) => say_no(alloc, section_number(entries, number)),
        Err(DriveFault::Memory) => Err(Memory),
    }
}

// The text of the run that a net has made for the entries of a section with this last line.
fn say_driven(
    alloc: Global,
    last: &Option<Last>,
    entries: &[Entry],
    net: &Net<FlatRole>,
) -> Result<Written, Memory>
    requires run { IsSoundRun net.now }
    requires last { net.now.bundle.trace.last ≡ last.now }
    requires entries { net.now.bundle.trace.entries ≡ entries.now }
    ensures { IfOk result (λ written. reply_of written
        ≡ driven_reply net.now.bundle net.now.history) }
{
    let is_over = net.is_ended();
    if is_cut_short(last, is_over) {
        return say_no(alloc, entries.len() as u64 + 1);
    }
    let last = last_line(is_over, net.history().len());
    let mut text = Vec::new(alloc);
    write_text(net.history().as_slice(), true, &last, false, &mut text)?;
    Ok(Written {
        end: End::Done,
        text,
    })
}

// A history of copies of the visible entries, in their order.
fn copy_visible(alloc: Global, entries: &[Entry]) -> Result<History, Memory>
    ensures { IfOk result (λ copies. copies.entries ≡ visible entries.now) }
{
    let mut copies = History::new(alloc);
    for entry in entries {
        if !is_aux(entry) {
            push_copy(alloc, &mut copies, entry)?;
        }
    }
    Ok(copies)
}

// Adds a copy of the entry as the last one.
fn push_copy(alloc: Global, copies: &mut History, entry: &Entry) -> Result<(), Memory>
    ensures { OnOk result (copies.new.entries ≡ copies.old.entries ++ entry.now ∷ []) }
{
    copies.reserve(1)?;
    let copy = entry.copy(alloc)?;
    copies.push(copy);
    Ok(())
}

// The number of the visible entry that has this number among the visible ones, both from 1.
fn section_number(entries: &[Entry], number: u64) -> u64
    ensures { result ≡ section_number entries.now number }
{
    let mut left = number;
    let mut place: u64 = 0;
    for entry in entries {
        if left == 0 {
            return place;
        }
        if !is_aux(entry) {
            left -= 1;
        }
        place += 1;
    }
    place
}
