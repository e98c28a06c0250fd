//! A role that does act after act, whatever form its process is kept in.

ghost use Rattle.std.specs.Prelude.{◌≡◌, true, List, OnErr, OnOk};
ghost use Rattle.dpoc_process.specs.LocalStates.{offered};
ghost use Rattle.flat_role.specs.Plays.{AddsEntry, CanPlay, Plays, PlaysAgree, PlaysFront};
ghost use Rattle.process_steps.specs.Steps.{Given, is_offered};

use dioc_terms::{Act, Entry, Memory, give_up};
use dpoc_process::{Got, PrepareFault, Prepared, Runs};
use std::alloc::Global;
use std::collections::VecDeque;

/// Does acts one after another, each with what comes with it, and adds their entries, each as far
/// as it is known before its act. The error is want of memory; the acts before it are done.
///
/// A law for every role that runs: the entries, and the role's process and store after the acts,
/// are those of the definition of a step.
pub fn play<R: Runs>(
    alloc: Global,
    role: &mut R,
    acts: VecDeque<(Act, Got)>,
    entries: &mut Vec<Option<Entry>>,
) -> Result<(), Memory>
    requires { (givens : List Given) × CanPlay (R.local role.old) acts.items givens }
    ensures plays { OnOk result (Plays (R.local role.old) acts.items entries.old.items
        entries.new.items (R.local role.new)) }
    ensures refused { OnErr result (PlaysFront (R.local role.old) acts.items entries.old.items
        entries.new.items (R.local role.new)) }
{
    let mut acts = acts;
    match acts.pop_front() {
        None => Ok(()),
        Some((act, got)) => match make_ready(alloc, role, &act, entries) {
            Ok(()) => {
                role.advance(&act, got);
                drop(act);
                play(alloc, role, acts, entries)
            }
            Err(fault) => give_up(((act, got), acts), fault),
        },
    }
}

/// A law: any two roles that run, with the same role, process and store, that do the same acts, to
/// which the same comes from outside, give the same entries, and have the same process and store in
/// the end. So they then offer the same acts. It does nothing.
pub fn plays_agree()
    ensures { PlaysAgree }
{}

/// Makes a role ready for an act that it offers, and adds the act's entry.
fn make_ready<R: Runs>(
    alloc: Global,
    role: &mut R,
    act: &Act,
    entries: &mut Vec<Option<Entry>>,
) -> Result<(), Memory>
    requires { is_offered act.now (offered (R.local role.old)) ≡ true }
    ensures same { R.local role.new ≡ R.local role.old }
    ensures ready { OnOk result (R.is_ready role.new act.now) }
    ensures refused { OnErr result (entries.new.items ≡ entries.old.items) }
    ensures adds { OnOk result (AddsEntry (R.local role.old) act.now entries.old.items
        entries.new.items) }
{
    match role.prepare(alloc, act) {
        Ok(prepared) => {
            let Prepared {
                act,
                entry,
                head,
                payload,
            } = prepared;
            drop(((act, head), payload));
            entries.push(entry)?;
            Ok(())
        }
        Err(PrepareFault::NoAct) => unreachable!(),
        Err(PrepareFault::Memory) => Err(Memory),
    }
}
