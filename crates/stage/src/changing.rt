//! The script's next change, made in a home.

ghost use Rattle.std.specs.Prelude.{◌≡◌, ◌≢◌, IfErr, IfSome, OnErr, OnOk, None, Some, length, map, nat_lt, slice_get};
ghost use Rattle.std.specs.List.{list_all};
ghost use Rattle.std.specs.Option.{option_or};
ghost use Rattle.dioc_terms.specs.Messages.{visible};
ghost use Rattle.network_steps.specs.Schedule.{changes_in};
ghost use Rattle.net_core.specs.KeptParts.{due_seen};
ghost use Rattle.stage.specs.Changes.{IsChanged, first_after};
ghost use Rattle.stage.specs.Faults.{fault_if, feeder_fault, full_fault, next_fault};

use crate::faults::CommitFault;
use crate::home::Home;
use net_core::{Coming, make_change, steps_run};
use std::collections::VecDeque;

impl Home {
    /// Makes the script's next change. After a refusal the home is as it was.
    pub(crate) fn change(&mut self) -> Result<(), CommitFault>
        ensures free { OnOk result (feeder_fault self.old ≡ None) }
        ensures changed { OnOk result (IsChanged self.old self.new) }
        ensures first { IfErr result
            (λ f. f ≢ CommitFault.Memory → feeder_fault self.old ≡ Some f) }
        ensures short { IfErr result (λ f. f ≡ CommitFault.Memory → feeder_fault self.old ≡ None) }
        ensures err { OnErr result (self.new ≡ self.old) }
    {
        if let Some(fault) = self.feeder_fault() {
            return Err(fault);
        }
        self.make_next()
    }

    /// Makes the script's next change, where the home has no fault for it. Its refusal is want of
    /// memory.
    fn make_next(&mut self) -> Result<(), CommitFault>
        requires free { feeder_fault self.old ≡ None }
        ensures changed { OnOk result (IsChanged self.old self.new) }
        ensures memory { IfErr result (λ f. f ≡ CommitFault.Memory) }
        ensures err { OnErr result (self.new ≡ self.old) }
    {
        steps_run();
        match make_change(&mut self.coming, &mut self.book, &mut self.history) {
            Ok(()) => Ok(()),
            Err(_) => Err(CommitFault::Memory),
        }
    }

    /// Why the script's next change may not be made now.
    pub(crate) fn feeder_fault(&self) -> Option<CommitFault>
        ensures first { result ≡ feeder_fault self.now }
        ensures apart { IfSome result (λ f. f ≢ CommitFault.Memory) }
    {
        if let Some(why) = self.stopped {
            return Some(CommitFault::Stopped(why));
        }
        if self.all_finished() {
            return Some(CommitFault::Ended);
        }
        self.next_fault()
    }

    /// Whether every role is marked as finished.
    pub(crate) fn all_finished(&self) -> bool
        ensures { result ≡ list_all (λ finished. finished) self.now.finished }
    {
        self.finished.iter().all(|finished| *finished)
    }

    /// Why the script's next change may not be made in a run that goes on: there is none, the
    /// history is full, or it isn't due.
    fn next_fault(&self) -> Option<CommitFault>
        ensures first { result ≡ next_fault self.now
            (slice_get self.now.bundle.script (changes_in self.now.history)) }
        ensures apart { IfSome result (λ f. f ≢ CommitFault.Memory) }
    {
        match first_after(&self.coming) {
            None => Some(CommitFault::NoMore),
            Some(after) => self.fault_before(after),
        }
    }

    /// Why a change that is to come after so many visible entries may not be made now.
    fn fault_before(&self, after: u64) -> Option<CommitFault>
        ensures first { result ≡ option_or (full_fault self.now)
            (fault_if (nat_lt (length (visible self.now.history)) after) CommitFault.NotYet) }
        ensures apart { IfSome result (λ f. f ≢ CommitFault.Memory) }
    {
        if self.is_full() {
            return Some(CommitFault::Full);
        }
        if self.history.visible_len() < after {
            return Some(CommitFault::NotYet);
        }
        None
    }
}

/// How many visible entries the first of these changes asks for.
fn first_after(script: &VecDeque<Coming>) -> Option<u64>
    ensures { result ≡ first_after (map due_seen script.now.items) }
{
    script.front().map(|next| next.after)
}
