//! What a commit changes of a home: each call judges the home first, then takes all the memory that
//! it needs, and only then changes anything.

ghost use Rattle.std.specs.Prelude.{◌≡◌, ◌≢◌, IfErr, IfOk, OnErr, OnOk, None, Some};
ghost use Rattle.dioc_terms.specs.declared.entries.Act.TheVariants as acts;
ghost use Rattle.dioc_terms.specs.declared.entries.Entry.TheVariants as entry;
ghost use Rattle.dioc_terms.specs.Processes.{load, noted};
ghost use Rattle.network_steps.specs.Network.{pending_at};
ghost use Rattle.process_steps.specs.Steps.{Alone, Puts};
ghost use Rattle.net_core.specs.Nets.{network_at};
ghost use Rattle.stage.specs.Faults.{role_fault, take_fault};
ghost use Rattle.stage.specs.Homes.{with_entry};
ghost use Rattle.stage.specs.Roles.{CanAdd, CanDo, CanTake};

use crate::faults::CommitFault;
use crate::home::Home;
use crate::messages::{push_entry, put_message, take_message};
use dioc_terms::{Entry, Key, Name, Payload};
use net_core::steps_run;

impl Home {
    /// Puts a message of a role. After a refusal the home is as it was, and the key and the payload
    /// are dropped.
    pub(crate) fn put(&mut self, key: Key, payload: Payload) -> Result<(), CommitFault>
        requires can { CanDo self.old.bundle self.old.history key.from (acts.Put key) Alone
            (Puts key (load payload)) }
        ensures free { OnOk result (role_fault self.old ≡ None) }
        ensures added { OnOk result
            (self.new ≡ with_entry self.old (entry.Put key (noted (load payload)))) }
        ensures first { IfErr result
            (λ f. f ≢ CommitFault.Memory → role_fault self.old ≡ Some f) }
        ensures short { IfErr result (λ f. f ≡ CommitFault.Memory → role_fault self.old ≡ None) }
        ensures err { OnErr result (self.new ≡ self.old) }
    {
        if let Some(fault) = self.role_fault() {
            drop(key);
            drop(payload);
            return Err(fault);
        }
        self.add_put(key, payload)
    }

    /// Puts a message, where the home has no fault for roles. Its refusal is want of memory.
    fn add_put(&mut self, key: Key, payload: Payload) -> Result<(), CommitFault>
        requires can { CanDo self.old.bundle self.old.history key.from (acts.Put key) Alone
            (Puts key (load payload)) }
        requires free { role_fault self.old ≡ None }
        ensures added { OnOk result
            (self.new ≡ with_entry self.old (entry.Put key (noted (load payload)))) }
        ensures memory { IfErr result (λ f. f ≡ CommitFault.Memory) }
        ensures err { OnErr result (self.new ≡ self.old) }
    {
        steps_run();
        marked_laws::unique_keys();
        marked_laws::mail_is_a_map();
        process_steps::offers_are_steps();
        match put_message(self.alloc, &mut self.mail, &mut self.history, key, payload) {
            Ok(()) => Ok(()),
            Err(_) => Err(CommitFault::Memory),
        }
    }

    /// Takes a message for a role. After a refusal the home is as it was, and the name of the
    /// variable is dropped.
    pub(crate) fn take(&mut self, key: &Key, var: Option<Name>) -> Result<Payload, CommitFault>
        requires can { CanTake self.old.bundle self.old.history key.now.to key.now var }
        ensures free { OnOk result (take_fault key.now self.old ≡ None) }
        ensures taken { IfOk result (λ payload. pending_at key.now
            (network_at self.old.bundle self.old.history).pending ≡ Some (load payload)) }
        ensures added { OnOk result (self.new ≡ with_entry self.old (entry.Take key.now var)) }
        ensures first { IfErr result
            (λ f. f ≢ CommitFault.Memory → take_fault key.now self.old ≡ Some f) }
        ensures short { IfErr result
            (λ f. f ≡ CommitFault.Memory → take_fault key.now self.old ≡ None) }
        ensures err { OnErr result (self.new ≡ self.old) }
    {
        if let Some(fault) = self.role_fault() {
            drop(var);
            return Err(fault);
        }
        self.add_take(key, var)
    }

    /// Takes a message, where the home has no fault for roles. It asks the mail once, unless memory
    /// is wanting.
    fn add_take(&mut self, key: &Key, var: Option<Name>) -> Result<Payload, CommitFault>
        requires can { CanTake self.old.bundle self.old.history key.now.to key.now var }
        requires free { role_fault self.old ≡ None }
        ensures free { OnOk result (take_fault key.now self.old ≡ None) }
        ensures taken { IfOk result (λ payload. pending_at key.now
            (network_at self.old.bundle self.old.history).pending ≡ Some (load payload)) }
        ensures added { OnOk result (self.new ≡ with_entry self.old (entry.Take key.now var)) }
        ensures first { IfErr result
            (λ f. f ≢ CommitFault.Memory → take_fault key.now self.old ≡ Some f) }
        ensures short { IfErr result
            (λ f. f ≡ CommitFault.Memory → take_fault key.now self.old ≡ None) }
        ensures err { OnErr result (self.new ≡ self.old) }
    {
        steps_run();
        marked_laws::unique_keys();
        marked_laws::mail_is_a_map();
        process_steps::offers_are_steps();
        take_message(self.alloc, &mut self.mail, &mut self.history, key, var)
    }

    /// Adds what a role did alone: it set a variable, read an input or picked a branch. After a
    /// refusal the home is as it was, and the entry is dropped.
    pub(crate) fn add(&mut self, entry: Entry) -> Result<(), CommitFault>
        requires can { CanAdd self.old.bundle self.old.history entry }
        ensures free { OnOk result (role_fault self.old ≡ None) }
        ensures added { OnOk result (self.new ≡ with_entry self.old entry) }
        ensures first { IfErr result
            (λ f. f ≢ CommitFault.Memory → role_fault self.old ≡ Some f) }
        ensures short { IfErr result (λ f. f ≡ CommitFault.Memory → role_fault self.old ≡ None) }
        ensures err { OnErr result (self.new ≡ self.old) }
    {
        if let Some(fault) = self.role_fault() {
            drop(entry);
            return Err(fault);
        }
        self.add_own(entry)
    }

    /// Adds what a role did alone, where the home has no fault for roles. Its refusal is want of
    /// memory.
    fn add_own(&mut self, entry: Entry) -> Result<(), CommitFault>
        requires can { CanAdd self.old.bundle self.old.history entry }
        requires free { role_fault self.old ≡ None }
        ensures added { OnOk result (self.new ≡ with_entry self.old entry) }
        ensures memory { IfErr result (λ f. f ≡ CommitFault.Memory) }
        ensures err { OnErr result (self.new ≡ self.old) }
    {
        steps_run();
        marked_laws::unique_keys();
        marked_laws::mail_is_a_map();
        process_steps::offers_are_steps();
        process_steps::steps_show_their_acts();
        match push_entry(&mut self.history, entry) {
            Ok(()) => Ok(()),
            Err(_) => Err(CommitFault::Memory),
        }
    }
}
