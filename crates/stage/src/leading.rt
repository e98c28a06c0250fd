//! The begin of a scope in a home: what the book says of it, and its entry.

ghost use Rattle.std.specs.Prelude.{◌≡◌, ◌≢◌, ◌<◌, ◌++◌, [], ◌∷◌, List, IfErr, IfOk, OnErr, OnOk, None, Some, length, slice_get};
ghost use Rattle.dioc_terms.specs.declared.entries.Entry.TheVariants as entry;
ghost use Rattle.dioc_terms.specs.KeptStores.{store_of};
ghost use Rattle.dioc_terms.specs.Plain.{PlainRule};
ghost use Rattle.global_steps.specs.Follow.{updates_after};
ghost use Rattle.rule_book.specs.KeptBooks.{book_of, IsBookOf};
ghost use Rattle.stage.specs.Begins.{CanBegin, begin_in, scope_entry, update_in, update_of};
ghost use Rattle.stage.specs.Faults.{role_fault};
ghost use Rattle.stage.specs.Homes.{names_of, with_entry};

use crate::faults::CommitFault;
use crate::home::Home;
use crate::messages::push_entry;
use dioc_terms::{Chosen, Entry, Memory, Name, ScopeHead, Store};
use net_core::steps_run;
use rule_book::Book;
use std::alloc::Global;
use trace_book::History;

impl Home {
    /// Begins a scope for its leader, whose store this is. It answers with the rule that the book
    /// chooses now, by its number, and with the number of the update; with `None` where the book
    /// chooses none. After a refusal the home is as it was.
    pub(crate) fn scope(
        &mut self,
        head: &ScopeHead,
        store: &Store,
    ) -> Result<Option<(u32, u32)>, CommitFault>
        requires can { CanBegin self.old.bundle self.old.history head.now (store_of store.now) }
        ensures free { OnOk result (role_fault self.old ≡ None) }
        ensures chosen { IfOk result
            (λ update. update ≡ update_in self.old head.now (store_of store.now)) }
        ensures added { OnOk result
            (self.new ≡ with_entry self.old (begin_in self.old head.now (store_of store.now))) }
        ensures first { IfErr result
            (λ f. f ≢ CommitFault.Memory → role_fault self.old ≡ Some f) }
        ensures short { IfErr result (λ f. f ≡ CommitFault.Memory → role_fault self.old ≡ None) }
        ensures err { OnErr result (self.new ≡ self.old) }
    {
        if let Some(fault) = self.role_fault() {
            return Err(fault);
        }
        self.add_scope(head, store)
    }

    /// Begins a scope, where the home has no fault for roles. Its refusal is want of memory.
    fn add_scope(
        &mut self,
        head: &ScopeHead,
        store: &Store,
    ) -> Result<Option<(u32, u32)>, CommitFault>
        requires can { CanBegin self.old.bundle self.old.history head.now (store_of store.now) }
        requires free { role_fault self.old ≡ None }
        ensures chosen { IfOk result
            (λ update. update ≡ update_in self.old head.now (store_of store.now)) }
        ensures added { OnOk result
            (self.new ≡ with_entry self.old (begin_in self.old head.now (store_of store.now))) }
        ensures memory { IfErr result (λ f. f ≡ CommitFault.Memory) }
        ensures err { OnErr result (self.new ≡ self.old) }
    {
        steps_run();
        marked_laws::unique_keys();
        marked_laws::mail_is_a_map();
        process_steps::offers_are_steps();
        match begin_scope(
            self.alloc,
            &self.book,
            self.names.as_slice(),
            &mut self.updates,
            &mut self.history,
            head,
            store,
        ) {
            Ok(update) => Ok(update),
            Err(_) => Err(CommitFault::Memory),
        }
    }
}

/// Adds the entry of the begin of a scope, by what the book says, and counts the update. After a
/// refusal nothing is changed.
fn begin_scope(
    alloc: Global,
    book: &Book,
    names: &[Name],
    updates: &mut u32,
    history: &mut History,
    head: &ScopeHead,
    store: &Store,
) -> Result<Option<(u32, u32)>, Memory>
    requires known { (rules : List PlainRule) × IsBookOf rules book.now
        × (names.now ≡ names_of rules) }
    requires updates { updates.old < 4294967295 }
    ensures chosen { (rules : List PlainRule) → IsBookOf rules book.now → IfOk result
        (λ update. update ≡ update_of rules (book_of book.now) updates.old head.now
        (store_of store.now)) }
    ensures pushed { (rules : List PlainRule) → IsBookOf rules book.now
        → names.now ≡ names_of rules → OnOk result (history.new.entries ≡ history.old.entries
        ++ scope_entry rules (book_of book.now) updates.old head.now (store_of store.now) ∷ []) }
    ensures counted { (rules : List PlainRule) → IsBookOf rules book.now
        → names.now ≡ names_of rules → OnOk result (updates.new ≡ updates_after
        (scope_entry rules (book_of book.now) updates.old head.now (store_of store.now))
        updates.old) }
    ensures same_updates { OnErr result (updates.new ≡ updates.old) }
    ensures same_history { OnErr result (history.new.entries ≡ history.old.entries) }
{
    dioc_terms::choices_go_on();
    match book.choose(head, store) {
        None => {
            push_scope(alloc, history, head, Chosen::Keep)?;
            Ok(None)
        }
        Some(number) => {
            let epoch = *updates + 1;
            let name = name_at(names, number).copy(alloc)?;
            push_scope(alloc, history, head, Chosen::Rule { name, epoch })?;
            *updates = epoch;
            Ok(Some((number, epoch)))
        }
    }
}

/// The name of the rule of that number.
fn name_at<'a>(names: &'a [Name], number: u32) -> &'a Name
    requires { number < length names.now }
    ensures { slice_get names.now number ≡ Some result.now }
{
    &names[number as usize]
}

/// Adds the entry of the begin of a scope, of which this was chosen. After a refusal the entries
/// are as they were.
fn push_scope(
    alloc: Global,
    history: &mut History,
    head: &ScopeHead,
    chosen: Chosen,
) -> Result<(), Memory>
    ensures pushed { OnOk result (history.new.entries ≡ history.old.entries
        ++ entry.Scope head.now.index head.now.leader chosen ∷ []) }
    ensures same { OnErr result (history.new.entries ≡ history.old.entries) }
{
    match head.leader.copy(alloc) {
        Ok(role) => push_entry(
            history,
            Entry::Scope {
                index: head.index,
                role,
                chosen,
            },
        ),
        Err(fault) => {
            drop(chosen);
            Err(fault)
        }
    }
}
