//! The entries of a run so far.

ghost use Rattle.std.specs.Prelude.{◌≡◌, ◌+◌, ◌<◌, ◌≤◌, ◌↔◌, [], ◌∷◌, ◌++◌, length, filter, slice_get, IsNone, IsOk, IfOk, OnOk, OnErr};
ghost use Rattle.std.specs.Option.{option_copied};
ghost use Rattle.dioc_terms.specs.Messages.{visible};
ghost use Rattle.trace_book.specs.Histories.{is_of};

use crate::doers::is_of;
use aux_messages::is_aux;
use dioc_terms::{Entry, Memory, Role};
use std::alloc::Global;
use std::marker::Model;

/// The entries so far, in their order. Contracts see their list, and how many more there is room
/// for.
pub struct History {
    entries: Vec<Entry>,
    visible_count: u64,
}

impl Drop for History {
    fn drop(self) {
        let History {
            entries: _,
            visible_count: _,
        } = self;
    }
}

impl Model for History {
    ghost use Rattle.std.specs.Prelude.{◌≡◌, ◌-◌, length, vec_len, vec_capacity};
    ghost use Rattle.dioc_terms.specs.Messages.{visible};
    ghost use Rattle.trace_book.specs.Histories.{Written};

    ghost Value = { Written };

    ghost view = { λ history. record {
      entries = history.entries.items;
      room = vec_capacity history.entries -
          vec_len history.entries;
    } };

    ghost invariant = { λ history. history.visible_count ≡ length (visible history.entries.items) };
}

impl History {
    /// A history with no entry. It takes no memory.
    pub fn new(alloc: Global) -> History
        ensures { result.entries ≡ [] }
    {
        History {
            entries: Vec::new(alloc),
            visible_count: 0,
        }
    }

    /// Makes room for so many entries more. After a refusal the history is as it was.
    ///
    /// Room grows in steps that double it, so to reserve one place before each entry is no slower
    /// than to reserve all at once.
    pub fn reserve(&mut self, count: usize) -> Result<(), Memory>
        ensures ok { OnOk result (count ≤ self.new.room) }
        ensures enough { count ≤ self.old.room → IsOk result }
        ensures same { self.new.entries ≡ self.old.entries }
        ensures keeps_room { self.old.room ≤ self.new.room }
        ensures refused { OnErr result (self.new ≡ self.old) }
    {
        self.entries.reserve(count)?;
        Ok(())
    }

    /// Adds an entry as the last one. It takes no memory: there is room for one.
    pub fn push(&mut self, entry: Entry)
        requires { 0 < self.old.room }
        ensures pushed { self.new.entries ≡ self.old.entries ++ entry ∷ [] }
        ensures room_left { self.old.room ≤ self.new.room + 1 }
    {
        let is_visible = !is_aux(&entry);
        if is_visible {
            self.visible_count += 1;
        }
        self.entries.push(entry).unwrap();
    }

    /// The entries, in their order.
    pub fn as_slice(&self) -> &[Entry]
        ensures { result.now ≡ self.now.entries }
    {
        self.entries.as_slice()
    }

    /// How many entries.
    pub fn len(&self) -> u64
        ensures { result ≡ length self.now.entries }
    {
        self.entries.len() as u64
    }

    /// The entry of that number, the first of which has the number 0. `None` exactly where there
    /// are no more than `number`.
    pub fn get(&self, number: u64) -> Option<&Entry>
        ensures entry { option_copied result ≡ slice_get self.now.entries number }
        ensures none { IsNone result ↔ (length self.now.entries ≤ number) }
    {
        self.entries.as_slice().get(number as usize)
    }

    /// How many entries are visible: all but those that put or take an auxiliary message. The
    /// number is kept, and not counted here.
    pub fn visible_len(&self) -> u64
        ensures { result ≡ length (visible self.now.entries) }
    {
        self.visible_count
    }

    /// A history of exactly the visible entries, in their order.
    pub fn visible(&self) -> Result<History, Memory>
        ensures { IfOk result (λ history. history.entries ≡ visible self.now.entries) }
    {
        let mut history = History::new(*self.entries.allocator());
        let entries = self.entries.as_slice();
        for entry in entries {
            if !is_aux(entry) {
                history.push_copy(entry)?;
            }
        }
        Ok(history)
    }

    /// A history of exactly the entries of the role, in their order: it put, took or did what the
    /// entry shows.
    pub fn of_role(&self, role: &Role) -> Result<History, Memory>
        ensures { IfOk result (λ history. history.entries ≡ filter (is_of role.now)
            self.now.entries) }
    {
        let mut history = History::new(*self.entries.allocator());
        let entries = self.entries.as_slice();
        for entry in entries {
            if is_of(entry, role) {
                history.push_copy(entry)?;
            }
        }
        Ok(history)
    }

    /// Adds a copy of the entry as the last one.
    fn push_copy(&mut self, entry: &Entry) -> Result<(), Memory>
        ensures { OnOk result (self.new.entries ≡ self.old.entries ++ entry.now ∷ []) }
    {
        self.reserve(1)?;
        let copy = entry.copy(*self.entries.allocator())?;
        self.push(copy);
        Ok(())
    }
}
