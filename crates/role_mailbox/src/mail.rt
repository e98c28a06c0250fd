//! The pending messages, found by their keys.

use dioc_terms::{Key, Memory, Payload};
use indexmap::IndexMap;
use std::alloc::Global;

/// The pending messages. No two of them have one key, and their order means nothing.
pub struct Mail {
    pending: IndexMap<Key, Payload>,
}

impl Drop for Mail {
    fn drop(self) {
        let Mail { pending: _ } = self;
    }
}

impl Mail {
    ghost use Rattle.std.specs.Prelude.{◌≡◌, ◌+◌, ◌<◌, ◌≤◌, ◌↔◌, [], length, is_some, if◌then◌else◌, Some, None, IsOk, IfNone, OnOk};
    ghost use Rattle.std.specs.Bool.{OnFalse};
    ghost use Rattle.std.specs.Option.{option_map};
    ghost use Rattle.dioc_terms.specs.declared.processes.Key.{Key};
    ghost use Rattle.dioc_terms.specs.Processes.{load};
    ghost use Rattle.role_mailbox.specs.Pending.{messages, payload_at, room, ChangesOnly, HoldsKeysOnce};

    /// No message is pending. It takes no memory.
    pub fn new(alloc: Global) -> Mail
        ensures { messages result ≡ [] }
    {
        Mail {
            pending: IndexMap::new(alloc),
        }
    }

    /// Makes room for so many messages more. After a refusal the mail has the
    /// messages and at least the room that it had.
    pub fn reserve(&mut self, count: usize) -> Result<(), Memory>
        ensures ok { OnOk result (count ≤ room self.new) }
        ensures enough { count ≤ room self.old → IsOk result }
        ensures same { messages self.new ≡ messages self.old }
        ensures keeps_room { room self.old ≤ room self.new }
    {
        self.pending.reserve(count)?;
        Ok(())
    }

    /// Adds a message. It takes no memory: there is room for one, and no message of that key is
    /// pending.
    pub fn put(&mut self, key: Key, payload: Payload)
        requires room { 0 < room self.old }
        requires free { payload_at key self.old ≡ None }
        ensures put { ChangesOnly self.old self.new key (Some (load payload)) }
        ensures count { length (messages self.new) ≡ length (messages self.old) + 1 }
        ensures room_left { room self.old ≤ room self.new + 1 }
        ensures distinct { HoldsKeysOnce self.new }
    {
        // The key is new, so what is dropped is no payload.
        drop(self.pending.insert(key, payload).unwrap());
    }

    /// Takes the message of exactly that key, `None` exactly where none is pending. It takes no
    /// memory.
    pub fn take(&mut self, key: &Key) -> Option<Payload>
        ensures payload { option_map load result ≡ payload_at key.now self.old }
        ensures taken { ChangesOnly self.old self.new key.now None }
        ensures count { length (messages self.new) + (if is_some result then 1 else 0)
            ≡ length (messages self.old) }
        ensures same { IfNone result (messages self.new ≡ messages self.old) }
        ensures keeps_room { room self.old ≤ room self.new }
        ensures distinct { HoldsKeysOnce self.new }
    {
        self.pending.swap_remove(key)
    }

    /// Whether a message of that key is pending. It takes no memory.
    #[tactic(auto, using(crate::proofs::MailLemmas::holding_rules))]
    pub fn holds(&self, key: &Key) -> bool
        ensures holds { result ≡ is_some (payload_at key.now self.now) }
        ensures free { OnFalse result (payload_at key.now self.now ≡ None) }
    {
        self.pending.contains_key(key)
    }

    /// How many messages are pending. It takes no memory.
    pub fn len(&self) -> usize
        ensures count { result ≡ length (messages self.now) }
        ensures none { (result ≡ 0) ↔ ((key : Key) → payload_at key self.now ≡ None) }
        ensures distinct { HoldsKeysOnce self.now }
    {
        self.pending.len()
    }
}
