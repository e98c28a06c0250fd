//! A list inside a public type.

ghost use Rattle.std.specs.Prelude.{◌≡◌, ◌↔◌, [], length, IsTrue};

use crate::entries::Entry;
use crate::names::{Name, Role};
use crate::processes::Key;
use crate::values::Value;
use std::marker::Model;

/// A list that contracts see as the list of its items.
pub struct Items<T> {
    items: Vec<T>,
}

impl<T: Drop> Drop for Items<T> {
    fn drop(self) {
        let Items { items: _ } = self;
    }
}

impl<T> Model for Items<T> {
    ghost use Rattle.std.specs.Prelude.{List};

    ghost Value = { List T };

    ghost view = { λ list. list.items.items };
}

impl<T> Items<T> {
    /// The list of these items. It takes no memory.
    pub fn new(items: Vec<T>) -> Items<T>
        ensures { result ≡ items.items }
    {
        Items { items }
    }

    /// The items, in their order.
    pub fn as_slice(&self) -> &[T]
        ensures { result.now ≡ self.now }
    {
        self.items.as_slice()
    }

    /// The items, in their order, to be changed or moved out.
    pub fn into_vec(self) -> Vec<T>
        ensures { result.items ≡ self }
    {
        let Items { items } = self;
        items
    }

    /// How many items.
    pub fn len(&self) -> usize
        ensures { result ≡ length self.now }
    {
        self.items.len()
    }

    /// Whether there are none.
    pub fn is_empty(&self) -> bool
        ensures { IsTrue result ↔ (self.now ≡ []) }
    {
        self.items.is_empty()
    }
}

/// Roles, in an order.
pub type Roles = Items<Role>;

/// Names with their values; the last pair of a name counts.
pub type Bindings = Items<(Name, Value)>;

/// Values, in an order.
pub type Values = Items<Value>;

/// Keys of messages, in an order.
pub type Keys = Items<Key>;

/// Entries of a history, in an order.
pub type Entries = Items<Entry>;
