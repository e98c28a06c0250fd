//! Copies of values, boxes for them, and how a value is let go where memory runs out.

ghost use Rattle.std.specs.Prelude.{◌≡◌, IfOk, Err};

use crate::entries::Entry;
use crate::faults::Memory;
use crate::lists::Items;
use crate::names::{Name, Role};
use crate::processes::Key;
use crate::values::Value;
use std::alloc::Global;

/// What has a copy that is the same value.
pub trait TryCopy: Drop {
    /// A copy.
    fn try_copy(&self, alloc: Global) -> Result<Self, Memory>
        ensures { IfOk result (λ copy. copy ≡ self.now) };
}

impl<T: TryCopy> Items<T> {
    /// A copy of the list, item by item.
    pub fn copy(&self, alloc: Global) -> Result<Items<T>, Memory>
        ensures { IfOk result (λ copy. copy ≡ self.now) }
    {
        let items = self.as_slice();
        let mut copies = Vec::with_capacity(alloc, items.len())?;
        for item in items {
            copies.push_reserved(item.try_copy(alloc)?);
        }
        Ok(Items::new(copies))
    }
}

impl TryCopy for Name {
    fn try_copy(&self, alloc: Global) -> Result<Name, Memory> {
        self.copy(alloc)
    }
}

impl TryCopy for Role {
    fn try_copy(&self, alloc: Global) -> Result<Role, Memory> {
        self.copy(alloc)
    }
}

impl TryCopy for Value {
    fn try_copy(&self, alloc: Global) -> Result<Value, Memory> {
        self.copy(alloc)
    }
}

impl TryCopy for Key {
    fn try_copy(&self, alloc: Global) -> Result<Key, Memory> {
        self.copy(alloc)
    }
}

impl TryCopy for Entry {
    fn try_copy(&self, alloc: Global) -> Result<Entry, Memory> {
        self.copy(alloc)
    }
}

impl TryCopy for (Name, Value) {
    fn try_copy(&self, alloc: Global) -> Result<(Name, Value), Memory> {
        copy_both(alloc, &self.0, &self.1)
    }
}

/// Copies of both.
pub(crate) fn copy_both<T: TryCopy, U: TryCopy>(
    alloc: Global,
    first: &T,
    second: &U,
) -> Result<(T, U), Memory>
    ensures { IfOk result (λ copies. copies ≡ (first.now, second.now)) }
{
    let first = first.try_copy(alloc)?;
    let second = second.try_copy(alloc)?;
    Ok((first, second))
}

/// A box with the value, or want of memory for it; the value is then let go.
pub fn new_box<T: Drop>(alloc: Global, value: T) -> Result<Box<T>, Memory>
    ensures { IfOk result (λ made. made.value ≡ value) }
{
    Ok(Box::new(alloc, value)?)
}

/// Boxes with these two.
pub fn new_boxes<T: Drop, U: Drop>(
    alloc: Global,
    first: T,
    second: U,
) -> Result<(Box<T>, Box<U>), Memory>
    ensures first { IfOk result (λ made. made.0.value ≡ first) }
    ensures second { IfOk result (λ made. made.1.value ≡ second) }
{
    match new_box(alloc, first) {
        Ok(first) => match new_box(alloc, second) {
            Ok(second) => Ok((first, second)),
            Err(fault) => give_up(first, fault),
        },
        Err(fault) => give_up(second, fault),
    }
}

/// Lets go of a value, for want of memory.
pub fn give_up<T: Drop, U: Drop>(_value: T, fault: Memory) -> Result<U, Memory>
    ensures { result ≡ Err fault }
{
    Err(fault)
}
