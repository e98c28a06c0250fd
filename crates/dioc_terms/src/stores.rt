//! The store of a role: its variables, and the inputs that it has left.

use crate::borrowed::BorrowedValue;
use crate::faults::Memory;
use crate::lists::Values;
use crate::names::Name;
use crate::values::Value;
use indexmap::IndexMap;
use std::alloc::Global;
use std::collections::VecDeque;

/// The variables of a role, and the inputs that it has left.
pub struct Store {
    variables: IndexMap<Name, Value>,
    inputs: VecDeque<Value>,
}

impl Drop for Store {
    fn drop(self) {
        let Store {
            variables: _,
            inputs: _,
        } = self;
    }
}

impl Store {
    ghost use Rattle.std.specs.Prelude.{◌≡◌, ◌≢◌, ◌+◌, ◌<◌, ◌≤◌, None, IsOk, IfOk, OnOk};
    ghost use Rattle.std.specs.Option.{option_copied};
    ghost use Rattle.dioc_terms.specs.Stores.{fresh_store, variable, set_variable, next_input, drop_input};
    ghost use Rattle.dioc_terms.specs.BorrowedValues.{borrowed_value};
    ghost use Rattle.dioc_terms.specs.KeptStores.{store_of, room};

    /// A store in which no variable is set, with these inputs left. It takes no memory.
    pub fn new(alloc: Global, inputs: Values) -> Store
        ensures { store_of result ≡ fresh_store inputs }
    {
        Store {
            variables: IndexMap::new(alloc),
            inputs: VecDeque::from(inputs.into_vec()),
        }
    }

    /// The value of a variable, `None` exactly where it is unset.
    pub fn get(&self, name: &Name) -> Option<&Value>
        ensures { option_copied result ≡ (store_of self.now).variables name.now }
    {
        self.variables.get(name)
    }

    /// The value of a variable, Nil where it is unset.
    pub(crate) fn seen(&self, name: &Name) -> BorrowedValue<'_>
        ensures { borrowed_value result ≡ variable (store_of self.now) name.now }
    {
        match self.variables.get(name) {
            Some(value) => value.seen(),
            None => BorrowedValue::Nil,
        }
    }

    /// Makes room for so many new variables. After want of memory there is no less room than
    /// before.
    pub fn reserve(&mut self, count: usize) -> Result<(), Memory>
        ensures ok { OnOk result (count ≤ room self.new) }
        ensures enough { count ≤ room self.old → IsOk result }
        ensures same { store_of self.new ≡ store_of self.old }
        ensures keeps_room { room self.old ≤ room self.new }
    {
        self.variables.reserve(count)?;
        Ok(())
    }

    /// Sets a variable. It takes no memory: either the variable is set already, and then the room
    /// stays as it is, or there is room for one.
    pub fn set(&mut self, name: Name, value: Value)
        requires { (store_of self.old).variables name ≡ None → 0 < room self.old }
        ensures set { store_of self.new ≡ set_variable name value (store_of self.old) }
        ensures room_left { room self.old ≤ room self.new + 1 }
        ensures kept { (store_of self.old).variables name ≢ None → room self.new ≡ room self.old }
    {
        match self.variables.get_mut(&name) {
            Some(place) => *place = value,
            None => drop(self.variables.insert(name, value).unwrap()),
        }
    }

    /// Takes the next input, which is Nil where none is left. It takes no memory.
    pub fn next_input(&mut self) -> Value
        ensures value { result ≡ next_input (store_of self.old) }
        ensures after { store_of self.new ≡ drop_input (store_of self.old) }
        ensures keeps_room { room self.new ≡ room self.old }
    {
        self.inputs.pop_front().unwrap_or(Value::Nil)
    }

    /// A copy of the next input, which is Nil where none is left. The input stays.
    pub fn copy_of_next_input(&self, alloc: Global) -> Result<Value, Memory>
        ensures { IfOk result (λ value. value ≡ next_input (store_of self.now)) }
    {
        match self.inputs.front() {
            None => Ok(Value::Nil),
            Some(value) => value.copy(alloc),
        }
    }
}
