//! Values.

ghost use Rattle.std.specs.Prelude.{◌≡◌, IfOk};

use crate::faults::Memory;
use crate::names::Text;
use std::alloc::Global;

/// What a variable holds and a message carries.
pub enum Value {
    /// No value: what an unset variable has.
    Nil,
    /// A truth.
    Bool(bool),
    /// A whole number of 64 bits.
    Int(i64),
    /// A text.
    Text(Text),
}

impl Drop for Value {
    fn drop(self) {
        match self {
            Value::Nil => {}
            Value::Bool(_) => {}
            Value::Int(_) => {}
            Value::Text(_) => {}
        }
    }
}

impl Value {
    /// A copy, the same value.
    pub fn copy(&self, alloc: Global) -> Result<Value, Memory>
        ensures { IfOk result (λ copy. copy ≡ self.now) }
    {
        match self {
            Value::Nil => Ok(Value::Nil),
            Value::Bool(flag) => Ok(Value::Bool(*flag)),
            Value::Int(number) => Ok(Value::Int(*number)),
            Value::Text(text) => Ok(Value::Text(text.copy(alloc)?)),
        }
    }
}

impl PartialEq for Value {
    ghost use Rattle.dioc_terms.specs.Equality.{value_eq};
    ghost use Rattle.dioc_terms.specs.EqualityLemmas.{equivalence_from_Decides, value_eq-decides};
    ghost use Rattle.std.specs.Cmp.{partial_equiv_from_equiv};

    ghost eq = { value_eq };

    ghost laws = { partial_equiv_from_equiv (equivalence_from_Decides value_eq value_eq-decides) };

    fn eq(&self, other: &Value) -> bool {
        match (self, other) {
            (Value::Nil, Value::Nil) => true,
            (Value::Bool(mine), Value::Bool(theirs)) => mine == theirs,
            (Value::Int(mine), Value::Int(theirs)) => mine == theirs,
            (Value::Text(mine), Value::Text(theirs)) => mine == theirs,
            _ => false,
        }
    }
}

impl Eq for Value {
    ghost use Rattle.dioc_terms.specs.Equality.{value_eq};
    ghost use Rattle.dioc_terms.specs.EqualityLemmas.{equivalence_from_Decides, value_eq-decides};

    ghost laws = { equivalence_from_Decides value_eq value_eq-decides };
}
