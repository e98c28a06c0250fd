//! Values whose text lies elsewhere, and what the operators give for them. Nothing here takes
//! memory.

ghost use Rattle.std.specs.Prelude.{◌≡◌, ◌+ℤ◌, ◌-ℤ◌, ◌*ℤ◌, false, IfOk};
ghost use Rattle.dioc_terms.specs.declared.values.Value.TheVariants.{Bool as bool_value, Int as int_value, Text as text_value};
ghost use Rattle.dioc_terms.specs.Bundles.{joins};
ghost use Rattle.dioc_terms.specs.Equality.{value_eq};
ghost use Rattle.dioc_terms.specs.BorrowedValues.{borrowed_value, number_or_nil, others_value};
ghost use Rattle.dioc_terms.specs.Values.{fitting, quotient, remainder, operate, negated, denied, text_lt, is_true};

use crate::expressions::Oper;
use crate::faults::Memory;
use crate::names::Text;
use crate::values::Value;
use std::alloc::Global;

/// A value whose text lies elsewhere.
#[derive(Clone, Copy)]
pub(crate) enum BorrowedValue<'a> {
    Nil,
    Bool(bool),
    Int(i64),
    Text(&'a Text),
}

/// The number, or Nil.
fn of_number(number: Option<i64>) -> BorrowedValue<'static>
    ensures { borrowed_value result ≡ number_or_nil number }
{
    match number {
        Some(number) => BorrowedValue::Int(number),
        None => BorrowedValue::Nil,
    }
}

fn sum(left: i64, right: i64) -> BorrowedValue<'static>
    ensures { borrowed_value result ≡ fitting (left +ℤ right) }
{
    of_number(left.checked_add(right))
}

fn difference(left: i64, right: i64) -> BorrowedValue<'static>
    ensures { borrowed_value result ≡ fitting (left -ℤ right) }
{
    of_number(left.checked_sub(right))
}

fn product(left: i64, right: i64) -> BorrowedValue<'static>
    ensures { borrowed_value result ≡ fitting (left *ℤ right) }
{
    of_number(left.checked_mul(right))
}

fn quotient(left: i64, right: i64) -> BorrowedValue<'static>
    ensures { borrowed_value result ≡ quotient left right }
{
    of_number(left.checked_div(right))
}

fn remainder(left: i64, right: i64) -> BorrowedValue<'static>
    ensures { borrowed_value result ≡ remainder left right }
{
    if right == 0 {
        BorrowedValue::Nil
    } else {
        BorrowedValue::Int(left.wrapping_rem(right))
    }
}

fn of_numbers(oper: Oper, left: i64, right: i64) -> BorrowedValue<'static>
    ensures { borrowed_value result ≡ operate oper (int_value left) (int_value right) }
{
    match oper {
        Oper::Add => sum(left, right),
        Oper::Sub => difference(left, right),
        Oper::Mul => product(left, right),
        Oper::Div => quotient(left, right),
        Oper::Rem => remainder(left, right),
        Oper::Eq => BorrowedValue::Bool(left == right),
        Oper::Ne => BorrowedValue::Bool(left != right),
        Oper::Lt => BorrowedValue::Bool(left < right),
        Oper::Le => BorrowedValue::Bool(left <= right),
        Oper::Gt => BorrowedValue::Bool(left > right),
        Oper::Ge => BorrowedValue::Bool(left >= right),
        Oper::Join | Oper::And | Oper::Or => BorrowedValue::Nil,
    }
}

fn of_texts(oper: Oper, left: &Text, right: &Text) -> BorrowedValue<'static>
    requires { joins oper ≡ false }
    ensures { borrowed_value result ≡ operate oper (text_value left.now) (text_value right.now) }
{
    match oper {
        Oper::Eq => BorrowedValue::Bool(left == right),
        Oper::Ne => BorrowedValue::Bool(left != right),
        Oper::Lt => BorrowedValue::Bool(left.is_before(right)),
        Oper::Le => BorrowedValue::Bool(!right.is_before(left)),
        Oper::Gt => BorrowedValue::Bool(right.is_before(left)),
        Oper::Ge => BorrowedValue::Bool(!left.is_before(right)),
        _ => BorrowedValue::Nil,
    }
}

fn of_truths(oper: Oper, left: bool, right: bool) -> BorrowedValue<'static>
    ensures { borrowed_value result ≡ operate oper (bool_value left) (bool_value right) }
{
    match oper {
        Oper::Eq => BorrowedValue::Bool(left == right),
        Oper::Ne => BorrowedValue::Bool(left != right),
        Oper::And => BorrowedValue::Bool(left && right),
        Oper::Or => BorrowedValue::Bool(left || right),
        _ => BorrowedValue::Nil,
    }
}

/// What an operator gives for two values of different kinds, or for two Nil.
fn of_others(oper: Oper, are_nil: bool) -> BorrowedValue<'static>
    ensures { borrowed_value result ≡ others_value oper are_nil }
{
    match oper {
        Oper::Eq => BorrowedValue::Bool(are_nil),
        Oper::Ne => BorrowedValue::Bool(!are_nil),
        _ => BorrowedValue::Nil,
    }
}

/// What the operator gives for these values.
pub(crate) fn operate(
    oper: Oper,
    left: BorrowedValue<'_>,
    right: BorrowedValue<'_>,
) -> BorrowedValue<'static>
    requires { joins oper ≡ false }
    ensures { borrowed_value result ≡ operate oper (borrowed_value left.entry)
        (borrowed_value right.entry) }
{
    match (left, right) {
        (BorrowedValue::Int(left), BorrowedValue::Int(right)) => of_numbers(oper, left, right),
        (BorrowedValue::Text(left), BorrowedValue::Text(right)) => of_texts(oper, left, right),
        (BorrowedValue::Bool(left), BorrowedValue::Bool(right)) => of_truths(oper, left, right),
        (BorrowedValue::Nil, BorrowedValue::Nil) => of_others(oper, true),
        _ => of_others(oper, false),
    }
}

/// What `-` gives for one value.
pub(crate) fn negated(value: BorrowedValue<'_>) -> BorrowedValue<'static>
    ensures { borrowed_value result ≡ negated (borrowed_value value.entry) }
{
    match value {
        BorrowedValue::Int(number) => of_number(number.checked_neg()),
        _ => BorrowedValue::Nil,
    }
}

/// What `not` gives.
pub(crate) fn denied(value: BorrowedValue<'_>) -> BorrowedValue<'static>
    ensures { borrowed_value result ≡ denied (borrowed_value value.entry) }
{
    match value {
        BorrowedValue::Bool(flag) => BorrowedValue::Bool(!flag),
        _ => BorrowedValue::Nil,
    }
}

impl Value {
    /// The value, its text left where it is.
    pub(crate) fn seen(&self) -> BorrowedValue<'_>
        ensures { borrowed_value result ≡ self.now }
    {
        match self {
            Value::Nil => BorrowedValue::Nil,
            Value::Bool(flag) => BorrowedValue::Bool(*flag),
            Value::Int(number) => BorrowedValue::Int(*number),
            Value::Text(text) => BorrowedValue::Text(text),
        }
    }
}

impl BorrowedValue<'_> {
    /// The value, its text copied.
    pub(crate) fn to_value(self, alloc: Global) -> Result<Value, Memory>
        ensures { IfOk result (λ value. value ≡ borrowed_value self.entry) }
    {
        match self {
            BorrowedValue::Nil => Ok(Value::Nil),
            BorrowedValue::Bool(flag) => Ok(Value::Bool(flag)),
            BorrowedValue::Int(number) => Ok(Value::Int(number)),
            BorrowedValue::Text(text) => Ok(Value::Text(text.copy(alloc)?)),
        }
    }

    /// Whether a guard or a condition of this value holds.
    pub(crate) fn is_true(self) -> bool
        ensures { result ≡ is_true (borrowed_value self.entry) }
    {
        matches!(self, BorrowedValue::Bool(true))
    }
}
