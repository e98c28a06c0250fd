//! `eval: TEXT`: the value of an expression where no variable is set.

use case_tables::{Case, Problem, whole_expr};
use dioc_terms::{Expr, Items, Memory, Store, Value, eval};
use expr_syntax::write_value;
use std::alloc::Global;

/// Appends the value as it is written.
pub fn answer(alloc: Global, case: &Case, out: &mut Vec<u8>) -> Result<(), Problem> {
    let expr = whole_expr(alloc, case)?;
    let value = value_of(alloc, &expr)?;
    Ok(write_value(&value, out)?)
}

fn value_of(alloc: Global, expr: &Expr) -> Result<Value, Memory> {
    let store = Store::new(alloc, Items::new(Vec::new(alloc)));
    let value = eval(alloc, expr, &store);
    drop(store);
    value
}
