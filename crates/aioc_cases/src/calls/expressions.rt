//! `read_expr step: TEXT` and `read_expr condition: TEXT`: the longest expression at the front of a
//! text.

use case_tables::{Case, Problem, front_expr};
use expr_syntax::{ExprKind, write_expr};
use std::alloc::Global;

/// Appends `reads N: ` with the expression as it is written; `none at byte N`; or `bad byte N`.
pub fn answer(alloc: Global, case: &Case, out: &mut Vec<u8>) -> Result<(), Problem> {
    let front = front_expr(alloc, &case.text, kind_of(case)?)?;
    Ok(front.write(&|expr, out| write_expr(expr, out), out)?)
}

fn kind_of(case: &Case) -> Result<ExprKind, Problem> {
    match case.option()? {
        b"step" => Ok(ExprKind::Step),
        b"condition" => Ok(ExprKind::Condition),
        _ => Err(Problem::Bad("the kind is step or condition")),
    }
}
