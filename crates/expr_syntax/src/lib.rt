//! The grammar of expressions: constants, leaves and levels are read from tokens, and written.
#![tactic(auto)]

mod constants;
mod expressions;
pub mod laws;
mod leaves;
mod levels;
mod places;
mod readers;
mod writers;

pub use constants::{GREATEST, GREATEST_NEGATED, constant_at, number_at};
pub use expressions::{expr_at, read_expr};
pub use leaves::name_at;
pub use levels::ExprKind;
pub use writers::{write_expr, write_value};
