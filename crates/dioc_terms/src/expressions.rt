//! Expressions.

ghost use Rattle.std.specs.Prelude.{◌≡◌, IfOk};
ghost use Rattle.dioc_terms.specs.Expressions.{expression};

use crate::copies::new_box;
use crate::faults::Memory;
use crate::names::Name;
use crate::values::Value;
use std::alloc::Global;

/// The operators that stand between two operands.
#[derive(Clone, Copy)]
pub enum Oper {
    /// `+`
    Add,
    /// `-`
    Sub,
    /// `*`
    Mul,
    /// `/`, truncated toward zero
    Div,
    /// `%`, with the sign of the dividend
    Rem,
    /// `++`
    Join,
    /// `==`
    Eq,
    /// `!=`
    Ne,
    /// `<`
    Lt,
    /// `<=`
    Le,
    /// `>`
    Gt,
    /// `>=`
    Ge,
    /// `and`
    And,
    /// `or`
    Or,
}

/// An expression: of a step, over the acting role's variables; of a rule's condition, also over the
/// scope's properties (`Prop`) and the environment (`Env`).
pub enum Expr {
    /// A constant.
    Const(Value),
    /// A variable of the acting role.
    Var(Name),
    /// A property of the scope.
    Prop(Name),
    /// A key of the environment.
    Env(Name),
    /// `not`
    Not(Box<Expr>),
    /// `-` before one operand.
    Neg(Box<Expr>),
    /// An operator between its two operands.
    Bin(Oper, Box<Expr>, Box<Expr>),
}

impl Drop for Expr {
    fn drop(self) {
        match self {
            Expr::Const(_) => {}
            Expr::Var(_) => {}
            Expr::Prop(_) => {}
            Expr::Env(_) => {}
            Expr::Not(_) => {}
            Expr::Neg(_) => {}
            Expr::Bin(_, _, _) => {}
        }
    }
}

impl Expr {
    /// A copy, the same expression.
    pub fn copy(&self, alloc: Global) -> Result<Expr, Memory>
        ensures { IfOk result (λ copy. expression copy ≡ expression self.now) }
    {
        match self {
            Expr::Const(value) => Ok(Expr::Const(value.copy(alloc)?)),
            Expr::Var(name) => Ok(Expr::Var(name.copy(alloc)?)),
            Expr::Prop(name) => Ok(Expr::Prop(name.copy(alloc)?)),
            Expr::Env(name) => Ok(Expr::Env(name.copy(alloc)?)),
            Expr::Not(inner) => Ok(Expr::Not(new_box(alloc, inner.copy(alloc)?)?)),
            Expr::Neg(inner) => Ok(Expr::Neg(new_box(alloc, inner.copy(alloc)?)?)),
            Expr::Bin(oper, left, right) => {
                let left = new_box(alloc, left.copy(alloc)?)?;
                let right = new_box(alloc, right.copy(alloc)?)?;
                Ok(Expr::Bin(*oper, left, right))
            }
        }
    }
}
