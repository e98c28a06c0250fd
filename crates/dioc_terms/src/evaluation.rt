//! What expressions give.

ghost use Rattle.std.specs.Prelude.{◌≡◌, true, IfOk};
ghost use Rattle.dioc_terms.specs.Conditions.{has_no_join, ConditionsJoinNothing};
ghost use Rattle.dioc_terms.specs.Expressions.{expression};
ghost use Rattle.dioc_terms.specs.KeptStores.{store_of};
ghost use Rattle.dioc_terms.specs.BorrowedValues.{borrowed_value};
ghost use Rattle.dioc_terms.specs.Stores.{variable};
ghost use Rattle.dioc_terms.specs.Values.{operate, eval, value_in, bound, holds, join_texts};

use crate::borrowed::{BorrowedValue, denied, negated, operate};
use crate::expressions::{Expr, Oper};
use crate::faults::Memory;
use crate::names::Name;
use crate::stores::Store;
use crate::values::Value;
use std::alloc::Global;

/// The value of a step's expression in the store of the acting role. A property and an environment
/// key are Nil.
pub fn eval(alloc: Global, expr: &Expr, store: &Store) -> Result<Value, Memory>
    ensures { IfOk result (λ value. value ≡ eval (expression expr.now) (store_of store.now)) }
{
    match expr {
        Expr::Const(value) => value.copy(alloc),
        Expr::Var(name) => store.seen(name).to_value(alloc),
        Expr::Prop(_) | Expr::Env(_) => Ok(Value::Nil),
        Expr::Not(inner) => {
            let inner = eval(alloc, inner, store)?;
            denied(inner.seen()).to_value(alloc)
        }
        Expr::Neg(inner) => {
            let inner = eval(alloc, inner, store)?;
            negated(inner.seen()).to_value(alloc)
        }
        Expr::Bin(oper, left, right) => {
            let left = eval(alloc, left, store)?;
            let right = eval(alloc, right, store)?;
            operate_or_join(alloc, *oper, &left, &right)
        }
    }
}

fn operate_or_join(alloc: Global, oper: Oper, left: &Value, right: &Value) -> Result<Value, Memory>
    ensures { IfOk result (λ value. value ≡ operate oper left.now right.now) }
{
    match oper {
        Oper::Join => join(alloc, left, right),
        oper => operate(oper, left.seen(), right.seen()).to_value(alloc),
    }
}

fn join(alloc: Global, left: &Value, right: &Value) -> Result<Value, Memory>
    ensures { IfOk result (λ value. value ≡ join_texts left.now right.now) }
{
    match (left, right) {
        (Value::Text(left), Value::Text(right)) => match left.join(alloc, right)? {
            Some(text) => Ok(Value::Text(text)),
            None => Ok(Value::Nil),
        },
        _ => Ok(Value::Nil),
    }
}

/// Whether a rule's condition holds, over the store of a scope's leader, the properties of the
/// scope and the environment. In both lists the last pair of a name counts. It takes no memory: no
/// text is joined.
pub fn test(cond: &Expr, store: &Store, props: &[(Name, Value)], env: &[(Name, Value)]) -> bool
    requires { has_no_join (expression cond.now) ≡ true }
    ensures { result ≡ holds (expression cond.now) (store_of store.now) (bound props.now)
        (bound env.now) }
{
    condition_value(cond, store, props, env).is_true()
}

fn condition_value<'a>(
    cond: &'a Expr,
    store: &'a Store,
    props: &'a [(Name, Value)],
    env: &'a [(Name, Value)],
) -> BorrowedValue<'a>
    requires { has_no_join (expression cond.now) ≡ true }
    ensures { borrowed_value result ≡ value_in (variable (store_of store.now)) (bound props.now)
        (bound env.now) (expression cond.now) }
{
    match cond {
        Expr::Const(value) => value.seen(),
        Expr::Var(name) => store.seen(name),
        Expr::Prop(name) => last_of(props, name),
        Expr::Env(name) => last_of(env, name),
        Expr::Not(inner) => denied(condition_value(inner, store, props, env)),
        Expr::Neg(inner) => negated(condition_value(inner, store, props, env)),
        Expr::Bin(oper, left, right) => {
            let left = condition_value(left, store, props, env);
            let right = condition_value(right, store, props, env);
            operate(*oper, left, right)
        }
    }
}

/// The value that the last pair of a name gives it, Nil where no pair has the name.
fn last_of<'a>(pairs: &'a [(Name, Value)], name: &Name) -> BorrowedValue<'a>
    ensures { borrowed_value result ≡ bound pairs.now name.now }
{
    let mut last = BorrowedValue::Nil;
    for (key, value) in pairs {
        if key == name {
            last = value.seen();
        }
    }
    last
}

/// A law: the condition of a rule joins no texts, so that `test` can be asked about it. It does
/// nothing.
pub fn conditions_join_nothing()
    ensures { ConditionsJoinNothing }
{}
