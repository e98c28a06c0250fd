//! What a book keeps of rules and of changes: copies, so that a change takes no memory and no body
//! is walked again.

ghost use Rattle.std.specs.Prelude.{◌≡◌, ◌&&◌, true, false, ℕ, List, nat_lt, int_lt, IfOk};
ghost use Rattle.std.specs.List.{list_all};
ghost use Rattle.std.specs.Option.{option_map_or};
ghost use Rattle.dioc_terms.specs.Conditions.{has_no_join};
ghost use Rattle.dioc_terms.specs.Equality.{member, value_eq};
ghost use Rattle.dioc_terms.specs.Expressions.{Expression, expression, Bin};
ghost use Rattle.dioc_terms.specs.KeptStores.{store_of};
ghost use Rattle.dioc_terms.specs.Stores.{Store as Stored};
ghost use Rattle.limits.specs.Limits.{top_level};
ghost use Rattle.dioc_terms.specs.Values.{bound, holds};
ghost use Rattle.dioc_terms.specs.declared.values.Value.TheVariants as values;
ghost use Rattle.rule_book.specs.Wanted.{IsWanted, IsWanted-prop};

use dioc_terms::{Expr, Memory, Name, Oper, Role, Roles, ScopeHead, Store, Value, is_among, test};
use limits::TOP_LEVEL;
use std::alloc::Global;

/// What a book keeps of a rule.
pub struct KeptRule {
    /// Its number in the bundle.
    pub(crate) number: u32,
    /// Its priority.
    pub(crate) priority: i32,
    /// Its condition.
    pub(crate) cond: Expr,
    /// The roles of its body.
    pub(crate) roles: Roles,
    /// A property and the whole number that the condition asks of it, where it asks for one.
    pub(crate) wanted: Option<(Name, i64)>,
    ghost no_join: { has_no_join (expression cond) ≡ true },
    ghost asks: { IsWanted (expression cond) wanted } by { IsWanted-prop (expression cond) wanted },
}

impl Drop for KeptRule {
    fn drop(self) {
        let KeptRule {
            number: _,
            priority: _,
            cond: _,
            roles: _,
            wanted: _,
        } = self;
    }
}

/// A change that is still to come, with the memory that it takes.
#[derive(Drop)]
pub enum KeptChange {
    /// The rule is added by its name.
    Add(Name, KeptRule),
    /// The rule of that name is dropped.
    Drop(Name),
    /// The key is set to the value.
    Env(Name, Value),
}

impl KeptRule {
    /// Whether the rule fits a scope: its condition holds, the roles of its body are among the
    /// scope's roles, and the scope's level is below the limit.
    pub(crate) fn fits(&self, head: &ScopeHead, store: &Store, env: &[(Name, Value)]) -> bool
        ensures { result ≡ (holds (expression self.now.cond) (store_of store.now)
            (bound head.now.props) (bound env.now)
            && list_all (λ q. member q head.now.roles) self.now.roles
            && nat_lt head.now.level top_level) }
    {
        !lacks(&self.wanted, head.props.as_slice())
            && !is_excluded(&self.cond, head.props.as_slice())
            && test(&self.cond, store, head.props.as_slice(), env)
            && are_among(self.roles.as_slice(), head.roles.as_slice())
            && head.level < TOP_LEVEL
    }

    /// Whether the rule has a greater priority than the best so far, whose number and priority are
    /// given.
    pub(crate) fn is_above(&self, best: Option<(u32, i32)>) -> bool
        ensures { result ≡ option_map_or (λ b. int_lt b.1 self.now.priority) best true }
    {
        match best {
            Some((_, priority)) => priority < self.priority,
            None => true,
        }
    }
}

/// A property and the whole number that a conjunct of the condition asks of it: the first that asks
/// for one.
pub(crate) fn wanted_of(alloc: Global, cond: &Expr) -> Result<Option<(Name, i64)>, Memory>
    ensures { IfOk result (IsWanted (expression cond.now)) }
{
    match cond {
        Expr::Bin(Oper::And, left, right) => match wanted_of(alloc, left)? {
            Some(wanted) => Ok(Some(wanted)),
            None => wanted_of(alloc, right),
        },
        Expr::Bin(Oper::Eq, left, right) => wanted_by(alloc, left, right),
        _ => Ok(None),
    }
}

/// The property and the whole number, where one of the two is a property and the other a whole
/// number.
fn wanted_by(alloc: Global, left: &Expr, right: &Expr) -> Result<Option<(Name, i64)>, Memory>
    ensures { IfOk result
        (IsWanted (Bin Oper.Eq (expression left.now) (expression right.now))) }
{
    match (left, right) {
        (Expr::Prop(name), Expr::Const(Value::Int(number))) => {
            Ok(Some((name.copy(alloc)?, *number)))
        }
        (Expr::Const(Value::Int(number)), Expr::Prop(name)) => {
            Ok(Some((name.copy(alloc)?, *number)))
        }
        _ => Ok(None),
    }
}

/// Whether the property is known not to be the whole number that is wanted. Of a property that is
/// given twice it may leave the answer to the test of the condition.
// (Most rules are for other scopes, and most properties that tell them apart are numbers: so this
// is asked first, and costs least.)
fn lacks(wanted: &Option<(Name, i64)>, props: &[(Name, Value)]) -> bool
    ensures { (e : Expression) → IsWanted e wanted.now → result ≡ true
        → (s : Stored) (env : List ℕ → Value) → holds e s (bound props.now) env ≡ false }
{
    match wanted {
        Some((name, number)) => is_no_number(props, name, *number),
        None => false,
    }
}

/// Whether no property of that name has this number.
fn is_no_number(props: &[(Name, Value)], name: &Name, number: i64) -> bool
    ensures { result ≡ true → value_eq (bound props.now name.now) (values.Int number) ≡ false }
{
    for (key, held) in props {
        if is_number(held, number) && key == name {
            return false;
        }
    }
    true
}

fn is_number(value: &Value, number: i64) -> bool
    ensures { result ≡ value_eq value.now (values.Int number) }
{
    match value {
        Value::Int(held) => *held == number,
        _ => false,
    }
}

/// Whether a conjunct of the condition asks for another value of a property than the scope's, so
/// that the condition doesn't hold, whatever the store and the environment. It costs far less than
/// the test of the whole condition. Of a property that is given twice it may leave the answer to
/// that test, as of one that is to be Nil.
fn is_excluded(cond: &Expr, props: &[(Name, Value)]) -> bool
    ensures { result ≡ true → (s : Stored) (env : List ℕ → Value)
        → holds (expression cond.now) s (bound props.now) env ≡ false }
{
    match cond {
        Expr::Bin(Oper::And, left, right) => is_excluded(left, props) || is_excluded(right, props),
        Expr::Bin(Oper::Eq, left, right) => are_apart(left, right, props),
        _ => false,
    }
}

/// Whether one of the two is a property and the other a constant that the property can't be, so
/// that they aren't equal.
fn are_apart(left: &Expr, right: &Expr, props: &[(Name, Value)]) -> bool
    ensures { result ≡ true → (s : Stored) (env : List ℕ → Value) → holds (Bin Oper.Eq
        (expression left.now) (expression right.now)) s (bound props.now) env ≡ false }
{
    match (left, right) {
        (Expr::Prop(name), Expr::Const(value)) => is_nowhere(props, name, value),
        (Expr::Const(value), Expr::Prop(name)) => is_nowhere(props, name, value),
        _ => false,
    }
}

/// Whether the value isn't Nil, and no property of that name has it. Values are compared before
/// names, since they are most often numbers.
fn is_nowhere(props: &[(Name, Value)], name: &Name, value: &Value) -> bool
    ensures { result ≡ true → value_eq (bound props.now name.now) value.now ≡ false }
{
    if matches!(value, Value::Nil) {
        return false;
    }
    for (key, held) in props {
        if held == value && key == name {
            return false;
        }
    }
    true
}

/// Whether each of the roles is one of the others.
fn are_among(roles: &[Role], others: &[Role]) -> bool
    ensures { result ≡ list_all (λ q. member q others.now) roles.now }
{
    roles.iter().all(|role| is_among(role, others))
}
