//! Which names of a choreography mending takes for itself.

ghost use Rattle.std.specs.Prelude.{◌≡◌, [], ◌∷◌, find, IfOk};
ghost use Rattle.std.specs.Option.{option_copied, option_or};
ghost use Rattle.dioc_terms.specs.Expressions.{expression};
ghost use Rattle.dioc_terms.specs.Terms.{term};
ghost use Rattle.mend.specs.Names.{begins_sq, taken_name, taken_variable};

use dioc_terms::{Choreo, Expr, Name};

/// The first variable of an expression that begins with `sq_`, in the order of its text. `None`
/// exactly where none does. It takes no memory.
#[tactic(auto, using(crate::proofs::Finding::found_in_both))]
pub fn taken_in(expr: &Expr) -> Option<&Name>
    ensures { option_copied result ≡ taken_variable (expression expr.now) }
{
    match expr {
        Expr::Var(name) => taken(name),
        Expr::Not(inner) | Expr::Neg(inner) => taken_in(inner),
        Expr::Bin(_, left, right) => first_of(taken_in(left), taken_in(right)),
        Expr::Const(_) | Expr::Prop(_) | Expr::Env(_) => None,
    }
}

/// The first operation or variable of a choreography that begins with `sq_`, in the order of its
/// text. `None` exactly where none does. It takes no memory.
#[tactic(auto, using(crate::proofs::Finding::found_in_both, crate::proofs::Finding::found_first))]
pub fn first_taken(choreo: &Choreo) -> Option<&Name>
    ensures { option_copied result ≡ taken_name (term choreo.now) }
{
    match choreo {
        Choreo::Skip => None,
        Choreo::Com { op, expr, var, .. } => {
            let later = first_of(taken_in(expr), taken(var));
            first_of(taken(op), later)
        }
        Choreo::Set { var, expr, .. } => first_of(taken(var), taken_in(expr)),
        Choreo::Input { var, .. } => taken(var),
        Choreo::Seq(first, second) | Choreo::Par(first, second) => {
            first_of(first_taken(first), first_taken(second))
        }
        Choreo::If { guard, yes, no, .. } => {
            let later = first_of(first_taken(yes), first_taken(no));
            first_of(taken_in(guard), later)
        }
        Choreo::While { guard, body, .. } => first_of(taken_in(guard), first_taken(body)),
        Choreo::Scope { body, .. } => first_taken(body),
    }
}

/// The name where it begins with `sq_`.
fn taken(name: &Name) -> Option<&Name>
    ensures { option_copied result ≡ find begins_sq (name.now ∷ []) }
{
    if is_taken(name) { Some(name) } else { None }
}

/// Whether a name begins with `sq_`.
pub(crate) fn is_taken(name: &Name) -> bool
    ensures { result ≡ begins_sq name.now }
{
    name.bytes().starts_with(b"sq_")
}

/// The first, or the second where there is no first.
fn first_of<'a>(first: Option<&'a Name>, second: Option<&'a Name>) -> Option<&'a Name>
    ensures { option_copied result ≡ option_or (option_copied first.entry)
        (option_copied second.entry) }
{
    match first {
        Some(name) => Some(name),
        None => second,
    }
}
