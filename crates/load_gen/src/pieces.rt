//! The names, roles and expressions of a made bundle, and its messages.

ghost use Rattle.std.specs.Prelude.{◌≡◌, ◌<◌, ◌≤◌, length, true, IfOk};
ghost use Rattle.dioc_terms.specs.Expressions.{expression, Var, Bin};
ghost use Rattle.dioc_terms.specs.Names.{is_name};
ghost use Rattle.dioc_terms.specs.Terms.{term, Seq};
ghost use Rattle.load_gen.specs.Pieces.{is_even_token, next, number_literal, numbered_name, role_numbered, sending, setting_variable, token, token_plus, with_digit};

use dioc_terms::{
    Choreo, Expr, Index, Memory, Name, NameFault, Oper, Role, Value, give_up, new_boxes,
};
use itoa::Buffer;
use std::alloc::Global;

/// The index of a construct that has none yet.
pub(crate) const UNMARKED: Index = Index { epoch: 0, place: 0 };

/// A name of these bytes.
pub(crate) fn name(alloc: Global, bytes: &[u8]) -> Result<Name, Memory>
    requires { is_name bytes.now ≡ true }
    ensures { IfOk result (λ name. name ≡ bytes.now) }
{
    match Name::read(alloc, bytes) {
        Ok(name) => Ok(name),
        Err(NameFault::Memory) => Err(Memory),
        Err(NameFault::NotAName) => unreachable!(),
    }
}

/// A name of these letters, then the number.
#[tactic(auto, using(crate::proofs::Naming::numbered_is_name))]
pub(crate) fn numbered(alloc: Global, letters: &[u8], number: u32) -> Result<Name, Memory>
    requires is_name { is_name letters.now ≡ true }
    requires short { length letters.now ≤ 10 }
    ensures { IfOk result (λ name. name ≡ numbered_name letters.now number) }
{
    let mut digits = Buffer::new();
    let mut bytes = letters.to_vec(alloc)?;
    bytes.extend_from_slice(digits.format(number).as_bytes())?;
    name(alloc, &bytes)
}

/// A name of these letters, then the digit.
#[tactic(auto, using(crate::proofs::Naming::with_digit_is_name))]
pub(crate) fn with_digit(alloc: Global, letters: &[u8], digit: u32) -> Result<Name, Memory>
    requires is_name { is_name letters.now ≡ true }
    requires short { length letters.now ≤ 10 }
    requires is_digit { digit < 10 }
    ensures { IfOk result (λ name. name ≡ with_digit letters.now digit) }
{
    let mut bytes = letters.to_vec(alloc)?;
    bytes.push(b'0' + digit as u8)?;
    name(alloc, &bytes)
}

/// Role number j.
pub(crate) fn role(alloc: Global, j: u32) -> Result<Role, Memory>
    requires { j < 8 }
    ensures { IfOk result (λ made. made ≡ role_numbered j) }
{
    Ok(Role(with_digit(alloc, b"r", j)?))
}

/// The number of the role after it.
pub(crate) fn next(j: u32) -> u32
    requires { j < 8 }
    ensures value { result ≡ next j }
    ensures below { result < 8 }
{
    (j + 1) % 8
}

/// The two parts, one after the other.
pub(crate) fn sequence(alloc: Global, first: Choreo, second: Choreo) -> Result<Choreo, Memory>
    ensures { IfOk result (λ made. term made ≡ Seq (term first) (term second)) }
{
    let (first, second) = new_boxes(alloc, first, second)?;
    Ok(Choreo::Seq(first, second))
}

/// The constant.
pub(crate) fn number(value: u32) -> Expr
    ensures { expression result ≡ number_literal value }
{
    Expr::Const(Value::Int(i64::from(value)))
}

/// The operator between the two.
pub(crate) fn binary(alloc: Global, oper: Oper, left: Expr, right: Expr) -> Result<Expr, Memory>
    ensures { IfOk result (λ made. expression made ≡ Bin oper (expression left)
        (expression right)) }
{
    let (left, right) = new_boxes(alloc, left, right)?;
    Ok(Expr::Bin(oper, left, right))
}

/// The token.
pub(crate) fn token(alloc: Global) -> Result<Expr, Memory>
    ensures { IfOk result (λ made. expression made ≡ Var token) }
{
    Ok(Expr::Var(name(alloc, b"t")?))
}

/// The token, with so much more.
pub(crate) fn token_plus(alloc: Global, more: u32) -> Result<Expr, Memory>
    ensures { IfOk result (λ made. expression made ≡ token_plus more) }
{
    let token = token(alloc)?;
    binary(alloc, Oper::Add, token, number(more))
}

/// Whether the token is even.
pub(crate) fn is_even_token(alloc: Global) -> Result<Expr, Memory>
    ensures { IfOk result (λ made. expression made ≡ is_even_token) }
{
    let token = token(alloc)?;
    let rest = binary(alloc, Oper::Rem, token, number(2))?;
    binary(alloc, Oper::Eq, rest, number(0))
}

/// The role of that number, the next role, and the token's name.
fn ends(alloc: Global, j: u32) -> Result<(Role, Role, Name), Memory>
    requires { j < 8 }
    ensures { IfOk result (λ ends. ends ≡ (role_numbered j, role_numbered (next j), token)) }
{
    let from = role(alloc, j)?;
    let to = role(alloc, next(j))?;
    Ok((from, to, name(alloc, b"t")?))
}

/// Role number j sends to the next role, which keeps it as its token.
pub(crate) fn sending(alloc: Global, op: Name, j: u32, expr: Expr) -> Result<Choreo, Memory>
    requires { j < 8 }
    ensures { IfOk result (λ made. term made ≡ sending op j (expression expr)) }
{
    match ends(alloc, j) {
        Ok((from, to, var)) => Ok(Choreo::Com {
            index: UNMARKED,
            op,
            from,
            expr,
            to,
            var,
        }),
        Err(fault) => give_up((op, expr), fault),
    }
}

/// Role number j sets the variable.
pub(crate) fn setting(alloc: Global, var: Name, j: u32, expr: Expr) -> Result<Choreo, Memory>
    requires { j < 8 }
    ensures { IfOk result (λ made. term made ≡ setting_variable var j (expression expr)) }
{
    match role(alloc, j) {
        Ok(role) => Ok(Choreo::Set {
            index: UNMARKED,
            var,
            role,
            expr,
        }),
        Err(fault) => give_up((var, expr), fault),
    }
}
