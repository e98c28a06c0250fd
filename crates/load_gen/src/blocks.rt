//! The blocks of a made choreography, one for each kind that was drawn.

ghost use Rattle.std.specs.Prelude.{◌≡◌, ◌<◌, [], ◌∷◌, codes, pos, IfOk};
ghost use Rattle.dioc_terms.specs.declared.expressions.Oper.TheVariants as operators;
ghost use Rattle.dioc_terms.specs.declared.values.Value.TheVariants as values;
ghost use Rattle.dioc_terms.specs.Expressions.{expression, Var, Bin};
ghost use Rattle.dioc_terms.specs.Terms.{term, Seq, While, index_at};
ghost use Rattle.load_gen.specs.Blocks.{block, counter, message_name, role_after};
ghost use Rattle.load_gen.specs.declared.draws.Kind.TheVariants as kinds;
ghost use Rattle.load_gen.specs.Pieces.{is_even_token, number_literal, role_numbered, sending, setting_variable, token, token_plus};

use crate::draws::Kind;
use crate::pieces::{
    UNMARKED, binary, is_even_token, name, next, number, numbered, role, sending, sequence,
    setting, token, token_plus,
};
use dioc_terms::{
    Bindings, Choreo, Expr, Items, Memory, Name, Oper, Role, Value, give_up, new_box, new_boxes,
};
use std::alloc::Global;

/// Block b, where role number c has the token.
pub(crate) fn block(alloc: Global, kind: Kind, b: u32, c: u32) -> Result<Choreo, Memory>
    requires few { b < 400 }
    requires is_role { c < 8 }
    ensures { IfOk result (λ made. term made ≡ block kind b c) }
{
    match kind {
        Kind::Message => message(alloc, b, c, 1),
        Kind::Choice => choice(alloc, b, c),
        Kind::Loop => counted(alloc, b, c),
        Kind::Scope => scope(alloc, b, c),
    }
}

/// Who has the token after the block.
pub(crate) fn role_after(kind: Kind, c: u32) -> u32
    requires { c < 8 }
    ensures value { result ≡ role_after kind c }
    ensures below { result < 8 }
{
    match kind {
        Kind::Loop => c,
        _ => next(c),
    }
}

/// The block's message with the value.
fn told(alloc: Global, b: u32, c: u32, expr: Expr) -> Result<Choreo, Memory>
    requires few { b < 400 }
    requires is_role { c < 8 }
    ensures { IfOk result (λ made. term made ≡ sending (message_name b) c (expression expr)) }
{
    match numbered(alloc, b"m", b) {
        Ok(op) => sending(alloc, op, c, expr),
        Err(fault) => give_up(expr, fault),
    }
}

/// The block's message with the token and so much more.
fn message(alloc: Global, b: u32, c: u32, more: u32) -> Result<Choreo, Memory>
    requires few { b < 400 }
    requires is_role { c < 8 }
    ensures { IfOk result (λ made. term made ≡ sending (message_name b) c (token_plus more)) }
{
    let expr = token_plus(alloc, more)?;
    told(alloc, b, c, expr)
}

/// The block's message with the token.
fn passing(alloc: Global, b: u32, c: u32) -> Result<Choreo, Memory>
    requires few { b < 400 }
    requires is_role { c < 8 }
    ensures { IfOk result (λ made. term made ≡ sending (message_name b) c (Var token)) }
{
    let expr = token(alloc)?;
    told(alloc, b, c, expr)
}

/// The two branches of a choice.
fn branches(alloc: Global, b: u32, c: u32) -> Result<(Box<Choreo>, Box<Choreo>), Memory>
    requires few { b < 400 }
    requires is_role { c < 8 }
    ensures yes { IfOk result (λ made. term made.0.value
        ≡ sending (message_name b) c (token_plus 1)) }
    ensures no { IfOk result (λ made. term made.1.value
        ≡ sending (message_name b) c (token_plus 2)) }
{
    let yes = message(alloc, b, c, 1)?;
    match message(alloc, b, c, 2) {
        Ok(no) => new_boxes(alloc, yes, no),
        Err(fault) => give_up(yes, fault),
    }
}

/// The leader of a choice, and its guard.
fn picking(alloc: Global, c: u32) -> Result<(Role, Expr), Memory>
    requires is_role { c < 8 }
    ensures leader { IfOk result (λ made. made.0 ≡ role_numbered c) }
    ensures guard { IfOk result (λ made. expression made.1 ≡ is_even_token) }
{
    let leader = role(alloc, c)?;
    let guard = is_even_token(alloc)?;
    Ok((leader, guard))
}

fn choice(alloc: Global, b: u32, c: u32) -> Result<Choreo, Memory>
    requires few { b < 400 }
    requires is_role { c < 8 }
    ensures { IfOk result (λ made. term made ≡ block kinds.Choice b c) }
{
    let (yes, no) = branches(alloc, b, c)?;
    match picking(alloc, c) {
        Ok((leader, guard)) => Ok(Choreo::If {
            index: UNMARKED,
            leader,
            guard,
            yes,
            no,
        }),
        Err(fault) => give_up((yes, no), fault),
    }
}

/// The counter of the block's loop.
fn counter(alloc: Global, b: u32) -> Result<Name, Memory>
    requires few { b < 400 }
    ensures { IfOk result (λ name. name ≡ counter b) }
{
    numbered(alloc, b"c", b)
}

/// The operator between the counter and the number.
fn of_counter(alloc: Global, b: u32, oper: Oper, right: u32) -> Result<Expr, Memory>
    requires few { b < 400 }
    ensures { IfOk result (λ made. expression made
        ≡ Bin oper (Var (counter b)) (number_literal right)) }
{
    let counter = Expr::Var(counter(alloc, b)?);
    binary(alloc, oper, counter, number(right))
}

/// The counter begins at 0.
fn beginning(alloc: Global, b: u32, c: u32) -> Result<Choreo, Memory>
    requires few { b < 400 }
    requires is_role { c < 8 }
    ensures { IfOk result (λ made. term made ≡ setting_variable (counter b) c (number_literal 0)) }
{
    let counter = counter(alloc, b)?;
    setting(alloc, counter, c, number(0))
}

/// The counter goes on by 1.
fn counting(alloc: Global, b: u32, c: u32) -> Result<Choreo, Memory>
    requires few { b < 400 }
    requires is_role { c < 8 }
    ensures { IfOk result (λ made. term made ≡ setting_variable (counter b) c
        (Bin operators.Add (Var (counter b)) (number_literal 1))) }
{
    let counter = counter(alloc, b)?;
    let sum = of_counter(alloc, b, Oper::Add, 1)?;
    setting(alloc, counter, c, sum)
}

/// A turn of the loop.
fn turn(alloc: Global, b: u32, c: u32) -> Result<Choreo, Memory>
    requires few { b < 400 }
    requires is_role { c < 8 }
    ensures { IfOk result (λ made. term made ≡ Seq (sending (message_name b) c (Var token))
        (setting_variable (counter b) c (Bin operators.Add (Var (counter b)) (number_literal 1)))) }
{
    let first = passing(alloc, b, c)?;
    match counting(alloc, b, c) {
        Ok(second) => sequence(alloc, first, second),
        Err(fault) => give_up(first, fault),
    }
}

/// The turns of the loop.
fn turns(alloc: Global, b: u32, c: u32) -> Result<Choreo, Memory>
    requires few { b < 400 }
    requires is_role { c < 8 }
    ensures { IfOk result (λ made. term made ≡ While (index_at 0) (role_numbered c)
        (Bin operators.Lt (Var (counter b)) (number_literal 2))
        (Seq (sending (message_name b) c (Var token))
        (setting_variable (counter b) c
        (Bin operators.Add (Var (counter b)) (number_literal 1))))) }
{
    let body = turn(alloc, b, c)?;
    let body = new_box(alloc, body)?;
    let leader = role(alloc, c)?;
    match of_counter(alloc, b, Oper::Lt, 2) {
        Ok(guard) => Ok(Choreo::While {
            index: UNMARKED,
            leader,
            guard,
            body,
        }),
        Err(fault) => give_up((leader, body), fault),
    }
}

/// A loop of two turns.
fn counted(alloc: Global, b: u32, c: u32) -> Result<Choreo, Memory>
    requires few { b < 400 }
    requires is_role { c < 8 }
    ensures { IfOk result (λ made. term made ≡ block kinds.Loop b c) }
{
    let first = beginning(alloc, b, c)?;
    match turns(alloc, b, c) {
        Ok(second) => sequence(alloc, first, second),
        Err(fault) => give_up(first, fault),
    }
}

/// The property of a scope: the number of its leader.
fn property(alloc: Global, c: u32) -> Result<Bindings, Memory>
    ensures { IfOk result (λ props. props ≡ (codes "k", values.Int (pos c)) ∷ []) }
{
    let mut props = Vec::new(alloc);
    let value = Value::Int(i64::from(c));
    props.push((name(alloc, b"k")?, value))?;
    Ok(Items::new(props))
}

fn scope(alloc: Global, b: u32, c: u32) -> Result<Choreo, Memory>
    requires few { b < 400 }
    requires is_role { c < 8 }
    ensures { IfOk result (λ made. term made ≡ block kinds.Scope b c) }
{
    let body = passing(alloc, b, c)?;
    let body = new_box(alloc, body)?;
    let leader = role(alloc, c)?;
    match property(alloc, c) {
        Ok(props) => Ok(Choreo::Scope {
            index: UNMARKED,
            leader,
            body,
            extra: Items::new(Vec::new(alloc)),
            props,
            level: 0,
        }),
        Err(fault) => give_up((leader, body), fault),
    }
}
