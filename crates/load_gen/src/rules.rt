//! The rules of a made bundle, and its script. They depend on no seed.

ghost use Rattle.std.specs.Prelude.{◌≡◌, ◌<◌, ◌++◌, ◌∷◌, [], codes, map, pos, IfOk};
ghost use Rattle.dioc_terms.specs.declared.bundles.Change.TheVariants as changes;
ghost use Rattle.dioc_terms.specs.declared.expressions.Oper.TheVariants as operators;
ghost use Rattle.dioc_terms.specs.declared.values.Value.TheVariants as values;
ghost use Rattle.dioc_terms.specs.Expressions.{expression, Bin, Env, Prop, Var};
ghost use Rattle.dioc_terms.specs.Plain.{plain_rule};
ghost use Rattle.dioc_terms.specs.Terms.{term, Seq};
ghost use Rattle.load_gen.specs.Made.{body, condition, eight, rule, rule_name, script};
ghost use Rattle.load_gen.specs.Pieces.{number_literal, role_numbered, sending, setting_variable, token};

use crate::pieces::{binary, name, number, role, sending, sequence, setting, token, with_digit};
use dioc_terms::{
    Change, Choreo, Expr, Items, Memory, Name, Oper, Role, Roles, Rule, Timed, Value, give_up,
};
use index_marks::mark;
use std::alloc::Global;

/// The eight roles.
#[tactic(auto, using(crate::proofs::Rows::made_last))]
pub(crate) fn roles(alloc: Global) -> Result<Roles, Memory>
    ensures { IfOk result (λ roles. roles ≡ map role_numbered eight) }
{
    let mut roles = Vec::with_capacity(alloc, 8)?;
    for j in 0..8 {
        roles.push_reserved(role(alloc, j)?);
    }
    Ok(Items::new(roles))
}

/// The name of rule number j.
fn rule_name(alloc: Global, j: u32) -> Result<Name, Memory>
    requires { j < 8 }
    ensures { IfOk result (λ name. name ≡ rule_name j) }
{
    with_digit(alloc, b"u", j)
}

/// Whether the scope's property is the number.
fn is_leader(alloc: Global, j: u32) -> Result<Expr, Memory>
    ensures { IfOk result (λ made. expression made
        ≡ Bin operators.Eq (Prop (codes "k")) (number_literal j)) }
{
    let property = Expr::Prop(name(alloc, b"k")?);
    binary(alloc, Oper::Eq, property, number(j))
}

fn is_not_calm(alloc: Global) -> Result<Expr, Memory>
    ensures { IfOk result (λ made. expression made
        ≡ Bin operators.Ne (Env (codes "calm")) (number_literal 1)) }
{
    let calm = Expr::Env(name(alloc, b"calm")?);
    binary(alloc, Oper::Ne, calm, number(1))
}

fn condition(alloc: Global, j: u32) -> Result<Expr, Memory>
    ensures { IfOk result (λ made. expression made ≡ condition j) }
{
    let left = is_leader(alloc, j)?;
    match is_not_calm(alloc) {
        Ok(right) => binary(alloc, Oper::And, left, right),
        Err(fault) => give_up(left, fault),
    }
}

/// Twice the token.
fn twice(alloc: Global) -> Result<Expr, Memory>
    ensures { IfOk result (λ made. expression made
        ≡ Bin operators.Mul (Var token) (number_literal 2)) }
{
    let token = token(alloc)?;
    binary(alloc, Oper::Mul, token, number(2))
}

fn doubling(alloc: Global, j: u32) -> Result<Choreo, Memory>
    requires { j < 8 }
    ensures { IfOk result (λ made. term made
        ≡ setting_variable (codes "w") j (Bin operators.Mul (Var token) (number_literal 2))) }
{
    let var = name(alloc, b"w")?;
    let value = twice(alloc)?;
    setting(alloc, var, j, value)
}

fn passing(alloc: Global, j: u32) -> Result<Choreo, Memory>
    requires { j < 8 }
    ensures { IfOk result (λ made. term made ≡ sending (codes "w") j (Var (codes "w"))) }
{
    let op = name(alloc, b"w")?;
    let value = Expr::Var(name(alloc, b"w")?);
    sending(alloc, op, j, value)
}

/// The body of rule number j, without its indices.
fn body_text(alloc: Global, j: u32) -> Result<Choreo, Memory>
    requires { j < 8 }
    ensures { IfOk result (λ made. term made
        ≡ Seq (setting_variable (codes "w") j (Bin operators.Mul (Var token) (number_literal 2)))
        (sending (codes "w") j (Var (codes "w")))) }
{
    let first = doubling(alloc, j)?;
    match passing(alloc, j) {
        Ok(second) => sequence(alloc, first, second),
        Err(fault) => give_up(first, fault),
    }
}

fn body(alloc: Global, j: u32) -> Result<Choreo, Memory>
    requires { j < 8 }
    ensures { IfOk result (λ made. term made ≡ body j) }
{
    let mut made = body_text(alloc, j)?;
    mark(&mut made);
    Ok(made)
}

/// Rule number j.
fn rule(alloc: Global, j: u32) -> Result<Rule, Memory>
    requires { j < 8 }
    ensures { IfOk result (λ made. plain_rule made ≡ rule j) }
{
    let name = rule_name(alloc, j)?;
    let cond = condition(alloc, j)?;
    match body(alloc, j) {
        Ok(body) => Ok(Rule {
            name,
            priority: 0,
            cond,
            body,
        }),
        Err(fault) => give_up((name, cond), fault),
    }
}

/// The list with one more item.
fn pushed<T: Drop>(list: Vec<T>, item: T) -> Result<Vec<T>, Memory>
    ensures { IfOk result (λ made. made.items ≡ list.items ++ item ∷ []) }
{
    let mut list = list;
    list.push(item)?;
    Ok(list)
}

/// The rules with rule number j after them.
fn with_rule(alloc: Global, rules: Vec<Rule>, j: u32) -> Result<Vec<Rule>, Memory>
    requires { j < 8 }
    ensures { IfOk result (λ made. map plain_rule made.items
        ≡ map plain_rule rules.items ++ rule j ∷ []) }
{
    match rule(alloc, j) {
        Ok(rule) => pushed(rules, rule),
        Err(fault) => give_up(rules, fault),
    }
}

/// All rules.
#[tactic(auto, using(crate::proofs::Rows::made_last))]
pub(crate) fn rules(alloc: Global) -> Result<Items<Rule>, Memory>
    ensures { IfOk result (λ rules. map plain_rule rules ≡ map rule eight) }
{
    let mut rules = Vec::new(alloc);
    for j in 0..8 {
        rules = with_rule(alloc, rules, j)?;
    }
    Ok(Items::new(rules))
}

/// It becomes calm once 200 visible entries stand.
fn calming(alloc: Global) -> Result<Timed, Memory>
    ensures { IfOk result (λ timed. timed ≡
        record { after = 200; change = changes.Env (codes "calm") (values.Int (pos 1)) }) }
{
    Ok(Timed {
        after: 200,
        change: Change::Env(name(alloc, b"calm")?, Value::Int(1)),
    })
}

/// The first rule is dropped once 400 visible entries stand.
fn dropping(alloc: Global) -> Result<Timed, Memory>
    ensures { IfOk result (λ timed. timed ≡
        record { after = 400; change = changes.Drop (rule_name 0) }) }
{
    Ok(Timed {
        after: 400,
        change: Change::Drop(rule_name(alloc, 0)?),
    })
}

/// The script.
#[tactic(auto, using(crate::proofs::Rows::made_last))]
pub(crate) fn script(alloc: Global) -> Result<Items<Timed>, Memory>
    ensures { IfOk result (λ timed. timed ≡ script) }
{
    let mut script = Vec::with_capacity(alloc, 10)?;
    for j in 0..8 {
        script.push_reserved(Timed {
            after: 10,
            change: Change::Add(j),
        });
    }
    script.push_reserved(calming(alloc)?);
    script.push_reserved(dropping(alloc)?);
    Ok(Items::new(script))
}
