//! Values and expressions: what each goal makes of a token.

ghost use Rattle.std.specs.Prelude.{◌≡◌};
ghost use Rattle.wanted_tokens.specs.Takings.{effect};
ghost use Rattle.wanted_tokens.specs.Expressions.{value, more_values, bracketed, word_operand, take_operand, take_expression, take_negated, take_compared, take_joined, symbol_behind, more_operands};

use crate::goals::{CONDITION, DOT, EXPRESSION, Goal, SHUT_PAREN};
use crate::looks::Look;
use crate::takings::{NOTHING, Taking, takes, takes_before};
use aioc_tokens::{Punctuator, Word};
use expr_syntax::{ExprKind, GREATEST, GREATEST_NEGATED};

const NEGATIVE: [Goal; 1] = [Goal::Number(GREATEST_NEGATED)];

const A_VALUE: [Goal; 1] = [Goal::Value];

const MEMBER: [Goal; 2] = [DOT, Goal::Name];

const BRACKETED_OF_STEP: [Goal; 2] = [EXPRESSION, SHUT_PAREN];

const BRACKETED_OF_CONDITION: [Goal; 2] = [CONDITION, SHUT_PAREN];

/// A value.
pub fn value(look: Look) -> Taking
    ensures { effect result ≡ value look }
{
    match look {
        Look::Text => takes(NOTHING.as_slice()),
        Look::Number(Some(number)) if number <= GREATEST => takes(NOTHING.as_slice()),
        Look::Symbol(Punctuator::Minus) => takes(NEGATIVE.as_slice()),
        Look::Reserved(Word::Nil | Word::True | Word::False) => takes(NOTHING.as_slice()),
        _ => Taking::Stops,
    }
}

/// Further values, or none.
pub fn more_values(look: Look) -> Taking
    ensures { effect result ≡ more_values look }
{
    match look {
        Look::Symbol(Punctuator::Comma) => takes_before(A_VALUE.as_slice(), Goal::MoreValues),
        _ => Taking::Passes,
    }
}

/// An operand that begins with a reserved word.
fn word_operand(kind: ExprKind, comparable: bool, word: Word) -> Taking
    ensures { effect result ≡ word_operand kind comparable word }
{
    let more = Goal::MoreOperands(kind, comparable);
    match word {
        Word::Nil | Word::True | Word::False => takes_before(NOTHING.as_slice(), more),
        Word::N | Word::E => match kind {
            ExprKind::Step => Taking::Stops,
            ExprKind::Condition => takes_before(MEMBER.as_slice(), more),
        },
        _ => Taking::Stops,
    }
}

/// What stands in brackets, and the bracket behind it.
fn bracketed(kind: ExprKind) -> &'static [Goal]
    ensures { result.now ≡ bracketed kind }
{
    match kind {
        ExprKind::Step => BRACKETED_OF_STEP.as_slice(),
        ExprKind::Condition => BRACKETED_OF_CONDITION.as_slice(),
    }
}

/// An operand.
pub fn operand(kind: ExprKind, comparable: bool, look: Look) -> Taking
    ensures { effect result ≡ take_operand kind comparable look }
{
    let more = Goal::MoreOperands(kind, comparable);
    match look {
        Look::Name(_) | Look::Text => takes_before(NOTHING.as_slice(), more),
        Look::Number(Some(number)) if number <= GREATEST => takes_before(NOTHING.as_slice(), more),
        Look::Symbol(Punctuator::Minus) => {
            takes_before(NOTHING.as_slice(), Goal::Negated(kind, comparable))
        }
        Look::Symbol(Punctuator::LeftParen) => takes_before(bracketed(kind), more),
        Look::Reserved(word) => word_operand(kind, comparable, word),
        _ => Taking::Stops,
    }
}

/// An expression.
pub fn expression(kind: ExprKind, look: Look) -> Taking
    ensures { effect result ≡ take_expression kind look }
{
    match look {
        Look::Reserved(Word::Not) => takes_before(NOTHING.as_slice(), Goal::Expression(kind)),
        _ => operand(kind, true, look),
    }
}

/// What follows a `-`.
pub fn negated(kind: ExprKind, comparable: bool, look: Look) -> Taking
    ensures { effect result ≡ take_negated kind comparable look }
{
    match look {
        Look::Number(Some(_)) => {
            takes_before(NOTHING.as_slice(), Goal::MoreOperands(kind, comparable))
        }
        _ => operand(kind, comparable, look),
    }
}

/// A comparison and what it is compared with, where none has been yet.
fn compared(kind: ExprKind, comparable: bool) -> Taking
    ensures { effect result ≡ take_compared kind comparable }
{
    if comparable {
        takes_before(NOTHING.as_slice(), Goal::Operand(kind, false))
    } else {
        Taking::Passes
    }
}

/// A join of texts, which a condition hasn't.
fn joined(kind: ExprKind, comparable: bool) -> Taking
    ensures { effect result ≡ take_joined kind comparable }
{
    match kind {
        ExprKind::Step => takes_before(NOTHING.as_slice(), Goal::Operand(kind, comparable)),
        ExprKind::Condition => Taking::Passes,
    }
}

/// An operator that is a symbol, with another operand, or nothing.
fn symbol_behind(kind: ExprKind, comparable: bool, punctuator: Punctuator) -> Taking
    ensures { effect result ≡ symbol_behind kind comparable punctuator }
{
    match punctuator {
        Punctuator::EqualEqual
        | Punctuator::NotEqual
        | Punctuator::Less
        | Punctuator::LessEqual
        | Punctuator::Greater
        | Punctuator::GreaterEqual => compared(kind, comparable),
        Punctuator::Plus
        | Punctuator::Minus
        | Punctuator::Star
        | Punctuator::Slash
        | Punctuator::Percent => {
            takes_before(NOTHING.as_slice(), Goal::Operand(kind, comparable))
        }
        Punctuator::PlusPlus => joined(kind, comparable),
        _ => Taking::Passes,
    }
}

/// An operator with another operand, or nothing.
pub fn more_operands(kind: ExprKind, comparable: bool, look: Look) -> Taking
    ensures { effect result ≡ more_operands kind comparable look }
{
    match look {
        Look::Reserved(Word::And | Word::Or) => {
            takes_before(NOTHING.as_slice(), Goal::Expression(kind))
        }
        Look::Symbol(punctuator) => symbol_behind(kind, comparable, punctuator),
        _ => Taking::Passes,
    }
}
