//! The levels of the grammar, and the operators of each.

ghost use Rattle.std.specs.Prelude.{◌≡◌};
ghost use Rattle.expr_syntax.specs.Levels.{comparison, addition, multiplication, operator, tighter, joined_by, joined_level, looseness, is_inside};

use aioc_tokens::{Punctuator, Sort, Word};
use dioc_terms::Oper;

/// Where an expression stands.
#[derive(Clone, Copy)]
pub enum ExprKind {
    /// In a step of a choreography: over the variables of the acting role alone.
    Step,
    /// In the condition of a rule: also over properties (`N.x`) and the environment (`E.x`), but
    /// without `++`.
    Condition,
}

/// How tightly an expression binds, from the loosest to the tightest.
#[derive(Clone, Copy, PartialEq, Eq)]
pub enum Level {
    /// Joined by `or`.
    Disjunction,
    /// Joined by `and`.
    Conjunction,
    /// With any number of `not` before it.
    Negation,
    /// At most one comparison.
    Comparison,
    /// Joined by `+`, `-` and `++`.
    Sum,
    /// Joined by `*`, `/` and `%`.
    Product,
    /// A leaf, or in brackets, with any number of `-` before it.
    Unary,
}

fn comparison(punctuator: Punctuator) -> Option<Oper>
    ensures { result ≡ comparison punctuator }
{
    match punctuator {
        Punctuator::EqualEqual => Some(Oper::Eq),
        Punctuator::NotEqual => Some(Oper::Ne),
        Punctuator::Less => Some(Oper::Lt),
        Punctuator::LessEqual => Some(Oper::Le),
        Punctuator::Greater => Some(Oper::Gt),
        Punctuator::GreaterEqual => Some(Oper::Ge),
        _ => None,
    }
}

fn addition(kind: ExprKind, punctuator: Punctuator) -> Option<Oper>
    ensures { result ≡ addition kind punctuator }
{
    match (kind, punctuator) {
        (_, Punctuator::Plus) => Some(Oper::Add),
        (_, Punctuator::Minus) => Some(Oper::Sub),
        (ExprKind::Step, Punctuator::PlusPlus) => Some(Oper::Join),
        _ => None,
    }
}

fn multiplication(punctuator: Punctuator) -> Option<Oper>
    ensures { result ≡ multiplication punctuator }
{
    match punctuator {
        Punctuator::Star => Some(Oper::Mul),
        Punctuator::Slash => Some(Oper::Div),
        Punctuator::Percent => Some(Oper::Rem),
        _ => None,
    }
}

/// The operator that a token is between two operands of a level.
pub fn operator(kind: ExprKind, level: Level, sort: Sort) -> Option<Oper>
    ensures { result ≡ operator kind level sort }
{
    match (level, sort) {
        (Level::Disjunction, Sort::Reserved(Word::Or)) => Some(Oper::Or),
        (Level::Conjunction, Sort::Reserved(Word::And)) => Some(Oper::And),
        (Level::Comparison, Sort::Symbol(punctuator)) => comparison(punctuator),
        (Level::Sum, Sort::Symbol(punctuator)) => addition(kind, punctuator),
        (Level::Product, Sort::Symbol(punctuator)) => multiplication(punctuator),
        _ => None,
    }
}

/// The level of an operand.
pub fn tighter(level: Level) -> Level
    ensures { result ≡ tighter level }
{
    match level {
        Level::Disjunction => Level::Conjunction,
        Level::Conjunction => Level::Negation,
        Level::Negation => Level::Comparison,
        Level::Comparison => Level::Sum,
        Level::Sum => Level::Product,
        Level::Product | Level::Unary => Level::Unary,
    }
}

/// The level between whose operands a symbol is an operator, if it is one.
fn joined_by(kind: ExprKind, punctuator: Punctuator) -> Option<Level>
    ensures { result ≡ joined_by kind punctuator }
{
    match punctuator {
        Punctuator::EqualEqual | Punctuator::NotEqual => Some(Level::Comparison),
        Punctuator::Less | Punctuator::LessEqual => Some(Level::Comparison),
        Punctuator::Greater | Punctuator::GreaterEqual => Some(Level::Comparison),
        Punctuator::Plus | Punctuator::Minus => Some(Level::Sum),
        Punctuator::PlusPlus => match kind {
            ExprKind::Step => Some(Level::Sum),
            ExprKind::Condition => None,
        },
        Punctuator::Star | Punctuator::Slash | Punctuator::Percent => Some(Level::Product),
        _ => None,
    }
}

/// The level between whose operands a token is an operator, if it is one.
pub fn joined_level(kind: ExprKind, sort: Sort) -> Option<Level>
    ensures { result ≡ joined_level kind sort }
{
    match sort {
        Sort::Reserved(Word::Or) => Some(Level::Disjunction),
        Sort::Reserved(Word::And) => Some(Level::Conjunction),
        Sort::Symbol(punctuator) => joined_by(kind, punctuator),
        _ => None,
    }
}

/// How loosely a level binds: its operands bind less loosely.
pub fn looseness(level: Level) -> u8
    ensures { result ≡ looseness level }
{
    match level {
        Level::Disjunction => 6,
        Level::Conjunction => 5,
        Level::Negation => 4,
        Level::Comparison => 3,
        Level::Sum => 2,
        Level::Product => 1,
        Level::Unary => 0,
    }
}

/// Whether no `not` may stand first in an expression of this level.
pub fn is_inside(level: Level) -> bool
    ensures { result ≡ is_inside level }
{
    !matches!(
        level,
        Level::Disjunction | Level::Conjunction | Level::Negation
    )
}
