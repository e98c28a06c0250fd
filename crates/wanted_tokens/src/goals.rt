//! What may be wanted next in a text.

use aioc_tokens::{Punctuator, Word};
use expr_syntax::ExprKind;

pub const OPEN_BRACE: Goal = Goal::Symbol(Punctuator::LeftBrace);

pub const SHUT_BRACE: Goal = Goal::Symbol(Punctuator::RightBrace);

pub const OPEN_PAREN: Goal = Goal::Symbol(Punctuator::LeftParen);

pub const SHUT_PAREN: Goal = Goal::Symbol(Punctuator::RightParen);

pub const SEMICOLON: Goal = Goal::Symbol(Punctuator::Semicolon);

pub const COLON: Goal = Goal::Symbol(Punctuator::Colon);

pub const EQUAL: Goal = Goal::Symbol(Punctuator::Equal);

pub const AT: Goal = Goal::Symbol(Punctuator::At);

pub const ARROW: Goal = Goal::Symbol(Punctuator::Arrow);

pub const DOT: Goal = Goal::Symbol(Punctuator::Dot);

pub const HASH: Goal = Goal::Symbol(Punctuator::Hash);

/// An expression of a step.
pub const EXPRESSION: Goal = Goal::Expression(ExprKind::Step);

/// The condition of a rule.
pub const CONDITION: Goal = Goal::Expression(ExprKind::Condition);

/// A name alone, as behind `drop`.
pub const A_NAME: [Goal; 1] = [Goal::Name];

/// A name and its value, as behind `env`.
pub const BOUND: [Goal; 3] = [Goal::Name, EQUAL, Goal::Value];

/// `{ choreo }`
pub const BLOCK: [Goal; 5] = [
    OPEN_BRACE,
    Goal::Step,
    Goal::MoreSteps,
    Goal::MoreParts,
    SHUT_BRACE,
];

/// What may be wanted next in a text: one token, or a part that begins with one.
#[derive(Clone, Copy)]
pub enum Goal {
    // ---- one token
    /// This symbol.
    Symbol(Punctuator),
    /// This reserved word.
    Reserved(Word),
    /// A name.
    Name,
    /// A number that is at most this one.
    Number(u64),
    /// `done`
    Done,
    /// `as`
    As,
    /// `true` or `false`.
    Truth,

    // ---- values and expressions
    /// A value.
    Value,
    /// Further values, each behind a `,`, or none.
    MoreValues,
    /// An expression, which may begin with `not`.
    Expression(ExprKind),
    /// An operand, which doesn't begin with `not`; a comparison may follow, or not.
    Operand(ExprKind, bool),
    /// What follows a `-`: a number or an operand.
    Negated(ExprKind, bool),
    /// What follows an operand: an operator with another operand, or nothing.
    MoreOperands(ExprKind, bool),

    // ---- choreographies
    /// A step.
    Step,
    /// What follows the name at the front of a step.
    StepBehindName,
    /// What is assigned: an input or an expression.
    Assigned,
    /// What follows a step of a sequence: a `;`, or nothing.
    MoreSteps,
    /// What follows a `;`: another step, or nothing.
    NextStep,
    /// What follows a sequence: a `|` with another one, or nothing.
    MoreParts,
    /// An `else` with its block, or nothing.
    Otherwise,
    /// Further roles of a scope, which version 2 alone may name, or nothing.
    ExtraRoles,
    /// Further names, each behind a `,`, or none.
    MoreNames,
    /// The properties of a scope, or nothing.
    Properties,
    /// The first property in its braces, or nothing.
    FirstProperty,
    /// Further properties, each behind a `,`, or none.
    MoreProperties,

    // ---- rules and changes
    /// Rules, or none.
    Rules,
    /// The priority of a rule, which version 2 alone may write, or nothing.
    Priority,
    /// The number of a priority.
    Rank,
    /// A change.
    Change,

    // ---- traces
    /// Lines of a trace, or none.
    Lines,
    /// The tag of a put, with its payload.
    TagOfPut,
    /// An auxiliary tag of a put, with its payload.
    AuxiliaryOfPut,
    /// The payload of a begin.
    Begun,
    /// The tag of a take, with its variable.
    TagOfTake,
    /// An auxiliary tag of a take.
    AuxiliaryOfTake,
    /// What was chosen for a scope.
    Chosen,

    // ---- sections
    /// Bindings, each with its `;`, or none.
    Bindings,
    /// Inputs of roles, or none.
    Inputs,
    /// Changes with their times, or none.
    Script,
    /// The version of a bundle and its sections.
    Bundle,
    /// The number of the second version.
    Two,
    /// Sections, a choreography among them.
    Sections,
    /// Sections behind a trace, a choreography among them.
    SectionsBehindTrace,
    /// Sections behind a choreography, or none.
    LaterSections,
    /// Sections behind a choreography and a trace, or none.
    LastSections,
    /// Sessions.
    Sessions,
    /// Sessions behind the first one, or none.
    MoreSessions,
}
