//! What is written is read again, as contracts of functions that do nothing.
ghost use Rattle.expr_syntax.specs.Laws.{WrittenIsSpelled, WrittenIsRead, OneLongest, ReadIsFormed};

/// The text that is written of an expression has the tokens that were written.
pub fn written_is_spelled()
    ensures { WrittenIsSpelled }
{}

/// What is written of an expression reads as that expression, whatever follows that is no operator.
pub fn written_is_read()
    ensures { WrittenIsRead }
{}

/// A place of a text has one longest expression.
pub fn one_longest()
    ensures { OneLongest }
{}

/// What is read from a text is formed: a step's expression is one of a step, a condition one of a
/// condition.
pub fn read_is_formed()
    ensures { ReadIsFormed }
{}
