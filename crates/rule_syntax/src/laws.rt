//! What holds of every text.

ghost use Rattle.rule_syntax.specs.Laws.{OneRule, OneChange, ReadIsFormed, WrittenIsSpelled, WrittenIsRead};

/// A law: at most one rule stands at a place of a text, and it ends at one place. It does nothing.
pub fn one_rule()
    ensures { OneRule }
{}

/// A law: at most one change stands at a place of a text, and it ends at one place. It does
/// nothing.
pub fn one_change()
    ensures { OneChange }
{}

/// A law: a rule that is read of a text of some bytes is formed, and has a priority or named roles
/// only where version 2 does. It does nothing.
pub fn read_is_formed()
    ensures { ReadIsFormed }
{}

/// A law: the text that is written of a rule has the tokens that were written. It does nothing.
pub fn written_is_spelled()
    ensures { WrittenIsSpelled }
{}

/// A law: what is written of a formed rule is read as that rule, whatever follows. By `one_rule` it
/// is read as no other. It does nothing.
pub fn written_is_read()
    ensures { WrittenIsRead }
{}
