//! What holds of every text.

ghost use Rattle.dioc_syntax.specs.Laws.{OneChoreography, ReadIsIndexed, ReadIsFormed, WrittenIsSpelled, WrittenIsRead, WrittenTextIsRead};

/// A law: a place of a text has at most one longest choreography. It does nothing.
pub fn one_choreography()
    ensures { OneChoreography }
{}

/// A law: a choreography that stands in a text has the indices that the text gives it. It does
/// nothing.
pub fn read_is_indexed()
    ensures { ReadIsIndexed }
{}

/// A law: a choreography that is read of a text of some bytes is formed, and names further roles of
/// a scope only where version 2 does. It does nothing.
pub fn read_is_formed()
    ensures { ReadIsFormed }
{}

/// A law: the text that is written of a choreography has the tokens that were written. It does
/// nothing.
pub fn written_is_spelled()
    ensures { WrittenIsSpelled }
{}

/// A law: what is written of a choreography within the limits is read as that choreography,
/// whatever follows that closes it. By `one_choreography` it is read as no other. It does nothing.
pub fn written_is_read()
    ensures { WrittenIsRead }
{}

/// A law: the tokens of the text that `write_choreo` writes of a choreography within the limits are
/// read whole, as that choreography and as no other. It does nothing.
pub fn written_text_is_read()
    ensures { WrittenTextIsRead }
{}
