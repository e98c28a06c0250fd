//! What is written of a line is read again, as contracts of functions that do nothing.

ghost use Rattle.trace_text.specs.Laws.{WrittenIsSpelled, WrittenIsRead, WrittenRunIsSpelled, WrittenRunIsRead, OneEntry};

/// A law: the line of an entry that fits has the tokens that were written.
pub fn written_is_spelled()
    ensures { WrittenIsSpelled }
{}

/// A law: what is written of an entry that fits is read as that entry, whatever follows.
pub fn written_is_read()
    ensures { WrittenIsRead }
{}

/// A law: the text of a run of entries that fit has the tokens that were written of its lines.
pub fn written_run_is_spelled()
    ensures { WrittenRunIsSpelled }
{}

/// A law: what is written of the entries of a run and of its last line is read as these, up to the
/// `}` behind them.
pub fn written_run_is_read()
    ensures { WrittenRunIsRead }
{}

/// A law: two different entries that fit have different lines.
pub fn one_entry()
    ensures { OneEntry }
{}
