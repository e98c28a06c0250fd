//! What holds of every text of a trace, as contracts of functions that do nothing.

ghost use Rattle.trace_syntax.specs.Laws.{OneLine, OneTrace, OneBadLine, TraceOrBadLine, ReadIsFormed};

/// A law: a place of a text has at most one line.
pub fn one_line()
    ensures { OneLine }
{}

/// A law: a place of a text has at most one trace up to a `}`.
pub fn one_trace()
    ensures { OneTrace }
{}

/// A law: a text has at most one first line that is none.
pub fn one_bad_line()
    ensures { OneBadLine }
{}

/// A law: no text has both a trace up to a `}` and a line that is none.
pub fn trace_or_bad_line()
    ensures { TraceOrBadLine }
{}

/// A law: what is read of a trace from a text is formed.
pub fn read_is_formed()
    ensures { ReadIsFormed }
{}
