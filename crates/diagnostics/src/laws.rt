//! What holds of every text, as contracts of functions that do nothing.

ghost use Rattle.diagnostics.specs.Marked.{ConstructsAreMarked, MarksAreFirstTokens};

/// A law: where a choreography stands in a text, each construct with an index begins with a mark,
/// as many marks stand before it as its index says, and there are no others.
pub fn constructs_are_marked()
    ensures { ConstructsAreMarked }
{}

/// A law: so the mark that `construct_at` finds for an index lies at the first token of the
/// construct with this index.
pub fn marks_are_first_tokens()
    ensures { MarksAreFirstTokens }
{}
