//! What holds of every text, as contracts of functions that do nothing.

ghost use Rattle.text_places.specs.Laws.{FrontsAreRead};

/// A law: a text up to one of its tokens is read as the lexemes before that token; with what is
/// written of a lexeme on a line behind it, that one is read behind them. It does nothing.
pub fn fronts_are_read()
    ensures { FrontsAreRead }
{}
