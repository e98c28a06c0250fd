//! What holds of every text, as contracts of functions that do nothing.

ghost use Rattle.aioc_tokens.specs.Laws.{EveryText, TokensOrBadByte, OneLexing, OneBadByte, TokensInOrder, EachIsLongest, OneReading, ReadHasSpelling, SpelledIsRead, WordsAreSpelled, PunctuatorsAreSpelled, NamesAreRead};

/// A text has tokens, or some byte of it is in none.
pub fn every_text()
    ensures { EveryText }
{}

/// No text has both tokens and a byte that is in none.
pub fn tokens_or_bad_byte()
    ensures { TokensOrBadByte }
{}

/// A text has one list of tokens.
pub fn one_lexing()
    ensures { OneLexing }
{}

/// A text has one first byte that is in no token, if any.
pub fn one_bad_byte()
    ensures { OneBadByte }
{}

/// The tokens of a text stand in order and don't overlap.
pub fn tokens_in_order()
    ensures { TokensInOrder }
{}

/// Each token of a text is the longest at its place, and no comment begins there.
pub fn each_is_longest()
    ensures { EachIsLongest }
{}

/// A text has one list of lexemes.
pub fn one_reading()
    ensures { OneReading }
{}

/// A lexeme of a text can be written, unless it is too long.
pub fn read_has_spelling()
    ensures { ReadHasSpelling }
{}

/// Lexemes that are written with one space between two are read again.
pub fn spelled_is_read()
    ensures { SpelledIsRead }
{}

/// A reserved word is found by its spelling, and by no other.
pub fn words_are_spelled()
    ensures { WordsAreSpelled }
{}

/// A symbol is found by its spelling, and by no other.
pub fn punctuators_are_spelled()
    ensures { PunctuatorsAreSpelled }
{}

/// The text of a name is read as that name exactly where it isn't a reserved word.
pub fn names_are_read()
    ensures { NamesAreRead }
{}
