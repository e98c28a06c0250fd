//! What holds of texts with the same pieces, as contracts of functions that do nothing.

ghost use Rattle.bundle_layout.specs.Laws.{OneListOfPieces, SameLexemes, SameTokens, ReadsTheSame};

/// A text has one list of tokens and comments.
pub fn one_list_of_pieces()
    ensures { OneListOfPieces }
{}

/// Texts with the same tokens and comments have the same lexemes.
pub fn same_lexemes()
    ensures { SameLexemes }
{}

/// The tokens of texts with the same tokens and comments have the same lexemes at each place.
pub fn same_tokens()
    ensures { SameTokens }
{}

/// Of texts with the same tokens and comments the one reads as a bundle where the other does.
pub fn reads_the_same()
    ensures { ReadsTheSame }
{}
