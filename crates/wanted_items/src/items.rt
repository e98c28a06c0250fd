//! What may stand at a place of a text: one token, or one of a kind.

ghost use Rattle.std.specs.Prelude.{◌≡◌};
ghost use Rattle.aioc_tokens.specs.Spelling.{spelling};
ghost use Rattle.wanted_items.specs.Items.{lexeme_of};

use aioc_tokens::{Punctuator, Word};
use wanted_tokens::PlaceWord;

/// What may stand at a place of a text.
#[derive(Clone, Copy, PartialEq, Eq)]
pub enum Item {
    /// A name, which has no meaning of its own.
    Name,
    /// A number.
    Number,
    /// The number 2.
    Two,
    /// A text in quotes.
    Text,
    /// This reserved word.
    Reserved(Word),
    /// This word, which has a meaning only in its place.
    Placed(PlaceWord),
    /// This symbol.
    Symbol(Punctuator),
}

impl Item {
    /// How the token is spelled that stands for the item.
    pub fn spelling(self) -> &'static [u8]
        ensures { result.now ≡ spelling (lexeme_of self) }
    {
        match self {
            Item::Name => b"x",
            Item::Number => b"0",
            Item::Two => b"2",
            Item::Text => b"\"\"",
            Item::Reserved(word) => word.spelling(),
            Item::Placed(word) => word.spelling(),
            Item::Symbol(punctuator) => punctuator.spelling(),
        }
    }
}
