//! What is seen of a token: its sort, and of a name and a number what a goal asks of it.

ghost use Rattle.std.specs.Prelude.{◌≡◌, drop};
ghost use Rattle.wanted_tokens.specs.Looks.{look, place_word_of, place_word_spelling};

use aioc_tokens::{Lexed, Punctuator, Sort, Word};
use expr_syntax::{GREATEST_NEGATED, number_at};

/// A word that has a meaning only in its place. It isn't reserved, so elsewhere it is a name.
#[derive(Clone, Copy, PartialEq, Eq)]
pub enum PlaceWord {
    Version,
    Session,
    Rules,
    Env,
    Inputs,
    Script,
    Trace,
    After,
    Add,
    Drop,
    Roles,
    Priority,
    Put,
    Take,
    Set,
    Pick,
    Ended,
    Stopped,
    Done,
    Keep,
    Part,
    As,
    Choice,
    Go,
    Turn,
    Begin,
    End,
    Out,
}

/// What is seen of a token.
#[derive(Clone, Copy)]
pub enum Look {
    /// No token is left.
    End,
    /// A name or a text that is too long.
    Long,
    /// A name, and the word that it is where one has a meaning.
    Name(Option<PlaceWord>),
    /// A number, unless it is greater than any that the grammar takes.
    Number(Option<u64>),
    Text,
    Reserved(Word),
    Symbol(Punctuator),
}

const PLACE_WORDS: [PlaceWord; 28] = [
    PlaceWord::Version,
    PlaceWord::Session,
    PlaceWord::Rules,
    PlaceWord::Env,
    PlaceWord::Inputs,
    PlaceWord::Script,
    PlaceWord::Trace,
    PlaceWord::After,
    PlaceWord::Add,
    PlaceWord::Drop,
    PlaceWord::Roles,
    PlaceWord::Priority,
    PlaceWord::Put,
    PlaceWord::Take,
    PlaceWord::Set,
    PlaceWord::Pick,
    PlaceWord::Ended,
    PlaceWord::Stopped,
    PlaceWord::Done,
    PlaceWord::Keep,
    PlaceWord::Part,
    PlaceWord::As,
    PlaceWord::Choice,
    PlaceWord::Go,
    PlaceWord::Turn,
    PlaceWord::Begin,
    PlaceWord::End,
    PlaceWord::Out,
];

impl PlaceWord {
    /// How the word is spelled.
    pub fn spelling(self) -> &'static [u8]
        ensures { result.now ≡ place_word_spelling self }
    {
        match self {
            PlaceWord::Version => b"version",
            PlaceWord::Session => b"session",
            PlaceWord::Rules => b"rules",
            PlaceWord::Env => b"env",
            PlaceWord::Inputs => b"inputs",
            PlaceWord::Script => b"script",
            PlaceWord::Trace => b"trace",
            PlaceWord::After => b"after",
            PlaceWord::Add => b"add",
            PlaceWord::Drop => b"drop",
            PlaceWord::Roles => b"roles",
            PlaceWord::Priority => b"priority",
            PlaceWord::Put => b"put",
            PlaceWord::Take => b"take",
            PlaceWord::Set => b"set",
            PlaceWord::Pick => b"pick",
            PlaceWord::Ended => b"ended",
            PlaceWord::Stopped => b"stopped",
            PlaceWord::Done => b"done",
            PlaceWord::Keep => b"keep",
            PlaceWord::Part => b"part",
            PlaceWord::As => b"as",
            PlaceWord::Choice => b"choice",
            PlaceWord::Go => b"go",
            PlaceWord::Turn => b"turn",
            PlaceWord::Begin => b"begin",
            PlaceWord::End => b"end",
            PlaceWord::Out => b"out",
        }
    }
}

/// The word of this spelling that has a meaning in its place.
fn place_word(bytes: &[u8]) -> Option<PlaceWord>
    ensures { result ≡ place_word_of bytes.now }
{
    PLACE_WORDS
        .iter()
        .copied()
        .find(|word| bytes == word.spelling())
}

/// What is seen of the token at a place of the text.
pub fn look_at(text: &Lexed<'_>, at: usize) -> Look
    ensures { result ≡ look (drop at text.now) }
{
    match text.sort(at) {
        Sort::End => Look::End,
        Sort::Long => Look::Long,
        Sort::Name => Look::Name(place_word(text.name(at))),
        Sort::Number => Look::Number(number_at(text, at, GREATEST_NEGATED)),
        Sort::Text => Look::Text,
        Sort::Reserved(word) => Look::Reserved(word),
        Sort::Symbol(punctuator) => Look::Symbol(punctuator),
    }
}
