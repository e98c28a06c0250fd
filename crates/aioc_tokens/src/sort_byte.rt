//! What the grammar sees of a token, in one byte.

ghost use Rattle.std.specs.Prelude.{◌≡◌, ◌<◌, ◌↔◌, IsTrue};
ghost use Rattle.aioc_tokens.specs.SortBytes.{sort_at};

use crate::words::{Punctuator, Sort, Word};
use std::marker::Model;

/// Each sort, at the place of the byte that stands for it.
static SORTS: [Sort; 52] = [
    Sort::End,
    Sort::Name,
    Sort::Long,
    Sort::Number,
    Sort::Text,
    Sort::Reserved(Word::Aioc),
    Sort::Reserved(Word::Skip),
    Sort::Reserved(Word::If),
    Sort::Reserved(Word::Else),
    Sort::Reserved(Word::While),
    Sort::Reserved(Word::Scope),
    Sort::Reserved(Word::Prop),
    Sort::Reserved(Word::Rule),
    Sort::Reserved(Word::On),
    Sort::Reserved(Word::Do),
    Sort::Reserved(Word::True),
    Sort::Reserved(Word::False),
    Sort::Reserved(Word::Nil),
    Sort::Reserved(Word::And),
    Sort::Reserved(Word::Or),
    Sort::Reserved(Word::Not),
    Sort::Reserved(Word::Input),
    Sort::Reserved(Word::N),
    Sort::Reserved(Word::E),
    Sort::Symbol(Punctuator::LeftBrace),
    Sort::Symbol(Punctuator::RightBrace),
    Sort::Symbol(Punctuator::LeftParen),
    Sort::Symbol(Punctuator::RightParen),
    Sort::Symbol(Punctuator::LeftBracket),
    Sort::Symbol(Punctuator::RightBracket),
    Sort::Symbol(Punctuator::Semicolon),
    Sort::Symbol(Punctuator::Comma),
    Sort::Symbol(Punctuator::Colon),
    Sort::Symbol(Punctuator::Bar),
    Sort::Symbol(Punctuator::At),
    Sort::Symbol(Punctuator::Equal),
    Sort::Symbol(Punctuator::EqualEqual),
    Sort::Symbol(Punctuator::NotEqual),
    Sort::Symbol(Punctuator::Less),
    Sort::Symbol(Punctuator::LessEqual),
    Sort::Symbol(Punctuator::Greater),
    Sort::Symbol(Punctuator::GreaterEqual),
    Sort::Symbol(Punctuator::Plus),
    Sort::Symbol(Punctuator::PlusPlus),
    Sort::Symbol(Punctuator::Minus),
    Sort::Symbol(Punctuator::Arrow),
    Sort::Symbol(Punctuator::Star),
    Sort::Symbol(Punctuator::Slash),
    Sort::Symbol(Punctuator::Percent),
    Sort::Symbol(Punctuator::Dot),
    Sort::Symbol(Punctuator::Hash),
    Sort::Symbol(Punctuator::Bang),
];

const FIRST_WORD: u8 = 5;

const FIRST_PUNCTUATOR: u8 = 24;

/// A sort in one byte, for lists that are kept.
#[derive(Drop)]
pub struct SortByte {
    byte: u8,
}

impl Model for SortByte {
    ghost use Rattle.std.specs.Prelude.{◌<◌};
    ghost use Rattle.aioc_tokens.specs.declared.words.Sort.{Sort};

    ghost Value = { Sort };

    ghost use Rattle.aioc_tokens.specs.SortBytes.{sort_at};

    ghost view = { λ s. sort_at s.byte };

    ghost invariant = { λ s. s.byte < 52 };
}

/// The byte that stands for a sort.
fn byte_of(sort: Sort) -> u8
    ensures within { result < 52 }
    ensures value { sort_at result ≡ sort }
{
    match sort {
        Sort::End => 0,
        Sort::Name => 1,
        Sort::Long => 2,
        Sort::Number => 3,
        Sort::Text => 4,
        Sort::Reserved(word) => FIRST_WORD + word as u8,
        Sort::Symbol(punctuator) => FIRST_PUNCTUATOR + punctuator as u8,
    }
}

impl SortByte {
    /// What this byte stands for.
    pub(crate) fn from_byte(byte: u8) -> SortByte
        requires { byte < 52 }
        ensures { result ≡ sort_at byte }
    {
        SortByte { byte }
    }

    /// The byte of a sort.
    pub fn of(sort: Sort) -> SortByte
        ensures { result ≡ sort }
    {
        SortByte {
            byte: byte_of(sort),
        }
    }

    /// The sort that the byte stands for.
    pub fn get(&self) -> Sort
        ensures { result ≡ self.now }
    {
        SORTS[self.byte as usize]
    }

    /// Whether the byte stands for this sort.
    pub fn is(&self, sort: Sort) -> bool
        ensures { IsTrue result ↔ (self.now ≡ sort) }
    {
        self.byte == byte_of(sort)
    }
}
