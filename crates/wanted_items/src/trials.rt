//! Trials: each item in the place of a token, to see whether it may stand there.

ghost use Rattle.std.specs.Prelude.{◌≡◌, ◌≤◌, ◌∷◌, ◌++◌, [], take, filter, length, List, IfOk, OnOk, if◌then◌else◌};
ghost use Rattle.aioc_tokens.specs.Lexing.{Lexes};
ghost use Rattle.aioc_tokens.specs.Lexemes.{Lexeme, lexemes};
ghost use Rattle.wanted_tokens.specs.Looks.{look};
ghost use Rattle.wanted_items.specs.Items.{lexeme_of, is_wanted, may_end};
ghost use Rattle.wanted_items.specs.Walks.{IsWalk, TakesItem};

use crate::items::Item::{self, Name, Number, Placed, Reserved, Symbol, Text, Two};
use crate::walks::{Walk, walk_to};
use aioc_tokens::{Lexed, Punctuator, Token, Word};
use dioc_terms::Memory;
use std::alloc::Global;
use text_places::tokens_of;
use wanted_tokens::{Goal, Look, PlaceWord, look_at};

/// All items, in the order in which a person is told of them.
pub const ITEMS: [Item; 78] = [
    Name,
    Number,
    Two,
    Text,
    Reserved(Word::Aioc),
    Reserved(Word::Skip),
    Reserved(Word::If),
    Reserved(Word::Else),
    Reserved(Word::While),
    Reserved(Word::Scope),
    Reserved(Word::Prop),
    Reserved(Word::Rule),
    Reserved(Word::On),
    Reserved(Word::Do),
    Reserved(Word::True),
    Reserved(Word::False),
    Reserved(Word::Nil),
    Reserved(Word::And),
    Reserved(Word::Or),
    Reserved(Word::Not),
    Reserved(Word::Input),
    Reserved(Word::N),
    Reserved(Word::E),
    Placed(PlaceWord::Version),
    Placed(PlaceWord::Rules),
    Placed(PlaceWord::Env),
    Placed(PlaceWord::Inputs),
    Placed(PlaceWord::Script),
    Placed(PlaceWord::Trace),
    Placed(PlaceWord::After),
    Placed(PlaceWord::Add),
    Placed(PlaceWord::Drop),
    Placed(PlaceWord::Roles),
    Placed(PlaceWord::Priority),
    Placed(PlaceWord::Put),
    Placed(PlaceWord::Take),
    Placed(PlaceWord::Set),
    Placed(PlaceWord::Pick),
    Placed(PlaceWord::Ended),
    Placed(PlaceWord::Stopped),
    Placed(PlaceWord::Done),
    Placed(PlaceWord::Keep),
    Placed(PlaceWord::Part),
    Placed(PlaceWord::As),
    Placed(PlaceWord::Choice),
    Placed(PlaceWord::Go),
    Placed(PlaceWord::Turn),
    Placed(PlaceWord::Begin),
    Placed(PlaceWord::End),
    Placed(PlaceWord::Out),
    Symbol(Punctuator::Semicolon),
    Symbol(Punctuator::Comma),
    Symbol(Punctuator::Colon),
    Symbol(Punctuator::Bar),
    Symbol(Punctuator::LeftBrace),
    Symbol(Punctuator::RightBrace),
    Symbol(Punctuator::LeftParen),
    Symbol(Punctuator::RightParen),
    Symbol(Punctuator::LeftBracket),
    Symbol(Punctuator::RightBracket),
    Symbol(Punctuator::At),
    Symbol(Punctuator::Equal),
    Symbol(Punctuator::EqualEqual),
    Symbol(Punctuator::NotEqual),
    Symbol(Punctuator::Less),
    Symbol(Punctuator::LessEqual),
    Symbol(Punctuator::Greater),
    Symbol(Punctuator::GreaterEqual),
    Symbol(Punctuator::Plus),
    Symbol(Punctuator::PlusPlus),
    Symbol(Punctuator::Minus),
    Symbol(Punctuator::Arrow),
    Symbol(Punctuator::Star),
    Symbol(Punctuator::Slash),
    Symbol(Punctuator::Percent),
    Symbol(Punctuator::Dot),
    Symbol(Punctuator::Hash),
    Symbol(Punctuator::Bang),
];

/// What is seen of the token of an item.
fn look_of(alloc: Global, item: Item) -> Result<Look, Memory>
    ensures { IfOk result (λ seen. seen ≡ look (lexeme_of item ∷ [])) }
{
    let spelling = item.spelling();
    let found = tokens_of(alloc, spelling)?;
    Ok(look_at(&Lexed::new(spelling, &found), 0))
}

/// A goal that takes the token of an item.
fn goal_of(item: Item) -> Goal
    ensures { TakesItem result item }
{
    match item {
        Name | Placed(_) => Goal::Name,
        Number | Two => Goal::Number(2),
        Text => Goal::Value,
        Reserved(word) => Goal::Reserved(word),
        Symbol(punctuator) => Goal::Symbol(punctuator),
    }
}

/// What is wanted behind the tokens before a place of a text.
fn walk_before(
    alloc: Global,
    bytes: &[u8],
    known: &[Token],
    at: usize,
) -> Result<Option<Walk>, Memory>
    requires lexes { Lexes 0 bytes.now known.now }
    requires within { at ≤ length known.now }
    ensures { IfOk result (IsWalk (take at (lexemes bytes.now known.now))) }
{
    walk_to(alloc, &Lexed::new(bytes, known), at)
}

/// Whether the token of an item would be taken behind the tokens of a walk, or one of these isn't
/// wanted itself.
fn is_wanted(alloc: Global, walk: &Option<Walk>, item: Item) -> Result<bool, Memory>
    ensures { IfOk result (λ wanted. (front : List Lexeme) → IsWalk front walk.now
        → wanted ≡ is_wanted front item) }
{
    match walk {
        Some(walk) => walk.takes(alloc, look_of(alloc, item)?, goal_of(item)),
        None => Ok(true),
    }
}

/// Whether a bundle may end before a token of a text.
pub fn may_end(alloc: Global, bytes: &[u8], known: &[Token], at: usize) -> Result<bool, Memory>
    requires lexes { Lexes 0 bytes.now known.now }
    requires within { at ≤ length known.now }
    ensures { IfOk result (λ over. over ≡ may_end (take at (lexemes bytes.now known.now))) }
{
    match walk_before(alloc, bytes, known, at)? {
        Some(walk) => Ok(walk.is_over()),
        None => Ok(false),
    }
}

/// Puts an item behind the others where it is wanted.
fn push_where(items: &mut Vec<Item>, item: Item, wanted: bool) -> Result<(), Memory>
    ensures { OnOk result (items.new.items
        ≡ items.old.items ++ (if wanted then item ∷ [] else [])) }
{
    if wanted {
        items.push(item)?;
    }
    Ok(())
}

/// Those of these items that would be taken behind the tokens of a walk.
fn wanted_among(alloc: Global, walk: &Option<Walk>, all: &[Item]) -> Result<Vec<Item>, Memory>
    ensures { IfOk result (λ items. (front : List Lexeme) → IsWalk front walk.now
        → items.items ≡ filter (is_wanted front) all.now) }
{
    let mut items = Vec::new(alloc);
    for item in all {
        let wanted = is_wanted(alloc, walk, *item)?;
        push_where(&mut items, *item, wanted)?;
    }
    Ok(items)
}

/// The items that may stand at a place of a text, in place of the token there: those whose token
/// would be taken behind the tokens before it, in the order of [`ITEMS`]. The text up to the place
/// is read once. The error says that memory ran out.
pub fn wanted(alloc: Global, bytes: &[u8], known: &[Token], at: usize) -> Result<Vec<Item>, Memory>
    requires lexes { Lexes 0 bytes.now known.now }
    requires within { at ≤ length known.now }
    ensures { IfOk result (λ items. items.items
        ≡ filter (is_wanted (take at (lexemes bytes.now known.now))) ITEMS) }
{
    let walk = walk_before(alloc, bytes, known, at)?;
    wanted_among(alloc, &walk, ITEMS.as_slice())
}
