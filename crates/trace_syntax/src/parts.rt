//! The parts of a line. Each is read at a place of the text; the answer has the place behind it,
//! and the error says that it doesn't stand there, or that memory ran out.

ghost use Rattle.std.specs.Prelude.{◌≤◌, IfOk};
ghost use Rattle.expr_syntax.specs.Constants.{constant};
ghost use Rattle.limits.specs.Limits.{greatest_place};
ghost use Rattle.trace_syntax.specs.Reading.{behind_symbol, behind_word, first_name, first_number, first_truth, first_index, first_auxiliary, first_tag, first_key, ReadsAt, PassesAt};

use crate::words::{LineFault, ReadPart, find_auxiliary};
use aioc_tokens::{Lexed, Punctuator, Sort, Word};
use dioc_terms::{Index, Key, Name, Role, Tag, Value};
use std::alloc::Global;

/// The greatest epoch, and the greatest place.
const GREATEST_PLACE: u64 = 4_294_967_295;

pub fn symbol_at(text: &Lexed<'_>, at: usize, symbol: Punctuator) -> Result<usize, LineFault>
    ensures { PassesAt (behind_symbol symbol) text.now at result }
{
    if text.has(at, Sort::Symbol(symbol)) {
        Ok(at + 1)
    } else {
        Err(LineFault::NoLine)
    }
}

/// A word that is one only in its place.
pub fn word_at(text: &Lexed<'_>, at: usize, word: &[u8]) -> Result<usize, LineFault>
    ensures { PassesAt (behind_word word.now) text.now at result }
{
    if !text.has(at, Sort::Name) {
        return Err(LineFault::NoLine);
    }
    if text.name(at) == word {
        Ok(at + 1)
    } else {
        Err(LineFault::NoLine)
    }
}

pub fn name_at(alloc: Global, text: &Lexed<'_>, at: usize) -> ReadPart<Name>
    ensures { ReadsAt first_name text.now at result }
{
    if !text.has(at, Sort::Name) {
        return Err(LineFault::NoLine);
    }
    let name = expr_syntax::name_at(alloc, text, at)?;
    Ok((name, at + 1))
}

/// A number that is at most `most`.
pub fn number_at(text: &Lexed<'_>, at: usize, most: u64) -> ReadPart<u64>
    ensures value { ReadsAt (first_number most) text.now at result }
    ensures small { IfOk result (λ read. read.0 ≤ most) }
{
    if !text.has(at, Sort::Number) {
        return Err(LineFault::NoLine);
    }
    match expr_syntax::number_at(text, at, most) {
        Some(number) => Ok((number, at + 1)),
        None => Err(LineFault::NoLine),
    }
}

/// An epoch or a place.
pub fn short_number_at(text: &Lexed<'_>, at: usize) -> ReadPart<u32>
    ensures { ReadsAt (first_number greatest_place) text.now at result }
{
    let (number, next) = number_at(text, at, GREATEST_PLACE)?;
    Ok((number as u32, next))
}

/// `true` or `false`.
#[tactic(auto, unfolding(crate::specs::Reading::first_truth))]
pub fn truth_at(text: &Lexed<'_>, at: usize) -> ReadPart<bool>
    ensures { ReadsAt first_truth text.now at result }
{
    match text.sort(at) {
        Sort::Reserved(Word::True) => Ok((true, at + 1)),
        Sort::Reserved(Word::False) => Ok((false, at + 1)),
        _ => Err(LineFault::NoLine),
    }
}

pub fn value_at(alloc: Global, text: &Lexed<'_>, at: usize) -> ReadPart<Value>
    ensures { ReadsAt constant text.now at result }
{
    match expr_syntax::constant_at(alloc, text, at)? {
        Some(read) => Ok(read),
        None => Err(LineFault::NoLine),
    }
}

/// As `#0.3`.
#[tactic(auto, unfolding(crate::specs::Reading::first_index))]
pub fn index_at(text: &Lexed<'_>, at: usize) -> ReadPart<Index>
    ensures { ReadsAt first_index text.now at result }
{
    let at = symbol_at(text, at, Punctuator::Hash)?;
    let (epoch, at) = short_number_at(text, at)?;
    let at = symbol_at(text, at, Punctuator::Dot)?;
    let (place, at) = short_number_at(text, at)?;
    Ok((Index { epoch, place }, at))
}

/// As `o` or `!choice`.
#[tactic(auto, unfolding(crate::specs::Reading::first_tag))]
pub fn tag_at(alloc: Global, text: &Lexed<'_>, at: usize) -> ReadPart<Tag>
    ensures { ReadsAt first_tag text.now at result }
{
    match text.sort(at) {
        Sort::Name => {
            let name = expr_syntax::name_at(alloc, text, at)?;
            Ok((Tag::Op(name), at + 1))
        }
        Sort::Symbol(Punctuator::Bang) => auxiliary_at(text, at + 1),
        _ => Err(LineFault::NoLine),
    }
}

/// The auxiliary tag of a word.
#[tactic(auto, unfolding(crate::specs::Reading::first_auxiliary))]
fn auxiliary_at(text: &Lexed<'_>, at: usize) -> ReadPart<Tag>
    ensures { ReadsAt first_auxiliary text.now at result }
{
    if !text.has(at, Sort::Name) {
        return Err(LineFault::NoLine);
    }
    match find_auxiliary(text.name(at)) {
        Some(tag) => Ok((tag, at + 1)),
        None => Err(LineFault::NoLine),
    }
}

/// As `a -> b o#0.3`.
#[tactic(auto, unfolding(crate::specs::Reading::first_key))]
pub fn key_at(alloc: Global, text: &Lexed<'_>, at: usize) -> ReadPart<Key>
    ensures { ReadsAt first_key text.now at result }
{
    let (from, at) = name_at(alloc, text, at)?;
    let at = symbol_at(text, at, Punctuator::Arrow)?;
    let (to, at) = name_at(alloc, text, at)?;
    let (tag, at) = tag_at(alloc, text, at)?;
    let (index, at) = index_at(text, at)?;
    let key = Key {
        from: Role(from),
        to: Role(to),
        index,
        tag,
    };
    Ok((key, at))
}
