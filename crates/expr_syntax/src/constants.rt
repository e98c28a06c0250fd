//! The constants of the grammar.

ghost use Rattle.std.specs.Prelude.{◌≡◌, ◌≤◌, ◌<◌, ◌^◌, drop, IfOk, IsTrue, length, pos, neg_ℤ};
ghost use Rattle.std.specs.Char.{is_ascii_digit};
ghost use Rattle.std.specs.List.{list_all};
ghost use Rattle.expr_syntax.specs.Constants.{greatest_negated, number_up_to, number, ConstantAt};
ghost use Rattle.aioc_tokens.specs.declared.words.Sort.{Sort};
ghost use Rattle.aioc_tokens.specs.declared.words.Punctuator.{Punctuator};
ghost use Rattle.aioc_tokens.specs.Lexemes.{sort_of};

use aioc_tokens::{Lexed, Punctuator, Sort, Word};
use dioc_terms::{Memory, Text, TextFault, Value};
use std::alloc::Global;

/// The greatest number of the grammar, unless a `-` stands directly before it.
pub const GREATEST: u64 = 9_223_372_036_854_775_807;

/// The greatest number directly after a `-`.
pub const GREATEST_NEGATED: u64 = 9_223_372_036_854_775_808;

/// The number that digits stand for, unless it is greater than `most`. Most numbers have one digit,
/// of which little is to be asked.
fn number_of(digits: &[u8], most: u64) -> Option<u64>
    requires some { 0 < length digits.now }
    requires digits { IsTrue (list_all is_ascii_digit digits.now) }
    ensures { result ≡ number_up_to most digits.now }
{
    match digits {
        [digit] => {
            let number = u64::from(*digit - b'0');
            (number <= most).then_some(number)
        }
        _ => number_by_digits(digits, most),
    }
}

/// The number that digits stand for, unless it is greater than `most`, digit by digit.
fn number_by_digits(digits: &[u8], most: u64) -> Option<u64>
    requires some { 0 < length digits.now }
    requires digits { IsTrue (list_all is_ascii_digit digits.now) }
    ensures { result ≡ number_up_to most digits.now }
{
    let mut number: u64 = 0;
    for digit in digits {
        number = number
            .checked_mul(10)?
            .checked_add(u64::from(*digit - b'0'))?;
    }
    (number <= most).then_some(number)
}

/// The number at a place of the text, unless it is greater than `most`. Leading zeros don't matter,
/// however many.
pub fn number_at(text: &Lexed<'_>, at: usize, most: u64) -> Option<u64>
    ensures { result ≡ number most (drop at text.now) }
{
    match text.sort(at) {
        Sort::Number => number_of(text.digits(at), most),
        _ => None,
    }
}

/// Minus a number that has 64 bits with its sign.
fn negative(number: u64) -> i64
    requires { number ≤ greatest_negated }
    ensures { result ≡ neg_ℤ (pos number) }
{
    (-i128::from(number)) as i64
}

/// The constant at a place of the text, and the place behind it, or `None` where no constant stands
/// there:
///
/// ```text
/// value = "nil" | "true" | "false" | [ "-" ] number | text
/// ```
///
/// A number is at most [`GREATEST`], directly after a `-` at most [`GREATEST_NEGATED`]. The error
/// says that memory ran out.
pub fn constant_at(
    alloc: Global,
    text: &Lexed<'_>,
    at: usize,
) -> Result<Option<(Value, usize)>, Memory>
    ensures { IfOk result (λ found. ConstantAt text.now at found) }
{
    match text.sort(at) {
        Sort::Reserved(Word::Nil) => Ok(Some((Value::Nil, at + 1))),
        Sort::Reserved(Word::True) => Ok(Some((Value::Bool(true), at + 1))),
        Sort::Reserved(Word::False) => Ok(Some((Value::Bool(false), at + 1))),
        Sort::Text => text_at(alloc, text, at),
        Sort::Number => Ok(positive_at(text, at)),
        Sort::Symbol(Punctuator::Minus) => Ok(negative_at(text, at)),
        _ => Ok(None),
    }
}

fn text_at(alloc: Global, text: &Lexed<'_>, at: usize) -> Result<Option<(Value, usize)>, Memory>
    requires sort { sort_of (drop at text.now) ≡ Sort.Text }
    requires within { at < length text.now }
    requires small { length text.now < 2 ^ 63 }
    ensures { IfOk result (λ found. ConstantAt text.now at found) }
{
    let bytes = text.text(alloc, at)?;
    match Text::read(alloc, &bytes) {
        Ok(value) => Ok(Some((Value::Text(value), at + 1))),
        Err(TextFault::Memory) => Err(Memory),
        Err(TextFault::NotText) => unreachable!(),
    }
}

fn positive_at(text: &Lexed<'_>, at: usize) -> Option<(Value, usize)>
    requires sort { sort_of (drop at text.now) ≡ Sort.Number }
    requires within { at < length text.now }
    requires small { length text.now < 2 ^ 63 }
    ensures { ConstantAt text.now at result }
{
    match number_at(text, at, GREATEST) {
        Some(number) => Some((Value::Int(number as i64), at + 1)),
        None => None,
    }
}

fn negative_at(text: &Lexed<'_>, at: usize) -> Option<(Value, usize)>
    requires sort { sort_of (drop at text.now) ≡ Sort.Symbol Punctuator.Minus }
    requires within { at < length text.now }
    requires small { length text.now < 2 ^ 63 }
    ensures { ConstantAt text.now at result }
{
    match number_at(text, at + 1, GREATEST_NEGATED) {
        Some(number) => Some((Value::Int(negative(number)), at + 2)),
        None => None,
    }
}
