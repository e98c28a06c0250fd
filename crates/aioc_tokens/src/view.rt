//! A text with its tokens, as the grammar sees it.

ghost use Rattle.std.specs.Prelude.{◌≡◌, ◌≢◌, ℕ, ◌+◌, ◌^◌, ◌<◌, ◌≤◌, ◌∷◌, [], drop, get_or, length, slice_range, IfOk, IsTrue, ◌↔◌};
ghost use Rattle.aioc_tokens.specs.declared.kinds.Kind.{Kind};
ghost use Rattle.aioc_tokens.specs.declared.kinds.Token.{Token};
ghost use Rattle.aioc_tokens.specs.Tokens.{Spells, IsLongestToken};
ghost use Rattle.aioc_tokens.specs.Lexing.{Lexes, IsTokenOf, bytes_of, place_of};
ghost use Rattle.aioc_tokens.specs.Lexemes.{lexeme, lexemes, sort_of, all_sorts, value_of, unescaped, AreKnown, Begins, HasLexemes, HasSpelling};
ghost use Rattle.aioc_tokens.specs.Packed.{front_name, front_number, front_text, ArePacked};
ghost use Rattle.limits.specs.Limits.{most_text_bytes};

use crate::kinds::{Kind, Token};
use crate::packed::Packed;
use crate::scan::{name_length, number_length, text_length};
use crate::sort_byte::SortByte;
use crate::words::{Sort, find_punctuator, find_word, lone_word};
use limits::{MOST_NAME_BYTES, MOST_TEXT_BYTES};
use std::alloc::{AllocError, Global};
use std::marker::Model;

/// How many bytes the value of a text in quotes has.
fn value_length(bytes: &[u8]) -> usize
    requires { Spells Kind.Text bytes.now }
    ensures { result ≡ length (value_of bytes.now) }
{
    let mut length = 0;
    let mut paired = false;
    for byte in &bytes[1..bytes.len() - 1] {
        if *byte == b'\\' && !paired {
            paired = true;
        } else {
            paired = false;
            length += 1;
        }
    }
    length
}

/// Whether the value of a text in quotes is within the limit.
fn is_short(bytes: &[u8]) -> bool
    requires { Spells Kind.Text bytes.now }
    ensures { IsTrue result ↔ (length (value_of bytes.now) ≤ most_text_bytes) }
{
    // A byte of the value takes one or two, so only a text between these needs to be read.
    if bytes.len() <= MOST_TEXT_BYTES + 2 {
        return true;
    }
    bytes.len() <= 2 * MOST_TEXT_BYTES + 2 && value_length(bytes) <= MOST_TEXT_BYTES
}

/// The bytes of a token.
fn bytes_of<'a>(bytes: &'a [u8], token: &Token) -> &'a [u8]
    requires { IsTokenOf bytes.now token.now }
    ensures value { result.now ≡ bytes_of bytes.now token.now }
    ensures spells { Spells token.now.kind result.now }
{
    &bytes[token.start..token.end]
}

/// The value of a text in quotes.
fn copied_value(alloc: Global, bytes: &[u8]) -> Result<Vec<u8>, AllocError>
    requires { Spells Kind.Text bytes.now }
    ensures { IfOk result (λ v. v.items ≡ value_of bytes.now) }
{
    let mut value = Vec::new(alloc);
    let mut paired = false;
    for byte in &bytes[1..bytes.len() - 1] {
        if *byte == b'\\' && !paired {
            paired = true;
        } else {
            paired = false;
            value.push(*byte)?;
        }
    }
    Ok(value)
}

/// The sort of a name of one byte.
fn lone_sort(byte: u8) -> Sort
    ensures { result ≡ sort_of (lexeme Kind.Name (byte ∷ []) ∷ []) }
{
    match lone_word(byte) {
        Some(word) => Sort::Reserved(word),
        None => Sort::Name,
    }
}

/// The sort of a name of any length.
fn long_sort(bytes: &[u8]) -> Sort
    ensures { result ≡ sort_of (lexeme Kind.Name bytes.now ∷ []) }
{
    match find_word(bytes) {
        Some(word) => Sort::Reserved(word),
        None if bytes.len() <= MOST_NAME_BYTES => Sort::Name,
        None => Sort::Long,
    }
}

/// The sort of a name: a reserved word, or one that is short enough, or too long.
pub(crate) fn name_sort(bytes: &[u8]) -> Sort
    ensures { result ≡ sort_of (lexeme Kind.Name bytes.now ∷ []) }
{
    // Many names have one byte, of which little is to be asked.
    match bytes {
        [byte] => lone_sort(*byte),
        _ => long_sort(bytes),
    }
}

/// The sort of a text in quotes.
pub(crate) fn text_sort(bytes: &[u8]) -> Sort
    requires { Spells Kind.Text bytes.now }
    ensures { result ≡ sort_of (lexeme Kind.Text bytes.now ∷ []) }
{
    if is_short(bytes) {
        Sort::Text
    } else {
        Sort::Long
    }
}

fn sort_of(kind: Kind, bytes: &[u8]) -> Sort
    requires { Spells kind bytes.now }
    ensures { result ≡ sort_of (lexeme kind bytes.now ∷ []) }
{
    match kind {
        Kind::Name => name_sort(bytes),
        Kind::Number => Sort::Number,
        Kind::Text => text_sort(bytes),
        Kind::Symbol => match find_punctuator(bytes) {
            Some(punctuator) => Sort::Symbol(punctuator),
            None => unreachable!(),
        },
    }
}

/// Where the token at a place of the list begins, or the text's length where there is none: the
/// byte that a fault of the grammar names.
pub fn place(bytes: &[u8], tokens: &[Token], at: usize) -> usize
    ensures { result ≡ place_of bytes.now tokens.now at }
{
    match tokens.get(at) {
        Some(token) => token.start,
        None => bytes.len(),
    }
}

/// The sorts of a text's tokens, in their order: what [`Lexed::with_sorts`] takes, so that no sort
/// is found twice. The error says that memory ran out.
pub fn sorts(alloc: Global, bytes: &[u8], tokens: &[Token]) -> Result<Vec<Sort>, AllocError>
    requires { Lexes 0 bytes.now tokens.now }
    ensures { IfOk result (λ found. found.items ≡ all_sorts (lexemes bytes.now tokens.now)) }
{
    let mut found = Vec::with_capacity(alloc, tokens.len())?;
    for token in tokens {
        found.push(sort_of(token.kind, bytes_of(bytes, token)))?;
    }
    Ok(found)
}

/// The sort of the token at this place of the list, found from its bytes, or `End` past the list.
fn found_sort(bytes: &[u8], tokens: &[Token], at: usize) -> Sort
    requires { at < length tokens.now → Lexes 0 bytes.now tokens.now }
    ensures { result ≡ sort_of (drop at (lexemes bytes.now tokens.now)) }
{
    match tokens.get(at) {
        Some(token) => sort_of(token.kind, bytes_of(bytes, token)),
        None => Sort::End,
    }
}

/// The sort of the token at this place of the list, of which the first sorts may be listed.
fn listed_sort(bytes: &[u8], tokens: &[Token], listed: &[Sort], at: usize) -> Sort
    requires lexes { at < length tokens.now → Lexes 0 bytes.now tokens.now }
    requires known { AreKnown listed.now (lexemes bytes.now tokens.now) }
    ensures { result ≡ sort_of (drop at (lexemes bytes.now tokens.now)) }
{
    match listed.get(at) {
        Some(sort) => *sort,
        None => found_sort(bytes, tokens, at),
    }
}

/// Whether `listed_sort` is this sort.
fn lists(bytes: &[u8], tokens: &[Token], listed: &[Sort], at: usize, sort: Sort) -> bool
    requires lexes { at < length tokens.now → Lexes 0 bytes.now tokens.now }
    requires known { AreKnown listed.now (lexemes bytes.now tokens.now) }
    ensures { IsTrue result ↔ (sort_of (drop at (lexemes bytes.now tokens.now)) ≡ sort) }
{
    listed_sort(bytes, tokens, listed, at) == sort
}

/// The bytes of the token at this place of the list.
fn token_bytes<'a>(bytes: &'a [u8], tokens: &[Token], at: usize) -> &'a [u8]
    requires within { at < length tokens.now }
    requires lexes { Lexes 0 bytes.now tokens.now }
    ensures value { (other : Token) → result.now ≡ bytes_of bytes.now (get_or tokens.now at other) }
    ensures spells { (other : Token) → Spells (get_or tokens.now at other).kind result.now }
{
    match tokens.get(at) {
        Some(token) => bytes_of(bytes, token),
        None => unreachable!(),
    }
}

/// The bytes from this place on.
fn bytes_from(bytes: &[u8], start: u32) -> &[u8]
    requires { start ≤ length bytes.now }
    ensures { result.now ≡ drop start bytes.now }
{
    &bytes[start as usize..]
}

/// The name at the front of these bytes.
fn front_name(from: &[u8]) -> &[u8]
    ensures { result.now ≡ front_name from.now }
{
    &from[..name_length(from)]
}

/// The digits at the front of these bytes.
fn front_number(from: &[u8]) -> &[u8]
    ensures { result.now ≡ front_number from.now }
{
    &from[..number_length(from)]
}

/// The text in quotes at the front of these bytes.
fn front_text(from: &[u8]) -> &[u8]
    requires { (count : ℕ) × IsLongestToken from.now Kind.Text count }
    ensures value { result.now ≡ front_text from.now }
    ensures spells { Spells Kind.Text result.now }
{
    match text_length(from) {
        Some(count) => &from[..count],
        None => unreachable!(),
    }
}

/// A text and its tokens, as the grammar sees them: a list of lexemes. To look at one takes no
/// longer far from the front than near it.
#[derive(Drop)]
pub struct Lexed<'a> {
    bytes: &'a [u8],
    /// Where each token begins, if the tokens are packed, or none.
    starts: &'a [u32],
    /// The sorts of all packed tokens.
    known: &'a [SortByte],
    /// The tokens that are not packed.
    tokens: &'a [Token],
    /// The sorts of the first of these, or none: those of the rest are found when they are asked
    /// for.
    listed: &'a [Sort],
}

const NO_STARTS: [u32; 0] = [];

const NO_TOKENS: [Token; 0] = [];

const NONE_LISTED: [Sort; 0] = [];

impl<'a> Model for Lexed<'a> {
    ghost use Rattle.std.specs.Prelude.{List};
    ghost use Rattle.aioc_tokens.specs.Lexemes.{Lexeme, lexemes, AreKnown};
    ghost use Rattle.aioc_tokens.specs.Packed.{shown_by, IsSourceOf};

    ghost Value = { List Lexeme };

    ghost view = { λ s. shown_by s.bytes.now s.starts.now s.known.now s.tokens.now };

    ghost invariant = { λ s. IsSourceOf s.bytes.now s.starts.now s.known.now s.tokens.now
        × AreKnown s.listed.now (lexemes s.bytes.now s.tokens.now) };
}

impl<'a> Lexed<'a> {
    ghost use Rattle.aioc_tokens.specs.Lexemes.{Lexeme};

    /// The lexemes of a text whose tokens these are.
    pub fn new(bytes: &'a [u8], tokens: &'a [Token]) -> Lexed<'a>
        requires { Lexes 0 bytes.now tokens.now }
        ensures { result ≡ lexemes bytes.now tokens.now }
    {
        let known: &[SortByte] = &[];
        Lexed {
            bytes,
            starts: NO_STARTS.as_slice(),
            known,
            tokens,
            listed: NONE_LISTED.as_slice(),
        }
    }

    /// The lexemes of a text whose tokens these are, and whose tokens have these sorts.
    pub fn with_sorts(bytes: &'a [u8], tokens: &'a [Token], sorts: &'a [Sort]) -> Lexed<'a>
        requires lexes { Lexes 0 bytes.now tokens.now }
        requires sorts { sorts.now ≡ all_sorts (lexemes bytes.now tokens.now) }
        ensures { result ≡ lexemes bytes.now tokens.now }
    {
        let known: &[SortByte] = &[];
        Lexed {
            bytes,
            starts: NO_STARTS.as_slice(),
            known,
            tokens,
            listed: sorts,
        }
    }

    /// The lexemes of a text whose packed tokens these are.
    pub fn packed(bytes: &'a [u8], packed: &'a Packed) -> Lexed<'a>
        requires { ArePacked bytes.now packed.now.starts.items packed.now.sorts.items }
        ensures lexemes { HasLexemes bytes.now result }
        ensures few { length result ≤ length bytes.now }
    {
        Lexed {
            bytes,
            starts: packed.starts.as_slice(),
            known: packed.sorts.as_slice(),
            tokens: NO_TOKENS.as_slice(),
            listed: NONE_LISTED.as_slice(),
        }
    }

    /// How many lexemes there are.
    pub fn len(&self) -> usize
        ensures value { result ≡ length self.now }
        ensures small { result < 2 ^ 63 }
    {
        // Either there are no packed tokens, or there are no others.
        self.starts.len().max(self.tokens.len())
    }

    /// Whether there is no lexeme.
    pub fn is_empty(&self) -> bool
        ensures { IsTrue result ↔ (self.now ≡ []) }
    {
        self.len() == 0
    }

    /// The sort of the lexeme at this place, counted from 0.
    pub fn sort(&self, at: usize) -> Sort
        ensures value { result ≡ sort_of (drop at self.now) }
        ensures within { result ≢ Sort.End → at < length self.now }
        ensures small { length self.now < 2 ^ 63 }
    {
        let _few = self.len();
        match self.known.get(at) {
            Some(sort) => sort.get(),
            None => listed_sort(self.bytes, self.tokens, self.listed, at),
        }
    }

    /// Whether the lexeme at this place is of this sort.
    pub fn has(&self, at: usize, sort: Sort) -> bool
        ensures value { IsTrue result ↔ (sort_of (drop at self.now) ≡ sort) }
        ensures small { length self.now < 2 ^ 63 }
    {
        let _few = self.len();
        match self.known.get(at) {
            Some(known) => known.is(sort),
            None => lists(self.bytes, self.tokens, self.listed, at, sort),
        }
    }

    /// Whether the lexemes from this place on are of these sorts, one after the other.
    pub fn begins(&self, at: usize, sorts: &[Sort]) -> bool
        ensures { IsTrue result ↔ Begins sorts.now (drop at self.now) }
    {
        for (place, sort) in sorts.iter().enumerate() {
            // Past the greatest number there is no lexeme, as at it.
            if !self.has(at.saturating_add(place), *sort) {
                return false;
            }
        }
        true
    }

    /// The bytes of the name at this place.
    pub fn name(&self, at: usize) -> &'a [u8]
        requires { sort_of (drop at self.now) ≡ Sort.Name }
        ensures value { drop at self.now ≡ Lexeme.Name result.now ∷ drop (at + 1) self.now }
        ensures valid { HasSpelling (Lexeme.Name result.now) }
    {
        match self.starts.get(at) {
            Some(start) => front_name(bytes_from(self.bytes, *start)),
            None => token_bytes(self.bytes, self.tokens, at),
        }
    }

    /// Whether the lexeme at this place is this name, as a word that has a meaning only in its
    /// place.
    pub fn named(&self, at: usize, word: &[u8]) -> bool
        ensures { IsTrue result
            ↔ (drop at self.now ≡ Lexeme.Name word.now ∷ drop (at + 1) self.now) }
    {
        self.has(at, Sort::Name) && self.name(at) == word
    }

    /// The digits of the number at this place.
    pub fn digits(&self, at: usize) -> &'a [u8]
        requires { sort_of (drop at self.now) ≡ Sort.Number }
        ensures value { drop at self.now ≡ Lexeme.Number result.now ∷ drop (at + 1) self.now }
        ensures valid { HasSpelling (Lexeme.Number result.now) }
    {
        match self.starts.get(at) {
            Some(start) => front_number(bytes_from(self.bytes, *start)),
            None => token_bytes(self.bytes, self.tokens, at),
        }
    }

    /// A copy of the value of the text at this place.
    pub fn text(&self, alloc: Global, at: usize) -> Result<Vec<u8>, AllocError>
        requires { sort_of (drop at self.now) ≡ Sort.Text }
        ensures value { IfOk result (λ v. drop at self.now ≡ Lexeme.Text v.items
            ∷ drop (at + 1) self.now) }
        ensures valid { IfOk result (λ v. HasSpelling (Lexeme.Text v.items)) }
    {
        match self.starts.get(at) {
            Some(start) => copied_value(alloc, front_text(bytes_from(self.bytes, *start))),
            None => copied_value(alloc, token_bytes(self.bytes, self.tokens, at)),
        }
    }
}
