//! Tokens at which something begins.
//!
//! The grammar has few words, so what begins at a token of a bundle is told by that token and the
//! next three: no trace and no expression has any of these.

ghost use Rattle.std.specs.Prelude.{◌≡◌, ◌+◌, ◌<◌, ◌^◌, drop, IfSome, if◌then◌else◌};
ghost use Rattle.aioc_tokens.specs.Lexemes.{sort_of};
ghost use Rattle.text_places.specs.Marks.{mark_of, is_named, is_assigned, is_step, is_construct, is_rule, is_list, is_before_role, is_role, is_given, is_aioc, is_rule_word, is_number, is_marked, passing, IsNth};

use aioc_tokens::{Lexed, Punctuator, Sort, Word};

/// What begins at a token.
#[derive(Clone, Copy)]
pub enum Mark<'a> {
    /// The section of the choreography.
    Choreography,
    /// A rule of a section of rules; the token is the bracket before it.
    Rule,
    /// A rule that a script adds; the token is the word before it.
    Added,
    /// A change of a script.
    Change,
    /// A construct with an index.
    Construct,
    /// This role of a choreography; the token is the symbol before it.
    Role(&'a [u8]),
    /// The inputs of this role.
    Input(&'a [u8]),
}

/// Whether the lexeme at a place is this name.
fn is_named(text: &Lexed<'_>, at: usize, name: &[u8]) -> bool
    ensures { result ≡ is_named name.now (drop at text.now) }
{
    match text.sort(at) {
        Sort::Name => text.name(at) == name,
        _ => false,
    }
}

/// Whether behind a name at a place an assignment goes on.
fn is_assigned(text: &Lexed<'_>, at: usize) -> bool
    requires { at < 2 ^ 63 }
    ensures { result ≡ is_assigned (sort_of (drop (at + 2) text.now)) (sort_of (drop (at + 3)
        text.now)) }
{
    match (text.sort(at + 2), text.sort(at + 3)) {
        (Sort::Name, Sort::Symbol(Punctuator::Equal)) => true,
        _ => false,
    }
}

/// Whether behind a name at a place an interaction, an assignment or an input goes on.
fn is_step(text: &Lexed<'_>, at: usize) -> bool
    requires { at < 2 ^ 63 }
    ensures { result ≡ is_step text.now at }
{
    match text.sort(at + 1) {
        Sort::Symbol(Punctuator::Colon) => true,
        Sort::Symbol(Punctuator::At) => is_assigned(text, at),
        _ => false,
    }
}

/// Whether a construct with an index begins at a place.
fn is_construct(text: &Lexed<'_>, at: usize) -> bool
    requires { at < 2 ^ 63 }
    ensures { result ≡ is_construct text.now at }
{
    match text.sort(at) {
        Sort::Reserved(Word::If | Word::While | Word::Scope) => true,
        Sort::Name => is_step(text, at),
        _ => false,
    }
}

/// Whether a rule of a section of rules begins behind a place.
fn is_rule(text: &Lexed<'_>, at: usize) -> bool
    requires { at < 2 ^ 63 }
    ensures { result ≡ is_rule (sort_of (drop at text.now)) (sort_of (drop (at + 1) text.now)) }
{
    match (text.sort(at), text.sort(at + 1)) {
        (
            Sort::Symbol(Punctuator::LeftBrace | Punctuator::RightBrace),
            Sort::Reserved(Word::Rule),
        ) => true,
        _ => false,
    }
}

/// Whether a role may be named behind this symbol.
fn is_before_role(before: Sort, behind: Sort) -> bool
    ensures { result ≡ is_before_role before behind }
{
    match before {
        Sort::Symbol(Punctuator::At | Punctuator::Colon | Punctuator::Arrow | Punctuator::Comma) =>
            true,
        Sort::Symbol(Punctuator::LeftBrace) => is_list(behind),
        _ => false,
    }
}

/// Whether this stands behind a role in a list of roles.
fn is_list(behind: Sort) -> bool
    ensures { result ≡ is_list behind }
{
    match behind {
        Sort::Symbol(Punctuator::Comma | Punctuator::RightBrace) => true,
        _ => false,
    }
}

/// Whether this role of a choreography stands behind a place.
fn is_role(text: &Lexed<'_>, at: usize, role: &[u8]) -> bool
    requires { at < 2 ^ 63 }
    ensures { result ≡ is_role role.now text.now at }
{
    is_named(text, at + 1, role) && is_before_role(text.sort(at), text.sort(at + 2))
}

/// Whether inputs stand behind a role, and not what a role sends.
fn is_given(text: &Lexed<'_>, at: usize) -> bool
    requires { at < 2 ^ 63 }
    ensures { result ≡ is_given (sort_of (drop (at + 1) text.now)) (sort_of (drop (at + 2)
        text.now)) }
{
    match (text.sort(at + 1), text.sort(at + 2)) {
        (Sort::Symbol(Punctuator::Colon), Sort::Name) => false,
        (Sort::Symbol(Punctuator::Colon), _) => true,
        _ => false,
    }
}

fn is_aioc(sort: Sort) -> bool
    ensures { result ≡ is_aioc sort }
{
    matches!(sort, Sort::Reserved(Word::Aioc))
}

fn is_rule_word(sort: Sort) -> bool
    ensures { result ≡ is_rule_word sort }
{
    matches!(sort, Sort::Reserved(Word::Rule))
}

fn is_number(sort: Sort) -> bool
    ensures { result ≡ is_number sort }
{
    matches!(sort, Sort::Number)
}

/// Whether the mark is at a place.
fn is_marked(text: &Lexed<'_>, mark: Mark<'_>, at: usize) -> bool
    requires { at < 2 ^ 63 }
    ensures { result ≡ is_marked (mark_of mark.entry) text.now at }
{
    match mark {
        Mark::Choreography => is_aioc(text.sort(at)),
        Mark::Rule => is_rule(text, at),
        Mark::Added => { is_named(text, at, b"add") && is_rule_word(text.sort(at + 1)) }
        Mark::Change => is_named(text, at, b"after") && is_number(text.sort(at + 1)),
        Mark::Construct => is_construct(text, at),
        Mark::Role(role) => is_role(text, at, role),
        Mark::Input(role) => is_named(text, at, role) && is_given(text, at),
    }
}

/// 1 for what holds, else 0.
fn number_of(truth: bool) -> usize
    ensures { result ≡ (if truth then 1 else 0) }
{
    if truth { 1 } else { 0 }
}

/// The first place from a place of the text on that has the mark, and so many places before it
/// since then have it too. `None` where there is none.
pub fn find_mark(text: &Lexed<'_>, mark: Mark<'_>, from: usize, number: usize) -> Option<usize>
    ensures { IfSome result (λ place. IsNth (mark_of mark.entry) text.now from number place) }
{
    let mut seen = 0;
    let mut at = from;
    while at < text.len() {
        let marked = is_marked(text, mark, at);
        if marked && seen == number {
            return Some(at);
        }
        seen += number_of(marked);
        at += 1;
    }
    None
}
