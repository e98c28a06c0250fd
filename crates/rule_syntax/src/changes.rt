//! Changes at a place of a text.

ghost use Rattle.std.specs.Prelude.{◌≡◌, ℕ, ◌≤◌, drop, length, Err, IfOk};
ghost use Rattle.std.specs.Option.{option_map};
ghost use Rattle.dioc_terms.specs.declared.faults.SyntaxFault.TheVariants as fault;
ghost use Rattle.aioc_tokens.specs.Fronts.{NoFront};
ghost use Rattle.aioc_tokens.specs.Lexing.{Lexes, place_of};
ghost use Rattle.aioc_tokens.specs.Lexemes.{lexemes};
ghost use Rattle.limits.specs.Limits.{most_brackets};
ghost use Rattle.limits.specs.Limits.{greatest_place};
ghost use Rattle.rule_syntax.specs.Grammar.{plain_change, IsChange};
ghost use Rattle.rule_syntax.specs.Readers.{StandsAt, ChangeAt, change_seen};

use crate::bindings::binding_at;
use crate::parts::ReadPart;
use crate::rules::rule_at;
use aioc_tokens::{Lexed, Sort, Token, place};
use dioc_terms::{Name, Rule, SyntaxFault, Value};
use expr_syntax::name_at;
use limits::MOST_BRACKETS;
use std::alloc::Global;

/// A change of the rule book or of the environment, as it is written.
#[derive(Drop)]
pub enum ReadChange {
    /// The rule is added.
    Add(Rule),
    /// The rule of that name is dropped.
    Drop(Name),
    /// The key is set to the value.
    Env(Name, Value),
}

/// The change at a place of the text with the place behind it, or `None` where none stands there.
/// As many brackets as `room` may be open in it at once. The error says that memory ran out.
///
/// ```text
/// change = "add" rule | "drop" name | "env" bind
/// ```
pub fn change_at(
    alloc: Global,
    text: &Lexed<'_>,
    version: u32,
    room: usize,
    at: usize,
) -> ReadPart<ReadChange>
    requires { length text.now ≤ greatest_place }
    ensures { IfOk result (λ found.
        ChangeAt version room text.now at (option_map change_seen found)) }
{
    if text.named(at, b"env") {
        match binding_at(alloc, text, at + 1)? {
            Some((bound, next)) => Ok(Some((ReadChange::Env(bound.0, bound.1), next))),
            None => Ok(None),
        }
    } else if text.named(at, b"drop") {
        if !text.has(at + 1, Sort::Name) {
            return Ok(None);
        }
        let name = name_at(alloc, text, at + 1)?;
        Ok(Some((ReadChange::Drop(name), at + 2)))
    } else if text.named(at, b"add") {
        match rule_at(alloc, text, version, room, at + 1)? {
            Some((rule, next)) => Ok(Some((ReadChange::Add(rule), next))),
            None => Ok(None),
        }
    } else {
        Ok(None)
    }
}

/// Reads the change at a place of a text whose tokens these are, by this version of the grammar.
/// The answer has the place behind it.
///
/// The error is `Syntax` exactly where no front of the tokens from there on is a change, with the
/// byte where the token at the place begins, and `Memory` where memory runs out.
pub fn read_change(
    alloc: Global,
    bytes: &[u8],
    tokens: &[Token],
    at: usize,
    version: u32,
) -> Result<(ReadChange, usize), SyntaxFault>
    requires tokens { Lexes 0 bytes.now tokens.now }
    requires few { length tokens.now ≤ greatest_place }
    ensures found { IfOk result (λ read. StandsAt (IsChange version most_brackets)
        (lexemes bytes.now tokens.now) at (plain_change read.0) read.1) }
    ensures within { IfOk result (λ read. read.1 ≤ length tokens.now) }
    ensures syntax { (byte : ℕ) → result ≡ Err (fault.Syntax byte) →
        NoFront (IsChange version most_brackets (drop at (lexemes bytes.now tokens.now))) }
    ensures place { (byte : ℕ) → result ≡ Err (fault.Syntax byte) →
        byte ≡ place_of bytes.now tokens.now at }
{
    let text = Lexed::new(bytes, tokens);
    match change_at(alloc, &text, version, MOST_BRACKETS, at)? {
        Some(read) => Ok(read),
        None => Err(SyntaxFault::Syntax(place(bytes, tokens, at))),
    }
}
