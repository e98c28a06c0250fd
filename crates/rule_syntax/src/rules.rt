//! Rules at a place of a text.

ghost use Rattle.std.specs.Prelude.{◌≡◌, ℕ, ◌≤◌, drop, length, Err, IfOk};
ghost use Rattle.std.specs.Option.{option_map};
ghost use Rattle.dioc_terms.specs.Plain.{plain_rule};
ghost use Rattle.dioc_terms.specs.declared.faults.SyntaxFault.TheVariants as fault;
ghost use Rattle.aioc_tokens.specs.Fronts.{NoFront};
ghost use Rattle.aioc_tokens.specs.Lexing.{Lexes, place_of};
ghost use Rattle.aioc_tokens.specs.Lexemes.{lexemes};
ghost use Rattle.limits.specs.Limits.{most_brackets};
ghost use Rattle.limits.specs.Limits.{greatest_place};
ghost use Rattle.rule_syntax.specs.Grammar.{IsRule};
ghost use Rattle.rule_syntax.specs.Readers.{StandsAt, RuleAt, HeadAt, rule_seen};

use crate::parts::{ReadPart, body_at, condition_at, no_part};
use crate::priorities::priority_at;
use aioc_tokens::Punctuator::LeftBrace;
use aioc_tokens::Sort::{self, Reserved, Symbol};
use aioc_tokens::{Lexed, Token, Word, place};
use dioc_syntax::Reader;
use dioc_terms::{Rule, SyntaxFault, give_up};
use expr_syntax::name_at;
use limits::MOST_BRACKETS;
use std::alloc::Global;

/// `rule r`
const HEAD: [Sort; 2] = [Reserved(Word::Rule), Sort::Name];

/// `{ on {`
const OPENING: [Sort; 3] = [Symbol(LeftBrace), Reserved(Word::On), Symbol(LeftBrace)];

/// The priority of the rule that begins at a place of the text, and the place behind the `{ on {`
/// that follows.
fn head_at(text: &Lexed<'_>, version: u32, at: usize) -> Option<(i32, usize)>
    requires { length text.now ≤ greatest_place }
    ensures { HeadAt version text.now at result }
{
    if !text.begins(at, &HEAD) {
        return None;
    }
    let (priority, next) = match priority_at(text, version, at + 2) {
        Some(read) => read,
        None => return None,
    };
    if !text.begins(next, &OPENING) {
        return None;
    }
    Some((priority, next + 3))
}

/// The rule at a place of the text with the place behind it, or `None` where none stands there. As
/// many brackets as `room` may be open in it at once. The error says that memory ran out.
///
/// ```text
/// rule = "rule" name [ "priority" [ "-" ] number ] "{" "on" "{" expr "}" "do" "{" choreo "}" "}"
/// ```
pub fn rule_at(
    alloc: Global,
    text: &Lexed<'_>,
    version: u32,
    room: usize,
    at: usize,
) -> ReadPart<Rule>
    requires { length text.now ≤ greatest_place }
    ensures { IfOk result (λ found.
        RuleAt version room text.now at (option_map rule_seen found)) }
{
    if room < 2 {
        return Ok(None);
    }
    let (priority, inside) = match head_at(text, version, at) {
        Some(head) => head,
        None => return Ok(None),
    };
    let reader = Reader {
        alloc,
        text,
        version,
    };
    let (cond, does) = match condition_at(&reader, room - 2, inside)? {
        Some(read) => read,
        None => return Ok(None),
    };
    let (body, next) = match body_at(&reader, room - 2, does) {
        Ok(Some(read)) => read,
        Ok(None) => return Ok(no_part(cond)),
        Err(fault) => return give_up(cond, fault),
    };
    match name_at(alloc, text, at + 1) {
        Ok(name) => Ok(Some((
            Rule {
                name,
                priority,
                cond,
                body,
            },
            next,
        ))),
        Err(fault) => give_up((cond, body), fault),
    }
}

/// Reads the rule at a place of a text whose tokens these are, by this version of the grammar. The
/// answer has the place behind it. Version 2 alone lets a rule have a priority and a scope name
/// further roles.
///
/// The error is `Syntax` exactly where no front of the tokens from there on is a rule, with the
/// byte where the token at the place begins, and `Memory` where memory runs out.
pub fn read_rule(
    alloc: Global,
    bytes: &[u8],
    tokens: &[Token],
    at: usize,
    version: u32,
) -> Result<(Rule, usize), SyntaxFault>
    requires tokens { Lexes 0 bytes.now tokens.now }
    requires few { length tokens.now ≤ greatest_place }
    ensures found { IfOk result (λ read. StandsAt (IsRule version most_brackets)
        (lexemes bytes.now tokens.now) at (plain_rule read.0) read.1) }
    ensures within { IfOk result (λ read. read.1 ≤ length tokens.now) }
    ensures syntax { (byte : ℕ) → result ≡ Err (fault.Syntax byte) →
        NoFront (IsRule version most_brackets (drop at (lexemes bytes.now tokens.now))) }
    ensures place { (byte : ℕ) → result ≡ Err (fault.Syntax byte) →
        byte ≡ place_of bytes.now tokens.now at }
{
    let text = Lexed::new(bytes, tokens);
    match rule_at(alloc, &text, version, MOST_BRACKETS, at)? {
        Some(read) => Ok(read),
        None => Err(SyntaxFault::Syntax(place(bytes, tokens, at))),
    }
}
