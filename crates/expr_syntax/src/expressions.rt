//! Expressions at a place of a text.

ghost use Rattle.std.specs.Prelude.{◌≡◌, ℕ, ◌≤◌, drop, length, Err, IfOk};
ghost use Rattle.dioc_terms.specs.Expressions.{expression};
ghost use Rattle.limits.specs.Limits.{most_brackets};
ghost use Rattle.dioc_terms.specs.declared.faults.SyntaxFault.TheVariants as fault;
ghost use Rattle.aioc_tokens.specs.Fronts.{NoFront};
ghost use Rattle.aioc_tokens.specs.Lexing.{Lexes, place_of};
ghost use Rattle.aioc_tokens.specs.Lexemes.{lexemes};
ghost use Rattle.expr_syntax.specs.Grammar.{IsExpression, ReadsAt, ExpressionAt};

use crate::levels::{ExprKind, Level};
use crate::places::{Place, Reader};
use crate::readers::level_at;
use aioc_tokens::{Lexed, Token, place};
use dioc_terms::{Expr, Memory, SyntaxFault};
use limits::{MOST_BRACKETS, MOST_EXPRESSION_DEPTH};
use std::alloc::Global;

/// The longest expression of this kind at a place of the text and the place behind it, or `None`
/// where none stands there. As many brackets as `room` may be open in it at once, and it is at most
/// [`MOST_EXPRESSION_DEPTH`] deep. The error says that memory ran out.
pub fn expr_at(
    alloc: Global,
    text: &Lexed<'_>,
    kind: ExprKind,
    room: usize,
    at: usize,
) -> Result<Option<(Expr, usize)>, Memory>
    ensures { IfOk result (λ found. ExpressionAt kind room text.now at found) }
{
    let reader = Reader { alloc, text, kind };
    let deep = MOST_EXPRESSION_DEPTH;
    match level_at(&reader, Level::Disjunction, Place { at, room, deep })? {
        Some(found) => Ok(Some((found.expr, found.at))),
        None => Ok(None),
    }
}

/// Reads the longest expression of this kind at a place of a text whose tokens these are. The
/// answer has the place behind it. At most [`MOST_BRACKETS`] brackets are open in it at once.
///
/// The error is `Syntax` exactly where no front of the tokens from there on is such an expression,
/// with the byte where the token at the place begins, and `Memory` where memory runs out.
pub fn read_expr(
    alloc: Global,
    bytes: &[u8],
    tokens: &[Token],
    at: usize,
    kind: ExprKind,
) -> Result<(Expr, usize), SyntaxFault>
    requires { Lexes 0 bytes.now tokens.now }
    ensures found { IfOk result (λ read. ReadsAt kind most_brackets
        (lexemes bytes.now tokens.now) at (expression read.0) read.1) }
    ensures within { IfOk result (λ read. read.1 ≤ length tokens.now) }
    ensures syntax { (byte : ℕ) → result ≡ Err (fault.Syntax byte)
        → NoFront (IsExpression kind most_brackets (drop at (lexemes bytes.now tokens.now))) }
    ensures place { (byte : ℕ) → result ≡ Err (fault.Syntax byte)
        → byte ≡ place_of bytes.now tokens.now at }
{
    let text = Lexed::new(bytes, tokens);
    match expr_at(alloc, &text, kind, MOST_BRACKETS, at)? {
        Some(read) => Ok(read),
        None => Err(SyntaxFault::Syntax(place(bytes, tokens, at))),
    }
}
