//! What the readers of the grammar find at the front of a text.

ghost use Rattle.std.specs.Prelude.{◌≡◌, ◌≤◌, ◌++◌, codes, decimal, length, IfOk, OnErr, OnOk};
ghost use Rattle.aioc_tokens.specs.Lexing.{Lexes};
ghost use Rattle.text_pieces.specs.Pieces.{KeepsFront};

use crate::cases::Case;
use crate::problems::Problem;
use aioc_tokens::{Token, TokenFault, tokens};
use dioc_syntax::read_choreo;
use dioc_terms::{Choreo, Expr, Memory, SyntaxFault};
use expr_syntax::{ExprKind, read_expr};
use std::alloc::Global;
use text_pieces::{write_bytes, write_number};

// The version of the grammar that has every form.
const LAST_VERSION: u32 = 2;

/// The readers of choreographies and rules take no more tokens.
pub const MOST_TOKENS: usize = 4_294_967_295;

/// What stands at the front of a text.
#[derive(Drop)]
pub enum Front<T> {
    /// The longest that a reader finds, how many tokens it takes, and whether none is left.
    Found {
        value: T,
        count: usize,
        is_whole: bool,
    },
    /// Nothing that the reader reads; it names this byte.
    Nothing(usize),
    /// This byte is in no token.
    BadByte(usize),
}

/// The tokens of a text, as many as the readers take; or the byte that is in no token.
pub fn text_tokens(alloc: Global, text: &[u8]) -> Result<Result<Vec<Token>, usize>, Problem>
    ensures lexes { IfOk result (λ found. IfOk found (λ found. Lexes 0 text.now found.items)) }
    ensures few { IfOk result (λ found. IfOk found (λ found. length found.items ≤ MOST_TOKENS)) }
{
    match tokens(alloc, text) {
        Ok(found) => Ok(Ok(few_tokens(found)?)),
        Err(TokenFault::BadByte(byte)) => Ok(Err(byte)),
        Err(TokenFault::Memory) => Err(Problem::Memory),
    }
}

// These tokens, unless there are too many.
fn few_tokens(found: Vec<Token>) -> Result<Vec<Token>, Problem>
    ensures same { IfOk result (λ tokens. tokens.items ≡ found.items) }
    ensures few { IfOk result (λ tokens. length tokens.items ≤ MOST_TOKENS) }
{
    if found.len() > MOST_TOKENS {
        return Err(Problem::Bad("the text has too many tokens"));
    }
    Ok(found)
}

impl<T: Drop> Front<T> {
    /// The front of a text with so many tokens, of which a reader says this.
    pub fn of_read(read: Result<(T, usize), SyntaxFault>, tokens: usize) -> Result<Self, Problem> {
        match read {
            Ok((value, count)) => Ok(Front::Found {
                value,
                count,
                is_whole: count == tokens,
            }),
            Err(SyntaxFault::Syntax(byte)) => Ok(Front::Nothing(byte)),
            Err(SyntaxFault::Memory) => Err(Problem::Memory),
        }
    }

    /// Appends `reads N: ` with the value behind it, as the call writes it; `none at byte N`; or
    /// `bad byte N`.
    pub fn write<F>(self, write_value: &F, out: &mut Vec<u8>) -> Result<(), Memory>
    where
        F: Fn(&T, &mut Vec<u8>) -> Result<(), Memory>,
        requires { F.IsAlwaysCallable write_value.now }
    {
        match &self {
            Front::Found { value, count, .. } => {
                write_count(*count, out)?;
                write_value(value, out)
            }
            Front::Nothing(byte) => write_place("none at byte", *byte, out),
            Front::BadByte(byte) => write_place("bad byte", *byte, out),
        }
    }
}

/// The expression of this kind at the front of a text.
pub fn front_expr(alloc: Global, text: &[u8], kind: ExprKind) -> Result<Front<Expr>, Problem> {
    match text_tokens(alloc, text)? {
        Ok(found) => Front::of_read(read_expr(alloc, text, &found, 0, kind), found.len()),
        Err(byte) => Ok(Front::BadByte(byte)),
    }
}

/// The choreography at the front of a text, by a version of the grammar.
pub fn front_choreo(alloc: Global, text: &[u8], version: u32) -> Result<Front<Choreo>, Problem> {
    match text_tokens(alloc, text)? {
        Ok(found) => Front::of_read(read_choreo(alloc, text, &found, 0, version), found.len()),
        Err(byte) => Ok(Front::BadByte(byte)),
    }
}

/// The expression of steps that a case's whole text is.
pub fn whole_expr(alloc: Global, case: &Case) -> Result<Expr, Problem> {
    let front = front_expr(alloc, &case.text, ExprKind::Step)?;
    whole_of(front, "the text is no expression")
}

/// The choreography that a case's whole text is.
pub fn whole_choreo(alloc: Global, case: &Case) -> Result<Choreo, Problem> {
    let front = front_choreo(alloc, &case.text, LAST_VERSION)?;
    whole_of(front, "the text is no choreography")
}

// What stands at the front, where that is the whole text. (For any type: what isn't answered is
// dropped by one call then, and not part by part.)
fn whole_of<T: Drop>(front: Front<T>, otherwise: &'static str) -> Result<T, Problem> {
    match front {
        Front::Found {
            value,
            is_whole: true,
            ..
        } => Ok(value),
        _ => Err(Problem::Bad(otherwise)),
    }
}

// Appends `reads N: ` for a front of so many tokens. After `Memory` a part of it may stand behind
// the old bytes.
#[tactic(auto, using(text_pieces::proofs::KeptFronts::front_of_front))]
fn write_count(count: usize, out: &mut Vec<u8>) -> Result<(), Memory>
    ensures ok { OnOk result (out.new.items
        ≡ out.old.items ++ (codes "reads " ++ (decimal count ++ codes ": "))) }
    ensures memory { OnErr result (KeepsFront out.old.items out.new.items) }
{
    write_bytes(b"reads ", out)?;
    write_number(count as u64, out)?;
    write_bytes(b": ", out)
}

/// Appends a word and the byte that it is about. After `Memory` a part of it may stand behind the
/// old bytes.
#[tactic(auto, using(text_pieces::proofs::KeptFronts::front_of_front))]
pub fn write_place(word: &str, byte: usize, out: &mut Vec<u8>) -> Result<(), Memory>
    ensures ok { OnOk result (out.new.items
        ≡ out.old.items ++ (word.now ++ (codes " " ++ decimal byte))) }
    ensures memory { OnErr result (KeepsFront out.old.items out.new.items) }
{
    write_bytes(word.as_bytes(), out)?;
    write_bytes(b" ", out)?;
    write_number(byte as u64, out)
}
