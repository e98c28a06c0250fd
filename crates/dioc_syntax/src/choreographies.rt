//! Choreographies at a place of a text.

ghost use Rattle.std.specs.Prelude.{◌≡◌, ℕ, ◌≤◌, drop, length, Err, IfOk};
ghost use Rattle.limits.specs.Limits.{most_brackets, greatest_place};
ghost use Rattle.dioc_terms.specs.Terms.{term, indexed};
ghost use Rattle.dioc_terms.specs.declared.faults.SyntaxFault.TheVariants as fault;
ghost use Rattle.aioc_tokens.specs.Fronts.{NoFront};
ghost use Rattle.aioc_tokens.specs.Lexing.{Lexes, place_of};
ghost use Rattle.aioc_tokens.specs.Lexemes.{lexemes};
ghost use Rattle.dioc_syntax.specs.Choreographies.{IsChoreography, ReadsAt};

use crate::places::{Place, Reader};
use crate::readers::choreo_at;
use aioc_tokens::{Lexed, Token, place};
use dioc_terms::{Choreo, SyntaxFault};
use limits::MOST_BRACKETS;
use std::alloc::Global;

/// Reads the longest choreography of this version of the grammar at a place of a text whose tokens
/// these are. The answer has the place behind it, and it is marked as its text is: no indexed
/// construct begins before it. Version 2 alone lets a scope name further roles. At most
/// [`MOST_BRACKETS`] brackets are open in it at once, and it is at most [`MOST_DEPTH`] deep.
///
/// The error is `Syntax` exactly where no front of the tokens from there on is a choreography, with
/// the byte where the token at the place begins, and `Memory` where memory runs out.
pub fn read_choreo(
    alloc: Global,
    bytes: &[u8],
    tokens: &[Token],
    at: usize,
    version: u32,
) -> Result<(Choreo, usize), SyntaxFault>
    requires tokens { Lexes 0 bytes.now tokens.now }
    requires few { length tokens.now ≤ greatest_place }
    ensures found { IfOk result (λ read. ReadsAt version most_brackets
        (lexemes bytes.now tokens.now) at (term read.0) read.1) }
    ensures within { IfOk result (λ read. read.1 ≤ length tokens.now) }
    ensures indexed { IfOk result (λ read. term read.0 ≡ indexed (term read.0)) }
    ensures syntax { (byte : ℕ) → result ≡ Err (fault.Syntax byte)
        → NoFront (IsChoreography version most_brackets (drop at (lexemes bytes.now tokens.now))) }
    ensures place { (byte : ℕ) → result ≡ Err (fault.Syntax byte)
        → byte ≡ place_of bytes.now tokens.now at }
{
    let text = Lexed::new(bytes, tokens);
    let reader = Reader {
        alloc,
        text: &text,
        version,
    };
    match choreo_at(&reader, Place::front(at, MOST_BRACKETS))? {
        Some(found) => Ok((Box::into_inner(found.choreo), found.at)),
        None => Err(SyntaxFault::Syntax(place(bytes, tokens, at))),
    }
}
