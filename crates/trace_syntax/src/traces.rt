//! All lines of a trace.

ghost use Rattle.std.specs.Prelude.{◌≡◌, ℕ, ◌<◌, ◌≤◌, drop, length, Err, IfOk};
ghost use Rattle.aioc_tokens.specs.Lexing.{Lexes};
ghost use Rattle.aioc_tokens.specs.Lexemes.{lexemes};
ghost use Rattle.trace_syntax.specs.Grammar.{IsClosedTrace, IsBadLine};
ghost use Rattle.trace_syntax.specs.declared.words.TraceFault.TheVariants as fault;

use crate::entries::line_at;
use crate::words::{Line, LineFault, TraceFault};
use aioc_tokens::{Lexed, Punctuator, Sort, Token};
use dioc_terms::{Items, Trace};
use std::alloc::Global;

const CLOSE: Sort = Sort::Symbol(Punctuator::RightBrace);

/// Reads all lines from a place of the text up to the `}` that closes them. The answer has the
/// place of this `}`.
///
/// The error is `BadLine(n)` exactly where n - 1 lines, a last line counted among them, are
/// followed by neither a `}` nor a line that may stand there, and `Memory` where memory runs out.
pub fn trace_at(alloc: Global, text: &Lexed<'_>, at: usize) -> Result<(Trace, usize), TraceFault>
    ensures found { IfOk result (λ read.
        IsClosedTrace (drop at text.now) read.0.entries read.0.last (drop read.1 text.now)) }
    ensures within { IfOk result (λ read. (at ≤ read.1) × (read.1 < length text.now)) }
    ensures bad { (n : ℕ) → result ≡ Err (fault.BadLine n) → IsBadLine (drop at text.now) n }
{
    let mut entries = Vec::new(alloc);
    let mut next = at;
    'lines: while !text.has(next, CLOSE) {
        let (line, behind) = match line_at(alloc, text, next) {
            Ok(read) => read,
            Err(LineFault::NoLine) => {
                return Err(TraceFault::BadLine(entries.len() as u64 + 1));
            }
            Err(LineFault::Memory) => return Err(TraceFault::Memory),
        };
        match line {
            Line::Entry(entry) => entries.push(entry)?,
            Line::Last(last) => {
                if !text.has(behind, CLOSE) {
                    return Err(TraceFault::BadLine(entries.len() as u64 + 2));
                }
                let trace = Trace {
                    entries: Items::new(entries),
                    last: Some(last),
                };
                return Ok((trace, behind));
            }
        }
        next = behind;
    }
    let trace = Trace {
        entries: Items::new(entries),
        last: None,
    };
    Ok((trace, next))
}

/// Reads all lines of a trace from a place of a text whose tokens these are, up to the `}` that
/// closes them. The answer has the place of this `}` in the list of tokens.
///
/// The error is `BadLine(n)` exactly where n - 1 lines, a last line counted among them, are
/// followed by neither a `}` nor a line that may stand there: the end of the tokens is no line, and
/// no line may stand behind a last line. It is `Memory` where memory runs out.
pub fn read_trace(
    alloc: Global,
    bytes: &[u8],
    tokens: &[Token],
    at: usize,
) -> Result<(Trace, usize), TraceFault>
    requires { Lexes 0 bytes.now tokens.now }
    ensures found { let text = lexemes bytes.now tokens.now in
        IfOk result (λ read.
        IsClosedTrace (drop at text) read.0.entries read.0.last (drop read.1 text)) }
    ensures within { IfOk result (λ read. (at ≤ read.1) × (read.1 < length tokens.now)) }
    ensures bad { (n : ℕ) → result ≡ Err (fault.BadLine n)
        → IsBadLine (drop at (lexemes bytes.now tokens.now)) n }
{
    let text = Lexed::new(bytes, tokens);
    trace_at(alloc, &text, at)
}
