//! A trace, read line by line.

ghost use Rattle.std.specs.Prelude.{◌≡◌, ◌≢◌, ℕ, ◌<◌, ◌≤◌, [], length, Err, IfOk, OnOk, IsErrOf};
ghost use Rattle.aioc_tokens.specs.Tokens.{line_length};
ghost use Rattle.trace_picture.specs.Reading.{LineSays, Adds, AddsLine, Reads, first_line_of, behind_line, IsUnread, StandsBehind, CannotStand, StopsAt};
ghost use Rattle.trace_picture.specs.declared.reading.LineFault.TheVariants as line_fault;
ghost use Rattle.trace_picture.specs.declared.reading.ReadFault.TheVariants as read_fault;

use aioc_tokens::{Lexed, TokenFault, tokens};
use dioc_terms::{Entry, Items, Last, Trace};
use std::alloc::{AllocError, Global};
use thiserror::Error;
use trace_syntax::{TraceFault, trace_at};

/// Why bytes are not read as a trace.
#[derive(Clone, Copy, Debug, PartialEq, Eq, Error)]
pub enum ReadFault {
    /// The line of this number, counted from 1, says nothing that may stand there.
    #[error("line {0}")]
    BadLine(u64),
    /// Memory ran out.
    #[error("out of memory")]
    Memory,
}

/// Why a line is not read.
#[derive(Clone, Copy)]
enum LineFault {
    /// It says nothing of a trace.
    NoLine,
    /// Memory ran out.
    Memory,
}

impl From<AllocError> for LineFault {
    ghost from_gives = { λ _ fault. fault ≡ line_fault.Memory };

    fn from(_error: AllocError) -> LineFault {
        LineFault::Memory
    }
}

/// What a line says.
fn read_line(alloc: Global, line: &[u8]) -> Result<Trace, LineFault>
    ensures ok { IfOk result (λ said. LineSays line.now said.entries said.last) }
    ensures bad { IsErrOf result LineFault.NoLine → IsUnread line.now }
{
    let mut closed = Vec::from_slice(alloc, line)?;
    closed.extend_from_slice(b"\n}")?;
    let found = match tokens(alloc, &closed) {
        Ok(found) => found,
        Err(TokenFault::BadByte(_)) => return Err(LineFault::NoLine),
        Err(TokenFault::Memory) => return Err(LineFault::Memory),
    };
    let text = Lexed::new(&closed, &found);
    let (trace, at) = match trace_at(alloc, &text, 0) {
        Ok(read) => read,
        Err(TraceFault::BadLine(_)) => return Err(LineFault::NoLine),
        Err(TraceFault::Memory) => return Err(LineFault::Memory),
    };
    if at + 1 < text.len() {
        return Err(LineFault::NoLine);
    }
    Ok(trace)
}

/// How many bytes stand before the next line feed, or before the end.
fn line_length(text: &[u8]) -> usize
    ensures value { result ≡ line_length text.now }
    ensures within { result ≤ length text.now }
{
    text.iter().take_while(|byte| **byte != b'\n').count()
}

/// The first line of a text.
fn first_line_of(text: &[u8]) -> &[u8]
    ensures { result.now ≡ first_line_of text.now }
{
    &text[..line_length(text)]
}

/// What stands behind the first line of a text.
fn behind_line(text: &[u8]) -> &[u8]
    ensures value { result.now ≡ behind_line text.now }
    ensures shorter { text.now ≢ [] → length result.now < length text.now }
{
    let length = line_length(text);
    if length < text.len() {
        &text[length + 1..]
    } else {
        &text[text.len()..]
    }
}

/// Adds what a line says to what was said before it.
fn add_said(entries: &mut Vec<Entry>, last: &mut Option<Last>, said: Trace) -> Result<(), LineFault>
    ensures ok { OnOk result (Adds entries.old.items last.old said.entries said.last
        entries.new.items last.new) }
    ensures bad { IsErrOf result LineFault.NoLine
        → StandsBehind last.old said.entries said.last }
{
    if last.is_some() {
        if !said.entries.is_empty() || said.last.is_some() {
            return Err(LineFault::NoLine);
        }
        return Ok(());
    }
    let mut more = said.entries.into_vec();
    entries.append(&mut more)?;
    *last = said.last;
    Ok(())
}

/// Adds what the first line of a text says to what was said before it.
fn next_line(
    alloc: Global,
    text: &[u8],
    entries: &mut Vec<Entry>,
    last: &mut Option<Last>,
) -> Result<(), LineFault>
    ensures ok { OnOk result (AddsLine (first_line_of text.now) entries.old.items last.old
        entries.new.items last.new) }
    ensures bad { IsErrOf result LineFault.NoLine
        → CannotStand (first_line_of text.now) last.old }
{
    let said = read_line(alloc, first_line_of(text))?;
    add_said(entries, last, said)
}

/// Reads a trace, as `aioc step` prints it: in each line an entry, and in the last one the last
/// line, where there is one. Blank lines and comments say nothing.
///
/// The error is `BadLine(n)` only where the lines before line n, counted from 1, are that and line
/// n may not stand behind them, and `Memory` where memory runs out.
pub fn read_trace_text(alloc: Global, text: &[u8]) -> Result<Trace, ReadFault>
    ensures ok { IfOk result (λ trace. Reads text.now trace.entries trace.last) }
    ensures bad { (n : ℕ) → result ≡ Err (read_fault.BadLine n) → StopsAt text.now n }
{
    let mut entries = Vec::new(alloc);
    let mut last = None;
    let mut rest = text;
    let mut number = 0;
    while rest.len() > 0 {
        number += 1;
        match next_line(alloc, rest, &mut entries, &mut last) {
            Ok(()) => {}
            Err(LineFault::NoLine) => return Err(ReadFault::BadLine(number)),
            Err(LineFault::Memory) => return Err(ReadFault::Memory),
        }
        rest = behind_line(rest);
    }
    Ok(Trace {
        entries: Items::new(entries),
        last,
    })
}
