//! Where the lines of a trace section stand in a text.

ghost use Rattle.std.specs.Prelude.{◌≡◌, IfOk, IfSome};
ghost use Rattle.diagnostics.specs.Traces.{IsLineAt};

use aioc_tokens::{Lexed, Punctuator, Sort, Word};
use dioc_terms::Memory;
use std::alloc::Global;
use trace_text::{TraceFault, trace_at};

/// Whether this symbol stands at a place.
fn is_symbol(text: &Lexed<'_>, at: usize, wanted: Punctuator) -> bool {
    match text.sort(at) {
        Sort::Symbol(found) => found == wanted,
        _ => false,
    }
}

/// Whether a section may begin at a place: the text begins there, or a section or the version of
/// the bundle ends before it.
fn may_begin(text: &Lexed<'_>, at: usize) -> bool {
    if at == 0 {
        return true;
    }
    matches!(
        text.sort(at - 1),
        Sort::Symbol(Punctuator::RightBrace) | Sort::Number
    )
}

/// Whether the section of the trace begins at a place.
fn is_trace(text: &Lexed<'_>, at: usize) -> bool {
    let is_word = match text.sort(at) {
        Sort::Name => text.name(at) == b"trace".as_slice(),
        _ => false,
    };
    is_word && is_symbol(text, at.saturating_add(1), Punctuator::LeftBrace) && may_begin(text, at)
}

/// The place of the first line of the trace section, or of the `}` that closes it.
fn first_line(text: &Lexed<'_>) -> Option<usize> {
    for at in 0..text.len() {
        if is_trace(text, at) {
            return Some(at.saturating_add(2));
        }
    }
    None
}

/// How many tokens a value has.
fn value_length(text: &Lexed<'_>, at: usize) -> usize {
    if is_symbol(text, at, Punctuator::Minus) {
        2
    } else {
        1
    }
}

/// How many tokens the line has that begins at a place and ends with a value behind so many others.
fn length_with_value(text: &Lexed<'_>, at: usize, front: usize) -> usize {
    value_length(text, at.saturating_add(front)).saturating_add(front)
}

/// How many tokens the payload of a message has.
fn note_length(text: &Lexed<'_>, at: usize) -> usize {
    match text.sort(at) {
        Sort::Name if text.name(at) == b"part".as_slice() => 2,
        _ => value_length(text, at),
    }
}

/// How many tokens stand at the front of a put that begins at a place, up to its payload: an
/// auxiliary tag has one more than an operation.
fn front_of_put(text: &Lexed<'_>, at: usize) -> usize {
    if is_symbol(text, at.saturating_add(4), Punctuator::Bang) {
        11
    } else {
        10
    }
}

/// How many tokens the line has that begins at a place with this name. A take has the same number
/// with each tag: an operation has a variable, and an auxiliary tag a `!`.
fn named_length(text: &Lexed<'_>, at: usize, name: &[u8]) -> usize {
    match name {
        b"put" => {
            let front = front_of_put(text, at);
            front.saturating_add(note_length(text, at.saturating_add(front)))
        }
        b"take" => 10,
        b"set" => length_with_value(text, at, 9),
        b"pick" => 7,
        b"env" => length_with_value(text, at, 3),
        _ => 2,
    }
}

/// How many tokens the line has that begins at a place.
fn line_length(text: &Lexed<'_>, at: usize) -> usize {
    match text.sort(at) {
        Sort::Name => named_length(text, at, text.name(at)),
        Sort::Reserved(Word::Input) => length_with_value(text, at, 9),
        Sort::Reserved(Word::Scope) => match text.sort(at.saturating_add(6)) {
            Sort::Reserved(Word::Rule) => 10,
            _ => 7,
        },
        _ => 1,
    }
}

/// The place of the line behind so many lines of the trace section, and the place behind it.
fn line_behind(text: &Lexed<'_>, lines: usize) -> Option<(usize, usize)> {
    let mut at = first_line(text)?;
    for _ in 0..lines {
        at = at.saturating_add(line_length(text, at));
    }
    Some((at, at.saturating_add(line_length(text, at))))
}

/// The place of the line behind so many lines of the trace section, where as many entries as `left`
/// stand from there on, and the place behind that line.
pub(crate) fn find_line(
    alloc: Global,
    text: &Lexed<'_>,
    lines: usize,
    left: usize,
) -> Result<Option<(usize, usize)>, Memory>
    ensures { IfOk result (λ found. IfSome found (λ line. IsLineAt text.now left line.0)) }
{
    let (at, behind) = match line_behind(text, lines) {
        Some(line) => line,
        None => return Ok(None),
    };
    match trace_at(alloc, text, at) {
        Ok((trace, _)) if trace.entries.len() == left => Ok(Some((at, behind))),
        Ok(_) | Err(TraceFault::BadLine(_)) => Ok(None),
        Err(TraceFault::Memory) => Err(Memory),
    }
}
