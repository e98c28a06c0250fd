//! The lines of a trace, and the words in them.

ghost use Rattle.std.specs.Prelude.{◌≡◌};
ghost use Rattle.trace_syntax.specs.Words.{line_word_of, auxiliary_of};
ghost use Rattle.trace_syntax.specs.declared.words.LineFault.TheVariants.{Memory as line_memory};
ghost use Rattle.trace_syntax.specs.declared.words.TraceFault.TheVariants.{Memory as trace_memory};

use dioc_terms::{Entry, Index, Last, Memory, Name, Role, Tag, Value};
use std::alloc::AllocFailed;
use thiserror::Error;

/// A line of a trace.
#[derive(Drop)]
pub enum Line {
    /// The line of an entry.
    Entry(Entry),
    /// The last line.
    Last(Last),
}

/// Why tokens are not read as the lines of a trace.
#[derive(Clone, Copy, Debug, PartialEq, Eq, Error)]
pub enum TraceFault {
    /// The line of this number, counted from 1, is no line that may stand there. A last line
    /// counts; the end of the tokens is no line, and no line may stand behind a last one.
    #[error("line {0} is no line of a trace")]
    BadLine(u64),
    /// Memory ran out.
    #[error("out of memory")]
    Memory,
}

/// Why a part of a line is not read.
#[derive(Clone, Copy)]
pub enum LineFault {
    /// It doesn't stand there.
    NoLine,
    /// Memory ran out.
    Memory,
}

/// A part of a line that was read with the place behind it, or why it isn't read.
pub type ReadPart<T> = Result<(T, usize), LineFault>;

/// What a line says that sets a variable.
#[derive(Drop)]
pub struct Setting {
    pub index: Index,
    pub role: Role,
    pub var: Name,
    pub value: Value,
}

/// A word that begins a line and isn't reserved.
#[derive(Clone, Copy)]
pub enum LineWord {
    Put,
    Take,
    Set,
    Pick,
    Add,
    Drop,
    Env,
    Ended,
    Stopped,
}

/// The word that begins a line and has this spelling.
#[tactic(auto, unfolding(crate::specs::Words::line_word_of))]
pub fn find_line_word(bytes: &[u8]) -> Option<LineWord>
    ensures { result ≡ line_word_of bytes.now }
{
    if bytes == b"put".as_slice() {
        Some(LineWord::Put)
    } else if bytes == b"take".as_slice() {
        Some(LineWord::Take)
    } else if bytes == b"set".as_slice() {
        Some(LineWord::Set)
    } else if bytes == b"pick".as_slice() {
        Some(LineWord::Pick)
    } else if bytes == b"add".as_slice() {
        Some(LineWord::Add)
    } else if bytes == b"drop".as_slice() {
        Some(LineWord::Drop)
    } else if bytes == b"env".as_slice() {
        Some(LineWord::Env)
    } else if bytes == b"ended".as_slice() {
        Some(LineWord::Ended)
    } else if bytes == b"stopped".as_slice() {
        Some(LineWord::Stopped)
    } else {
        None
    }
}

/// The auxiliary tag of this word.
#[tactic(auto, unfolding(crate::specs::Words::auxiliary_of))]
pub fn find_auxiliary(bytes: &[u8]) -> Option<Tag>
    ensures { result ≡ auxiliary_of bytes.now }
{
    if bytes == b"choice".as_slice() {
        Some(Tag::Choice)
    } else if bytes == b"go".as_slice() {
        Some(Tag::Go)
    } else if bytes == b"turn".as_slice() {
        Some(Tag::Turn)
    } else if bytes == b"begin".as_slice() {
        Some(Tag::Begin)
    } else if bytes == b"end".as_slice() {
        Some(Tag::End)
    } else if bytes == b"out".as_slice() {
        Some(Tag::Out)
    } else {
        None
    }
}

impl From<Memory> for LineFault {
    ghost from_gives = { λ _ fault. fault ≡ line_memory };

    fn from(_error: Memory) -> LineFault {
        LineFault::Memory
    }
}

impl<T: Drop> From<AllocFailed<T>> for TraceFault {
    ghost from_gives = { λ _ fault. fault ≡ trace_memory };

    fn from(_error: AllocFailed<T>) -> TraceFault {
        TraceFault::Memory
    }
}
