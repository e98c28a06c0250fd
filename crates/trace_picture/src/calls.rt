//! The call of the program: from the words of a command line and the bytes of a source to a
//! picture in a sink, or one line of why not.

ghost use Rattle.std.specs.Prelude.{◌≡◌, ◌≢◌, ℕ, ◌↔◌, Err, IfErr, IfOk, IsErrOf, None, OnOk};
ghost use Rattle.aioc_io.specs.Faults.{Rose};
ghost use Rattle.aioc_io.specs.Sink.{SaysLine};
ghost use Rattle.trace_picture.specs.Calls.{style_named, style_of, bytes_of_words, fault_code, fault_line, BreaksOff, DrawingStops, Draws, HasManyEntries, IsTooLong, Made, NamesManyRoles, OfSource, Tells};
ghost use Rattle.trace_picture.specs.Reading.{StopsAt};
ghost use Rattle.trace_picture.specs.declared.calls.DrawFault.TheVariants as draw_fault;

use crate::drawing::{PictureFault, Style, write_picture};
use crate::reading::{ReadFault, read_trace_text};
use aioc_io::{Failed, ReadAllFault, Sink, Source, read_all, write_all};
use dioc_terms::Memory;
use std::alloc::Global;
use text_pieces::{write_bytes, write_number};
use thiserror::Error;

/// The most bytes of a trace's text.
pub const MOST_TRACE_BYTES: usize = 67_108_864;

/// Why no picture is drawn.
#[derive(Clone, Copy, Debug, PartialEq, Eq, Error)]
pub enum DrawFault {
    /// The words are neither none nor one of the two options.
    #[error("usage: aioc_diagram [--mermaid | --svg]")]
    Usage,
    /// The source failed.
    #[error("read fault")]
    Read,
    /// The sink failed.
    #[error("write fault")]
    Write,
    /// The source gave more than 67,108,864 bytes, or the trace has more than 1,000,000 entries.
    #[error("too long")]
    TooLong,
    /// The line of this number, counted from 1, is no line of a trace.
    #[error("syntax: line {0}")]
    BadLine(u64),
    /// The trace names more than 32 roles.
    #[error("refused: too many roles")]
    TooManyRoles,
    /// Memory ran out.
    #[error("out of memory")]
    Memory,
}

impl DrawFault {
    /// The exit code: of the same causes the same as those of `aioc`.
    pub fn code(self) -> u8
        ensures { result ≡ fault_code self }
    {
        match self {
            DrawFault::Usage => 2,
            DrawFault::Read => 3,
            DrawFault::Write => 4,
            DrawFault::TooLong => 5,
            DrawFault::BadLine(_) => 6,
            DrawFault::TooManyRoles => 7,
            DrawFault::Memory => 10,
        }
    }
}

fn find_style(word: &[u8]) -> Option<Style>
    ensures { result ≡ style_named word.now }
{
    if word == b"--mermaid".as_slice() {
        Some(Style::Mermaid)
    } else if word == b"--svg".as_slice() {
        Some(Style::Svg)
    } else {
        None
    }
}

/// The style that the words ask for.
fn style_of(words: &[Vec<u8>]) -> Option<Style>
    ensures { result ≡ style_of (bytes_of_words words.now) }
{
    match words {
        [] => Some(Style::Terminal),
        [word] => find_style(word),
        _ => None,
    }
}

/// The picture of the trace that a text says.
fn made(alloc: Global, style: Style, text: &[u8]) -> Result<Vec<u8>, DrawFault>
    ensures ok { IfOk result (λ drawn. Made style text.now drawn.items) }
    ensures no_usage { IfErr result (λ fault. fault ≢ DrawFault.Usage) }
    ensures no_read { IfErr result (λ fault. fault ≢ DrawFault.Read) }
    ensures no_write { IfErr result (λ fault. fault ≢ DrawFault.Write) }
    ensures too_long { IsErrOf result DrawFault.TooLong → HasManyEntries text.now }
    ensures roles { IsErrOf result DrawFault.TooManyRoles → NamesManyRoles text.now }
    ensures bad { (n : ℕ) → result ≡ Err (draw_fault.BadLine n) → StopsAt text.now n }
{
    let trace = match read_trace_text(alloc, text) {
        Ok(trace) => trace,
        Err(ReadFault::BadLine(number)) => return Err(DrawFault::BadLine(number)),
        Err(ReadFault::Memory) => return Err(DrawFault::Memory),
    };
    let mut drawn = Vec::new(alloc);
    match write_picture(
        alloc,
        style,
        trace.entries.as_slice(),
        &trace.last,
        &mut drawn,
    ) {
        Ok(()) => Ok(drawn),
        Err(PictureFault::TooManyEntries) => Err(DrawFault::TooLong),
        Err(PictureFault::TooManyRoles) => Err(DrawFault::TooManyRoles),
        Err(PictureFault::Memory) => Err(DrawFault::Memory),
    }
}

/// Reads a trace from the source, and writes its picture into the sink.
///
/// Words are none for a picture in plain text, or one: `--mermaid` or `--svg`; others are `Usage`,
/// and nothing is read. `Read` and `Write` come only where the device counted a fault: after
/// `Write` the sink has a part of the picture, and after any other error nothing was written.
/// `TooLong` comes only of more than 67,108,864 bytes or more than 1,000,000 entries,
/// `TooManyRoles` only of more than 32 roles in no more entries, and `BadLine(n)` only where line n
/// of the source's text may not stand where it stands.
pub fn draw<S: Source, O: Sink>(
    alloc: Global,
    words: &[Vec<u8>],
    source: &mut S,
    out: &mut O,
) -> Result<(), DrawFault>
    ensures drawn { OnOk result (Draws (bytes_of_words words.now) (S.state source.old).left
        (O.state out.old).taken (O.state out.new).taken) }
    ensures silent { IfErr result (λ fault. fault ≢ DrawFault.Write
        → O.state out.new ≡ O.state out.old) }
    ensures usage { IsErrOf result DrawFault.Usage ↔ (style_of (bytes_of_words words.now) ≡ None) }
    ensures unread { IsErrOf result DrawFault.Usage → S.state source.new ≡ S.state source.old }
    ensures read_fault { IsErrOf result DrawFault.Read
        → Rose (S.state source.old).faults (S.state source.new).faults }
    ensures write_fault { IsErrOf result DrawFault.Write → BreaksOff (bytes_of_words words.now)
        (S.state source.old).left (O.state out.old) (O.state out.new) }
    ensures too_long { IsErrOf result DrawFault.TooLong → IsTooLong (S.state source.old).left }
    ensures too_many { IsErrOf result DrawFault.TooManyRoles
        → OfSource (S.state source.old).left NamesManyRoles }
    ensures bad { (n : ℕ) → result ≡ Err (draw_fault.BadLine n)
        → DrawingStops (S.state source.old).left n }
{
    let style = match style_of(words) {
        Some(style) => style,
        None => return Err(DrawFault::Usage),
    };
    let text = match read_all(alloc, source, MOST_TRACE_BYTES) {
        Ok(text) => text,
        Err(ReadAllFault::Fault) => return Err(DrawFault::Read),
        Err(ReadAllFault::TooLong) => return Err(DrawFault::TooLong),
        Err(ReadAllFault::Memory) => return Err(DrawFault::Memory),
    };
    let drawn = made(alloc, style, &text)?;
    match write_all(out, &drawn) {
        Ok(()) => Ok(()),
        Err(Failed) => Err(DrawFault::Write),
    }
}

/// The line that tells that a line of the trace may not stand where it stands.
fn bad_line(alloc: Global, number: u64) -> Result<Vec<u8>, Memory>
    ensures { IfOk result (λ line. line.items ≡ fault_line (draw_fault.BadLine number)) }
{
    let mut line = Vec::new(alloc);
    write_bytes(b"syntax: line ", &mut line)?;
    write_number(number, &mut line)?;
    write_bytes(b"\n", &mut line)?;
    Ok(line)
}

/// Writes a line. Where the sink fails, the rest of it is dropped.
fn say<E: Sink>(line: &[u8], err: &mut E)
    ensures { SaysLine (E.state err.old) (E.state err.new) line.now }
{
    match write_all(err, line) {
        Ok(()) => {}
        Err(Failed) => {}
    }
}

/// Writes the line that tells a fault.
fn write_told<E: Sink>(alloc: Global, fault: DrawFault, err: &mut E)
    ensures { Tells fault (E.state err.old) (E.state err.new) }
{
    match fault {
        DrawFault::Usage => say(b"usage: aioc_diagram [--mermaid | --svg]\n", err),
        DrawFault::Read => say(b"read fault\n", err),
        DrawFault::Write => say(b"write fault\n", err),
        DrawFault::TooLong => say(b"too long\n", err),
        DrawFault::BadLine(number) => match bad_line(alloc, number) {
            Ok(line) => say(&line, err),
            Err(Memory) => {}
        },
        DrawFault::TooManyRoles => say(b"refused: too many roles\n", err),
        DrawFault::Memory => say(b"out of memory\n", err),
    }
}

/// Writes the line that tells a fault, and answers the exit code. A fault of the sink changes
/// nothing. Of `BadLine` nothing is written where memory runs out; the other lines take none.
pub fn tell<E: Sink>(alloc: Global, fault: DrawFault, err: &mut E) -> u8
    ensures code { result ≡ fault_code fault }
    ensures line { Tells fault (E.state err.old) (E.state err.new) }
{
    write_told(alloc, fault, err);
    fault.code()
}
