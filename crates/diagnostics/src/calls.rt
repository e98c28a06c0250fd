//! The calls of the program: from the words of a command line and the bytes of a source to what is
//! told of them.

ghost use Rattle.std.specs.Prelude.{◌≡◌};
ghost use Rattle.diagnostics.specs.Calls.{status_code};

use crate::diagnostic::Diagnostic;
use crate::examining::{examine, examine_trace};
use crate::rendering::{write_json, write_text};
use crate::wording::{Piece, line_of};
use aioc_io::{Failed, ReadAllFault, Sink, Source, read_all, write_all};
use dioc_terms::Memory;
use std::alloc::Global;
use std::str;

/// The most bytes that are read of a file.
pub const MOST_READ: usize = 67_108_864;

/// What a command line asks for.
#[derive(Clone, Copy, Debug, PartialEq, Eq)]
pub enum Command {
    /// To tell what is wrong with a text.
    Explain,
}

/// A command line that was read.
#[derive(Clone, Copy, Debug, PartialEq, Eq)]
pub struct Request {
    pub command: Command,
    /// The number of the word that names the file, or `None` for standard input.
    pub file: Option<usize>,
    /// How it is told, and of what.
    pub options: Options,
}

/// How it is told what is wrong, and of what.
#[derive(Clone, Copy, Debug, PartialEq, Eq)]
pub struct Options {
    /// Whether diagnostics are told as JSON.
    pub json: bool,
    /// Whether the trace section is judged as well.
    pub trace: bool,
}

/// How a call ended.
#[derive(Clone, Copy, Debug, PartialEq, Eq)]
pub enum Status {
    /// Nothing is wrong.
    Sound,
    /// A diagnostic was told.
    Told,
    /// The words, or the file, are none that can be taken; one line told so.
    Unusable,
    /// The sink failed.
    Write,
    /// Memory ran out.
    Memory,
}

impl Status {
    /// The exit code.
    pub fn code(self) -> u8
        ensures { result ≡ status_code self }
    {
        match self {
            Status::Sound => 0,
            Status::Told => 1,
            Status::Unusable => 2,
            Status::Write => 4,
            Status::Memory => 10,
        }
    }
}

/// What the words ask for, `None` where they are none of the program's.
pub fn read_request(words: &[Vec<u8>]) -> Option<Request> {
    let mut request = match words.first() {
        Some(word) if word.as_slice() == b"explain".as_slice() => Request {
            command: Command::Explain,
            file: None,
            options: Options {
                json: false,
                trace: false,
            },
        },
        _ => return None,
    };
    for (number, word) in words.iter().enumerate() {
        if number == 0 {
            continue;
        }
        if word.as_slice() == b"--json".as_slice() && !request.options.json {
            request.options.json = true;
        } else if word.as_slice() == b"--trace".as_slice() && !request.options.trace {
            request.options.trace = true;
        } else if !word.starts_with(b"-") && request.file.is_none() {
            request.file = Some(number);
        } else {
            return None;
        }
    }
    Some(request)
}

/// Writes a line that tells why nothing was done. Where the sink fails, the rest of it is dropped.
pub fn tell<E: Sink>(alloc: Global, pieces: &[Piece<'_>], err: &mut E) {
    if let Ok(line) = line_of(alloc, pieces) {
        match write_all(err, &line) {
            Ok(()) => {}
            Err(Failed) => {}
        }
    }
}

/// Whether bytes are a text: UTF-8 without the byte 0.
fn is_text(bytes: &[u8]) -> bool {
    str::from_utf8(bytes).is_ok() && !bytes.contains(&0)
}

/// Tells one line about a file that can't be taken.
pub fn refuse<'a, E: Sink>(alloc: Global, file: &'a [u8], why: &'a [u8], err: &mut E) -> Status {
    tell(
        alloc,
        &[
            Piece::Bytes(b"aioc-tool: "),
            Piece::Bytes(file),
            Piece::Bytes(b": "),
            Piece::Bytes(why),
            Piece::Bytes(b"\n"),
        ],
        err,
    );
    Status::Unusable
}

/// The bytes that a source gives for a file, or the status where it gives none that can be taken. A
/// source that fails, or gives more than so many bytes, is told of by one line.
pub fn read_bytes<'a, S: Source, E: Sink>(
    alloc: Global,
    file: &'a [u8],
    most: usize,
    too_long: &'a [u8],
    source: &mut S,
    err: &mut E,
) -> Result<Vec<u8>, Status> {
    match read_all(alloc, source, most) {
        Ok(bytes) => Ok(bytes),
        Err(ReadAllFault::Fault) => Err(refuse(alloc, file, b"can't be read", err)),
        Err(ReadAllFault::TooLong) => Err(refuse(alloc, file, too_long, err)),
        Err(ReadAllFault::Memory) => Err(Status::Memory),
    }
}

/// What is told of a diagnostic.
fn rendered(
    alloc: Global,
    json: bool,
    file: &[u8],
    bytes: &[u8],
    diagnostic: &Diagnostic,
) -> Result<Vec<u8>, Memory> {
    let mut text = Vec::new(alloc);
    if json {
        write_json(file, bytes, diagnostic, &mut text)?;
    } else {
        write_text(file, bytes, diagnostic, &mut text)?;
    }
    Ok(text)
}

/// Tells what is wrong with the text of a bundle that the source gives, and with its trace section
/// where the options say so, under the name of a file. Nothing is told where nothing is wrong. A
/// source that fails, gives more than 67,108,864 bytes or no text is told of by one line.
pub fn explain<S: Source, E: Sink>(
    alloc: Global,
    options: Options,
    file: &[u8],
    source: &mut S,
    err: &mut E,
) -> Status {
    let too_long = b"has more than 67108864 bytes";
    let bytes = match read_bytes(alloc, file, MOST_READ, too_long, source, err) {
        Ok(bytes) => bytes,
        Err(status) => return status,
    };
    if !is_text(&bytes) {
        return refuse(alloc, file, b"is no text", err);
    }
    let examined = if options.trace {
        examine_trace(alloc, &bytes)
    } else {
        examine(alloc, &bytes)
    };
    match examined {
        Ok(None) => Status::Sound,
        Ok(Some(diagnostic)) => match rendered(alloc, options.json, file, &bytes, &diagnostic) {
            Ok(text) => match write_all(err, &text) {
                Ok(()) => Status::Told,
                Err(Failed) => Status::Write,
            },
            Err(Memory) => Status::Memory,
        },
        Err(Memory) => Status::Memory,
    }
}
