//! The command `format`: files, or standard input, in the layout of bundles.

use aioc_io::{Failed, Sink, Source, StdSource, SureSource, write_all};
use bundle_layout::{LayoutFault, lay_out_tokens};
use bundle_text::read_bundle_with_tokens;
use diagnostics::{Options, Status, explain, read_bytes, refuse};
use dioc_terms::SyntaxFault;
use limits::MOST_BYTES;
use std::alloc::{AllocError, Global};
use std::fs::{File, OpenOptions, Permissions};
use std::io::Write;
use std::rt::Files;
use std::{fs, io};

/// What is done with the text of a file.
#[derive(Clone, Copy)]
enum Aim {
    /// Its layout goes to standard output.
    Print,
    /// Its name goes to standard output where its text isn't in the layout.
    Check,
    /// The file is replaced where its text isn't in the layout.
    Write,
}

/// What the words behind `format` ask for: an aim, and the files.
#[derive(Drop)]
pub struct Wanted<'a> {
    aim: Aim,
    files: Vec<&'a String>,
}

/// The worse of two.
fn worse(one: Status, other: Status) -> Status {
    if one.code() < other.code() {
        other
    } else {
        one
    }
}

/// Writes a text to a new file, with these permissions, and sees that the device has it.
fn fill(opened: &mut File, permissions: Permissions, text: &[u8]) -> io::Result<()> {
    opened.set_permissions(permissions)?;
    opened.write_all(text)?;
    opened.sync_all()
}

/// Replaces a file by one with this text. It is written beside the file and then renamed, so that
/// at each time a whole file has the name; where a step fails, the old one keeps it.
fn replace(rt: &HostRuntime, file: &str, text: &[u8]) -> io::Result<()> {
    let permissions = fs::metadata(rt, file)?.permissions();
    let beside = format!(in rt.alloc(); "{file}.laid-out")?;
    let mut options = OpenOptions::new();
    let mut opened = options
        .write(true)
        .create_new(true)
        .open(rt, beside.as_str())?;
    let mut done = fill(&mut opened, permissions, text);
    if done.is_ok() {
        done = rt.rename(beside.as_str(), file);
    }
    if done.is_err() {
        let _ = rt.remove_file(beside.as_str());
    }
    done
}

/// Tells why the bytes of a file are no bundle.
fn tell_diagnostic<E: Sink>(rt: &HostRuntime, file: &[u8], bytes: Vec<u8>, err: &mut E) -> Status {
    let mut source = SureSource::new(bytes);
    let options = Options {
        json: false,
        trace: false,
    };
    match explain(rt.alloc(), options, file, &mut source, err) {
        Status::Sound | Status::Told => Status::Unusable,
        status => status,
    }
}

/// Does what is wanted with a file whose text is another in its layout, or prints it.
fn finish<O: Sink, E: Sink>(
    rt: &HostRuntime,
    aim: Aim,
    file: &str,
    text: &[u8],
    out: &mut O,
    err: &mut E,
) -> Status {
    match aim {
        Aim::Print => printed(write_all(out, text)),
        Aim::Check => {
            let line = match format!(in rt.alloc(); "{file}\n") {
                Ok(line) => line,
                Err(_) => return Status::Memory,
            };
            worse(Status::Told, printed(write_all(out, line.as_bytes())))
        }
        Aim::Write => match replace(rt, file, text) {
            Ok(()) => Status::Sound,
            Err(_) => refuse(rt.alloc(), file.as_bytes(), b"can't be replaced", err),
        },
    }
}

fn printed(written: Result<(), Failed>) -> Status {
    match written {
        Ok(()) => Status::Sound,
        Err(Failed) => Status::Write,
    }
}

/// Lays out the text of a file.
fn format_text<O: Sink, E: Sink>(
    rt: &HostRuntime,
    aim: Aim,
    file: &str,
    bytes: Vec<u8>,
    out: &mut O,
    err: &mut E,
) -> Status {
    let name = file.as_bytes();
    let tokens = match read_bundle_with_tokens(rt.alloc(), &bytes) {
        Ok((_, tokens)) => tokens,
        Err(SyntaxFault::Memory) => return Status::Memory,
        Err(SyntaxFault::Syntax(_)) => return tell_diagnostic(rt, name, bytes, err),
    };
    let text = match lay_out_tokens(rt.alloc(), &bytes, tokens) {
        Ok(text) => text,
        Err(LayoutFault::Memory) => return Status::Memory,
        Err(_) => return refuse(rt.alloc(), name, b"would be too long in its layout", err),
    };
    match aim {
        Aim::Check | Aim::Write if text == bytes => Status::Sound,
        _ => finish(rt, aim, file, &text, out, err),
    }
}

/// Lays out the text that a source gives for a file.
fn format_source<S: Source, O: Sink, E: Sink>(
    rt: &HostRuntime,
    aim: Aim,
    file: &str,
    source: &mut S,
    out: &mut O,
    err: &mut E,
) -> Status {
    match read_bytes(
        rt.alloc(),
        file.as_bytes(),
        MOST_BYTES,
        b"is too long",
        source,
        err,
    ) {
        Ok(bytes) => format_text(rt, aim, file, bytes, out, err),
        Err(status) => status,
    }
}

fn format_file<O: Sink, E: Sink>(
    rt: &HostRuntime,
    aim: Aim,
    file: &str,
    out: &mut O,
    err: &mut E,
) -> Status {
    match fs::open(rt, file) {
        Ok(opened) => format_source(rt, aim, file, &mut StdSource::new(opened), out, err),
        Err(_) => refuse(rt.alloc(), file.as_bytes(), b"can't be read", err),
    }
}

/// What the words behind the first one ask for, or `None` where they ask for nothing that it does.
pub fn read_wanted<'a>(
    alloc: Global,
    words: &'a [String],
) -> Result<Option<Wanted<'a>>, AllocError> {
    let mut wanted = Wanted {
        aim: Aim::Print,
        files: Vec::new(alloc),
    };
    for word in words.iter().skip(1) {
        match (word.as_str(), wanted.aim) {
            ("--check", Aim::Print) => wanted.aim = Aim::Check,
            ("--write", Aim::Print) => wanted.aim = Aim::Write,
            (name, _) if name.starts_with("-") => return Ok(None),
            _ => wanted.files.push(word)?,
        }
    }
    let is_lone_write = matches!(wanted.aim, Aim::Write) && wanted.files.is_empty();
    Ok(if is_lone_write { None } else { Some(wanted) })
}

/// Lays out the files that are wanted, one after the other, or standard input where there are none.
/// The status is the worst of all.
pub fn format_files<O: Sink, E: Sink>(
    rt: &HostRuntime,
    wanted: &Wanted<'_>,
    out: &mut O,
    err: &mut E,
) -> Status {
    if wanted.files.is_empty() {
        let mut source = StdSource::new(rt.stdin());
        return format_source(rt, wanted.aim, "<stdin>", &mut source, out, err);
    }
    let mut status = Status::Sound;
    for file in &wanted.files {
        status = worse(status, format_file(rt, wanted.aim, file.as_str(), out, err));
    }
    status
}
