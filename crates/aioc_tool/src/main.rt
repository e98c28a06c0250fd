//! The program `aioc_tool`: its words, and the files or standard input, go to the call that tells
//! what is wrong with the text of a bundle, or to the one that lays it out.
#![tactic(auto)]

mod format;

use aioc_io::{Sink, StdSink, StdSource};
use diagnostics::{Command, Options, Piece, Request, Status, explain, read_request, refuse, tell};
use format::{format_files, read_wanted};
use std::process::ExitCode;
use std::{env, fs, io};

// The words after the program's name. An error is a word that isn't UTF-8, or that memory ran out.
fn read_words(rt: &HostRuntime) -> io::Result<Vec<String>> {
    let mut words = Vec::new(rt.alloc());
    for word in env::args(rt)?.skip(1) {
        words.push(word)?;
    }
    Ok(words)
}

// Their bytes.
fn bytes_of(rt: &HostRuntime, words: &[String]) -> io::Result<Vec<Vec<u8>>> {
    let mut bytes = Vec::new(rt.alloc());
    for word in words {
        bytes.push(Vec::from_slice(rt.alloc(), word.as_bytes())?)?;
    }
    Ok(bytes)
}

// Tells how to use the program.
fn tell_usage<E: Sink>(rt: &HostRuntime, err: &mut E) -> Status {
    let explain: &[u8] = b"usage: aioc-tool explain [FILE] [--json] [--trace]\n";
    let format: &[u8] = b"       aioc-tool format [FILE..] [--check] [--write]\n";
    tell(
        rt.alloc(),
        &[Piece::Bytes(explain), Piece::Bytes(format)],
        err,
    );
    Status::Unusable
}

// Tells what is wrong with a file.
fn explain_file<E: Sink>(rt: &HostRuntime, options: Options, file: &str, err: &mut E) -> Status {
    let name = file.as_bytes();
    match fs::open(rt, file) {
        Ok(opened) => explain(rt.alloc(), options, name, &mut StdSource::new(opened), err),
        Err(_) => refuse(rt.alloc(), name, b"can't be read", err),
    }
}

// Does what the words ask for.
fn answer<E: Sink>(rt: &HostRuntime, words: &[String], request: Request, err: &mut E) -> Status {
    match request.command {
        Command::Explain => match request.file {
            Some(number) if number < words.len() => {
                explain_file(rt, request.options, words[number].as_str(), err)
            }
            _ => {
                let mut source = StdSource::new(rt.stdin());
                explain(rt.alloc(), request.options, b"<stdin>", &mut source, err)
            }
        },
    }
}

// Whether the words ask for a layout.
fn asks_for_layout(words: &[String]) -> bool {
    match words.first() {
        Some(word) => word.as_str() == "format",
        None => false,
    }
}

// Lays out what the words name.
fn lay_out<E: Sink>(rt: &HostRuntime, words: &[String], err: &mut E) -> Status {
    let mut out = StdSink::new(rt.stdout());
    match read_wanted(rt.alloc(), words) {
        Ok(Some(wanted)) => format_files(rt, &wanted, &mut out, err),
        Ok(None) => tell_usage(rt, err),
        Err(_) => Status::Memory,
    }
}

// Tells what the words ask for.
fn explain_words<E: Sink>(rt: &HostRuntime, words: &[String], err: &mut E) -> Status {
    match bytes_of(rt, words) {
        Ok(bytes) => match read_request(&bytes) {
            Some(request) => answer(rt, words, request, err),
            None => tell_usage(rt, err),
        },
        Err(_) => Status::Memory,
    }
}

fn main(rt: HostRuntime) -> ExitCode {
    let mut err = StdSink::new(rt.stderr());
    let status = match read_words(&rt) {
        Ok(words) if asks_for_layout(&words) => lay_out(&rt, &words, &mut err),
        Ok(words) => explain_words(&rt, &words, &mut err),
        Err(error) if error.kind() == io::ErrorKind::InvalidData => tell_usage(&rt, &mut err),
        Err(_) => Status::Memory,
    };
    ExitCode::from(status.code())
}
