//! The program `aioc`: its words, standard input, standard output and standard error go to the top
//! call.
#![tactic(auto)]

use aioc_io::{StdSink, StdSource};
use aioc_top::{Status, serve};
use role_runner::OpenGate;
use std::process::ExitCode;
use std::{env, io};

// The bytes of the words after the program's name. Where one of them isn't UTF-8, `env::args` gives
// none, and the answer is no words at all: these are no command either, so `serve` says how to use
// the program. The one error is that memory ran out.
fn read_words(rt: &HostRuntime) -> io::Result<Vec<Vec<u8>>> {
    let mut words = Vec::new(rt.alloc());
    match env::args(rt) {
        Ok(args) => {
            for word in args.skip(1) {
                words.push(word.into_bytes())?;
            }
            Ok(words)
        }
        Err(error) if error.kind() == io::ErrorKind::InvalidData => Ok(words),
        Err(error) => Err(error),
    }
}

fn main(rt: HostRuntime) -> ExitCode {
    let status = match read_words(&rt) {
        Ok(words) => {
            let mut source = StdSource::new(rt.stdin());
            let mut out = StdSink::new(rt.stdout());
            let mut err = StdSink::new(rt.stderr());
            serve(
                &rt,
                rt.alloc(),
                &words,
                &mut source,
                &mut out,
                &mut err,
                &OpenGate,
            )
        }
        Err(_) => Status::Memory,
    };
    ExitCode::from(status.code())
}
