//! The program `aioc_diagram`: its words, standard input and standard output go to the call that
//! draws a trace; standard error gets the one line of why not.
#![tactic(auto)]

use aioc_io::{StdSink, StdSource};
use std::process::ExitCode;
use std::{env, io};
use trace_picture::{DrawFault, draw, tell};

// The bytes of the words after the program's name. An error is a word that isn't UTF-8, or that
// memory ran out.
fn read_words(rt: &HostRuntime) -> io::Result<Vec<Vec<u8>>> {
    let alloc = rt.alloc();
    let mut words = Vec::new(alloc);
    for word in env::args(rt)?.skip(1) {
        words.push(word.into_bytes())?;
    }
    Ok(words)
}

fn main(rt: HostRuntime) -> ExitCode {
    let alloc = rt.alloc();
    let drawn = match read_words(&rt) {
        Ok(words) => {
            let mut source = StdSource::new(rt.stdin());
            let mut out = StdSink::new(rt.stdout());
            draw(alloc, &words, &mut source, &mut out)
        }
        Err(error) if error.kind() == io::ErrorKind::InvalidData => Err(DrawFault::Usage),
        Err(_) => Err(DrawFault::Memory),
    };
    match drawn {
        Ok(()) => ExitCode::from(0),
        Err(fault) => {
            let mut err = StdSink::new(rt.stderr());
            ExitCode::from(tell(alloc, fault, &mut err))
        }
    }
}
