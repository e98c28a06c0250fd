//! The program of cases about commands: what the top call does.
#![tactic(auto)]

mod calls;
mod devices;
mod endless;

use aioc_io::{StdSink, StdSource};
use case_tables::{Case, answer_lines, answer_source};
use std::alloc::Global;
use std::io;
use std::process::ExitCode;

fn main(rt: HostRuntime) -> io::Result<ExitCode> {
    let mut source = StdSource::new(rt.stdin());
    let mut out = StdSink::new(rt.stdout());
    let answer = |alloc: Global, case: &Case| answer_lines(alloc, calls::answer(&rt, alloc, case));
    match answer_source(rt.alloc(), &answer, &mut source, &mut out) {
        Ok(()) => Ok(ExitCode::from(0)),
        Err(why) => {
            eprintln!(&rt; "{why}")?;
            Ok(ExitCode::from(1))
        }
    }
}
