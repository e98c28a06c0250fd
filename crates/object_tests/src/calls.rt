//! The top call over devices in memory.

ghost use Rattle.std.specs.Prelude.{◌≤◌};

use aioc_io::{MemSink, MemSource};
use aioc_top::{Status, is_threaded, serve_alone};
use role_runner::Gate;
use std::alloc::{AllocError, Global};
use std::sync::Wait;
use std::thread::Threads;

/// How a call ended, and what `out` took.
#[derive(Drop)]
pub struct Outcome {
    pub status: Status,
    pub text: Vec<u8>,
}

/// The top call with these words over this input, and devices that move at most `most` bytes a
/// call; or that memory was refused to the devices. Words for threads aren't tried here.
pub fn serve(
    alloc: Global,
    words: &[&str],
    input: &[u8],
    most: usize,
) -> Result<Outcome, AllocError>
    requires { 1 ≤ most }
{
    let given = copy_words(alloc, words)?;
    if is_threaded(&given) {
        return Err(AllocError);
    }
    let mut source = MemSource::new(input.to_vec(alloc)?, most, Vec::new(alloc));
    let mut out = MemSink::new(alloc, most, Vec::new(alloc));
    let mut err = MemSink::new(alloc, most, Vec::new(alloc));
    let status = serve_alone(alloc, &given, &mut source, &mut out, &mut err);
    Ok(Outcome {
        status,
        text: out.taken().to_vec(alloc)?,
    })
}

/// The same of the call that may start threads, which pass the gate.
pub fn serve_threaded<R: Threads + Wait + Sync, G: Gate + Sync>(
    rt: &R,
    alloc: Global,
    words: &[&str],
    input: &[u8],
    most: usize,
    gate: &G,
) -> Result<Outcome, AllocError>
    requires { 1 ≤ most }
{
    let given = copy_words(alloc, words)?;
    let mut source = MemSource::new(input.to_vec(alloc)?, most, Vec::new(alloc));
    let mut out = MemSink::new(alloc, most, Vec::new(alloc));
    let mut err = MemSink::new(alloc, most, Vec::new(alloc));
    let status = aioc_top::serve(rt, alloc, &given, &mut source, &mut out, &mut err, gate);
    Ok(Outcome {
        status,
        text: out.taken().to_vec(alloc)?,
    })
}

fn copy_words(alloc: Global, words: &[&str]) -> Result<Vec<Vec<u8>>, AllocError> {
    let mut given = Vec::new(alloc);
    for word in words {
        given.push(word.as_bytes().to_vec(alloc)?)?;
    }
    Ok(given)
}
