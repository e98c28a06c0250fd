//! The top call over devices in memory.

ghost use Rattle.std.specs.Prelude.{◌≤◌};

use aioc_io::{MemSink, MemSource, Source};
use aioc_top::{is_threaded, serve_alone};
use case_tables::Problem;
use role_runner::OpenGate;
use std::alloc::Global;
use std::sync::Wait;
use std::thread::Threads;

// The most bytes that one call of a usual device moves.
const PIECE: usize = 65_536;

/// How the calls of a device go: each moves at most `most` bytes, and the one whose number is
/// `fails` fails, where the first has the number 1.
#[derive(Clone, Copy)]
pub struct Course {
    most: usize,
    fails: u64,
    ghost moves: { 1 ≤ most },
}

impl Course {
    /// No call fails, and each moves many bytes.
    pub fn usual() -> Course {
        Course {
            most: PIECE,
            fails: 0,
        }
    }

    /// Each call moves at most so many bytes, or one where that is none.
    pub fn in_pieces(self, most: usize) -> Course {
        Course {
            most: most.max(1),
            fails: self.fails,
        }
    }

    /// The call of this number fails.
    pub fn failing(self, number: usize) -> Course {
        Course {
            most: self.most,
            fails: number as u64,
        }
    }
}

/// How the source and the two sinks of a call go.
#[derive(Clone, Copy)]
pub struct Devices {
    pub source: Course,
    pub out: Course,
    pub err: Course,
}

impl Devices {
    /// No call fails.
    pub fn usual() -> Devices {
        Devices {
            source: Course::usual(),
            out: Course::usual(),
            err: Course::usual(),
        }
    }
}

/// How a call of the program went: its exit code, and what the two sinks took.
#[derive(Drop)]
pub struct Outcome {
    pub code: u8,
    pub out: Vec<u8>,
    pub err: Vec<u8>,
}

/// The top call with these words, over a source of this text.
pub fn serve(
    alloc: Global,
    words: &[Vec<u8>],
    text: &[u8],
    devices: &Devices,
) -> Result<Outcome, Problem> {
    let mut source = source_of(alloc, text, devices.source)?;
    serve_from(alloc, words, &mut source, devices)
}

/// The top call with these words, over a source of its own and the two sinks.
pub fn serve_from<S: Source>(
    alloc: Global,
    words: &[Vec<u8>],
    source: &mut S,
    devices: &Devices,
) -> Result<Outcome, Problem> {
    if is_threaded(words) {
        return Err(Problem::Bad("such words want the call `serve`"));
    }
    let mut out = sink_of(alloc, devices.out)?;
    let mut err = sink_of(alloc, devices.err)?;
    let status = serve_alone(alloc, words, source, &mut out, &mut err);
    Ok(Outcome {
        code: status.code(),
        out: out.taken().to_vec(alloc)?,
        err: err.taken().to_vec(alloc)?,
    })
}

/// The top call that may start threads, over a source of this text.
pub fn serve_threaded<R: Threads + Wait + Sync>(
    rt: &R,
    alloc: Global,
    words: &[Vec<u8>],
    text: &[u8],
) -> Result<Outcome, Problem> {
    let mut source = source_of(alloc, text, Course::usual())?;
    let mut out = sink_of(alloc, Course::usual())?;
    let mut err = sink_of(alloc, Course::usual())?;
    let status = aioc_top::serve(rt, alloc, words, &mut source, &mut out, &mut err, &OpenGate);
    Ok(Outcome {
        code: status.code(),
        out: out.taken().to_vec(alloc)?,
        err: err.taken().to_vec(alloc)?,
    })
}

fn source_of(alloc: Global, text: &[u8], course: Course) -> Result<MemSource, Problem> {
    let fails = [course.fails].to_vec(alloc)?;
    Ok(MemSource::new(text.to_vec(alloc)?, course.most, fails))
}

fn sink_of(alloc: Global, course: Course) -> Result<MemSink, Problem> {
    let fails = [course.fails].to_vec(alloc)?;
    Ok(MemSink::new(alloc, course.most, fails))
}
