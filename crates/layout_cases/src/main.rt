//! The program of cases about layouts: bundles are made and written with all kinds of white space
//! and comments, then laid out, and laid out again.
#![tactic(auto)]

mod loose;

use bundle_layout::{LayoutFault, lay_out};
use bundle_text::{read_bundle, write_bundle};
use dioc_terms::{Memory, SyntaxFault};
use load_gen::make;
use loose::loosen;
use std::alloc::Global;
use std::io;
use std::process::ExitCode;
use thiserror::Error;

const BUNDLES: u64 = 10_000;

/// The most statements of a made bundle.
const MOST_SIZE: u64 = 40;

#[derive(Clone, Copy, Debug, Error)]
enum Problem {
    #[error("a layout is refused")]
    Refused,
    #[error("a layout is laid out in another way")]
    Unstable,
    #[error("a layout is no bundle")]
    Unread,
    #[error("a layout spells another bundle")]
    Other,
    #[error("out of memory")]
    Memory,
}

impl From<Memory> for Problem {
    fn from(_: Memory) -> Problem {
        Problem::Memory
    }
}

impl From<LayoutFault> for Problem {
    fn from(fault: LayoutFault) -> Problem {
        match fault {
            LayoutFault::Memory => Problem::Memory,
            _ => Problem::Refused,
        }
    }
}

impl From<SyntaxFault> for Problem {
    fn from(fault: SyntaxFault) -> Problem {
        match fault {
            SyntaxFault::Memory => Problem::Memory,
            SyntaxFault::Syntax(_) => Problem::Unread,
        }
    }
}

/// Lays out a text, which is written of a bundle with one space between two tokens, but with other
/// white space.
fn try_text(alloc: Global, text: &[u8], seed: u64) -> Result<(), Problem> {
    let loose = loosen(alloc, text, seed)?;
    let once = lay_out(alloc, &loose)?;
    let twice = lay_out(alloc, &once)?;
    if once != twice {
        return Err(Problem::Unstable);
    }
    let bundle = read_bundle(alloc, &once)?;
    let mut again = Vec::new(alloc);
    write_bundle(&bundle, &mut again)?;
    if again.as_slice() != text {
        return Err(Problem::Other);
    }
    Ok(())
}

fn try_bundle(alloc: Global, seed: u64) -> Result<(), Problem> {
    let size = 1 + (seed % MOST_SIZE) as u32;
    let bundle = make(alloc, seed, size)?;
    let mut text = Vec::new(alloc);
    write_bundle(&bundle, &mut text)?;
    try_text(alloc, &text, seed)
}

fn main(rt: HostRuntime) -> io::Result<ExitCode> {
    for seed in 0..BUNDLES {
        if let Err(problem) = try_bundle(rt.alloc(), seed) {
            println!(&rt; "bundle {seed}: {problem}")?;
            return Ok(ExitCode::from(1));
        }
    }
    println!(&rt; "{BUNDLES} bundles")?;
    Ok(ExitCode::from(0))
}
