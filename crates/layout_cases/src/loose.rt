//! Other white space and comments between the tokens of a text.

use dioc_terms::Memory;
use std::alloc::Global;

/// The next number of a sequence that begins with a seed.
fn next(state: u64) -> u64 {
    state
        .wrapping_mul(6_364_136_223_846_793_005)
        .wrapping_add(1_442_695_040_888_963_407)
}

/// White space, with or without a comment, for a number; most often one space.
fn blank(number: u64) -> &'static [u8] {
    match number % 64 {
        0 => b"\n",
        1 => b"\n\n",
        2 => b" \n\n\t\r\n ",
        3 => b" // a comment\n",
        4 => b"\n// a \"comment\"; { on\n  ",
        5 => b"\n\n\n//\n// two lines \n\n\n",
        6 => b"  ",
        _ => b" ",
    }
}

/// A text in which white space stands for each space that is in no quotes. Each seed gives another
/// one.
pub fn loosen(alloc: Global, text: &[u8], seed: u64) -> Result<Vec<u8>, Memory> {
    let mut loose = Vec::with_capacity(alloc, text.len())?;
    let mut state = next(seed);
    let mut is_quoted = false;
    for byte in text {
        if *byte == b'"' {
            is_quoted = !is_quoted;
        }
        if *byte == b' ' && !is_quoted {
            state = next(state);
            loose.extend_from_slice(blank(state >> 32))?;
        } else {
            loose.push(*byte)?;
        }
    }
    Ok(loose)
}
