//! The bytes that a written text of the table stands for.
//!
//! A byte stands for itself, but for the backtick. Between two backticks stand either bytes in
//! hexadecimal digits, as `0A` or `C3A9`, or a number, a `*` and bytes that are repeated so often,
//! as `512*(`. With a `#` for the `*` each `#` in the repeated bytes stands for the number of the
//! repetition, from 0: `2#r#;` is `r0;r1;`.

ghost use Rattle.std.specs.Prelude.{◌<◌, IfOk};

use crate::problems::Problem;
use std::alloc::Global;
use text_pieces::write_number;

/// The most bytes of one text.
pub const TEXT_LIMIT: usize = 8_388_608;

// The most numbers of one repetition.
const NUMBERED_LIMIT: usize = 10_000;

/// The bytes that a written text stands for.
pub fn expand(alloc: Global, written: &[u8]) -> Result<Vec<u8>, Problem> {
    let mut out = Vec::new(alloc);
    expand_into(written, &mut out)?;
    Ok(out)
}

/// Appends the bytes that a written text stands for.
pub fn expand_into(written: &[u8], out: &mut Vec<u8>) -> Result<(), Problem> {
    let mut is_piece = false;
    for part in written.split(|byte| *byte == b'`') {
        if is_piece {
            expand_piece(part, out)?;
        } else {
            append(part, out)?;
        }
        is_piece = !is_piece;
    }
    if is_piece {
        Ok(())
    } else {
        Err(Problem::Bad("a backtick has no partner"))
    }
}

// What stands between two backticks.
fn expand_piece(piece: &[u8], out: &mut Vec<u8>) -> Result<(), Problem> {
    match piece.iter().position(|byte| *byte == b'*' || *byte == b'#') {
        Some(mark) => {
            let count = read_number(&piece[..mark])?;
            let repeated = &piece[mark + 1..];
            if piece[mark] == b'*' {
                append_times(repeated, count, out)
            } else {
                append_numbered(repeated, count, out)
            }
        }
        None => append_hexadecimal(piece, out),
    }
}

fn append_times(bytes: &[u8], count: usize, out: &mut Vec<u8>) -> Result<(), Problem> {
    if bytes.is_empty() {
        return Ok(());
    }
    // (before any of them is appended)
    if count.saturating_mul(bytes.len()) > TEXT_LIMIT {
        return Err(Problem::Bad("the text is too long"));
    }
    for _ in 0..count {
        append(bytes, out)?;
    }
    Ok(())
}

// The bytes so often, with the number of the repetition for each `#`.
fn append_numbered(bytes: &[u8], count: usize, out: &mut Vec<u8>) -> Result<(), Problem> {
    if count > NUMBERED_LIMIT {
        return Err(Problem::Bad("too many numbers"));
    }
    for number in 0..count {
        for byte in bytes {
            if *byte == b'#' {
                write_number(number as u64, out)?;
            } else {
                append(&[*byte], out)?;
            }
        }
    }
    Ok(())
}

fn append_hexadecimal(digits: &[u8], out: &mut Vec<u8>) -> Result<(), Problem> {
    for pair in digits.chunks(2) {
        match pair {
            [high, low] => append(&[16 * hexadecimal(*high)? + hexadecimal(*low)?], out)?,
            _ => return Err(Problem::Bad("a byte has two hexadecimal digits")),
        }
    }
    Ok(())
}

fn hexadecimal(digit: u8) -> Result<u8, Problem>
    ensures { IfOk result (λ value. value < 16) }
{
    match digit {
        b'0'..=b'9' => Ok(digit - b'0'),
        b'A'..=b'F' => Ok(digit - b'A' + 10),
        _ => Err(Problem::Bad("between backticks stand 0A or 2*x")),
    }
}

/// The number that some digits spell, at most the greatest length of a text.
pub fn read_number(digits: &[u8]) -> Result<usize, Problem> {
    let mut number = 0;
    for digit in digits {
        if !digit.is_ascii_digit() || number > TEXT_LIMIT {
            return Err(Problem::Bad("a number is too great or no number"));
        }
        number = 10 * number + usize::from(*digit - b'0');
    }
    if digits.is_empty() || number > TEXT_LIMIT {
        return Err(Problem::Bad("a number is too great or no number"));
    }
    Ok(number)
}

/// Appends bytes to a text within its limit.
pub fn append(bytes: &[u8], out: &mut Vec<u8>) -> Result<(), Problem> {
    if bytes.len() > TEXT_LIMIT || out.len() > TEXT_LIMIT - bytes.len() {
        return Err(Problem::Bad("the text is too long"));
    }
    out.extend_from_slice(bytes)?;
    Ok(())
}
