//! Each piece, appended to the bytes written so far.

ghost use Rattle.std.specs.Prelude.{◌≡◌, ◌≤◌, ◌++◌, decimal, length, take, OnOk, OnErr};
ghost use Rattle.aioc_tokens.specs.Tokens.{escaped, quoted};
ghost use Rattle.text_pieces.specs.Pieces.{KeepsFront, truth_text};

use dioc_terms::Memory;
use itoa::Buffer;

/// Appends bytes as they are.
pub fn write_bytes(bytes: &[u8], out: &mut Vec<u8>) -> Result<(), Memory>
    ensures ok { OnOk result (out.new.items ≡ out.old.items ++ bytes.now) }
    ensures memory { OnErr result (KeepsFront out.old.items out.new.items) }
{
    out.extend_from_slice(bytes)?;
    Ok(())
}

/// Appends the decimal digits of a number.
pub fn write_number(number: u64, out: &mut Vec<u8>) -> Result<(), Memory>
    ensures ok { OnOk result (out.new.items ≡ out.old.items ++ decimal number) }
    ensures memory { OnErr result (KeepsFront out.old.items out.new.items) }
{
    let mut digits = Buffer::new();
    write_bytes(digits.format(number).as_bytes(), out)
}

/// Appends `true` or `false`.
pub fn write_truth(truth: bool, out: &mut Vec<u8>) -> Result<(), Memory>
    ensures ok { OnOk result (out.new.items ≡ out.old.items ++ truth_text truth) }
    ensures memory { OnErr result (KeepsFront out.old.items out.new.items) }
{
    if truth {
        write_bytes(b"true", out)
    } else {
        write_bytes(b"false", out)
    }
}

/// Appends the value of a text in quotes, with a `\` before each `"` and `\`.
pub fn write_quoted(bytes: &[u8], out: &mut Vec<u8>) -> Result<(), Memory>
    ensures ok { OnOk result (out.new.items ≡ out.old.items ++ quoted bytes.now) }
    ensures memory { OnErr result (KeepsFront out.old.items out.new.items) }
{
    write_bytes(b"\"", out)?;
    for byte in bytes {
        write_escaped(*byte, out)?;
    }
    write_bytes(b"\"", out)
}

fn write_escaped(byte: u8, out: &mut Vec<u8>) -> Result<(), Memory>
    ensures ok { OnOk result (out.new.items ≡ out.old.items ++ escaped byte) }
    ensures memory { OnErr result (KeepsFront out.old.items out.new.items) }
{
    if byte == b'"' || byte == b'\\' {
        write_bytes(&[b'\\', byte], out)
    } else {
        write_bytes(&[byte], out)
    }
}

/// Ends a text of several pieces: after a refusal it cuts off what stands behind the first `start`
/// bytes. The answer is that of the writing.
pub fn cut_back(written: Result<(), Memory>, start: usize, out: &mut Vec<u8>) -> Result<(), Memory>
    ensures answer { result ≡ written }
    ensures ok { OnOk result (out.new.items ≡ out.old.items) }
    ensures memory { OnErr result (out.new.items ≡ take start out.old.items) }
{
    if written.is_err() {
        out.truncate(start);
    }
    written
}
