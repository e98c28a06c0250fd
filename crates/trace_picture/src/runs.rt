//! Bytes that are repeated, and texts that are cut.

ghost use Rattle.std.specs.Prelude.{◌≡◌, ◌++◌, OnOk, OnErr};
ghost use Rattle.text_pieces.specs.Pieces.{KeepsFront};
ghost use Rattle.trace_picture.specs.Runs.{repeated, shortened};

use dioc_terms::Memory;
use text_pieces::write_bytes;

/// Appends a byte so many times.
pub fn write_repeated(byte: u8, count: usize, out: &mut Vec<u8>) -> Result<(), Memory>
    ensures ok { OnOk result (out.new.items ≡ out.old.items ++ repeated byte count) }
    ensures memory { OnErr result (KeepsFront out.old.items out.new.items) }
{
    for _ in 0..count {
        write_bytes(&[byte], out)?;
    }
    Ok(())
}

/// Appends a text, or where it has more bytes than `most` its front, three dots and its end; they
/// have `most` bytes together, and 3 at least.
pub fn write_shortened(bytes: &[u8], most: usize, out: &mut Vec<u8>) -> Result<(), Memory>
    ensures ok { OnOk result (out.new.items ≡ out.old.items ++ shortened most bytes.now) }
    ensures memory { OnErr result (KeepsFront out.old.items out.new.items) }
{
    if bytes.len() <= most {
        return write_bytes(bytes, out);
    }
    let shown = most.saturating_sub(3);
    let tail = shown / 3;
    write_bytes(&bytes[..shown - tail], out)?;
    write_bytes(b"...", out)?;
    write_bytes(&bytes[bytes.len() - tail..], out)
}
