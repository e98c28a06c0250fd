//! Texts made of fragments, each appended to the bytes written so far.

ghost use Rattle.std.specs.Prelude.{◌≡◌, ◌++◌, flat_map, OnOk, OnErr};
ghost use Rattle.text_pieces.specs.Pieces.{KeepsFront};
ghost use Rattle.trace_picture.specs.Fragments.{xml_byte, xml_words, fragment_text, attribute};

use dioc_terms::Memory;
use text_pieces::{write_bytes, write_number};

/// A piece of a written text.
#[derive(Clone, Copy)]
pub enum Fragment<'a> {
    /// Bytes as they are.
    Plain(&'a [u8]),
    /// The digits of a number.
    Number(u64),
    /// An attribute of a tag, as ` x="5"`.
    Attribute(&'a [u8], u64),
    /// Bytes as they stand in a text of an XML document.
    Marked(&'a [u8]),
}

/// Appends a byte as it stands in a text of an XML document.
#[tactic(auto, unfolding(crate::specs::Fragments::xml_byte))]
fn write_xml_byte(byte: u8, out: &mut Vec<u8>) -> Result<(), Memory>
    ensures ok { OnOk result (out.new.items ≡ out.old.items ++ xml_byte byte) }
    ensures memory { OnErr result (KeepsFront out.old.items out.new.items) }
{
    match byte {
        b'"' => write_bytes(b"&quot;", out),
        b'&' => write_bytes(b"&amp;", out),
        b'<' => write_bytes(b"&lt;", out),
        b'>' => write_bytes(b"&gt;", out),
        b' '..=b'~' => write_bytes(&[byte], out),
        _ => write_bytes(b"?", out),
    }
}

fn write_xml_words(bytes: &[u8], out: &mut Vec<u8>) -> Result<(), Memory>
    ensures ok { OnOk result (out.new.items ≡ out.old.items ++ xml_words bytes.now) }
    ensures memory { OnErr result (KeepsFront out.old.items out.new.items) }
{
    for byte in bytes {
        write_xml_byte(*byte, out)?;
    }
    Ok(())
}

/// Appends an attribute of a tag that is a number.
fn write_attribute(name: &[u8], number: u64, out: &mut Vec<u8>) -> Result<(), Memory>
    ensures ok { OnOk result (out.new.items ≡ out.old.items ++ attribute name.now number) }
    ensures memory { OnErr result (KeepsFront out.old.items out.new.items) }
{
    write_bytes(b" ", out)?;
    write_bytes(name, out)?;
    write_bytes(b"=\"", out)?;
    write_number(number, out)?;
    write_bytes(b"\"", out)
}

fn write_fragment(fragment: &Fragment<'_>, out: &mut Vec<u8>) -> Result<(), Memory>
    ensures ok { OnOk result (out.new.items ≡ out.old.items ++ fragment_text fragment.now) }
    ensures memory { OnErr result (KeepsFront out.old.items out.new.items) }
{
    match fragment {
        Fragment::Plain(bytes) => write_bytes(bytes, out),
        Fragment::Number(number) => write_number(*number, out),
        Fragment::Attribute(name, number) => write_attribute(name, *number, out),
        Fragment::Marked(bytes) => write_xml_words(bytes, out),
    }
}

/// Appends a text of these fragments.
pub fn write_fragments(fragments: &[Fragment<'_>], out: &mut Vec<u8>) -> Result<(), Memory>
    ensures ok { OnOk result (out.new.items ≡ out.old.items
        ++ flat_map fragment_text fragments.now) }
    ensures memory { OnErr result (KeepsFront out.old.items out.new.items) }
{
    for fragment in fragments {
        write_fragment(fragment, out)?;
    }
    Ok(())
}
