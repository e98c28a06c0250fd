//! The pieces of a line, each appended to the bytes written so far.
//!
//! Where memory runs out, a part of the piece may stand behind the old bytes.

ghost use Rattle.std.specs.Prelude.{◌≡◌, ◌++◌, OnOk, OnErr};
ghost use Rattle.text_pieces.specs.Pieces.{KeepsFront};
ghost use Rattle.trace_text.specs.Lines.{index_text, tag_text, note_text, key_text, variable_text, choice_text};

use dioc_terms::{Chosen, Index, Key, Memory, Name, Note, Tag};
use text_pieces::{Minus, write_bytes, write_number, write_truth, write_value};

/// What a writer of a piece answers.
pub type Written = Result<(), Memory>;

/// Three texts in a row.
pub fn write_three(first: &[u8], second: &[u8], third: &[u8], out: &mut Vec<u8>) -> Written
    ensures ok { OnOk result (out.new.items ≡ out.old.items ++
        (first.now ++ second.now ++ third.now)) }
    ensures memory { OnErr result (KeepsFront out.old.items out.new.items) }
{
    write_bytes(first, out)?;
    write_bytes(second, out)?;
    write_bytes(third, out)
}

/// As `#0.3`.
pub fn write_index(index: Index, out: &mut Vec<u8>) -> Result<(), Memory>
    ensures ok { OnOk result (out.new.items ≡ out.old.items ++ index_text index) }
    ensures memory { OnErr result (KeepsFront out.old.items out.new.items) }
{
    write_bytes(b"#", out)?;
    write_number(u64::from(index.epoch), out)?;
    write_bytes(b".", out)?;
    write_number(u64::from(index.place), out)
}

/// A word and an index.
pub fn write_indexed(word: &[u8], index: Index, out: &mut Vec<u8>) -> Written
    ensures ok { OnOk result (out.new.items ≡ out.old.items ++ (word.now ++ index_text index)) }
    ensures memory { OnErr result (KeepsFront out.old.items out.new.items) }
{
    write_bytes(word, out)?;
    write_index(index, out)
}

/// As `ask` or `!go`.
pub fn write_tag(tag: &Tag, out: &mut Vec<u8>) -> Result<(), Memory>
    ensures ok { OnOk result (out.new.items ≡ out.old.items ++ tag_text tag.now) }
    ensures memory { OnErr result (KeepsFront out.old.items out.new.items) }
{
    match tag {
        Tag::Op(name) => write_bytes(name.bytes(), out),
        Tag::Choice => write_bytes(b"!choice", out),
        Tag::Go => write_bytes(b"!go", out),
        Tag::Turn => write_bytes(b"!turn", out),
        Tag::Begin => write_bytes(b"!begin", out),
        Tag::End => write_bytes(b"!end", out),
        Tag::Out => write_bytes(b"!out", out),
    }
}

/// As `5`, `keep` or `part 3`.
pub fn write_note(note: &Note, out: &mut Vec<u8>) -> Result<(), Memory>
    ensures ok { OnOk result (out.new.items ≡ out.old.items ++ note_text note.now) }
    ensures memory { OnErr result (KeepsFront out.old.items out.new.items) }
{
    match note {
        Note::Val(value) => write_value(value, Minus::Close, out),
        Note::Flag(flag) => write_truth(*flag, out),
        Note::Keep => write_bytes(b"keep", out),
        Note::Part(epoch) => {
            write_bytes(b"part ", out)?;
            write_number(u64::from(*epoch), out)
        }
        Note::Done => write_bytes(b"done", out),
    }
}

/// As `a -> b o#0.3`.
pub fn write_key(key: &Key, out: &mut Vec<u8>) -> Written
    ensures ok { OnOk result (out.new.items ≡ out.old.items ++ key_text key.now) }
    ensures memory { OnErr result (KeepsFront out.old.items out.new.items) }
{
    write_three(key.from.0.bytes(), b" -> ", key.to.0.bytes(), out)?;
    write_bytes(b" ", out)?;
    write_tag(&key.tag, out)?;
    write_index(key.index, out)
}

/// The variable of a take, behind a space.
pub fn write_variable(variable: &Option<Name>, out: &mut Vec<u8>) -> Written
    ensures ok { OnOk result (out.new.items ≡ out.old.items ++ variable_text variable.now) }
    ensures memory { OnErr result (KeepsFront out.old.items out.new.items) }
{
    match variable {
        None => Ok(()),
        Some(name) => {
            write_bytes(b" ", out)?;
            write_bytes(name.bytes(), out)
        }
    }
}

/// As `keep` or `rule fast as 3`.
pub fn write_choice(chosen: &Chosen, out: &mut Vec<u8>) -> Result<(), Memory>
    ensures ok { OnOk result (out.new.items ≡ out.old.items ++ choice_text chosen.now) }
    ensures memory { OnErr result (KeepsFront out.old.items out.new.items) }
{
    match chosen {
        Chosen::Keep => write_bytes(b"keep", out),
        Chosen::Rule { name, epoch } => {
            write_three(b"rule ", name.bytes(), b" as ", out)?;
            write_number(u64::from(*epoch), out)
        }
    }
}
