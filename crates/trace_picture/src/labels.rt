//! What a picture says of an entry.

ghost use Rattle.std.specs.Prelude.{◌≡◌, ◌++◌, codes, IfOk, OnOk, OnErr};
ghost use Rattle.text_pieces.specs.Pieces.{KeepsFront};
ghost use Rattle.trace_text.specs.Lines.{value_text, tag_text, note_text};
ghost use Rattle.trace_picture.specs.Labels.{ended_text, kept_text, label};
ghost use Rattle.trace_picture.specs.Runs.{shortened};

use crate::runs::write_shortened;
use dioc_terms::{Entry, Last, Memory, Name, Note, Tag, Value};
use std::alloc::Global;
use text_pieces::{Minus, write_bytes, write_truth, write_value};
use trace_text::{write_choice, write_index, write_last, write_note, write_tag};

/// Appends the last line of a trace with its end.
pub fn write_last_line(last: &Last, out: &mut Vec<u8>) -> Result<(), Memory>
    ensures ok { OnOk result (out.new.items ≡ out.old.items ++ ended_text last.now) }
    ensures memory { OnErr result (KeepsFront out.old.items out.new.items) }
{
    write_last(last, false, out)?;
    write_bytes(b"\n", out)
}

/// Appends what the entry did, without its roles.
pub fn write_label(entry: &Entry, out: &mut Vec<u8>) -> Result<(), Memory>
    ensures ok { OnOk result (out.new.items ≡ out.old.items ++ label entry.now) }
    ensures memory { OnErr result (KeepsFront out.old.items out.new.items) }
{
    match entry {
        Entry::Put { key, note } => write_sent(&key.tag, note, out),
        Entry::Take { key, var } => write_taken(&key.tag, var, out),
        Entry::Set { var, value, .. } => write_binding(b"", var, value, out),
        Entry::Input { var, value, .. } => write_binding(b"input ", var, value, out),
        Entry::Pick { flag, .. } => {
            write_bytes(b"pick ", out)?;
            write_truth(*flag, out)
        }
        Entry::Scope { index, chosen, .. } => {
            write_bytes(b"scope ", out)?;
            write_index(*index, out)?;
            write_bytes(b" ", out)?;
            write_choice(chosen, out)
        }
        Entry::Add { name } => write_named(b"add ", name, out),
        Entry::Drop { name } => write_named(b"drop ", name, out),
        Entry::Env { key, value } => write_binding(b"env ", key, value, out),
    }
}

/// The label of an entry, cut to so many bytes, or to 3 where they are fewer.
pub fn short_label(alloc: Global, entry: &Entry, most: usize) -> Result<Vec<u8>, Memory>
    ensures { IfOk result (λ shown. shown.items ≡ shortened most (label entry.now)) }
{
    let mut whole = Vec::new(alloc);
    write_label(entry, &mut whole)?;
    let mut shown = Vec::new(alloc);
    write_shortened(&whole, most, &mut shown)?;
    Ok(shown)
}

fn write_named(word: &[u8], name: &Name, out: &mut Vec<u8>) -> Result<(), Memory>
    ensures ok { OnOk result (out.new.items ≡ out.old.items ++ (word.now ++ name.now)) }
    ensures memory { OnErr result (KeepsFront out.old.items out.new.items) }
{
    write_bytes(word, out)?;
    write_bytes(name.bytes(), out)
}

/// As `x = 5` behind a word.
fn write_binding(word: &[u8], name: &Name, value: &Value, out: &mut Vec<u8>) -> Result<(), Memory>
    ensures ok { OnOk result (out.new.items ≡ out.old.items
        ++ (word.now ++ name.now ++ codes " = " ++ value_text value.now)) }
    ensures memory { OnErr result (KeepsFront out.old.items out.new.items) }
{
    write_bytes(word, out)?;
    write_bytes(name.bytes(), out)?;
    write_bytes(b" = ", out)?;
    write_value(value, Minus::Close, out)
}

/// As `ask = 5`.
fn write_sent(tag: &Tag, note: &Note, out: &mut Vec<u8>) -> Result<(), Memory>
    ensures ok { OnOk result (out.new.items ≡ out.old.items
        ++ (tag_text tag.now ++ codes " = " ++ note_text note.now)) }
    ensures memory { OnErr result (KeepsFront out.old.items out.new.items) }
{
    write_tag(tag, out)?;
    write_bytes(b" = ", out)?;
    write_note(note, out)
}

/// As `take ask as x`.
fn write_taken(tag: &Tag, variable: &Option<Name>, out: &mut Vec<u8>) -> Result<(), Memory>
    ensures ok { OnOk result (out.new.items ≡ out.old.items
        ++ (codes "take " ++ tag_text tag.now ++ kept_text variable.now)) }
    ensures memory { OnErr result (KeepsFront out.old.items out.new.items) }
{
    write_bytes(b"take ", out)?;
    write_tag(tag, out)?;
    match variable {
        None => Ok(()),
        Some(name) => write_named(b" as ", name, out),
    }
}
