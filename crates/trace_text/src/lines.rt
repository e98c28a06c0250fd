//! The lines of a trace.

ghost use Rattle.std.specs.Prelude.{◌≡◌, ◌++◌, codes, OnOk, OnErr};
ghost use Rattle.dioc_terms.specs.declared.entries.Entry.TheVariants as entry;
ghost use Rattle.text_pieces.specs.Pieces.{KeepsFront};
ghost use Rattle.trace_text.specs.Lines.{line, last_line, index_text, value_text};

use crate::pieces::{
    Written, write_choice, write_index, write_indexed, write_key, write_note, write_three,
    write_variable,
};
use dioc_terms::{Chosen, Entry, Index, Key, Last, Memory, Name, Note, Role, Value};
use text_pieces::{Minus, cut_back, write_bytes, write_number, write_truth, write_value};

/// Appends the line of an entry, without a line end.
///
/// Where memory runs out, `out` is as it was.
pub fn write_line(entry: &Entry, out: &mut Vec<u8>) -> Result<(), Memory>
    ensures ok { OnOk result (out.new.items ≡ out.old.items ++ line entry.now) }
    ensures memory { OnErr result (out.new.items ≡ out.old.items) }
{
    let start = out.len();
    let written = write_entry(entry, out);
    cut_back(written, start, out)
}

/// Appends the last line of a trace as it stands in one, without a line end.
///
/// Where memory runs out, `out` is as it was.
pub fn write_plain_last(last: &Last, out: &mut Vec<u8>) -> Result<(), Memory>
    ensures ok { OnOk result (out.new.items ≡ out.old.items ++ last_line last.now) }
    ensures memory { OnErr result (out.new.items ≡ out.old.items) }
{
    let start = out.len();
    let written = write_end(last, out);
    cut_back(written, start, out)
}

fn write_entry(entry: &Entry, out: &mut Vec<u8>) -> Written
    ensures ok { OnOk result (out.new.items ≡ out.old.items ++ line entry.now) }
    ensures memory { OnErr result (KeepsFront out.old.items out.new.items) }
{
    match entry {
        Entry::Put { key, note } => write_put(key, note, out),
        Entry::Take { key, var } => write_take(key, var, out),
        Entry::Set {
            index,
            role,
            var,
            value,
        } => {
            write_bytes(b"set ", out)?;
            write_setting(*index, role, var, value, out)
        }
        Entry::Input {
            index,
            role,
            var,
            value,
        } => {
            write_bytes(b"input ", out)?;
            write_setting(*index, role, var, value, out)
        }
        Entry::Pick { index, role, flag } => write_pick(*index, role, *flag, out),
        Entry::Scope {
            index,
            role,
            chosen,
        } => write_scope(*index, role, chosen, out),
        Entry::Add { name } => write_named(b"add ", name, out),
        Entry::Drop { name } => write_named(b"drop ", name, out),
        Entry::Env { key, value } => write_environment(key, value, out),
    }
}

fn write_put(key: &Key, note: &Note, out: &mut Vec<u8>) -> Written
    ensures ok { OnOk result (out.new.items ≡ out.old.items ++ line (entry.Put key.now note.now)) }
    ensures memory { OnErr result (KeepsFront out.old.items out.new.items) }
{
    write_bytes(b"put ", out)?;
    write_key(key, out)?;
    write_bytes(b" = ", out)?;
    write_note(note, out)
}

fn write_take(key: &Key, variable: &Option<Name>, out: &mut Vec<u8>) -> Written
    ensures ok { OnOk result (out.new.items ≡ out.old.items ++
        line (entry.Take key.now variable.now)) }
    ensures memory { OnErr result (KeepsFront out.old.items out.new.items) }
{
    write_bytes(b"take ", out)?;
    write_key(key, out)?;
    write_variable(variable, out)
}

/// A word and a name.
fn write_named(word: &[u8], name: &Name, out: &mut Vec<u8>) -> Written
    ensures ok { OnOk result (out.new.items ≡ out.old.items ++ (word.now ++ name.now)) }
    ensures memory { OnErr result (KeepsFront out.old.items out.new.items) }
{
    write_bytes(word, out)?;
    write_bytes(name.bytes(), out)
}

/// What stands behind the word `set` or `input`, as `x@a #0.3 = 5`.
fn write_setting(index: Index, role: &Role, var: &Name, value: &Value, out: &mut Vec<u8>) -> Written
    ensures ok { OnOk result (out.new.items ≡ out.old.items ++ (var.now ++ codes "@" ++ role.now.0
        ++ codes " " ++ index_text index ++ codes " = " ++ value_text value.now)) }
    ensures memory { OnErr result (KeepsFront out.old.items out.new.items) }
{
    write_three(var.bytes(), b"@", role.0.bytes(), out)?;
    write_indexed(b" ", index, out)?;
    write_bytes(b" = ", out)?;
    write_value(value, Minus::Close, out)
}

fn write_pick(index: Index, role: &Role, flag: bool, out: &mut Vec<u8>) -> Written
    ensures ok { OnOk result (out.new.items ≡ out.old.items ++
        line (entry.Pick index role.now flag)) }
    ensures memory { OnErr result (KeepsFront out.old.items out.new.items) }
{
    write_three(b"pick ", role.0.bytes(), b" ", out)?;
    write_index(index, out)?;
    write_bytes(b" ", out)?;
    write_truth(flag, out)
}

fn write_scope(index: Index, role: &Role, chosen: &Chosen, out: &mut Vec<u8>) -> Written
    ensures ok { OnOk result (out.new.items ≡ out.old.items ++
        line (entry.Scope index role.now chosen.now)) }
    ensures memory { OnErr result (KeepsFront out.old.items out.new.items) }
{
    write_three(b"scope ", role.0.bytes(), b" ", out)?;
    write_index(index, out)?;
    write_bytes(b" ", out)?;
    write_choice(chosen, out)
}

fn write_environment(key: &Name, value: &Value, out: &mut Vec<u8>) -> Written
    ensures ok { OnOk result (out.new.items ≡ out.old.items ++ line (entry.Env key.now value.now)) }
    ensures memory { OnErr result (KeepsFront out.old.items out.new.items) }
{
    write_three(b"env ", key.bytes(), b" = ", out)?;
    write_value(value, Minus::Close, out)
}

fn write_end(last: &Last, out: &mut Vec<u8>) -> Written
    ensures ok { OnOk result (out.new.items ≡ out.old.items ++ last_line last.now) }
    ensures memory { OnErr result (KeepsFront out.old.items out.new.items) }
{
    match last {
        Last::Ended(count) => {
            write_bytes(b"ended ", out)?;
            write_number(*count, out)
        }
        Last::Stopped(count) => {
            write_bytes(b"stopped ", out)?;
            write_number(*count, out)
        }
    }
}
