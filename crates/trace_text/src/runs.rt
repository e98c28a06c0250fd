//! The text of a run: a line for each entry, and a last line, as they are or as JSON.

ghost use Rattle.std.specs.Prelude.{◌≡◌, ◌++◌, [], ◌∷◌, OnOk, OnErr};
ghost use Rattle.text_pieces.specs.Pieces.{KeepsFront};
ghost use Rattle.trace_text.specs.Lines.{line_end};
ghost use Rattle.trace_text.specs.Runs.{entry_line, end_line, run_text};

use crate::json_lines::{write_json_last, write_json_line};
use crate::lines::{write_line, write_plain_last};
use crate::pieces::Written;
use dioc_terms::{Entry, Last, Memory};
use text_pieces::{cut_back, write_bytes};

/// Appends the last line of a run, or its object where `json` says so, without a line end.
///
/// Where memory runs out, `out` is as it was.
pub fn write_last(last: &Last, json: bool, out: &mut Vec<u8>) -> Result<(), Memory>
    ensures ok { OnOk result (out.new.items ≡ out.old.items ++ end_line json last.now) }
    ensures memory { OnErr result (out.new.items ≡ out.old.items) }
{
    if json {
        write_json_last(last, out)
    } else {
        write_plain_last(last, out)
    }
}

/// Appends the text of a run: the line of each entry, of the visible ones alone or, where `aux`
/// says so, of all, and the last line, each with its line end. Where `json` says so the lines are
/// JSON objects.
///
/// It goes over the entries once. Where memory runs out, `out` is as it was.
pub fn write_text(
    entries: &[Entry],
    aux: bool,
    last: &Last,
    json: bool,
    out: &mut Vec<u8>,
) -> Result<(), Memory>
    ensures ok { OnOk result (out.new.items ≡ out.old.items
        ++ run_text aux json entries.now last.now) }
    ensures memory { OnErr result (out.new.items ≡ out.old.items) }
{
    let start = out.len();
    let written = write_run(entries, aux, last, json, out);
    cut_back(written, start, out)
}

#[tactic(auto, using(text_pieces::proofs::KeptFronts::front_of_front))]
fn write_run(entries: &[Entry], aux: bool, last: &Last, json: bool, out: &mut Vec<u8>) -> Written
    ensures ok { OnOk result (out.new.items ≡ out.old.items
        ++ run_text aux json entries.now last.now) }
    ensures memory { OnErr result (KeepsFront out.old.items out.new.items) }
{
    for entry in entries {
        if aux || !entry.is_aux() {
            write_whole_line(entry, json, out)?;
        }
    }
    write_last(last, json, out)?;
    write_bytes(b"\n", out)
}

/// Appends the line of an entry with its end.
#[tactic(auto, using(text_pieces::proofs::KeptFronts::front_of_front))]
fn write_whole_line(entry: &Entry, json: bool, out: &mut Vec<u8>) -> Written
    ensures ok { OnOk result (out.new.items ≡ out.old.items
        ++ (entry_line json entry.now ++ line_end ∷ [])) }
    ensures memory { OnErr result (KeepsFront out.old.items out.new.items) }
{
    if json {
        write_json_line(entry, out)?;
    } else {
        write_line(entry, out)?;
    }
    write_bytes(b"\n", out)
}
