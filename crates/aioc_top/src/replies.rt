//! What a command wrote, and how it ended.

ghost use Rattle.std.specs.Prelude.{◌≡◌, ◌++◌, decimal, if◌then◌else◌, IfOk};
ghost use Rattle.dioc_terms.specs.Plain.{plain};
ghost use Rattle.bundle_text.specs.Writing.{bundle_text};
ghost use Rattle.aioc_top.specs.Replies.{ended_reply, last_of, line_of_text, no, reply_of, yes};
ghost use Rattle.aioc_top.specs.Verdicts.{status_of_end};

use crate::status::Status;
use bundle_text::write_bundle;
use command_words::Options;
use dioc_terms::{Bundle, Entry, Last, Memory};
use std::alloc::Global;
use text_pieces::{write_bytes, write_number};
use trace_text::write_text;

/// How a command ended that has a text to write.
#[derive(Clone, Copy)]
pub enum End {
    /// It did its work; of a run: the network has ended.
    Done,
    /// The run has as many entries as are allowed, and its network has not ended; of a trace that
    /// is to be driven: it has more.
    Limit,
    /// A trace has an entry that isn't played, or that can't come.
    No,
}

impl End {
    /// The status that tells it.
    pub fn status(&self) -> Status
        ensures { result ≡ status_of_end self.now }
    {
        match self {
            End::Done => Status::Done,
            End::Limit => Status::Limit,
            End::No => Status::No,
        }
    }
}

/// The text of a command, and how the command ended.
#[derive(Drop)]
pub struct Written {
    /// How it ended.
    pub end: End,
    /// What it prints.
    pub text: Vec<u8>,
}

/// The bundle as it is written, by a command that did its work.
pub fn bundle_written(alloc: Global, bundle: &Bundle) -> Result<Written, Memory>
    ensures { IfOk result (λ written. reply_of written
        ≡ record { end = End.Done; text = bundle_text (plain bundle.now) }) }
{
    let mut text = Vec::new(alloc);
    write_bundle(bundle, &mut text)?;
    Ok(Written {
        end: End::Done,
        text,
    })
}

/// `yes` and how many entries were judged.
pub fn say_yes(alloc: Global, count: u64) -> Result<Written, Memory>
    ensures { IfOk result (λ written. reply_of written ≡ yes count) }
{
    say(alloc, End::Done, b"yes ", count)
}

/// `no` and the number of an entry, counted from 1.
pub fn say_no(alloc: Global, number: u64) -> Result<Written, Memory>
    ensures { IfOk result (λ written. reply_of written ≡ no number) }
{
    say(alloc, End::No, b"no ", number)
}

/// A line of a word with the space behind it, and a number.
fn say(alloc: Global, end: End, word: &[u8], number: u64) -> Result<Written, Memory>
    ensures { IfOk result (λ written. reply_of written
        ≡ record { end = end; text = line_of_text (word.now ++ decimal number) }) }
{
    let mut text = Vec::new(alloc);
    write_bytes(word, &mut text)?;
    write_number(number, &mut text)?;
    write_bytes(b"\n", &mut text)?;
    Ok(Written { end, text })
}

/// The last line of a run: whether it has ended, and how many entries it has.
pub fn last_line(is_over: bool, entries: u64) -> Last
    ensures { result ≡ last_of is_over entries }
{
    if is_over {
        Last::Ended(entries)
    } else {
        Last::Stopped(entries)
    }
}

/// The text of a run's entries, as the options want it, and how the run ended.
pub fn run_written(
    alloc: Global,
    options: &Options,
    entries: &[Entry],
    is_over: bool,
) -> Result<Written, Memory>
    ensures { IfOk result (λ written. reply_of written
        ≡ ended_reply options.now entries.now is_over) }
{
    let last = last_line(is_over, entries.len() as u64);
    let mut text = Vec::new(alloc);
    write_text(entries, options.aux, &last, options.json, &mut text)?;
    Ok(Written {
        end: run_end(is_over),
        text,
    })
}

// How a run ends for a person: it did its work where its network has ended.
fn run_end(is_over: bool) -> End
    ensures { result ≡ (if is_over then End.Done else End.Limit) }
{
    if is_over { End::Done } else { End::Limit }
}
