//! `sessions`: many bundles on a pool of workers.

ghost use Rattle.std.specs.Prelude.{◌≡◌, ℕ, ◌≤◌, ◌++◌, All, List, length, map, IfOk, OnOk};
ghost use Rattle.dioc_terms.specs.Bundles.{IsFormed};
ghost use Rattle.dioc_terms.specs.Plain.{plain};
ghost use Rattle.session_pool.specs.Answers.{answer_seen};
ghost use Rattle.aioc_top.specs.Replies.{answer_text, reply_of, session_text, sessions_reply};
ghost use Rattle.aioc_top.specs.Texts.{joined, text_seen};
ghost use Rattle.aioc_top.specs.Words.{IsShort};
ghost use Rattle.command_words.specs.declared.commands.Command.TheVariants as command;

use crate::faults::make_refusal_line;
use crate::replies::{End, Written, last_line};
use command_words::Options;
use dioc_terms::{Bundle, Memory, give_up};
use session_pool::{Answer, Made, OpenWatch, Order, run_sessions_as};
use std::alloc::Global;
use std::sync::Wait;
use std::thread::Threads;
use text_pieces::{write_bytes, write_number};
use trace_text::write_text;

/// The text of sessions, in their order: of each its number, from 0, and the visible entries of the
/// run that the schedule takes of its bundle, with their last line, or why the bundle is refused.
/// The workers and the seed are those of the options, and a run has at most as many entries as they
/// say; what is written doesn't depend on the number of workers.
pub fn sessions<R: Threads + Wait + Sync>(
    rt: &R,
    alloc: Global,
    options: &Options,
    bundles: &[Bundle],
) -> Result<Written, Memory>
    requires formed { All (λ b. IsFormed (plain b)) bundles.now }
    requires few { length bundles.now ≤ 1000 }
    requires short { IsShort (command.Sessions options.now) }
    ensures { IfOk result (λ written. reply_of written
        ≡ sessions_reply options.now (map plain bundles.now)) }
{
    let order = Order {
        bundles,
        seed: options.seed,
        limit: options.steps,
    };
    let texts = run_sessions_as(rt, alloc, &order, options.workers, &OpenWatch)?;
    let text = join_texts(alloc, texts)?;
    Ok(Written {
        end: End::Done,
        text,
    })
}

// The text of a session. Its worker writes it as soon as it has run the session.
#[derive(Drop)]
struct SessionText {
    text: Vec<u8>,
}

impl Made for SessionText {
    ghost Seen = { List ℕ };

    ghost seen = { text_seen };

    ghost made_of = { session_text };

    fn make(alloc: Global, number: u32, answer: Answer) -> Result<SessionText, Memory> {
        let mut text = Vec::new(alloc);
        match write_session(alloc, u64::from(number), &answer, &mut text) {
            Ok(()) => Ok(SessionText { text }),
            Err(fault) => give_up(text, fault),
        }
    }
}

// The texts one behind another.
fn join_texts(alloc: Global, texts: Vec<SessionText>) -> Result<Vec<u8>, Memory>
    ensures { IfOk result (λ text. text.items ≡ joined (map text_seen texts.items)) }
{
    let mut joined = Vec::with_capacity(alloc, whole_length(texts.as_slice()))?;
    for session in texts {
        let SessionText { mut text } = session;
        joined.append(&mut text)?;
    }
    Ok(joined)
}

// How long the texts are together: how much room is made for them at once.
fn whole_length(texts: &[SessionText]) -> usize {
    let mut whole: usize = 0;
    for session in texts {
        whole = whole.saturating_add(session.text.len());
    }
    whole
}

// Appends the session of this number.
fn write_session(
    alloc: Global,
    number: u64,
    answer: &Answer,
    out: &mut Vec<u8>,
) -> Result<(), Memory>
    ensures { OnOk result
        (out.new.items ≡ out.old.items ++ session_text number (answer_seen answer.now)) }
{
    write_bytes(b"session ", out)?;
    write_number(number, out)?;
    write_bytes(b"\n", out)?;
    write_answer(alloc, answer, out)
}

// Appends what a session is answered.
fn write_answer(alloc: Global, answer: &Answer, out: &mut Vec<u8>) -> Result<(), Memory>
    ensures { OnOk result
        (out.new.items ≡ out.old.items ++ answer_text (answer_seen answer.now)) }
{
    match answer {
        Answer::Ran { history, ended } => {
            let last = last_line(*ended, history.len());
            write_text(history.as_slice(), false, &last, false, out)
        }
        Answer::Refused(refusal) => {
            let line = make_refusal_line(alloc, refusal)?;
            write_bytes(line.as_slice(), out)
        }
    }
}
