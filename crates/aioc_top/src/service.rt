//! The top call.

ghost use Rattle.std.specs.Prelude.{◌≡◌, false, IfErr, IfOk, OnErr};
ghost use Rattle.net_laws.specs.Headline.{EveryRun};
ghost use Rattle.aioc_top.specs.Calls.{PrintsReply, SaysSo, called};
ghost use Rattle.aioc_top.specs.Faults.{Reports};
ghost use Rattle.aioc_top.specs.Laws.{KnownLaws};
ghost use Rattle.aioc_top.specs.Messages.{memory_line};
ghost use Rattle.aioc_top.specs.Replies.{reply_of};
ghost use Rattle.aioc_top.specs.Serve.{HeadlineHolds, Serves};
ghost use Rattle.aioc_top.specs.Words.{asked, is_threaded};
ghost use Rattle.command_words.specs.Commands.{word_texts};

use crate::executing::{execute, execute_alone};
use crate::faults::{Fault, make_mend_refusal_line, make_refusal_line, make_syntax_line};
use crate::preparing::{prepare, prepare_alone};
use crate::replies::Written;
use crate::status::Status;
use aioc_io::{Failed, Sink, Source, write_all};
use bundle_text::{one_bundle, spelled_is_formed, written_is_spelled};
use dioc_terms::Memory;
use load_gen::made_are_accepted;
use marked_laws::runs_read_no_version;
use mend::mended_accepted;
use net_drive::{
    drive_strays_are_exact, driven_exactly, driven_runs, resumed_runs, run_strays_are_exact,
};
use net_laws::{accepted_is_sound, every_run, runs_are_sound, schedules_read_no_version};
use role_runner::Gate;
use std::alloc::Global;
use std::sync::Wait;
use std::thread::Threads;

/// Does what the words after the program's name say: reads a bundle from the source, or many of
/// them, and writes the text of the command to `out`. Where it can't, it writes one line to `err`,
/// and nothing to `out`; only a fault of `out` leaves a part of the text there. With `run` and
/// `sessions` it starts threads and waits for them; all that is said of it then holds if it
/// returns. The threads of `run` pass the gate.
///
/// Its status tells how it went. What is said of the source's bytes holds where the source tells
/// them, and what is said of bytes that were taken holds where the sink tells them; that what was
/// printed is the text of some accepted bundle, or of some sessions, holds anyway.
pub fn serve<R: Threads + Wait + Sync, S: Source, O: Sink, E: Sink, G: Gate + Sync>(
    rt: &R,
    alloc: Global,
    words: &[Vec<u8>],
    source: &mut S,
    out: &mut O,
    err: &mut E,
    gate: &G,
) -> Status
    // What is printed, when each status comes, and what is done with the source and the sinks: a
    // field for each command and for each status.
    ensures serves { Serves (called (asked (word_texts words.now))
        (S.state source.old) (S.state source.new) (O.state out.old) (O.state out.new)
        (E.state err.old) (E.state err.new)) result }

    // The headline of the history behind the text of `run` and of `step`: the choreography itself
    // plays it, with the same changes at the same places; no two pending messages can be confused;
    // nothing gets stuck. And so it is of every run of an accepted bundle.
    ensures headline { HeadlineHolds (called (asked (word_texts words.now))
        (S.state source.old) (S.state source.new) (O.state out.old) (O.state out.new)
        (E.state err.old) (E.state err.new)) result }
    ensures every_run { EveryRun }
{
    know_laws();
    match prepare(rt, alloc, words, source) {
        Ok(mut task) => {
            let answered = execute(rt, alloc, &task.command, &mut task.spelled, gate);
            tell(alloc, answered, out, err)
        }
        Err(fault) => report(alloc, &fault, err),
    }
}

/// Does what the words after the program's name say: reads a bundle from the source, and writes the
/// text of the command to `out`. Where it can't, it writes one line to `err`, and nothing to `out`;
/// only a fault of `out` leaves a part of the text there. It does each command but those that are
/// done by threads, and waits for nobody.
///
/// Its status tells how it went. What is said of the source's bytes holds where the source tells
/// them, and what is said of bytes that were taken holds where the sink tells them; that what was
/// printed is the text of some accepted bundle holds anyway.
pub fn serve_alone<S: Source, O: Sink, E: Sink>(
    alloc: Global,
    words: &[Vec<u8>],
    source: &mut S,
    out: &mut O,
    err: &mut E,
) -> Status
    requires alone { is_threaded (word_texts words.now) ≡ false }

    // What `serve` ensures.
    ensures serves { Serves (called (asked (word_texts words.now))
        (S.state source.old) (S.state source.new) (O.state out.old) (O.state out.new)
        (E.state err.old) (E.state err.new)) result }

    // The headline of the history behind the text of `step`, and of every run of an accepted
    // bundle.
    ensures headline { HeadlineHolds (called (asked (word_texts words.now))
        (S.state source.old) (S.state source.new) (O.state out.old) (O.state out.new)
        (E.state err.old) (E.state err.new)) result }
    ensures every_run { EveryRun }
{
    know_laws();
    match prepare_alone(alloc, words, source) {
        Ok(mut task) => {
            let answered = execute_alone(alloc, &task.command, &mut task.spelled);
            tell(alloc, answered, out, err)
        }
        Err(fault) => report(alloc, &fault, err),
    }
}

// What the crates below prove of the bundles of a text and of their runs, together.
fn know_laws()
    ensures { KnownLaws }
{
    one_bundle();
    spelled_is_formed();
    written_is_spelled();
    mended_accepted();
    made_are_accepted();
    resumed_runs();
    run_strays_are_exact();
    driven_runs();
    driven_exactly();
    drive_strays_are_exact();
    accepted_is_sound();
    every_run();
    runs_are_sound();
    runs_read_no_version();
    schedules_read_no_version();
}

// Writes the reply, or tells a person why there is none.
fn tell<O: Sink, E: Sink>(
    alloc: Global,
    answered: Result<Written, Fault>,
    out: &mut O,
    err: &mut E,
) -> Status
    ensures printed { IfOk answered (λ written. PrintsReply (reply_of written)
        (O.state out.old) (O.state out.new) (E.state err.old) (E.state err.new) result) }
    ensures reported { IfErr answered (λ fault.
        Reports fault (E.state err.old) (E.state err.new) result) }
    ensures quiet { OnErr answered (O.state out.new ≡ O.state out.old) }
{
    match answered {
        Ok(written) => print(&written, out, err),
        Err(fault) => report(alloc, &fault, err),
    }
}

// Writes the text of a command. Where it is empty, `out` isn't called.
fn print<O: Sink, E: Sink>(written: &Written, out: &mut O, err: &mut E) -> Status
    ensures { PrintsReply (reply_of written.now) (O.state out.old) (O.state out.new)
        (E.state err.old) (E.state err.new) result }
{
    if written.text.is_empty() {
        return written.end.status();
    }
    match write_all(out, &written.text) {
        Ok(()) => written.end.status(),
        Err(Failed) => say(b"write fault\n", Status::WriteFault, err),
    }
}

// Tells a person why there is no reply; or that memory ran out, where it does so while the
// line is made.
fn report<E: Sink>(alloc: Global, fault: &Fault, err: &mut E) -> Status
    ensures { Reports fault.now (E.state err.old) (E.state err.new) result }
{
    match fault {
        Fault::Usage => say(b"usage: aioc COMMAND [OPTIONS]\n", Status::Usage, err),
        Fault::ReadFault => say(b"read fault\n", Status::ReadFault, err),
        Fault::TooLong => say(b"too long\n", Status::TooLong, err),
        Fault::Memory => say(b"out of memory\n", Status::Memory, err),
        Fault::Syntax(byte) => {
            let line = make_syntax_line(alloc, *byte);
            say_made(line, Status::Syntax, err)
        }
        Fault::Refused(refusal) => {
            let line = make_refusal_line(alloc, refusal);
            say_made(line, Status::Refused, err)
        }
        Fault::Unmendable(refusal) => {
            let line = make_mend_refusal_line(alloc, refusal);
            say_made(line, Status::Refused, err)
        }
    }
}

// Writes a line that was made, or that memory ran out.
fn say_made<E: Sink>(line: Result<Vec<u8>, Memory>, status: Status, err: &mut E) -> Status
    ensures made { IfOk line (λ made.
        SaysSo status made.items (E.state err.old) (E.state err.new) result) }
    ensures memory { IfErr line (λ memory.
        SaysSo Status.Memory memory_line (E.state err.old) (E.state err.new) result) }
{
    match line {
        Ok(line) => say(&line, status, err),
        Err(Memory) => say(b"out of memory\n", Status::Memory, err),
    }
}

// Writes a line to a person. A fault of `err` changes nothing: the rest of the line is dropped.
fn say<E: Sink>(line: &[u8], status: Status, err: &mut E) -> Status
    ensures { SaysSo status line.now (E.state err.old) (E.state err.new) result }
{
    match write_all(err, line) {
        Ok(()) => status,
        Err(Failed) => status,
    }
}
