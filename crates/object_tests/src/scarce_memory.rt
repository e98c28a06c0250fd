//! Each command twice over the same input: at most one request for memory is refused, so that one
//! of the two answers is whole, and tells what the other may be.

mod bundles;

ghost use Rattle.std.specs.Prelude.{◌≤◌};

use crate::calls::{Outcome, serve, serve_threaded};
use crate::scarce_memory::bundles::{
    BUYER_SELLER, BUYER_SELLER_TRACE, DRAFT, EVERY_FORM, JUDGED, STOPPED, played,
};
use aioc_top::Status;
use role_runner::OpenGate;
use std::alloc::AllocError;
use std::test::Fail;

// The most bytes that one call of a device moves: few, so that a sink grows often.
const PIECE: usize = 64;

/// Whether a call in which one request may have been refused ended as it may: as the whole call
/// does, with nothing in `out` for want of memory, or with a front of the text where a sink could
/// not grow.
fn may_end_so(made: &Outcome, whole: &Outcome) -> bool {
    match made.status {
        Status::Memory => made.text.is_empty(),
        Status::WriteFault => whole.text.starts_with(&made.text),
        status => status == whole.status && made.text == whole.text,
    }
}

/// Whether this is the answer of a call that met no refusal.
fn is_whole(made: &Outcome) -> bool {
    !matches!(made.status, Status::Memory | Status::WriteFault)
}

fn both_calls(
    rt: &HostRuntime,
    words: &[&str],
    input: &[u8],
) -> Result<(Outcome, Outcome), AllocError> {
    let first = serve(rt.alloc(), words, input, PIECE)?;
    let second = serve(rt.alloc(), words, input, PIECE)?;
    Ok((first, second))
}

// Whether both calls end as they may, and a whole one is done.
fn end_as_they_may(rt: &HostRuntime, words: &[&str], input: &[u8]) -> bool {
    let Ok((first, second)) = both_calls(rt, words, input) else {
        // (memory that the devices of a test want says nothing of the call)
        return true;
    };
    let whole = if is_whole(&first) { &first } else { &second };
    whole.status == Status::Done && may_end_so(&first, whole) && may_end_so(&second, whole)
}

// Fails where the two calls don't end as they may.
fn try_calls(rt: &HostRuntime, words: &[&str], input: &[u8]) -> Result<(), Fail> {
    if end_as_they_may(rt, words, input) {
        Ok(())
    } else {
        Err(Fail::new("a call ended as none may"))
    }
}

// The same over the two with the trace of their run.
fn try_played(rt: &HostRuntime, words: &[&str]) -> Result<(), Fail> {
    match played(rt.alloc()) {
        Ok(text) => try_calls(rt, words, &text),
        Err(_) => Ok(()),
    }
}

// Whether a call that runs the buyer and the seller ended as it may.
fn is_told(made: &Outcome) -> bool {
    match made.status {
        Status::Memory => made.text.is_empty(),
        Status::WriteFault => BUYER_SELLER_TRACE.starts_with(&made.text),
        status => status == Status::Done && made.text.as_slice() == BUYER_SELLER_TRACE,
    }
}

#[test]
fn refused_step(rt: HostRuntime) -> Result<(), Fail> {
    let Ok(made) = serve(rt.alloc(), &["step"], BUYER_SELLER, PIECE) else {
        return Ok(());
    };
    assert!(rt; is_told(&made));
    Ok(())
}

// (the visible entries of the two have one order alone)
#[test]
fn refused_run(rt: HostRuntime) -> Result<(), Fail> {
    let words = ["run"];
    let Ok(made) = serve_threaded(&rt, rt.alloc(), &words, BUYER_SELLER, PIECE, &OpenGate) else {
        return Ok(());
    };
    assert!(rt; is_told(&made));
    Ok(())
}

#[test]
fn refused_step_of_every_form(rt: HostRuntime) -> Result<(), Fail> {
    try_calls(&rt, &["step", "--aux", "--seed", "7"], EVERY_FORM)
}

#[test]
fn refused_step_in_json(rt: HostRuntime) -> Result<(), Fail> {
    try_calls(&rt, &["step", "--aux", "--json"], EVERY_FORM)
}

#[test]
fn refused_check(rt: HostRuntime) -> Result<(), Fail> {
    try_calls(&rt, &["check"], EVERY_FORM)
}

#[test]
fn refused_project(rt: HostRuntime) -> Result<(), Fail> {
    try_calls(&rt, &["project"], EVERY_FORM)
}

#[test]
fn refused_replay(rt: HostRuntime) -> Result<(), Fail> {
    try_played(&rt, &["replay"])
}

#[test]
fn refused_upgrade(rt: HostRuntime) -> Result<(), Fail> {
    try_calls(&rt, &["upgrade"], EVERY_FORM)
}

#[test]
fn refused_mend(rt: HostRuntime) -> Result<(), Fail> {
    try_calls(&rt, &["mend"], DRAFT)
}

#[test]
fn refused_resume(rt: HostRuntime) -> Result<(), Fail> {
    try_calls(&rt, &["resume", "--aux"], STOPPED)
}

#[test]
fn refused_drive(rt: HostRuntime) -> Result<(), Fail> {
    try_played(&rt, &["drive"])
}

#[test]
fn refused_monitor(rt: HostRuntime) -> Result<(), Fail> {
    try_calls(&rt, &["monitor", "b"], JUDGED)
}

#[test]
fn refused_gen(rt: HostRuntime) -> Result<(), Fail> {
    try_calls(&rt, &["gen", "1", "3"], b"")
}
