//! What no contract sees: that roles run at the same time, that a projection holds nobody up, and
//! that changes are made while roles run.

mod gates;

ghost use Rattle.std.specs.Prelude.{◌≤◌};

use crate::calls::serve_threaded;
use crate::held_runs::gates::{BothBegin, ChangeComes, ProjectsAside};
use crate::meeting::Meeting;
use aioc_top::Status;
use role_runner::Gate;
use std::alloc::{AllocError, Global};
use std::sync::Wait;
use std::test::Fail;
use std::thread::Threads;

// The most bytes that one call of a device moves.
const PIECE: usize = 65_536;

/// The text of `run` of this bundle, whose threads pass the gate, where it has ended.
fn text_of<R: Threads + Wait + Sync, G: Gate + Sync>(
    rt: &R,
    alloc: Global,
    bundle: &[u8],
    gate: &G,
) -> Result<Option<Vec<u8>>, AllocError> {
    let made = serve_threaded(rt, alloc, &["run"], bundle, PIECE, gate)?;
    if made.status != Status::Done {
        return Ok(None);
    }
    Ok(Some(made.text))
}

fn is_text(found: &Option<Vec<u8>>, text: &[u8]) -> bool {
    match found {
        Some(found) => found.as_slice() == text,
        None => false,
    }
}

#[test]
fn both_roles_begin(rt: HostRuntime) -> Result<(), Fail> {
    let gate = BothBegin {
        first: Meeting::new(),
        second: Meeting::new(),
    };
    let text = text_of(&rt, rt.alloc(), b"aioc { x@a = 1 | y@b = 2 }", &gate)?;
    let told = is_text(&text, b"set x@a #0.0 = 1\nset y@b #0.1 = 2\nended 2\n")
        || is_text(&text, b"set y@b #0.1 = 2\nset x@a #0.0 = 1\nended 2\n");
    drop(text);
    assert!(rt; told);
    assert!(rt; gate.first.is_met() && gate.second.is_met());
    Ok(())
}

#[test]
fn a_projection_holds_nobody_up(rt: HostRuntime) -> Result<(), Fail> {
    let bundle = b"aioc { scope @a { x@a = 0 } | o: b(1) -> c(y) } \
        rules { rule r { on { true } do { x@a = 1 } } }";
    let gate = ProjectsAside {
        projecting: Meeting::new(),
        committed: Meeting::new(),
    };
    let text = text_of(&rt, rt.alloc(), bundle, &gate)?;
    assert!(rt; text.is_some());
    assert!(rt; gate.projecting.is_met() && gate.committed.is_met());
    Ok(())
}

#[test]
fn a_change_comes_while_a_role_waits(rt: HostRuntime) -> Result<(), Fail> {
    let bundle = b"aioc { x@a = 1; scope @a { y@a = 1 } prop { N.k = 1 } } \
        script { after 1 add rule r { on { true } do { y@a = 2 } } }";
    let trace = b"set x@a #0.0 = 1\nadd r\nscope a #0.1 rule r as 1\nset y@a #1.0 = 2\nended 4\n";
    let gate = ChangeComes::new();
    let text = text_of(&rt, rt.alloc(), bundle, &gate)?;
    assert!(rt; is_text(&text, trace));
    assert!(rt; gate.changed.is_met());
    Ok(())
}
