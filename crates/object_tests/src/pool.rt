//! Workers that claim at the same time, and answers that depend on nobody else.

ghost use Rattle.std.specs.Prelude.{◌≤◌, All, length};
ghost use Rattle.dioc_terms.specs.Bundles.{IsFormed};
ghost use Rattle.dioc_terms.specs.Plain.{plain};

use crate::made::bundles;
use crate::meeting::Meeting;
use dioc_terms::{Bundle, Memory, give_up};
use session_pool::{Answer, OpenWatch, Watch, run_sessions};
use std::alloc::Global;
use std::sync::Wait;
use std::test::Fail;
use std::thread::Threads;

/// Holds the claim of session 0 until session 1 was claimed, or its turns have run out.
#[derive(Drop)]
struct HoldFirst {
    second: Meeting,
}

impl Watch for HoldFirst {
    fn claimed<R: Wait>(&self, _rt: &R, session: u32) {
        if session == 1 {
            self.second.reach();
        } else {
            self.second.hold();
        }
    }
}

/// Whether two sessions were answered the same.
fn same(first: &Answer, second: &Answer) -> bool {
    match (first, second) {
        (
            Answer::Ran { history, ended },
            Answer::Ran {
                history: other,
                ended: too,
            },
        ) => history.as_slice() == other.as_slice() && ended == too,
        _ => false,
    }
}

#[test]
fn two_workers_claim_at_once(rt: HostRuntime) -> Result<(), Fail> {
    let bundles = bundles(rt.alloc(), 0, 1, 2)?;
    let watch = HoldFirst {
        second: Meeting::new(),
    };
    let answers = run_sessions(&rt, rt.alloc(), bundles.as_slice(), 2, None, 2000, &watch);
    assert!(rt; answers.is_ok());
    assert!(rt; watch.second.is_met());
    Ok(())
}

/// Whether all sessions were answered the same.
fn all_same(first: &[Answer], second: &[Answer]) -> bool {
    first.len() == second.len()
        && first
            .iter()
            .zip(second)
            .all(|(one, other)| same(one, other))
}

/// Whether one worker and sixteen answer the same.
fn answers_alike<R: Threads + Wait + Sync>(
    rt: &R,
    alloc: Global,
    sessions: &[Bundle],
) -> Result<bool, Memory>
    requires formed { All (λ b. IsFormed (plain b)) sessions.now }
    requires few { length sessions.now ≤ 1000 }
{
    let by_one = run_sessions(rt, alloc, sessions, 1, Some(7), 2000, &OpenWatch)?;
    match run_sessions(rt, alloc, sessions, 16, Some(7), 2000, &OpenWatch) {
        Ok(by_many) => {
            let alike = by_one.len() == sessions.len() && all_same(&by_one, &by_many);
            drop((by_one, by_many));
            Ok(alike)
        }
        Err(fault) => give_up(by_one, fault),
    }
}

#[test]
fn workers_change_no_answer(rt: HostRuntime) -> Result<(), Fail> {
    let bundles = bundles(rt.alloc(), 0, 1, 100)?;
    let alike = answers_alike(&rt, rt.alloc(), bundles.as_slice());
    drop(bundles);
    assert!(rt; alike == Ok(true));
    Ok(())
}
