//! Gates that hold a thread until another has come to a place of its own.

use crate::meeting::Meeting;
use dioc_terms::Role;
use role_runner::{Gate, Place};
use std::sync::Wait;
use std::sync::atomic::{AtomicU32, Ordering};

/// Holds each of the roles `a` and `b` before it tries a commit until the other is there too.
#[derive(Drop)]
pub struct BothBegin {
    pub first: Meeting,
    pub second: Meeting,
}

impl Gate for BothBegin {
    fn pass<R: Wait>(&self, _rt: &R, place: Place<'_>) {
        let Place::BeforeStep(role) = place else {
            return;
        };
        match role.0.bytes() {
            b"a" => {
                self.first.reach();
                self.second.hold();
            }
            b"b" => {
                self.second.reach();
                self.first.hold();
            }
            _ => {}
        }
    }
}

/// Holds the role `b` before it tries a commit until `a` is about to project an update, and holds
/// that projection until `b` has made a commit.
#[derive(Drop)]
pub struct ProjectsAside {
    pub projecting: Meeting,
    pub committed: Meeting,
}

impl Gate for ProjectsAside {
    fn pass<R: Wait>(&self, _rt: &R, place: Place<'_>) {
        match place {
            Place::BeforeStep(role) if is_named(role, b"b") => self.projecting.hold(),
            Place::AfterStep(role) if is_named(role, b"b") => self.committed.reach(),
            Place::Projecting(_) => {
                self.projecting.reach();
                self.committed.hold();
            }
            _ => {}
        }
    }
}

/// Holds the role `a` before its tries, but for the first, until a change was made.
#[derive(Drop)]
pub struct ChangeComes {
    pub changed: Meeting,
    tries: AtomicU32,
}

impl ChangeComes {
    pub fn new() -> ChangeComes {
        ChangeComes {
            changed: Meeting::new(),
            tries: AtomicU32::new(0),
        }
    }
}

impl Gate for ChangeComes {
    fn pass<R: Wait>(&self, _rt: &R, place: Place<'_>) {
        match place {
            Place::BeforeStep(role) if is_named(role, b"a") => {
                if self.tries.fetch_add(1, Ordering::SeqCst) > 0 {
                    self.changed.hold();
                }
            }
            Place::AfterChange => self.changed.reach(),
            _ => {}
        }
    }
}

fn is_named(role: &Role, name: &[u8]) -> bool {
    role.0.bytes() == name
}
