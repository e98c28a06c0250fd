//! The sign for which the threads of a run wait before they begin.

use std::sync::{Condvar, Mutex, Wait};

/// Tells threads once, all the same, whether to begin or to go home. No clause rests on it.
#[derive(Drop)]
pub(crate) struct Sign {
    told: Mutex<Option<bool>>,
    given: Condvar,
}

impl Sign {
    /// A sign that is still to be given.
    pub(crate) fn new() -> Sign {
        Sign {
            told: Mutex::new(None),
            given: Condvar::new(),
        }
    }

    /// Tells whether to begin. What was told first stays.
    pub(crate) fn give<R: Wait>(&self, rt: &R, begin: bool) {
        let mut told = self.told.lock(rt);
        if told.is_none() {
            *told = Some(begin);
        }
        drop(told);
        self.given.notify_all();
    }

    /// Waits until the sign is given, and says whether to begin.
    pub(crate) fn begins<R: Wait>(&self, rt: &R) -> bool {
        let told = self
            .given
            .wait_while(rt, self.told.lock(rt), |told| told.is_none());
        *told == Some(true)
    }
}
