//! A place that holds a thread until another has come there.

use std::sync::atomic::{AtomicBool, Ordering};

// How often a held thread looks whether it may go on.
const TURNS: u32 = 100_000_000;

/// A place that a thread comes to, and for which another waits.
#[derive(Drop)]
pub struct Meeting {
    reached: AtomicBool,
    met: AtomicBool,
}

impl Meeting {
    pub fn new() -> Meeting {
        Meeting {
            reached: AtomicBool::new(false),
            met: AtomicBool::new(false),
        }
    }

    /// The thread has come to the place.
    pub fn reach(&self) {
        self.reached.store(true, Ordering::SeqCst);
    }

    /// Holds the thread that waits until the other has come, or its turns have run out.
    pub fn hold(&self) {
        for _ in 0..TURNS {
            if self.reached.load(Ordering::SeqCst) {
                self.met.store(true, Ordering::SeqCst);
                return;
            }
        }
    }

    /// Whether the thread that waited saw that the other had come.
    pub fn is_met(&self) -> bool {
        self.met.load(Ordering::SeqCst)
    }
}
