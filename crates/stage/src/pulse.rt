//! Waiting until what lies under the lock was changed. No clause rests on it.

use std::sync::Wait;
use std::sync::atomic::{AtomicBool, AtomicU64, Ordering};

/// Tells those that wait of each hold that concerns them.
#[derive(Drop)]
pub(crate) struct Pulse {
    // How many such holds have ended.
    count: AtomicU64,
    // How many threads sleep, or are about to.
    sleepers: AtomicU64,
    // Whether there is nothing more to wait for.
    over: AtomicBool,
}

impl Pulse {
    pub(crate) fn new() -> Pulse {
        Pulse {
            count: AtomicU64::new(0),
            sleepers: AtomicU64::new(0),
            over: AtomicBool::new(false),
        }
    }

    /// One hold more has ended.
    pub(crate) fn beat(&self) {
        self.count.fetch_add(1, Ordering::SeqCst);
        if self.sleepers.load(Ordering::SeqCst) > 0 {
            self.count.wake_all();
        }
    }

    /// One hold more has ended, after which nobody need wait.
    pub(crate) fn end(&self) {
        self.over.store(true, Ordering::SeqCst);
        self.beat();
    }

    /// How many holds have ended.
    pub(crate) fn count(&self) -> u64 {
        self.count.load(Ordering::SeqCst)
    }

    /// Waits until more than `count` holds have ended, or it is over.
    pub(crate) fn wait_past<R: Wait>(&self, rt: &R, count: u64) {
        for _ in rt.forever() {
            if self.is_past(self.count(), count) {
                return;
            }
            self.sleep(rt, count);
        }
    }

    fn is_past(&self, now: u64, count: u64) -> bool {
        now > count || self.over.load(Ordering::SeqCst)
    }

    /// Sleeps while no more than `count` holds have ended. The thread is counted before it looks at
    /// the number of holds, and who ends one counts it before it looks who sleeps: so who sleeps is
    /// woken.
    fn sleep<R: Wait>(&self, rt: &R, count: u64) {
        self.sleepers.fetch_add(1, Ordering::SeqCst);
        let now = self.count();
        if !self.is_past(now, count) {
            self.count.park(rt, (now & 0xffff_ffff) as u32);
        }
        self.sleepers.fetch_sub(1, Ordering::SeqCst);
    }
}
