//! An event that one side waits for and another signals.

use std::sync::atomic::{AtomicBool, AtomicU32, Ordering};
use std::thread;

/// How many times a side checks whether the event has started.
pub const TURNS: u32 = 10_000_000;

/// An event that is to start while another side waits for it.
#[derive(Drop)]
pub struct Awaited {
    count: AtomicU32,
    wanted: u32,
    waits: AtomicU32,
    is_missed: AtomicBool,
}

impl Awaited {
    /// It counts as started once it was signaled so many times.
    pub fn new(wanted: u32) -> Awaited {
        Awaited {
            count: AtomicU32::new(0),
            wanted,
            waits: AtomicU32::new(0),
            is_missed: AtomicBool::new(false),
        }
    }

    /// Signals it once more.
    pub fn signal(&self) {
        self.count.fetch_add(1, Ordering::SeqCst);
    }

    /// Returns whether it has started.
    pub fn has_begun(&self) -> bool {
        self.count.load(Ordering::SeqCst) >= self.wanted
    }

    /// Waits until it has started, for so many turns, and records a miss if it never does.
    pub fn wait(&self, turns: u32) {
        self.waits.fetch_add(1, Ordering::SeqCst);
        for _ in 0..turns {
            if self.has_begun() {
                return;
            }
            thread::yield_now();
        }
        self.is_missed.store(true, Ordering::SeqCst);
    }

    /// Returns whether a side waited for it, and it never started.
    pub fn is_missed(&self) -> bool {
        self.is_missed.load(Ordering::SeqCst)
    }

    /// Returns whether one side waited for it and didn't miss it.
    pub fn is_met(&self) -> bool {
        self.waits.load(Ordering::SeqCst) == 1 && !self.is_missed()
    }
}
