//! Backoff of a thread that waits for another: first it yields its core, and then it sleeps, longer
//! each time.

use std::sync::Wait;
use std::thread;
use std::thread::Parker;
use std::time::Duration;

// How often a thread yields before it sleeps. Each time it runs it reads what the working threads
// write, which slows them down; so it soon sleeps.
const YIELDS: u32 = 2;

// The first sleep, in microseconds.
const MIN_SLEEP_US: u64 = 32;

// The longest sleep that is requested, in microseconds. The system may make it longer.
const MAX_SLEEP_US: u64 = 1_000;

/// A backoff: one wait for another thread, from its start.
#[derive(Drop)]
pub struct Backoff {
    // How many yields are left.
    yields: u32,
    // The next sleep, in microseconds.
    sleep: u64,
}

impl Backoff {
    /// Creates a backoff at its start.
    pub fn new() -> Backoff {
        Backoff {
            yields: YIELDS,
            sleep: MIN_SLEEP_US,
        }
    }

    /// Lets other threads run: yields at the first calls, and then requests a sleep that doubles
    /// with each call, up to a millisecond.
    pub fn snooze<R: Wait>(&mut self, rt: &R) {
        if self.yields > 0 {
            self.yields -= 1;
            thread::yield_now();
            return;
        }
        Parker::new().park_timeout(rt, Duration::from_micros(self.sleep));
        self.sleep = self.sleep.saturating_mul(2).min(MAX_SLEEP_US);
    }
}
