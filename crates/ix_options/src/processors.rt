//! How many threads there are at most.

ghost use Rattle.std.specs.Prelude.{◌≤◌};

use std::thread::{self, Threads};

// The most threads of a command whose number of threads depends on the processors.
const MOST_THREADS: usize = 64;

// How many processors are assumed where the system doesn't say.
const ASSUMED: usize = 4;

/// Returns how many processors the program may use, 1 to 64.
pub fn available_processors<R: Threads>(rt: &R) -> usize
    ensures { (1 ≤ result) × (result ≤ 64) }
{
    let count = match thread::available_parallelism(rt) {
        Ok(processors) => processors.get(),
        Err(_) => ASSUMED,
    };
    count.clamp(1, MOST_THREADS)
}

/// Returns this number of threads, or the number of processors if that is less.
pub fn at_most_processors<R: Threads>(rt: &R, asked: usize) -> usize {
    match thread::available_parallelism(rt) {
        Ok(processors) => asked.min(processors.get()),
        Err(_) => asked,
    }
}
