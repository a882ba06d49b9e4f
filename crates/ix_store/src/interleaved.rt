//! The shares of the threads, and the results in order.

ghost use Rattle.std.specs.Prelude.{◌≡◌, ◌<◌, ℕ, vec_len, IfOk};
ghost use Rattle.std.specs.Fork.{GivesEach};
ghost use Rattle.ix_store.specs.Shares.{IsShare};

use std::alloc::{AllocError, Global};
use std::thread::{Threads, map_indices};

// What a thread found for its share of the numbers.
type Share<X> = Result<Vec<X>, AllocError>;

/// Calls a function at each number below `count`, and returns the results in order. At most `threads`
/// threads call it, at least one, and each is given every so many numbers.
pub fn map_interleaved<R: Threads + Sync, X: Copy + Send + Drop, F: Fn(usize) -> X + Sync>(
    rt: &R,
    alloc: Global,
    count: usize,
    threads: usize,
    f: &F,
) -> Result<Vec<X>, AllocError>
    requires { (i : ℕ) → i < count → F.pre f.now i }
    ensures len { IfOk result (λ v. vec_len v ≡ count) }
    ensures each { IfOk result (λ v. GivesEach F.Fn f.now count v.items) }
{
    let step = threads.min(count).max(1);
    let find = move |from: usize| -> Share<X>
        requires { (0 < step) × ((i : ℕ) → i < count → F.pre f.now i) }
        ensures { IfOk result (λ v. IsShare F.Fn f.entry.now count step from v.items) }
    { share_of(alloc, count, step, from, f) };
    let shares = map_indices(rt, alloc, step, &find)?;
    let mut found = Vec::with_capacity(alloc, count)?;
    for number in 0..count {
        match &shares[number % step] {
            Ok(share) => found.push(share[number / step])?,
            Err(_) => return Err(AllocError),
        }
    }
    Ok(found)
}

// Calls a function at `from` and at every so many numbers after it, below `count`.
fn share_of<X: Copy + Drop, F: Fn(usize) -> X>(
    alloc: Global,
    count: usize,
    step: usize,
    from: usize,
    f: &F,
) -> Share<X>
    requires step { 0 < step }
    requires accepts { (i : ℕ) → i < count → F.pre f.now i }
    ensures { IfOk result (λ v. IsShare F.Fn f.now count step from v.items) }
{
    let mut found = Vec::with_capacity(alloc, count.div_ceil(step))?;
    let mut number = from;
    while number < count {
        found.push(f(number))?;
        number = number.saturating_add(step);
    }
    Ok(found)
}
