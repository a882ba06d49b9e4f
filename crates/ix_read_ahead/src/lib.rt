//! An input that a thread reads ahead of its use.
//!
//! While bytes that came are worked on, the thread reads on, as far as a bound. What is taken next is all
//! that it read meanwhile, and nothing waits for more than the first bytes that come. So where bytes come
//! fast there are many at once, and where they come slowly each is there as soon as it came.
//!
//! ```rust
//! let mut input = ReadAhead::start(rt, alloc, rt.reader(), 4 * 1024 * 1024)?;
//! let mut piece = Vec::new(alloc);
//! for _ in 0..u64::MAX {
//!     input.take(rt, &mut piece)?;
//!     if piece.is_empty() {
//!         break;
//!     }
//!     use_bytes(piece.as_slice());
//! }
//! ```
#![tactic(auto)]

mod read_ahead;
mod waiting;

pub use read_ahead::ReadAhead;
