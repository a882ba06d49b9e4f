//! Checks of visits.
//!
//! A check returns the verdict on a visit's CID over a store: whether the codec and the hash
//! function are known, and whether the block is there and its hash matches, or the CID is an
//! identity CID. It records each visit that it checked: `ShaCheck` keeps a receipt of each, and
//! `PlainCheck` keeps nothing, so only contracts see what it checked. If memory runs out a check
//! returns an error and records nothing.
//!
//! ```rust
//! let mut check = ShaCheck::new(alloc);
//! for item in Walk::new(alloc, &store, &job, 0)? {
//!     let verdict = check.check(alloc, &store, &item?)?;
//!     println!(rt; "{verdict:?}")?;
//! }
//! println!(rt; "{} visits", check.receipts().len())?;
//! ```
#![tactic(auto)]

mod check;
mod history;

pub use check::{Check, PlainCheck, ShaCheck, verdict_in};
pub use history::History;
pub use ix_verdict::Verdict;
