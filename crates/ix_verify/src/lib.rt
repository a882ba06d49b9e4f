//! Verifies CARv1 files, each section by its own bytes and everything below the roots, and describes files.
//!
//! `verify` checks every section of the file, also those whose CID occurred before, and then follows all
//! links from the roots in the header, in one walk. The findings are a function of the bytes, however many
//! threads hash. All findings are counted, and as many of the first are kept as the caller asks for.
//!
//! `verify_beside` follows links into other files too: a CID that the file lacks is looked up in them, in their
//! order. Of the copies of a block the first counts, or the first that is sound. The bytes of all files are
//! shared, so one can serve many verifications. An observer is notified of how far a verification is.
//!
//! `verify_job` walks a job in place of everything below the roots, as that of the roots and a selector.
//!
//! ```rust
//! let found = verify(rt, alloc, car, threads, Scope::Graph, 20)?;
//! for section in &found.unsound.first {
//!     println!(rt; "{} {}", section.place, section.verdict)?;
//! }
//! println!(rt; "{} in all: the file is {}", found.unsound.count, found.outcome())?;
//!
//! let library = OtherFile::read(alloc, CarBytes::new(alloc, bytes, payload)?)?;
//! let allowed = AllowMissing::none();
//! let beside = Beside { others: &[library], copies: Copies::First, allowed, observer: &Unobserved };
//! let found = verify_beside(rt, alloc, &update, beside, threads, 20)?;
//!
//! let (store, _) = load_beside(rt, alloc, &update, &[library], Copies::First, threads.get())?;
//! let walk = JobWalk { store: &store, job: &job, allowed, observer: &Unobserved };
//! let found = verify_job(rt, alloc, &update, walk, threads, 20)?;
//! ```
//!
//! `summary_of` describes a file and its contents without hashing.
//!
//! ```rust
//! let summary = summary_of(rt, alloc, &file, 0, 4)?;
//! println!(rt; "{} sections", summary.sections)?;
//! ```
#![tactic(auto)]

mod everything;
mod file;
mod found;
pub mod law;
mod names;
mod noted;
mod observer;
mod other_file;
mod reach;
mod repeats;
mod section;
mod summary;
mod tally;

pub use file::{JobWalk, verify, verify_beside, verify_job, verify_sections};
pub use found::{Findings, Outcome, Scope, Unsound};
pub use names::{codec_name, hash_name};
pub use noted::Noted;
pub use observer::{Observer, Unobserved};
pub use other_file::{Beside, OtherFile, load_beside};
pub use section::judge;
pub use summary::{Summary, summary_of};
pub use tally::Tally;
