//! The report of jobs as JSON: one object per line.
//!
//! `push_job` appends the object of a job: its name, how it ended, its counts, where its archive is, and
//! what was skipped. `push_total` appends the object with the totals, and `push_error` that of an error. Each is one line, whatever bytes a
//! path has, and a reader of JSON finds the same tokens in it again.
//!
//! ```rust
//! let place = ArchivePlace::File("out/whole.car");
//! let notes = SkipNotes { absent: None, paths: &[], causes: &[] };
//! let text = push_job(alloc, Vec::new(alloc), job, result, notes, place)?;
//! let text = push_total(text, results)?;
//! ```
#![tactic(auto)]

mod error;
mod job;
mod line;
mod members;
mod place;
mod skips;
mod total;

pub use error::{ErrorNote, push_error};
pub use job::push_job;
pub use line::end_line;
pub use members::{push_cid, push_number, push_text, push_verdict};
pub use place::ArchivePlace;
pub use skips::{SkipCause, SkipNotes};
pub use total::push_total;
