//! The paths of visits.
//!
//! `trace` repeats the walk of a job up to the last of some visits and returns the path of each: the
//! root's CID and the steps from there, keys of maps and indexes of lists, as a text that
//! `RootPath::parse` of `ix_path` reads. `with_paths` ends each line of a report that has a skip with the
//! path of its visit.
//!
//! ```rust
//! let paths = trace(alloc, &store, &job, &[5, 8])?;
//! if let Some(Some(path)) = paths.first() {
//!     println!(rt; "visit 5 is at {path}")?;
//! }
//! ```
#![tactic(auto)]

mod expansion;
mod item;
mod report;
mod segments;
mod text;
mod tracer;
mod visits;

pub use report::with_paths;
pub use text::path_text;
pub use visits::trace;
