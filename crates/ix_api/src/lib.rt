//! The single-threaded in-memory API: block stores, jobs, one export, the check of an archive, error
//! messages.
//!
//! Blocks are added one by one or read from CARv1 files; a job is read from a line of a job file or made
//! from its parts. An export returns the archive, the counts, the skips and the report; `export_without`
//! leaves out the blocks that a receiver has. `check` decides whether the bytes of an archive are a job's
//! own. No call starts a thread or waits. Errors are lines of text, those of the program if it rejects the
//! same.
//!
//! ```rust
//! let mut store = read_store(alloc, car)?;
//! add_car(alloc, &mut store, second)?;
//! let job = job_of_line(alloc, b"a bafkreif2pall7dybz7vecqka3zo24irdwabwdi4wc55jznaq75q7eaavvu 1 a1612ea0")?;
//! let out = export(alloc, &store, &job)?;
//! assert!(rt; out.result.end == End::Done);
//! ```
#![tactic(auto)]

mod checked;
mod exported;
mod failure;
mod input;
mod job_parts;
mod object;
mod request;

pub use checked::{Checked, Rejection, check};
pub use exported::{Exported, export, export_request, export_without};
pub use failure::Failure;
pub use input::{Added, add_block, add_car, job_of_line, read_store, selector_of_json};
pub use ix_own_archive::Counts;
pub use job_parts::{PartsFault, job_of_parts};
pub use object::{Object, Piece, freeze, share};
pub use request::Request;
