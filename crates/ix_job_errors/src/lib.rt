//! Explains why a job file, or the fields of a job, are rejected, and what would be right.
//!
//! `job_faults_up_to` returns no error exactly if `read_jobs_up_to` accepts the file. Otherwise the first is
//! that of `read_jobs_up_to`, followed by each later line that is faulty by itself or for its name. `fault_lines`
//! returns them as text, `line_fault_words` and `job_fault_words` do so for the fields of one job,
//! `cid_fault_words` for a CID, and `lacks_an_edge` finds a recursion of a selector that never recurs.
//!
//! ```rust
//! let faults = job_faults_up_to(alloc, b"a zabc 1 a1612ea0", 1)?;
//! let lines = fault_lines(alloc, b"a zabc 1 a1612ea0", faults.as_slice())?;
//! ```
#![tactic(auto)]

mod edges;
mod faults;
mod fields;
mod lines;
mod words;

pub use edges::lacks_an_edge;
pub use faults::{job_faults_of_part, job_faults_up_to};
pub use fields::{job_fault_words, line_fault_words};
pub use lines::fault_lines;
pub use words::cid_fault_words;
