//! The job file, a job and its line, the report, and have-lists.
//!
//! A job file is read as its jobs, or rejected with its first error and the number of its line. A file
//! with more jobs than one run takes is read by parts; every part reports the errors of the whole file.
//! `report` and `status` are those of the definitions for the jobs and their results. Where blocks may be
//! missing, `separate_absent` takes their skips out of the results, and `report_with_absent` has their
//! numbers.
//!
//! ```rust
//! let root = "bafkreif2pall7dybz7vecqka3zo24irdwabwdi4wc55jznaq75q7eaavvu";
//! let file = format!(in alloc; "a {root} 1 a1612ea0\n")?;
//! let jobs = read_jobs(alloc, file.as_bytes())?;
//! assert!(rt; jobs.len() == 1 && jobs.iter().all(|job| job.name() == "a"));
//! ```
//!
//! `job_line_up_to` makes a line of the fields of a job: a job file of that line has this job alone.
//! `jobs_of_words` makes the job without a file. Fields that are rejected have the error of a job file, or
//! that of their selector.
//!
//! ```rust
//! let line = job_line_up_to(alloc, "a", "bafkqaaa", "1", 1, b"{\".\":{}}")?;
//! assert!(rt; line.as_str() == "a bafkqaaa 1 a1612ea0\n");
//! ```
//!
//! A have-list has the CIDs of the blocks that a receiver says it has. It is cut into lines at `0a`, and
//! one `0d` at the end of a line is dropped. Empty lines and lines that begin with `#` are ignored,
//! whatever bytes they have. Each other line is a CIDv1 in base32. A list is trusted as given: nothing is
//! hashed for it.
//!
//! ```rust
//! let cids = listed_cids(alloc, b"# what the peer has\nbafkqaaa\n")?;
//! insert_listed(&mut known, &store, cids.as_slice())?;
//! ```
#![tactic(auto)]

mod absent;
mod cut;
mod fault;
mod field;
mod job_line;
mod job_list;
mod jobs;
pub mod law;
mod line;
mod list;
mod list_fault;
mod part;
mod part_jobs;
mod part_list;
mod places;
mod results;
mod selector_word;
mod worded_job;

pub use absent::{Separated, is_root, separate_absent};
pub use fault::{JobErrorKind, JobsFault};
pub use field::{limit_in, selector_in};
pub use job_line::{LineFault, job_line_up_to};
pub use jobs::{read_jobs, read_jobs_up_to, split_line, with_links_once};
pub use list::listed_cids;
pub use list_fault::{ListErrorKind, ListFault, list_fault_line};
pub use part::Part;
pub use part_jobs::read_jobs_part_up_to;
pub use places::{insert_listed, with_listed};
pub use results::{JobResult, report, report_with_absent, status};
pub use selector_word::{SelectorWord, selector_hex};
pub use worded_job::{JobWords, jobs_of_words};
