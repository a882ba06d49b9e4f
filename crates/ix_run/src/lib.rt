//! Runs over a block file and a job file, the archive of one root, and the lines of errors.
//!
//! `prepare` reads both files, or returns the first error; `load_jobs` reads the jobs that are chosen.
//! `run` walks each job and writes its archive; `run_one` does so with one job on one thread, and
//! `run_one_without` without the blocks that a receiver has. In every schedule: the report and the
//! status are those of the jobs' results. Each archive, over a writer that had no bytes, is that of its job if it ends with Done,
//! and else a prefix of it.
//!
//! ```rust
//! let (store, jobs) = prepare(alloc, car, job_file)?;
//! let mut writers = Vec::with_capacity(alloc, jobs.len())?;
//! for _ in 0..jobs.len() {
//!     writers.push(Vec::new(alloc))?;
//! }
//! let plan = Plan { walkers: 4, queue: 1024, lane: 256 };
//! let out = run(rt, alloc, &store, &jobs, writers, 4, plan)?;
//! println!(rt; "{} bytes of report, status {}", out.report.len(), out.status)?;
//! ```
//!
//! The command `root`: `root_of_text` parses the root, `printed_root` returns what the command prints,
//! from a CARv1 file in hex to hex, and `export_root` is the same over bytes. Each returns the first
//! error, by `RunFault`.
//!
//! ```rust
//! let root = root_of_text(alloc, text)?;
//! let line = printed_root(alloc, root, input)?;
//! print!(rt; "{line}")?;
//! ```
#![tactic(auto)]

mod command;
mod complete;
mod execution;
mod fault;
mod input;
mod loading;
mod observer;
mod preparation;
mod root;

pub use command::{printed_root, root_of_text};
pub use complete::is_complete;
pub use execution::{RunInput, RunOut, run, run_jobs, run_observed, run_one, run_one_without};
pub use fault::{RunFault, fault_line};
pub use loading::{JobChoice, load_jobs};
pub use observer::{Observed, Observer, Unobserved};
pub use preparation::prepare;
pub use root::export_root;
