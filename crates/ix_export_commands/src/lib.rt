//! The commands that export: `get`, `jobs` and `root`. Each has its row of the table of commands, `SPEC`, and `run`, which
//! returns the status.
//!
//! The status of `get` says whether the job is done and no root was skipped, which is proved. Tests, and no contract, show
//! the rest.
#![tactic(auto)]

pub mod get;
pub mod jobs;
mod json_jobs;
pub mod root;
mod skip_paths;
