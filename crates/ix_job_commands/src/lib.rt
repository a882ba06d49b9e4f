//! The commands about job files: `job`, `check-jobs` and `selector`. Each has its row of the table of commands, `SPEC`, and
//! `run`, which returns the status. Tests, and no contract, show what they print.
#![tactic(auto)]

pub mod check_jobs;
pub mod job;
mod json_faults;
pub mod selector;
