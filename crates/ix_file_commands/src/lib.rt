//! The commands about whole CARv1 files: `inspect` and `verify`. Each has its row of the table of commands, `SPEC`, and
//! `run`, which returns the status. Tests, and no contract, show what they print.
#![tactic(auto)]

mod car_input;
mod exact;
pub mod inspect;
mod job_archives;
mod json_inspect;
mod json_line;
mod json_verify;
pub mod verify;
mod verify_report;
mod verify_spec;
mod wanted;
