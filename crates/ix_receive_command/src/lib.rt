//! The command `receive`: an archive is checked as it arrives, and what is checked is written.
//!
//! It has its row of the table of commands, `SPEC`, and `run`, which returns the status. The decision is
//! that of `StreamReceiver` of `ix_own_archive`, whose contracts say which streams it accepts. Tests, and
//! no contract, show what is read, written and printed.
#![tactic(auto)]

mod asked;
mod json_receive;
mod path_watch;
pub mod receive;
mod rejection;
mod report;
mod spec;
mod stream;
mod visit_paths;
