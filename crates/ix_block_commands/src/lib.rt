//! The commands about one block: `block` and `show`. Each has its row of the table of commands, `SPEC`, and `run`, which
//! returns the status. Tests, and no contract, show what they print.
#![tactic(auto)]

pub mod block;
mod one_block;
pub mod show;
