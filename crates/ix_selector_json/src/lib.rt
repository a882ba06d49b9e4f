//! Selectors as JSON, with the keys of the IPLD Selectors specification, and in hex.
//!
//! Both conversions use the same data: JSON of a selector becomes the hex of its one encoding and a line
//! end, and that becomes JSON again. A text is rejected for a reason, each with its own error, and
//! `fault_line` returns the line that the program prints for it. `json_fault_line` and `hex_fault_line`
//! also name the part of a selector that is rejected.
//!
//! ```rust
//! let line = hex_of_json(alloc, b"{\".\":{}}")?;
//! assert!(rt; line.as_str() == "a1612ea0\n");
//! assert!(rt; json_of_hex(alloc, "a1612ea0")?.as_str() == "{\".\":{}}\n");
//! ```
#![tactic(auto)]

mod command;
mod direct;
mod explain;
mod fault;
mod location;
mod place;
mod print;
mod read;

pub use command::{hex_of_json, json_of_hex};
pub use explain::{hex_fault_line, json_fault_line};
pub use fault::{NotationFault, fault_line};
