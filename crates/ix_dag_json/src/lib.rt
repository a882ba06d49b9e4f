//! Blocks as DAG-JSON.
//!
//! A block of DAG-CBOR, or one item of it, is printed as the DAG-JSON of its data, and bytes as a bytes
//! node. The keys of a map are in the order of their bytes. What DAG-JSON can't express, such as text
//! that is not UTF-8, is an error with its path.
//!
//! ```rust
//! // The list of 1 and the byte 255.
//! let block = b"\x82\x01\x41\xff";
//! let text = text_of_block(alloc, block, Layout::Compact)?;
//! assert!(rt; text.as_str() == "[1,{\"/\":{\"bytes\":\"/w\"}}]");
//! ```
#![tactic(auto)]

mod base58;
mod fault;
mod hidden;
mod item;
mod leaf;
mod order;
mod output;
mod print;
mod text;

pub use fault::{DagJsonFault, Part, Step, Wrong};
pub use hidden::escape_hidden;
pub use output::Layout;
pub use text::{text_of_block, text_of_bytes};
