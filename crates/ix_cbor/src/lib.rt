//! Strict DAG-CBOR: nodes, trees, decoding and encoding.
//!
//! A node has at most one spelling. `decode` returns a tree exactly if the block is the spelling of
//! its root, and otherwise the first error with its offset; `encode` returns the spelling. `check`
//! gives the same answer as `decode` and allocates nothing. `read_front`, `read_key` and
//! `skip_item` read one item in place, without a tree.
//!
//! ```rust
//! // A list of 1 and null.
//! let block = b"\x82\x01\xf6";
//! let tree = decode(alloc, block)?;
//! assert!(rt; matches!(tree.root(), Node::List(items) if items.len() == 2));
//! assert!(rt; encode(alloc, &tree)?.as_slice() == block.as_slice());
//! ```
#![tactic(auto)]

mod canonical;
mod codec;
mod fault;
mod front;
mod head;
mod information;
pub mod law;
mod leaf;
mod major;
mod node;
mod read;
mod skip;
mod tree;
mod width;
mod write;

pub use codec::{decode, encode};
pub use fault::{CborFault, CborKind};
pub use front::{Front, read_front, read_key};
pub use head::{compare_keys, push_head};
pub use major::Major;
pub use node::Node;
pub use skip::{check, skip_item};
pub use tree::Tree;
pub use write::push_link;
