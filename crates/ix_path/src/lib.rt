//! Paths: their text, where one leads (IPLD pathing), and the selector along one (IPLD Selectors).
//!
//! A path is a root's CID and segments, parsed from text as in `bafy../album/0` or
//! `ipfs://bafy../album/0`. `resolve` follows it through sound blocks: a segment is a key of a map or
//! an index of a list, and links are crossed. It returns the blocks on the way, the steps, and the
//! node at the end, in place in its block, or what there is instead.
//!
//! ```rust
//! let path = RootPath::parse(alloc, "ipfs://bafkqaaa/album/0", MOST_SEGMENTS)?;
//! let found = resolve(alloc, &store, &path.root, path.segments.as_slice())?;
//! match found.end {
//!     Ok(node) => println!(rt; "found in block {}", found.blocks.len())?,
//!     Err(obstacle) => println!(rt; "segment {} is not there", found.steps.len())?,
//! }
//! ```
//!
//! The selector along a path goes from a root along the steps of the path, and at their end is
//! everything, the node alone, or a given selector.
//!
//! ```rust
//! // {"f":{"f>":{"album":{"i":{"i":0,">":{".":{}}}}}}}, as DAG-CBOR.
//! let steps = [Step::Key(b"album"), Step::Pos(0)];
//! let block = selector_along(alloc, &steps, PathEnd::Node)?;
//! ```
#![tactic(auto)]

mod child;
mod end;
mod error;
mod item;
pub mod law;
mod malformed;
mod node;
mod nothing;
mod obstacle;
mod path;
mod percent;
mod resolution;
mod segments;
mod selector;
mod selector_fault;
mod selector_node;
mod step;
mod steps;

pub use child::index_of;
pub use end::PathEnd;
pub use error::PathError;
pub use malformed::{cause_word, fault_in, malformed_fault};
pub use node::{NodeBytes, PathNode};
pub use obstacle::{Kind, Obstacle};
pub use path::{GREATEST_SEGMENTS, MOST_SEGMENTS, RootPath};
pub use resolution::{End, MOST_LINKS, Resolution, resolve};
pub use segments::selector_by_segments;
pub use selector::selector_along;
pub use selector_fault::PathSelectorFault;
pub use step::PathStep;
pub use steps::steps_along;
