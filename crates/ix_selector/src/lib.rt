//! IPLD selectors, and stepping along a path.
//!
//! Data are read as a selector exactly if they are one of its spellings and it obeys the rules on
//! edges and nesting; otherwise the first error is returned. A residual is what remains of a
//! selector at a place: a step can be taken exactly if the selector enters that child. It borrows the
//! selector, and an owned residual doesn't.
//!
//! ```rust
//! // {"f":{"f>":{"album":{".":{}}}}}: the field `album` alone.
//! let block = b"\xa1\x61f\xa1\x62f>\xa1\x65album\xa1\x61.\xa0";
//! let tree = decode(alloc, block)?;
//! let selector = Selector::read(alloc, &tree)?;
//! let start = Residual::start(alloc, &selector)?;
//! assert!(rt; start.step(alloc, &Step::Key(b"album"))?.is_some());
//! assert!(rt; start.step(alloc, &Step::Key(b"cover"))?.is_none());
//! ```
#![tactic(auto)]

mod fault;
mod kept;
pub mod law;
mod merge;
mod owned_residual;
mod reached;
mod read;
mod reentry;
mod residual;
mod sel;
mod selector;
mod selector_node;
mod state;
mod step;
mod stepping;
mod steps;

pub use fault::{Form, SelFault};
pub use owned_residual::OwnedResidual;
pub use residual::Residual;
pub use selector::Selector;
pub use step::Step;
pub use steps::Steps;
