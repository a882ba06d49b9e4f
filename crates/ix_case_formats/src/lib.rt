//! The words of cases about bytes alone: varints, CIDs, blocks, trees and selectors. Each function
//! that a word stands for takes the case's input and gives its answer, or an error for an input
//! that says nothing.
//!
//! It has no contracts: its answers are compared with those that the cases expect.
//!
//! ```rust
//! let answer = selectors::notation(alloc, "{\".\":{}}")?;
//! assert!(rt; answer.as_str() == "a1612ea0");
//! ```
#![tactic(auto)]

pub mod cids;
mod names;
mod nodes;
mod notation;
pub mod selectors;
pub mod texts;
pub mod trees;

pub use names::Names;
