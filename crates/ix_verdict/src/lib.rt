//! Verdicts on CIDs and their bytes.
//!
//! A verdict is the first that holds. The parts of a CID say which bytes its verdict needs: none, those
//! inline in an identity CID, or a block. Whether a block has the CID's digest and whether the bytes
//! decode then gives the verdict.
//!
//! ```rust
//! let parts = cid.parts();
//! let verdict = match bytes_needed(&parts) {
//!     Needed::Nothing(verdict) => verdict,
//!     Needed::Digest => Verdict::of_inline(malformed),
//!     Needed::Block(function) => {
//!         Verdict::of_block(has_digest(function, parts.digest, block), malformed)
//!     }
//! };
//! ```
//!
//! `AllowMissing` says which links may lead to blocks that aren't there, by the codecs of their CIDs.
#![tactic(auto)]

mod allow_missing;
mod digest;
mod needed;
mod verdict;

pub use allow_missing::{AllowMissing, UnknownCodec};
pub use digest::has_digest;
pub use needed::{Needed, bytes_needed};
pub use verdict::Verdict;
