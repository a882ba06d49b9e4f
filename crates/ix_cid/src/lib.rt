//! Content identifiers: varints, CIDs and their texts.
//!
//! A CID is read exactly if the front of the bytes is one, and otherwise the first error is
//! returned. No CID begins another. A CIDv1 and its base32 text determine each other. If memory
//! runs out, appending leaves everything as it was. A long CID is a share of bytes that contain it,
//! and so is each copy of it.
//!
//! ```rust
//! let text = "bafkreif2pall7dybz7vecqka3zo24irdwabwdi4wc55jznaq75q7eaavvu";
//! let cid = Cid::from_text(alloc, text)?;
//! let (same, length) = Cid::read(alloc, cid.as_bytes())?;
//! assert!(rt; same == cid && length == 36 && cid.codec() == code::RAW);
//! ```
#![tactic(auto)]

mod base32;
mod cid;
mod cid_ref;
pub mod code;
mod fault;
mod hash_function;
mod held;
mod hexadecimal;
pub mod law;
mod parts;
pub mod text_law;
mod varint;

pub use cid::Cid;
pub use cid_ref::CidRef;
pub use fault::{CidFault, VarintFault};
pub use hash_function::HashFunction;
pub use parts::{Parts, parts_at};
pub use varint::{push_varint, read_varint};
