//! Which blocks of a store a receiver has, by what it has itself, its base.
//!
//! The known blocks of a base are the first copies of its CIDs that are sound (`KnownBlocks`, `knows`). `Base`
//! finds which of them a store has by the files of a receiver, `known_places_alone` by a store of its blocks.
//!
//! The files of a `Base` are read one after the other, a batch of sections at a time, and no index of them is made: each
//! section is looked up in the store by its CID. A section is hashed only if the store has a block under its
//! CID, and no section before it decided whether the receiver has that block. The first copy decides: a block
//! is known if the first section with its CID, over all files in their order, is sound.
//!
//! ```rust
//! let base = Base::new(alloc, &store);
//! let base = base.with_file(rt, alloc, first.as_slice(), payload, threads)?;
//! let known = base.into_known();
//! ```
#![tactic(auto)]

mod base;
mod blocks;
mod files;
mod finding;
mod known;
pub mod law;
mod places;

pub use base::Base;
pub use blocks::KnownBlocks;
pub use files::known_of;
pub use known::{known_places_alone, knows};
