//! An in-memory blockstore.
//!
//! A store is a list of blocks under distinct CIDs. Once it is settled it caches two answers for a
//! block, whether it has its CID's digest and whether it decodes, so that each is computed once for
//! all threads. A builder takes sections as they come and finds by threads which of them are the
//! first of their CIDs. Another keeps all of them, and of the copies of a block prefers the first that
//! is sound.
//!
//! ```rust
//! let mut store = Store::new(alloc);
//! store.add(cid.try_clone(alloc)?, block)?;
//! store.enable_memo()?;
//! if let Some(place) = store.find(&cid) {
//!     println!(rt; "{} bytes, sound: {}", store.bytes(place).len(), store.hash_matches(place))?;
//! }
//! ```
//!
//! `map_interleaved` calls a function at the numbers from zero on, by threads that take the numbers in
//! turn: with three threads one is given 0, 3, 6 .., one 1, 4, 7 .., and one 2, 5, 8 .. So if what a call
//! costs depends on where in a list its item is, as in a file whose large blocks are first, each thread
//! has about the same to do.
#![tactic(auto)]

mod builder;
mod cursor;
mod digest;
mod fill;
mod index;
mod interleaved;
mod judge;
mod judged;
mod memo;
mod memo_rule;
mod places;
mod sound;
mod store;
mod stored;
mod table;
mod verify;

pub use builder::StoreBuilder;
pub use cursor::Cursor;
pub use interleaved::map_interleaved;
pub use judge::verdict_on;
pub use places::PlaceSet;
pub use sound::{SoundBuilder, SoundStore};
pub use store::Store;
pub use stored::verdict_at;
pub use table::has_fault;
