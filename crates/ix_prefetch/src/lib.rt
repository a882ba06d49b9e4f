//! The expansions of a job, made ahead of its walk by several threads.
//!
//! An expansion is the list of the links in a block that a residual of the selector enters. A table
//! has those of one job over one store, as many as were made. `TableWalk` is the walk of the job
//! over such a table: it takes an expansion from the table if it is there, and makes it otherwise.
//! So it returns the visits that `Walk` does, whatever the table has. `prefetch` fills a table, level
//! by level from the roots, each level by several threads.
//!
//! ```rust
//! let Some(table) = prefetch(rt, alloc, &store, &job, 4, 1 << 24) else {
//!     return Ok(());
//! };
//! for item in TableWalk::new(alloc, &table, 0)? {
//!     match item {
//!         Ok(visit) => println!(rt; "{} at depth {}", visit.seq, visit.depth)?,
//!         Err(stop) => println!(rt; "{stop:?}")?,
//!     }
//! }
//! ```
#![tactic(auto)]

mod expansions;
mod levels;
mod link;
mod next_link;
mod pair_index;
mod reading;
mod state;
mod stop;
mod table_walk;
mod visiting;

pub use expansions::Expansions;
pub use levels::prefetch;
pub use table_walk::TableWalk;
