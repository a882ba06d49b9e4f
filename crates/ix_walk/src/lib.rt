//! Jobs, and the walk; it re-exports `Store`.
//!
//! A job is a list of roots, a selector and a link budget. Its walk over a store returns the job's
//! visits in preorder, root after root, one for each link and root that it visits, and then `Limit`
//! exactly if there are more than the budget. If it returns `Memory`, the visits before it are the
//! first ones.
//!
//! ```rust
//! let mut store = Store::new(alloc);
//! store.add(root, block)?;
//! for item in Walk::new(alloc, &store, &job, 0)? {
//!     match item {
//!         Ok(visit) => println!(rt; "{} at depth {}", visit.seq, visit.depth)?,
//!         Err(stop) => println!(rt; "{stop:?}")?,
//!     }
//! }
//! ```
//!
//! The steps of a walk are public too, for traversals that keep something else between visits:
//! `read_block`, `has_tag` and `bytes_to_expand` say what is expanded at a visit, and `enter_block`
//! and `next_found` go over the links of a block. `expand` returns the links in a block that a residual
//! enters, in order.
#![tactic(auto)]

mod descent;
mod expansion;
mod fault;
mod job;
pub mod law;
mod state;
mod subtree;
mod visit;
mod visited_set;
mod visiting;
mod walk;

pub use descent::next_found;
pub use expansion::expand;
pub use fault::{JobFault, WalkStop};
pub use ix_store::Store;
pub use job::{GREATEST_LIMIT, Job, LONGEST_NAME, MOST_ROOTS, is_name};
pub use subtree::{Frontier, PendingLink};
pub use visit::Visit;
pub use visited_set::VisitedSet;
pub use visiting::{bytes_to_expand, enter_block, has_tag, read_block};
pub use walk::Walk;
