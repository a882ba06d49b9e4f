//! Shared test fixtures: blocks under their CIDs, jobs over them, a sink that records what it receives,
//! events to wait for, and checks before which something else is done.
//!
//! Jobs have the root, selector and limit that are given, and as many as are asked for. A log keeps
//! each delivery and the close, as a sink is to.
//!
//! ```rust
//! let store = chain_of(alloc)?;
//! let jobs = jobs_of(alloc, OUTER, 2, 100)?;
//! assert!(rt; store.len() == 4 && jobs.len() == 2);
//! ```
#![tactic(auto)]

mod awaited;
mod blocks;
mod check_after;
mod jobs;
mod log;

pub use awaited::{Awaited, TURNS};
pub use blocks::{
    ABC, ABC_SECTION, CHAIN, DAMAGED, DAMAGED_SECTION, INNER_BLOCK, LIST, LIST_SECTION, ONE_LINK,
    ONE_LINK_SECTION, OUTER, Section, archive_of, archive_with, bytes_of, chain_archive, chain_of,
    cid_of, list_archive, list_of, sections_of, store_of,
};
pub use check_after::{Before, CheckAfter, Refusing};
pub use jobs::{ALL, job_at, job_of, jobs_of};
pub use log::Log;
