//! Sinks and archives. It re-exports `read_car` and its errors of `ix_sections`.
//!
//! An archive is the sink of one job: it writes the header at once, then each sound block that is
//! delivered, once, and leaves out what is below a CID that isn't good. What it wrote, counted and
//! skipped is what its deliveries call for.
//!
//! ```rust
//! let mut archive = Archive::new(alloc, &store, &job, Vec::new(alloc))?;
//! let mut check = ShaCheck::new(alloc);
//! for item in Walk::new(alloc, &store, &job, 0)? {
//!     let visit = item?;
//!     let verdict = check.check(alloc, &store, &visit)?;
//!     archive.deliver(alloc, visit, verdict)?;
//! }
//! archive.close(End::Done);
//! let (bytes, skips, counts) = archive.into_parts();
//! ```
#![tactic(auto)]

mod archive;
mod fault;
pub mod law;
mod sink;

pub use archive::{Archive, Counts, Skip};
pub use fault::{ArchiveNew, SinkFault};
pub use ix_sections::{CarFault, CarKind, read_car};
pub use sink::{Delivery, End, Sink};
