//! Whether the bytes of an archive are a job's own archive.
//!
//! They are if they begin with the header that is written for the job's roots, each section is as it is
//! written, and a receiver of the job takes the sections one after another, to their end. No sender's
//! blocks are needed. What `ix_export` writes for a job is its own archive.
//!
//! ```rust
//! match check_archive(alloc, bytes, &job, AllowMissing::none()) {
//!     Ok(counts) => println!(rt; "{} visits", counts.visits)?,
//!     Err(fault) => println!(rt; "{fault}")?,
//! }
//! ```
//!
//! A `StreamReceiver` is given the bytes as they come, and checks each section once it is whole:
//!
//! ```rust
//! let mut stream = StreamReceiver::new(alloc, &job, allowed, ExpectedHeader::OfJob, limits)?;
//! for piece in pieces {
//!     stream.append(piece)?;
//!     out.write_all(stream.checked())?;
//!     stream.release();
//! }
//! let counts = stream.finish()?;
//! ```
#![tactic(auto)]

mod check;
mod fault;
pub mod law;
mod stream;
mod stream_ahead;
mod stream_asked;
mod stream_bytes;
mod stream_fault;
mod stream_parts;
mod stream_request;

pub use check::check_archive;
pub use fault::{ArchiveFault, ArchiveReason};
pub use ix_receive::{Counts, ReceiveFault};
pub use stream::StreamReceiver;
pub use stream_asked::{ExpectedHeader, StreamLimits};
pub use stream_fault::{StreamFault, StreamReason};
