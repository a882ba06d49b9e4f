//! What a receiver knows of an archive.
//!
//! An archive is its own archive for a job if each of its sections is sound, and the job's archive
//! over these sections as a store is the same bytes, with the job within its limit. So an archive
//! alone shows whether it is complete for the job, with nothing else in it and in traversal order,
//! but for blocks that the sender lacked.
//!
//! A `Receiver` is given the sections of an archive one after another, and finds at each whether an
//! archive that is its own can go on with it. It keeps the blocks that are DAG-CBOR, and of a leaf (a
//! raw block, which has no links) only the CID.
//!
//! ```rust
//! let mut receiver = Receiver::new(alloc, &job, AllowMissing::none());
//! for section in sections {
//!     receiver.offer(section.cid, section.block)?;
//! }
//! let counts = receiver.finish()?;
//! ```
//!
//! Sections that are there together can be hashed at the same time: `ix_store::verdict_on` judges one, and
//! `offer_judged` receives it by that verdict.
//!
//! `law::archive_is_its_own` is about what is exported, and `law::received_one_by_one` about how an
//! archive is checked section by section, as it comes.
#![tactic(auto)]

mod counts;
mod fault;
pub mod law;
mod passing;
mod receiver;
mod request;
mod sections;
mod traversal;

pub use counts::Counts;
pub use fault::ReceiveFault;
pub use receiver::Receiver;
