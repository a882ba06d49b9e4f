//! The exporter: single-threaded, or with walkers and verifiers.
//!
//! With 1 to 64 walkers and as many verifiers, in every schedule and whichever threads can't be
//! started: each sink receives its job's first visits with their verdicts, in order and once each,
//! and then one close. Its archive is that of the job if it ends with Done, and else a prefix of it.
//! If nothing was started, sinks and checks are as they were.
//!
//! ```rust
//! let plan = Plan { walkers: 4, queue: 1024, lane: 256 };
//! match export(rt, alloc, &store, &jobs, &mut sinks, checks, &Open, plan) {
//!     Ok(outcome) => println!(rt; "{} jobs", outcome.ends.len())?,
//!     Err(_) => println!(rt; "no memory")?,
//! }
//! ```
//!
//! Walkers send visits through a queue to verifiers, which send verdicts through lanes (SPSC channels)
//! to the caller. Its `Collector` turns these into calls of each job's sink, in whatever order they come:
//! it keeps what came early in a `Ring`, a reorder buffer, and leaves a visit that is too far ahead of
//! its job's next in its lane. An item of an unknown job, or of one whose sink is closed, is noted and
//! changes no sink. All memory whose size is known beforehand is allocated before the first thread
//! starts; a job for which memory runs out later ends with Memory.
//!
//! ```rust
//! let mut collector = Collector::new(alloc, sinks.len() as u32)?;
//! law::unused_has_collected_nothing::<Log>();
//! for item in items {
//!     assert!(rt; collector.has_room(&item));
//!     collector.receive(alloc, item, &mut sinks);
//! }
//! if collector.is_done() {
//!     let ends = collector.ends(Vec::with_capacity(alloc, sinks.len())?);
//!     law::collected_is_exported::<Log>();
//! }
//! ```
#![tactic(auto)]

mod caller;
mod collector;
mod exporting;
mod flowing;
mod gather;
mod job_progress;
pub mod law;
mod plain;
mod plan;
mod preparing;
mod ring;
mod ring_fault;
mod sink_state;
mod thread_law;
mod verifying;
mod walking;

pub use collector::Collector;
pub use exporting::{NotStarted, export, export_walks};
pub use flowing::Outcome;
pub use gather::{Received, drain_all, drain_lane, poll_lanes};
pub use ix_stages::{Gate, JobWalks, Open, Prefetch};
pub use plain::export_plain;
pub use plan::Plan;
pub use ring::Ring;
pub use ring_fault::RingFault;
