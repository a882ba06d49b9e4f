//! The worker threads of an export, and the channels between them: walkers put the visits of jobs into
//! the visit queue, verifiers take them, check them and send their verdicts through lanes. Jobs are
//! taken by claims.
//!
//! In every schedule: no value is claimed twice. What is taken from the queue is what a job's course
//! (its expected sequence) allows, nothing twice, and in the end all that was put. What is received
//! from a lane is a prefix of what was sent into it. A walker puts only items that its job's course
//! allows. A verifier sends one answer for each item that it takes, and checks each visit once. That a
//! blocking call returns is not promised.
//!
//! ```rust
//! let values = Vec::from_array(alloc, ["x", "y"])?;
//! let (claims, mut seats) = Claims::new(alloc, values, 1)?;
//! if let Some(mut seat) = seats.pop() {
//!     assert!(rt; claims.claim(&mut seat) == Some((0, "x")));
//!     assert!(rt; claims.claim(&mut seat) == Some((1, "y")));
//!     assert!(rt; claims.claim(&mut seat).is_none());
//! }
//! walk_jobs(rt, alloc, &shared, claimer);
//! verify(rt, alloc, &store, &queue, &mut seat, &mut lane, &mut check);
//! ```
#![tactic(auto)]

mod backoff;
mod claim_rule;
mod claims;
mod course;
mod gate;
mod item;
mod job_walk;
mod job_walks;
mod lanes;
pub mod law;
mod parts;
mod pass_view;
mod queue;
mod rule;
mod seats;
mod settle;
mod shared;
mod verdicted;
mod verifier;
mod walker;

pub use backoff::Backoff;
pub use claims::{ClaimSeat, Claims};
pub use course::Course;
pub use gate::{Gate, Open};
pub use item::Item;
pub use job_walk::JobWalk;
pub use job_walks::{JobWalks, Prefetch};
pub use lanes::{LaneIn, LaneOut, lane, lane_rest};
pub use parts::QueueParts;
pub use queue::VisitQueue;
pub use seats::{JobSeat, Rest, StopSeat, TakeSeat};
pub use shared::{Shared, Task};
pub use verdicted::Verdicted;
pub use verifier::verify;
pub use walker::walk_jobs;
