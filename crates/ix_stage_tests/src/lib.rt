//! Tests of the ring, lanes, claims, the visit queue, the collector and archives, call by call and
//! among threads; of what is prefetched, and of an input that is read ahead.
//!
//! It has no public call and no contract: its tests are its results. A test looks like this:
//!
//! ```rust
//! #[test]
//! fn first_of_a_lane(rt: HostRuntime) -> Result<(), Fail> {
//!     let (mut sender, mut receiver) = ix_stages::lane(rt.alloc(), 1)?;
//!     assert!(rt; sender.try_send(item(0)).is_ok());
//!     assert!(rt; receiver.try_recv().is_some());
//!     Ok(())
//! }
//! ```
#![tactic(auto)]

#[cfg(test)]
mod archives;
#[cfg(test)]
mod collector;
#[cfg(test)]
mod lanes;
#[cfg(test)]
mod prefetching;
#[cfg(test)]
mod queue;
#[cfg(test)]
mod read_ahead;
#[cfg(test)]
mod ring;
