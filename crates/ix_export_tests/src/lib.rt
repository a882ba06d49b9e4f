//! Tests of exports, to sinks, by checks and through gates of a test's own; of runs, by a check and
//! to writers of a test's own; of exports whose threads can't all be started; of the lines of
//! errors; of archives of which each byte is changed; of the paths of visits; and of residuals that
//! outlive their selector.
//!
//! It has no public call and no contract: its tests are its results. An export in a test looks like this:
//!
//! ```rust
//! let ExportInput { store, jobs } = chain(alloc, 2)?;
//! let mut sinks = [Log::new(alloc, 9)?, Log::new(alloc, 9)?];
//! let checks = vec![in alloc; ShaCheck::new(alloc)]?;
//! let plan = plan_of(1, 256, 64);
//! let out = started(export(&rt, alloc, &store, &jobs, &mut sinks, checks, &Open, plan))?;
//! assert!(rt; out.ends.as_slice() == [End::Done, End::Done].as_slice());
//! ```
#![tactic(auto)]

#[cfg(test)]
mod archives;
#[cfg(test)]
mod crowd;
#[cfg(test)]
mod example;
#[cfg(test)]
mod exporting;
#[cfg(test)]
mod input;
#[cfg(test)]
mod layers;
#[cfg(test)]
mod own_archives;
#[cfg(test)]
mod refusals;
#[cfg(test)]
mod residuals;
#[cfg(test)]
mod runs;
#[cfg(test)]
mod sinks;
#[cfg(test)]
mod starts;
#[cfg(test)]
mod traces;
#[cfg(test)]
mod waiting;
#[cfg(test)]
mod window;
