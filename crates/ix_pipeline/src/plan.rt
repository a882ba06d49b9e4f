//! The plan of an export.

/// The number of walkers, and the capacity of the visit queue and of each lane. The single-threaded
/// exporter uses none of them.
#[derive(Debug, Drop, Clone, Copy, PartialEq, Eq)]
pub struct Plan {
    /// The number of threads that walk jobs.
    pub walkers: u32,
    /// The number of visits that may wait to be checked.
    pub queue: u32,
    /// The number of verdicts that may wait in each lane.
    pub lane: u32,
}
