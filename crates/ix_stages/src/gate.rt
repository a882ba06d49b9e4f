//! A probe for tests, which walkers call at each visit.

/// A probe for tests: a walker calls it with each visit before it puts the visit into the queue.
///
/// No result depends on it. A test can hold walkers there, or observe them.
pub trait Gate {
    /// Is called when the walk of job `job` has returned the visit numbered `seq`.
    fn pass(&self, job: u32, seq: u32);
}

/// A gate that returns at once.
#[derive(Debug, Drop, Clone, Copy)]
pub struct Open;

impl Gate for Open {
    fn pass(&self, _job: u32, _seq: u32) {}
}
