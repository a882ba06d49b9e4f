//! Items of the visit queue.

use ix_car::End;
use ix_walk::Visit;

/// An item that walkers put and verifiers take.
#[derive(Debug, Drop)]
pub enum Item {
    /// A visit of a job.
    Visit(Visit),
    /// The end of a job's walk; `seq` is how many visits it has put.
    Close { job: u32, seq: u32, end: End },
    /// The request that the verifier that takes it ends.
    Stop,
}
