//! The inputs of an export, and what its threads share.

use crate::job_walks::JobWalks;
use crate::{Claims, JobSeat, VisitQueue};

/// The inputs of an export: the walks of the jobs over the blocks, and the gate that walkers call.
#[derive(Drop)]
pub struct Task<'t, 'a, G> {
    pub walks: &'t JobWalks<'a>,
    pub gate: &'t G,
}

/// What the threads share: the task, the queue from walkers to verifiers, and the ticket counter
/// (`Claims`) that hands each job's seat to one walker.
#[derive(Drop)]
pub struct Shared<'t, 'a, G> {
    pub task: &'t Task<'t, 'a, G>,
    pub queue: &'t VisitQueue,
    pub claims: &'t Claims<JobSeat>,
}
