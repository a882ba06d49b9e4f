//! What a receiver asks for.

use ix_verdict::AllowMissing;
use ix_walk::Job;
use std::alloc::Global;

// The archive of a job, of which some blocks may be missing.
#[derive(Drop)]
pub(crate) struct Request<'s> {
    pub alloc: Global,
    pub job: &'s Job,
    pub allowed: AllowMissing,
}
