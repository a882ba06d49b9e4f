//! What is asked of a stream.

ghost use Rattle.std.specs.Prelude.{◌≡◌};
ghost use Rattle.ix_sections.specs.Writing.{header_of};

use crate::stream_asked::{ExpectedHeader, StreamLimits};
use ix_store::Store;
use ix_verdict::AllowMissing;
use ix_walk::Job;
use std::alloc::Global;

// What is asked of a stream: the archive of a job, of which some blocks may be missing, without those that
// a base has.
pub(crate) struct StreamRequest<'s> {
    pub alloc: Global,
    pub job: &'s Job,
    // The store with the blocks of the base, if there is one.
    pub base: Option<&'s Store>,
    pub allowed: AllowMissing,
    pub header: ExpectedHeader,
    pub limits: StreamLimits,
    // The header that is written for the job's roots.
    pub jobs_header: Vec<u8>,
    ghost header_is: { jobs_header.items ≡ header_of job.now.roots },
}

// Written by hand: a derived drop is inlined in each function that drops one, at each of its exits.
impl<'s> Drop for StreamRequest<'s> {
    fn drop(self) {
        let StreamRequest {
            alloc: _,
            job: _,
            base: _,
            allowed: _,
            header: _,
            limits: _,
            jobs_header,
        } = self;
        drop(jobs_header);
    }
}
