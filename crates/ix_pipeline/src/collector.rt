//! Receives what the verifiers send, and calls each job's sink.

ghost use Rattle.std.specs.Prelude.{◌≡◌, ◌≤◌, [], length, IfOk, IsTrue, ◌↔◌, vec_capacity, true, false};
ghost use Rattle.ix_car.specs.Headline.{EachKept};
ghost use Rattle.ix_stages.specs.Received.{job_of};
ghost use Rattle.ix_pipeline.specs.Collected.{job_count, has_unexpected, IsUnused, IsDone, MayTell, HasEnds, HasRoom};
ghost use Rattle.ix_pipeline.specs.Collecting.{CollectsItem, IfStray};

use crate::job_progress::JobProgress;
use ix_car::{End, Sink};
use ix_stages::Verdicted;
use std::alloc::{AllocError, Global};

/// A collector: receives what the verifiers send, in any order, and calls each job's sink.
///
/// Whether the items are good is known only after all threads are joined. Until then job, number
/// and close of each are checked, and an unexpected one is noted and reaches no sink. Contracts say
/// what follows if the items that were received are good.
#[derive(Drop)]
pub struct Collector {
    jobs: Vec<JobProgress>,
    // Whether an unexpected item came.
    unexpected: bool,
}

// Returns the number of the item's job.
fn job_of(item: &Verdicted) -> Option<u32>
    ensures { result ≡ job_of item.now }
{
    match item {
        Verdicted::Checked { visit, .. } => Some(visit.job),
        Verdicted::Unchecked { job, .. } => Some(*job),
        Verdicted::Close { job, .. } => Some(*job),
        Verdicted::Last => None,
    }
}

impl Collector {
    /// Creates a collector for `jobs` jobs, which has received nothing.
    pub fn new(alloc: Global, jobs: u32) -> Result<Collector, AllocError>
        ensures jobs { IfOk result (λ c. job_count c ≡ jobs) }
        ensures unused { IfOk result IsUnused }
    {
        let mut all = Vec::with_capacity(alloc, jobs as usize)?;
        for _ in 0..jobs {
            all.push_reserved(JobProgress::new(alloc)?);
        }
        Ok(Collector {
            jobs: all,
            unexpected: false,
        })
    }

    /// Whether the item may be received now. A visit can be too far ahead: while its job's visits are
    /// delivered, there is no room for a number that is 16,384 or more above the job's next.
    pub fn has_room(&self, item: &Verdicted) -> bool
        ensures { IsTrue result ↔ HasRoom self.now item.now }
    {
        let Some(job) = job_of(item) else {
            return true;
        };
        match self.jobs.get(job as usize) {
            Some(progress) => progress.has_room(item),
            None => true,
        }
    }

    /// Receives an item for which there is room: delivers what is next of its job, and closes the
    /// job's sink once all has arrived.
    ///
    /// An unexpected item is noted and reaches no sink: one of an unknown job or of a job whose
    /// sink was closed, a second close, and, while the job's visits are delivered, a visit whose
    /// number was passed or has come before.
    pub fn receive<S: Sink>(&mut self, alloc: Global, item: Verdicted, sinks: &mut [S])
        requires sinks { length sinks.old ≡ job_count self.old }
        requires may { MayTell S.calls self.old sinks.old }
        requires room { HasRoom self.old item }
        ensures sinks { length sinks.new ≡ length sinks.old }
        ensures jobs { job_count self.new ≡ job_count self.old }
        ensures may { MayTell S.calls self.new sinks.new }
        ensures kept { EachKept S.guarantee sinks.old sinks.new }
        ensures done { IsDone self.old → IsDone self.new }
        ensures last { job_of item ≡ None → (self.new ≡ self.old) × (sinks.new ≡ sinks.old) }
        ensures unexpected { IfStray self.old item ((has_unexpected self.new ≡ true) × (sinks.new ≡ sinks.old)) }
        ensures stays { has_unexpected self.old ≡ true → has_unexpected self.new ≡ true }
        ensures guarded { has_unexpected self.old ≡ false → has_unexpected self.new ≡ true → sinks.new ≡ sinks.old }
        ensures collected { CollectsItem S.calls item self.old self.new sinks.old sinks.new }
    {
        let Some(job) = job_of(&item) else {
            return;
        };
        let job = job as usize;
        if job >= self.jobs.len() {
            self.unexpected = true;
            return;
        }
        let fine = self.jobs[job].receive(alloc, item, &mut sinks[job]);
        self.unexpected |= !fine;
    }

    /// Whether an unexpected item came.
    pub fn has_unexpected(&self) -> bool
        ensures { result ≡ has_unexpected self.now }
    {
        self.unexpected
    }

    /// Whether every sink was closed.
    pub fn is_done(&self) -> bool
        ensures { IsTrue result ↔ IsDone self.now }
    {
        for job in self.jobs.iter() {
            if !job.is_ended() {
                return false;
            }
        }
        true
    }

    /// Returns how each job ended, once every sink was closed: the ends with which they were. `ends`
    /// is empty, and has room for as many as there are jobs.
    pub fn ends(&self, ends: Vec<End>) -> Vec<End>
        requires room { (ends.items ≡ []) × (job_count self.now ≤ vec_capacity ends) }
        requires done { IsDone self.now }
        ensures { HasEnds self.now result.items }
    {
        let mut ends = ends;
        for job in self.jobs.iter() {
            ends.push_reserved(job.end());
        }
        ends
    }
}
