//! The jobs of the lines so far, of which those of a part are kept.

ghost use Rattle.std.specs.Prelude.{◌≡◌, []};
ghost use Rattle.ix_jobs.specs.Jobs.{joined, with_file_line};
ghost use Rattle.ix_jobs.specs.PartList.{Keeps, KeepsAdded};

use crate::fault::JobErrorKind;
use crate::line::{is_ignored, line_job, without_return};
use ix_walk::Job;
use std::alloc::Global;
use std::collections::BTreeSet;

// The most jobs of a file that is cut into parts.
const MOST_JOBS_IN_PARTS: usize = 1_000_000;

/// The jobs from one number up to another, and the names of all.
#[derive(Drop)]
pub(crate) struct PartList {
    jobs: Vec<Job>,
    names: BTreeSet<String>,
    // The number of jobs, kept or not.
    count: usize,
    start: usize,
    end: usize,
}

impl PartList {
    /// Makes a list without jobs, which keeps those that are numbered from `start` up to, and not
    /// including, `end`.
    pub(crate) fn new(alloc: Global, start: usize, end: usize) -> PartList
        ensures { Keeps start end [] result }
    {
        PartList {
            jobs: Vec::new(alloc),
            names: BTreeSet::new(alloc),
            count: 0,
            start,
            end,
        }
    }

    /// Adds the job of a line, unless the line is ignored.
    pub(crate) fn add_line(
        &mut self,
        alloc: Global,
        line: &[u8],
        greatest: u32,
    ) -> Result<(), JobErrorKind>
        ensures { KeepsAdded self.old self.new result (λ before. with_file_line greatest 1000000 before line.now) }
    {
        let line = without_return(line);
        if is_ignored(line) {
            return Ok(());
        }
        let job = line_job(alloc, line, greatest)?;
        self.add(alloc, job)
    }

    // Adds a job, unless its name is taken or there are too many before it.
    fn add(&mut self, alloc: Global, job: Job) -> Result<(), JobErrorKind>
        ensures { KeepsAdded self.old self.new result (λ before. joined 1000000 before job) }
    {
        if self.names.contains(job.name()) {
            return Err(JobErrorKind::Repeated);
        }
        if self.count >= MOST_JOBS_IN_PARTS {
            return Err(JobErrorKind::TooMany);
        }
        let name = String::from_str(alloc, job.name())?;
        self.names.insert(name)?;
        let number = self.count;
        self.count += 1;
        if number < self.start || self.end <= number {
            return Ok(());
        }
        self.jobs.push(job)?;
        Ok(())
    }

    /// Returns the jobs that were kept, in the order of adding.
    pub(crate) fn into_jobs(self) -> Vec<Job>
        ensures { result.items ≡ self.jobs.items }
    {
        self.jobs
    }
}
