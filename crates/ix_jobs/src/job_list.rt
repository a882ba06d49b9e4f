//! The list of the jobs of the lines so far.

ghost use Rattle.std.specs.Prelude.{◌≡◌, [], ◌∷◌, ◌++◌, OnErr};
ghost use Rattle.ix_cid.specs.Results.{Reads};
ghost use Rattle.ix_jobs.specs.Jobs.{is_taken, joined};
ghost use Rattle.ix_jobs.specs.Gives.{Gives};

use crate::fault::JobErrorKind;
use ix_walk::Job;
use std::alloc::Global;
use std::collections::BTreeSet;
use std::marker::Model;

/// The most jobs that a file may have, and a part of a larger one.
pub(crate) const MOST_JOBS: usize = 1_000;

/// Jobs and the set of their names, seen as the list of the jobs in the order of adding.
#[derive(Drop)]
pub(crate) struct JobList {
    jobs: Vec<Job>,
    // The names of the jobs.
    names: BTreeSet<String>,
}

impl Model for JobList {
    ghost use Rattle.std.specs.Prelude.{List};
    ghost use Rattle.std.specs.Coded.{coded_list};
    ghost use Rattle.ix_walk.specs.JobMeaning.{JobMeaning, coded_job};
    ghost use Rattle.ix_jobs.specs.Named.{HasNames};

    ghost Value = { List JobMeaning };

    ghost coded = { coded_list coded_job };

    ghost view = { λ l. l.jobs.items };

    ghost invariant = { λ l. HasNames l.names l.jobs.items };
}

impl JobList {
    /// Makes a list without jobs.
    pub(crate) fn new(alloc: Global) -> JobList
        ensures { result ≡ [] }
    {
        JobList {
            jobs: Vec::new(alloc),
            names: BTreeSet::new(alloc),
        }
    }

    /// Adds a job, unless its name is taken or there are too many before it.
    pub(crate) fn add(&mut self, alloc: Global, job: Job) -> Result<(), JobErrorKind>
        ensures added { Gives (λ _. self.new) result (joined 1000 self.old job) }
        ensures err { OnErr result (self.new ≡ self.old) }
    {
        self.may_join(&job)?;
        // Room is allocated first, so the list stays as it was if memory runs out.
        let name = String::from_str(alloc, job.name())?;
        self.jobs.reserve(1)?;
        self.names.insert(name)?;
        self.jobs.push_reserved(job);
        Ok(())
    }

    // Returns whether a job may be added, or why not.
    fn may_join(&self, job: &Job) -> Result<(), JobErrorKind>
        ensures { Reads (λ _. self.now ++ job.now ∷ []) result (joined 1000 self.now job.now) }
    {
        if self.is_taken(job.name()) {
            return Err(JobErrorKind::Repeated);
        }
        if self.jobs.len() >= MOST_JOBS {
            return Err(JobErrorKind::TooMany);
        }
        Ok(())
    }

    // Returns whether a job has the name.
    fn is_taken(&self, name: &str) -> bool
        ensures { result ≡ is_taken self.now name.now }
    {
        self.names.contains(name)
    }

    /// Returns the jobs, in the order of adding.
    pub(crate) fn into_jobs(self) -> Vec<Job>
        ensures { result.items ≡ self }
    {
        self.jobs
    }
}
