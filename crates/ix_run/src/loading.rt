//! Reads the jobs of a run, if they are chosen.

ghost use Rattle.std.specs.Prelude.{◌≡◌, IfOk, IfErr, Ok};
ghost use Rattle.ix_walk.specs.JobMeaning.{AreFew};
ghost use Rattle.ix_jobs.specs.Gives.{IsFaultOf};
ghost use Rattle.ix_run.specs.Choosing.{jobs_in, AreChosen};
ghost use Rattle.ix_run.specs.Prepare.{IsJobsRefusal};

use crate::fault::RunFault;
use ix_jobs::{JobsFault, Part, read_jobs_part_up_to, read_jobs_up_to, with_links_once};
use ix_walk::Job;
use std::alloc::Global;

/// Which jobs of a job file are run, and how they are walked.
#[derive(Debug, Drop, Clone, Copy)]
pub struct JobChoice {
    /// The part of its jobs, or all.
    pub part: Option<Part>,
    /// The greatest limit that a job of the file may have.
    pub greatest_limit: u32,
    /// Whether each job expands a CID once, and not at every link to it.
    pub once: bool,
}

/// Reads the chosen jobs of a job file, which is checked as a whole.
pub fn load_jobs(alloc: Global, job_file: &[u8], choice: JobChoice) -> Result<Vec<Job>, RunFault>
    ensures jobs { IfOk result (λ jobs. AreChosen choice job_file.now jobs.items) }
    ensures few { IfOk result (λ jobs. AreFew jobs.items) }
    ensures refused { IfErr result (IsJobsRefusal (jobs_in choice.greatest_limit choice.part job_file.now)) }
{
    let jobs = read_chosen(alloc, job_file, choice)?;
    let jobs = with_links_once(alloc, jobs, choice.once)?;
    Ok(jobs)
}

// Reads the jobs of a file, or of a part of it.
fn read_chosen(alloc: Global, job_file: &[u8], choice: JobChoice) -> Result<Vec<Job>, JobsFault>
    ensures jobs { IfOk result (λ jobs. jobs_in choice.greatest_limit choice.part job_file.now ≡ Ok jobs.items) }
    ensures few { IfOk result (λ jobs. AreFew jobs.items) }
    ensures fault { IfErr result (λ fault. IsFaultOf fault (jobs_in choice.greatest_limit choice.part job_file.now)) }
{
    let greatest = choice.greatest_limit;
    match choice.part {
        Some(part) => read_jobs_part_up_to(alloc, job_file, part, greatest),
        None => read_jobs_up_to(alloc, job_file, greatest),
    }
}
