//! Skips of blocks that may be missing.

ghost use Rattle.std.specs.Prelude.{◌≡◌, IfOk};
ghost use Rattle.ix_verdict.specs.Verdict.{is_missing};
ghost use Rattle.ix_jobs.specs.Missing.{is_root, is_absent, absent_count, IsReported, EachReported};

use crate::results::JobResult;
use ix_car::Skip;
use ix_check::Verdict;
use ix_cid::Cid;
use ix_verdict::AllowMissing;
use ix_walk::Job;
use std::alloc::{AllocError, Global};

/// The results of jobs without their absent skips, and how many these were.
#[derive(Debug, Drop)]
pub struct Separated {
    pub results: Vec<JobResult>,
    /// The number of absent skips of each job.
    pub absent: Vec<usize>,
}

/// Takes the absent skips out of the results of jobs: links to blocks that aren't there and may be
/// missing. A root may not, nor may a block that is damaged.
pub fn separate_absent(
    alloc: Global,
    which: AllowMissing,
    jobs: &[Job],
    results: Vec<JobResult>,
) -> Result<Separated, AllocError>
    ensures { IfOk result (λ told.
        EachReported which jobs.now results.items told.results.items told.absent.items) }
{
    let mut left = Vec::with_capacity(alloc, results.len())?;
    let mut absent = Vec::with_capacity(alloc, results.len())?;
    for (job, outcome) in jobs.iter().zip(results) {
        let (outcome, count) = without_absent(which, job, outcome);
        left.push(outcome)?;
        absent.push(count)?;
    }
    Ok(Separated {
        results: left,
        absent,
    })
}

// Takes the absent skips out of the result of a job, and counts them.
fn without_absent(which: AllowMissing, job: &Job, outcome: JobResult) -> (JobResult, usize)
    ensures left { IsReported which job.now outcome result.0 }
    ensures count { result.1 ≡ absent_count which job.now outcome }
{
    let JobResult {
        end,
        counts,
        mut skips,
    } = outcome;
    let all = skips.len();
    skips.retain(|skip| !is_absent(which, job, skip));
    let absent = all - skips.len();
    (JobResult { end, counts, skips }, absent)
}

// Returns whether a skip is absent.
fn is_absent(which: AllowMissing, job: &Job, skip: &Skip) -> bool
    ensures { result ≡ is_absent which job.now skip.now }
{
    is_missing(skip.verdict) && which.allows(skip.cid.codec()) && !is_root(job, &skip.cid)
}

// Returns whether a verdict is that the block isn't there.
fn is_missing(verdict: Verdict) -> bool
    ensures { result ≡ is_missing verdict }
{
    matches!(verdict, Verdict::Missing)
}

/// Returns whether a CID is that of a root of the job.
pub fn is_root(job: &Job, cid: &Cid) -> bool
    ensures { result ≡ is_root job.now cid.now }
{
    job.roots().iter().any(|root| root == cid)
}
