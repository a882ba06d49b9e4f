//! Complete archives: those that have all that their jobs ask for.

ghost use Rattle.std.specs.Prelude.{◌≡◌};
ghost use Rattle.std.specs.List.{list_any};
ghost use Rattle.ix_jobs.specs.Report.{is_done};
ghost use Rattle.ix_jobs.specs.Missing.{is_root};
ghost use Rattle.ix_run.specs.Complete.{is_complete};

use ix_car::{End, Skip};
use ix_jobs::{JobResult, is_root};
use ix_walk::Job;

/// Returns whether the job is done and no root of it was skipped, so each root has its section in the
/// archive. A root that is an identity CID has none, and needs none.
pub fn is_complete(job: &Job, told: &JobResult) -> bool
    ensures { result ≡ is_complete job.now told.now }
{
    is_done(told.end) && !has_root(job, told.skips.as_slice())
}

// Returns whether this end is that of a complete job.
fn is_done(end: End) -> bool
    ensures { result ≡ is_done end }
{
    matches!(end, End::Done)
}

// Returns whether a root of the job is among the skips.
fn has_root(job: &Job, skips: &[Skip]) -> bool
    ensures { result ≡ list_any (λ skip. is_root job.now skip.cid) skips.now }
{
    skips.iter().any(|skip| is_root(job, &skip.cid))
}
