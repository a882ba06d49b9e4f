//! A law of jobs.

ghost use Rattle.std.specs.Prelude.{All};
ghost use Rattle.ix_walk.specs.JobMeaning.{IsJob};

use ix_walk::Job;

/// Each of the jobs has the properties of a `Job`: its type guarantees them, so nothing is checked at
/// run time.
pub(crate) fn each_is_job(jobs: &[Job])
    ensures { All IsJob jobs.now }
{}
