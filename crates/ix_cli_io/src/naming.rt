//! Which archives of a run get their final names, and the notes on those that don't.

ghost use Rattle.std.specs.Prelude.{◌≡◌, ◌&&◌};
ghost use Rattle.std.specs.List.{list_any};
ghost use Rattle.ix_jobs.specs.Missing.{is_absent, is_root};
ghost use Rattle.ix_jobs.specs.Report.{is_done};
ghost use Rattle.ix_cli_io.specs.Naming.{has_all_asked, is_named_by, is_whole, met_roots_alone};
ghost use Rattle.ix_cli_io.specs.Naming.{counts, has_ended, NamesAsReported};

use crate::outputs::job_path;
use crate::write_errors::WriteErrors;
use ix_car::{End, Skip};
use ix_check::Verdict;
use ix_jobs::{JobResult, is_root};
use ix_run::is_complete;
use ix_verdict::AllowMissing;
use ix_walk::Job;
use std::alloc::{AllocError, Global};

/// Which archives of a run are renamed.
#[derive(Debug, Drop, Clone, Copy, PartialEq, Eq)]
pub enum Naming {
    /// Those whose jobs ended with done or limit.
    Ended,
    /// Those whose jobs are done with no root skipped.
    Complete,
    /// Those whose jobs are done with nothing skipped.
    Whole,
}

/// Returns whether the archive of a job is renamed.
pub fn is_named_by(naming: Naming, job: &Job, outcome: &JobResult) -> bool
    ensures { result ≡ is_named_by naming job.now outcome.now }
{
    match naming {
        Naming::Ended => has_ended(outcome.end),
        Naming::Complete => is_complete(job, outcome),
        Naming::Whole => is_whole(job, outcome),
    }
}

/// Which archives of a run are renamed, some of whose blocks may be missing.
#[derive(Debug, Drop, Clone, Copy, PartialEq, Eq)]
pub struct NamingRule {
    pub naming: Naming,
    pub allowed: Option<AllowMissing>,
}

impl NamingRule {
    /// Returns whether the archive of a job that ended so, with these skips, is renamed: the same that
    /// `is_named_by` returns of its result without its absent skips.
    pub fn names(&self, job: &Job, end: End, skips: &[Skip]) -> bool
        ensures { NamesAsReported self.now job.now end skips.now result }
    {
        match self.naming {
            Naming::Ended => has_ended(end),
            Naming::Complete => is_done(end) && !self.has_root(job, skips),
            Naming::Whole => is_done(end) && !self.has_any(job, skips),
        }
    }

    // Returns whether any of the skips counts.
    fn has_any(&self, job: &Job, skips: &[Skip]) -> bool
        ensures { result ≡ list_any (counts self.now.allowed job.now) skips.now }
    {
        skips.iter().any(|skip| self.counts(job, skip))
    }

    // Returns whether a root of the job is among the skips that count.
    fn has_root(&self, job: &Job, skips: &[Skip]) -> bool
        ensures { result ≡ list_any (λ skip. counts self.now.allowed job.now skip
            && is_root job.now skip.cid) skips.now }
    {
        skips
            .iter()
            .any(|skip| self.counts(job, skip) && is_root(job, &skip.cid))
    }

    // Returns whether a skip counts: it isn't that of a block that may be missing.
    fn counts(&self, job: &Job, skip: &Skip) -> bool
        ensures { result ≡ counts self.now.allowed job.now skip.now }
    {
        match self.allowed {
            Some(which) => !is_absent(which, job, skip),
            None => true,
        }
    }
}

// Returns whether a job ended with done or limit.
fn has_ended(end: End) -> bool
    ensures { result ≡ has_ended end }
{
    matches!(end, End::Done | End::Limit)
}

// Returns whether a job is done.
fn is_done(end: End) -> bool
    ensures { result ≡ is_done end }
{
    matches!(end, End::Done)
}

// Returns whether a skip is that of a block that may be missing.
fn is_absent(which: AllowMissing, job: &Job, skip: &Skip) -> bool
    ensures { result ≡ is_absent which job.now skip.now }
{
    matches!(skip.verdict, Verdict::Missing)
        && which.allows(skip.cid.codec())
        && !is_root(job, &skip.cid)
}

/// Returns whether the archive of a job has all that was asked for: that of a job that is done with no root
/// skipped, or with nothing skipped if it is to be whole.
pub fn has_all_asked(naming: Naming, job: &Job, outcome: &JobResult) -> bool
    ensures { result ≡ has_all_asked naming job.now outcome.now }
{
    match naming {
        Naming::Ended | Naming::Complete => is_complete(job, outcome),
        Naming::Whole => is_whole(job, outcome),
    }
}

// Returns whether a job is done with nothing skipped.
pub(crate) fn is_whole(job: &Job, outcome: &JobResult) -> bool
    ensures { result ≡ is_whole job.now outcome.now }
{
    is_complete(job, outcome) && outcome.skips.is_empty()
}

/// Returns the note on jobs whose archives could not be written, if there are any: the first of them,
/// how many more there are, and the first error of a write.
pub fn failed_writes(
    alloc: Global,
    folder: &str,
    jobs: &[Job],
    results: &[JobResult],
    errors: &WriteErrors,
) -> Result<String, AllocError> {
    let mut failed = jobs
        .iter()
        .zip(results)
        .filter(|pair| has_failed_write(pair.1));
    let Some((first, _)) = failed.next() else {
        return Ok(String::new(alloc));
    };
    let path = job_path(alloc, folder, first)?;
    let cause = errors.cause(alloc)?;
    match failed.count() {
        0 => format!(in alloc; "cannot write {path}: {cause}\n"),
        more => format!(in alloc; "cannot write {path}, and {more} more: {cause}\n"),
    }
}

/// Returns the same note for the one archive of a path.
pub fn failed_write(
    alloc: Global,
    path: &str,
    outcome: &JobResult,
    errors: &WriteErrors,
) -> Result<String, AllocError> {
    if !has_failed_write(outcome) {
        return Ok(String::new(alloc));
    }
    let cause = errors.cause(alloc)?;
    format!(in alloc; "cannot write {path}: {cause}\n")
}

// Returns whether a job ended because its archive could not be written.
fn has_failed_write(outcome: &JobResult) -> bool {
    matches!(outcome.end, End::Write)
}

/// Returns whether a job is complete and found nothing but its roots.
pub fn met_roots_alone(job: &Job, told: &JobResult) -> bool
    ensures { result ≡ met_roots_alone job.now told.now }
{
    is_complete(job, told) && told.counts.visits as usize == job.roots().len()
}

/// Returns the note on an archive that stays as `.part`.
pub(crate) fn left_line(
    alloc: Global,
    path: &str,
    job: &Job,
    outcome: &JobResult,
) -> Result<String, AllocError> {
    let why = lack_of(alloc, job, outcome)?;
    format!(in alloc; "left {path}.part: {why}\n")
}

/// Returns the note on an archive that lacks something and replaced a file.
pub(crate) fn replaced_line(
    alloc: Global,
    path: &str,
    job: &Job,
    outcome: &JobResult,
) -> Result<String, AllocError> {
    let why = lack_of(alloc, job, outcome)?;
    format!(in alloc; "warning: {path} replaced an existing file: {why}\n")
}

// Returns what the archive of a job lacks: how the job ended, or which root was skipped, and how many links
// were.
fn lack_of(alloc: Global, job: &Job, outcome: &JobResult) -> Result<String, AllocError> {
    let skipped = skipped_of(alloc, outcome.skips.len())?;
    let mut skips = outcome.skips.iter();
    let root = skips.find(|skip| is_root(job, &skip.cid));
    let lack = match (outcome.end, root) {
        (End::Done, None) => return Ok(skipped),
        (End::Done, Some(skip)) => {
            let cid = skip.cid.text(alloc)?;
            match skip.verdict {
                Verdict::Codec => format!(in alloc;
                    "its root {cid} has a codec that isn't exported"
                )?,
                verdict => format!(in alloc; "its root {cid} is {verdict}")?,
            }
        }
        (end, _) => format!(in alloc; "its job ended with {end}")?,
    };
    let told = usize::from(root.is_some());
    if outcome.skips.len() <= told {
        Ok(lack)
    } else {
        format!(in alloc; "{lack}; {skipped}")
    }
}

// Returns how many links were skipped, in words.
fn skipped_of(alloc: Global, count: usize) -> Result<String, AllocError> {
    match count {
        1 => String::from_str(alloc, "1 link was skipped"),
        count => format!(in alloc; "{count} links were skipped"),
    }
}
