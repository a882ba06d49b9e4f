//! The jobs of a job file.
//!
//! A file is cut into lines at `0a`, and one `0d` at the end of a line is dropped. Empty lines and
//! lines that begin with `#` are ignored, whatever bytes they have. Each other line is one job: its
//! name, the comma-separated CIDs of its roots, its limit of visits and its selector in hex, with one
//! space between.

ghost use Rattle.std.specs.Prelude.{◌≡◌, ◌==◌, Ok, IfOk, IfErr};
ghost use Rattle.std.specs.List.{before_first, after_first};
ghost use Rattle.ix_walk.specs.JobMeaning.{walked};
ghost use Rattle.ix_jobs.specs.Jobs.{jobs_of, jobs_up_to};
ghost use Rattle.ix_jobs.specs.Gives.{IsFaultOf};

use crate::fault::JobsFault;
use crate::job_list::JobList;
use crate::line::add_line;
use ix_walk::{GREATEST_LIMIT, Job};
use std::alloc::{AllocError, Global};

/// Returns the jobs of a job file, in order, or its first error.
pub fn read_jobs(alloc: Global, bytes: &[u8]) -> Result<Vec<Job>, JobsFault>
    ensures jobs { IfOk result (λ jobs. jobs_of bytes.now ≡ Ok jobs.items) }
    ensures fault { IfErr result (λ fault. IsFaultOf fault (jobs_of bytes.now)) }
{
    read_jobs_up_to(alloc, bytes, GREATEST_LIMIT)
}

/// Returns the same, with limits up to the greatest in place of 1,000,000.
pub fn read_jobs_up_to(alloc: Global, bytes: &[u8], greatest: u32) -> Result<Vec<Job>, JobsFault>
    ensures jobs { IfOk result (λ jobs. jobs_up_to greatest 1000 bytes.now ≡ Ok jobs.items) }
    ensures fault { IfErr result (λ fault. IsFaultOf fault (jobs_up_to greatest 1000 bytes.now)) }
{
    let mut jobs = JobList::new(alloc);
    let mut rest = bytes;
    let mut number = 0;
    while !rest.is_empty() {
        let (line, after) = split_line(rest);
        number += 1;
        if let Err(kind) = add_line(alloc, &mut jobs, line, greatest) {
            return Err(JobsFault { kind, line: number });
        }
        rest = after;
    }
    Ok(jobs.into_jobs())
}

/// Returns the same jobs, each of which expands a CID once if that is asked for, and else at every link
/// to it.
pub fn with_links_once(alloc: Global, jobs: Vec<Job>, once: bool) -> Result<Vec<Job>, AllocError>
    ensures { IfOk result (λ some. some.items ≡ walked once jobs.items) }
{
    if once {
        jobs.into_iter().map(|job| job.links_once()).collect(alloc)
    } else {
        Ok(jobs)
    }
}

/// Splits off the first line, without its `0a`. Nothing follows if there is no `0a`.
pub fn split_line(bytes: &[u8]) -> (&[u8], &[u8])
    ensures line { result.0.now ≡ before_first (λ b. b == 10) bytes.now }
    ensures rest { result.1.now ≡ after_first (λ b. b == 10) bytes.now }
{
    match bytes.iter().position(|byte| *byte == b'\n') {
        Some(end) => (&bytes[..end], &bytes[end + 1..]),
        None => (bytes, &[]),
    }
}
