//! A part of the jobs of a job file.
//!
//! The whole file is read and checked, whatever the part.

ghost use Rattle.std.specs.Prelude.{◌≡◌, ◌≤◌, length, get_or, Ok, IfOk, IfErr};
ghost use Rattle.ix_walk.specs.JobMeaning.{AreFew};
ghost use Rattle.ix_jobs.specs.Jobs.{jobs_up_to};
ghost use Rattle.ix_jobs.specs.Parts.{job_lines, part_jobs_up_to, AreJobsBetween};
ghost use Rattle.ix_jobs.specs.Gives.{IsFaultOf};

use crate::fault::{JobErrorKind, JobsFault};
use crate::job_list::MOST_JOBS;
use crate::jobs::split_line;
use crate::line::{is_ignored, without_return};
use crate::part::Part;
use crate::part_list::PartList;
use ix_walk::Job;
use std::alloc::Global;

/// Returns the jobs of a part of a job file that may have 1,000,000, in order, whose limits are at most the
/// greatest. Returns the first error of the file, or, if it has none, that the part has too many jobs,
/// with the line of the first of them that is too many.
pub fn read_jobs_part_up_to(
    alloc: Global,
    bytes: &[u8],
    part: Part,
    greatest: u32,
) -> Result<Vec<Job>, JobsFault>
    ensures jobs { IfOk result (λ jobs. part_jobs_up_to greatest part.number part.of bytes.now ≡ Ok jobs.items) }
    ensures few { IfOk result (λ jobs. AreFew jobs.items) }
    ensures fault { IfErr result (λ fault. IsFaultOf fault (part_jobs_up_to greatest part.number part.of bytes.now)) }
{
    let count = job_count(bytes);
    let start = part.start(count);
    let end = part.end(count);
    let jobs = read_window(alloc, bytes, start, end.min(start + MOST_JOBS), greatest)?;
    if end - start > MOST_JOBS {
        let line = line_of_job(bytes, start + MOST_JOBS);
        return Err(JobsFault {
            kind: JobErrorKind::TooMany,
            line,
        });
    }
    Ok(jobs)
}

// Returns the jobs that are numbered from `start` up to, and not including, `end`, or the first error
// of the file.
fn read_window(
    alloc: Global,
    bytes: &[u8],
    start: usize,
    end: usize,
    greatest: u32,
) -> Result<Vec<Job>, JobsFault>
    ensures jobs { IfOk result (λ kept. AreJobsBetween greatest start end bytes.now kept.items) }
    ensures fault { IfErr result (λ fault. IsFaultOf fault (jobs_up_to greatest 1000000 bytes.now)) }
{
    let mut jobs = PartList::new(alloc, start, end);
    let mut rest = bytes;
    let mut number = 0;
    while !rest.is_empty() {
        let (line, after) = split_line(rest);
        number += 1;
        if let Err(kind) = jobs.add_line(alloc, line, greatest) {
            return Err(JobsFault { kind, line: number });
        }
        rest = after;
    }
    Ok(jobs.into_jobs())
}

// Returns the number of jobs of a file, if none of its lines is faulty.
fn job_count(bytes: &[u8]) -> usize
    ensures count { result ≡ length (job_lines bytes.now) }
    ensures within { result ≤ length bytes.now }
{
    let mut count = 0;
    let mut rest = bytes;
    while !rest.is_empty() {
        let (line, after) = split_line(rest);
        if !is_ignored(without_return(line)) {
            count += 1;
        }
        rest = after;
    }
    count
}

// Returns the line number of a job, which is numbered from 0, or 0 if there is no such job.
fn line_of_job(bytes: &[u8], job: usize) -> u64
    ensures { result ≡ get_or (job_lines bytes.now) job 0 }
{
    let mut before = job;
    let mut rest = bytes;
    let mut number = 0;
    while !rest.is_empty() {
        let (line, after) = split_line(rest);
        number += 1;
        if !is_ignored(without_return(line)) {
            if before == 0 {
                return number;
            }
            before -= 1;
        }
        rest = after;
    }
    0
}
