//! Job files, what a run needs, and the archive of one root.

use anyhow::{Error, Result};
use ix_case_formats::cids::{cid_of, text_of_cids};
use ix_case_formats::texts::{bytes_of_hex, escaped, hex_of, two_words, unescaped};
use ix_jobs::{JobsFault, read_jobs};
use ix_run::{RunFault, export_root, fault_line, prepare, printed_root, root_of_text};
use ix_walk::Job;
use std::alloc::{AllocError, Global};

/// `jobs TEXT = COUNT jobs; NAME ROOTS LIMIT; ..` or `KIND at line NUMBER`
pub fn jobs(alloc: Global, input: &str) -> Result<String> {
    let file = unescaped(alloc, input)?;
    match read_jobs(alloc, file.as_slice()) {
        Ok(jobs) => text_of_jobs(alloc, &jobs),
        Err(fault) => text_of_fault(alloc, fault),
    }
}

// `COUNT jobs; NAME ROOTS LIMIT; ..`
fn text_of_jobs(alloc: Global, jobs: &[Job]) -> Result<String> {
    let count = jobs.len();
    let mut answer = format!(in alloc; "{count} jobs")?;
    for job in jobs {
        push_job(alloc, &mut answer, job)?;
    }
    Ok(answer)
}

// Appends `; NAME ROOTS LIMIT`.
fn push_job(alloc: Global, answer: &mut String, job: &Job) -> Result<(), AllocError> {
    let name = job.name();
    let roots = text_of_cids(alloc, job.roots())?;
    let limit = job.limit();
    write!(answer, "; {name} {roots} {limit}")
}

// `KIND at line NUMBER`
fn text_of_fault(alloc: Global, fault: JobsFault) -> Result<String> {
    let kind = fault.kind;
    let line = fault.line;
    format!(in alloc; "{kind} at line {line}").map_err(Error::from)
}

/// `prepare HEX TEXT = COUNT blocks, COUNT jobs` or the line of the fault
pub fn prepared(alloc: Global, input: &str) -> Result<String> {
    let (car, file) = input.split_once(' ').unwrap_or((input, ""));
    let car = bytes_of_hex(alloc, car)?;
    let file = unescaped(alloc, file)?;
    match prepare(alloc, car.as_slice(), file.as_slice()) {
        Ok((store, jobs)) => text_of_counts(alloc, store.len(), jobs.len()),
        Err(fault) => line_of_fault(alloc, &fault),
    }
}

// `COUNT blocks, COUNT jobs`
fn text_of_counts(alloc: Global, blocks: usize, jobs: usize) -> Result<String> {
    format!(in alloc; "{blocks} blocks, {jobs} jobs").map_err(Error::from)
}

/// The line of a fault.
pub fn line_of_fault(alloc: Global, fault: &RunFault) -> Result<String> {
    fault_line(alloc, fault).map_err(Error::from)
}

/// `root HEX CID = HEX` or the line of the fault
pub fn root(alloc: Global, input: &str) -> Result<String> {
    let (car, root) = two_words(input)?;
    let car = bytes_of_hex(alloc, car)?;
    match export_root(alloc, car.as_slice(), cid_of(alloc, root)?) {
        Ok(archive) => hex_of(alloc, archive.as_slice()),
        Err(fault) => line_of_fault(alloc, &fault),
    }
}

/// `print TEXT INPUT = OUTPUT` of the command `root`, or the line of the fault
pub fn printed(alloc: Global, input: &str) -> Result<String> {
    let (text, input) = input.split_once(' ').unwrap_or((input, ""));
    let input = unescaped(alloc, input)?;
    match output_of(alloc, text, input.as_slice()) {
        Ok(output) => escaped(alloc, output.as_bytes()),
        Err(fault) => line_of_fault(alloc, &fault),
    }
}

// What the command prints for the text of a root and standard input.
fn output_of(alloc: Global, text: &str, input: &[u8]) -> Result<String, RunFault> {
    let root = root_of_text(alloc, text)?;
    printed_root(alloc, root, input)
}
