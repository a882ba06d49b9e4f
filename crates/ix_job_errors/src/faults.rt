//! All faulty lines of a job file.

ghost use Rattle.std.specs.Prelude.{◌≡◌, ◌≢◌, ◌∷◌, ◌++◌, IfOk, OnOk};
ghost use Rattle.ix_jobs.specs.declared.fault.JobErrorKind.TheVariants.{Memory};
ghost use Rattle.ix_job_errors.specs.Faults.{later, told, faults_after, AreFaultsOfPart, AreFaultsUpTo};
ghost use Rattle.ix_job_errors.specs.Steps.{AnswersAfter};

use ix_jobs::{JobErrorKind, JobsFault, Part, read_jobs_part_up_to, read_jobs_up_to, split_line};
use std::alloc::{AllocError, Global};
use std::collections::BTreeSet;

/// The faults of a job file whose limits are at most the greatest, in the order of its lines: none where
/// `read_jobs_up_to` takes it, else at first the one that it reports, and after that the fault of each
/// later line that is faulty by itself, or whose name an earlier line has.
pub fn job_faults_up_to(
    alloc: Global,
    bytes: &[u8],
    greatest: u32,
) -> Result<Vec<JobsFault>, AllocError>
    ensures { IfOk result (λ faults. AreFaultsUpTo greatest bytes.now faults.items) }
{
    match read_jobs_up_to(alloc, bytes, greatest) {
        Ok(_) => Ok(Vec::new(alloc)),
        Err(first) => with_later(alloc, bytes, first, greatest),
    }
}

/// The same for a part of a job file, whose lines are all checked.
pub fn job_faults_of_part(
    alloc: Global,
    bytes: &[u8],
    part: Part,
    greatest: u32,
) -> Result<Vec<JobsFault>, AllocError>
    ensures { IfOk result (λ faults. AreFaultsOfPart greatest part bytes.now faults.items) }
{
    match read_jobs_part_up_to(alloc, bytes, part, greatest) {
        Ok(_) => Ok(Vec::new(alloc)),
        Err(first) => with_later(alloc, bytes, first, greatest),
    }
}

// Returns the first fault and those of the lines after it, unless it is that memory ran out.
fn with_later(
    alloc: Global,
    bytes: &[u8],
    first: JobsFault,
    greatest: u32,
) -> Result<Vec<JobsFault>, AllocError>
    ensures faults { IfOk result (λ faults. faults.items ≡ first ∷ faults_after greatest first.line bytes.now) }
    ensures kind { IfOk result (λ _. first.kind ≢ Memory) }
{
    if let JobErrorKind::Memory = first.kind {
        return Err(AllocError);
    }
    let mut faults = Vec::new(alloc);
    faults.push(first)?;
    push_later(alloc, &mut faults, bytes, first.line, greatest)?;
    Ok(faults)
}

// Appends the faults of the lines after the first faulty one.
fn push_later(
    alloc: Global,
    faults: &mut Vec<JobsFault>,
    bytes: &[u8],
    first: u64,
    greatest: u32,
) -> Result<(), AllocError>
    ensures { OnOk result (faults.new.items ≡ faults.old.items ++ faults_after greatest first bytes.now) }
{
    let mut names = BTreeSet::new(alloc);
    let mut rest = bytes;
    let mut number = 0;
    while !rest.is_empty() {
        let (line, after) = split_line(rest);
        number += 1;
        let kind = fault_after(alloc, &mut names, line, greatest)?;
        push_reported(faults, first, number, kind)?;
        rest = after;
    }
    Ok(())
}

// Why a line is faulty, by itself or for its name, after lines whose jobs have these names.
fn fault_after(
    alloc: Global,
    names: &mut BTreeSet<String>,
    line: &[u8],
    greatest: u32,
) -> Result<Option<JobErrorKind>, AllocError>
    ensures { AnswersAfter greatest names.old line.now names.new result }
{
    let jobs = match read_jobs_up_to(alloc, line, greatest) {
        Ok(jobs) => jobs,
        Err(fault) => {
            return match fault.kind {
                JobErrorKind::Memory => Err(AllocError),
                kind => Ok(Some(kind)),
            };
        }
    };
    let Some(job) = jobs.first() else {
        return Ok(None);
    };
    if names.contains(job.name()) {
        return Ok(Some(JobErrorKind::Repeated));
    }
    let name = String::from_str(alloc, job.name())?;
    names.insert(name)?;
    Ok(None)
}

// Appends what is reported of a line, if it is after the first faulty one.
fn push_reported(
    faults: &mut Vec<JobsFault>,
    first: u64,
    line: u64,
    kind: Option<JobErrorKind>,
) -> Result<(), AllocError>
    ensures { OnOk result (faults.new.items ≡ faults.old.items ++ later first (told line kind)) }
{
    match kind {
        Some(kind) if first < line => {
            faults.push(JobsFault { kind, line })?;
            Ok(())
        }
        _ => Ok(()),
    }
}
