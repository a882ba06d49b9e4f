//! Why a job file or a have-list is rejected, with what is wrong with its first faulty line.

use ix_cli_io::Failure;
use ix_job_errors::{cid_fault_words, fault_lines};
use ix_jobs::{JobErrorKind, JobsFault, ListErrorKind, ListFault, split_line};
use ix_run::RunFault;
use std::alloc::{AllocError, Global};
use std::str;

/// Makes the failure for a job file that is rejected, of which this is the path and these are the bytes. Limits may be up to
/// the greatest.
pub fn job_file_failure(
    alloc: Global,
    path: &str,
    bytes: &[u8],
    fault: JobsFault,
    greatest: u32,
) -> Failure {
    if fault.kind == JobErrorKind::Memory {
        return Failure::Fault(RunFault::Jobs(fault));
    }
    match job_file_cause(alloc, path, bytes, fault, greatest) {
        Ok((path, cause)) => Failure::Explained(RunFault::Jobs(fault), path, cause),
        // If memory runs out for the cause, the error is reported without it.
        Err(_) => Failure::Fault(RunFault::Jobs(fault)),
    }
}

// Returns a copy of the path, and what is wrong with the first faulty line.
fn job_file_cause(
    alloc: Global,
    path: &str,
    bytes: &[u8],
    fault: JobsFault,
    greatest: u32,
) -> Result<(String, String), AllocError> {
    let lines = fault_lines(alloc, bytes, &[fault], greatest)?;
    let line = lines.lines().next().unwrap_or("");
    // The failure's own line has the number and the field, which are before the colon.
    let (_, words) = line.split_once(": ").unwrap_or(("", line));
    let cause = format!(in alloc; "{words}; ix_export check-jobs reports each faulty line")?;
    Ok((String::from_str(alloc, path)?, cause))
}

/// Makes the failure for a have-list that is rejected, of which these are the bytes.
pub(crate) fn list_failure(alloc: Global, bytes: &[u8], fault: ListFault) -> Failure {
    match list_cause(alloc, bytes, fault) {
        Ok(cause) => Failure::Known(fault, cause),
        Err(_) => Failure::Known(fault, None),
    }
}

// Returns what is wrong with the line of a have-list that is rejected, unless memory ran out.
fn list_cause(alloc: Global, bytes: &[u8], fault: ListFault) -> Result<Option<String>, AllocError> {
    let words = match fault.kind {
        ListErrorKind::Memory => return Ok(None),
        ListErrorKind::Text => None,
        ListErrorKind::Cid => cid_fault_words(alloc, line_of(bytes, fault.line))?,
    };
    let line = "a line is a CIDv1 in base32, as ix_export inspect --cids prints it";
    let cause = match words {
        Some(words) => format!(in alloc; "{words}; {line}")?,
        None => String::from_str(alloc, line)?,
    };
    Ok(Some(cause))
}

// Returns the line with this number, from 1, without a carriage return at its end.
fn line_of(bytes: &[u8], number: u64) -> &str {
    let mut rest = bytes;
    for _ in 1..number {
        (_, rest) = split_line(rest);
    }
    let (line, _) = split_line(rest);
    match str::from_utf8(line) {
        Ok(text) => text.strip_suffix('\r').unwrap_or(text),
        Err(_) => "",
    }
}
