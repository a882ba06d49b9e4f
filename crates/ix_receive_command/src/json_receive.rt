//! What is printed as JSON of a stream that ended.

use crate::rejection::Rejection;
use crate::stream::{Ended, Outcome};
use crate::visit_paths::StopPlace;
use ix_car::{Counts, End};
use ix_check::Verdict;
use ix_cli_io::ErrorCode;
use ix_jobs::JobResult;
use ix_json_report::{
    ArchivePlace, ErrorNote, SkipNotes, end_line, push_error, push_job, push_number, push_text,
    push_total,
};
use ix_walk::Job;
use json::Writer;
use std::alloc::{AllocError, Global};
use std::slice;

/// Returns the objects of a stream that was accepted: that of its job, among whose skips are links that are
/// absent, and the total, which doesn't count these.
pub(crate) fn accepted_objects(
    alloc: Global,
    path: &str,
    is_named: bool,
    job: &Job,
    outcome: JobResult,
    notes: SkipNotes<'_>,
) -> Result<Vec<u8>, AllocError> {
    let part = format!(in alloc; "{path}.part")?;
    let place = if is_named {
        ArchivePlace::File(path)
    } else {
        ArchivePlace::Part(part.as_str(), outcome.counts.bytes)
    };
    let mut outcome = outcome;
    let text = push_job(alloc, Vec::new(alloc), job, &outcome, notes, place)?;
    outcome
        .skips
        .retain(|skip| skip.verdict != Verdict::Missing);
    push_total(text, slice::from_ref(&outcome))
}

/// Returns the objects of a stream that wasn't accepted: what was written of it, why it ended, and at which
/// visit, if that is known. What is no stream of a CARv1 file has none.
pub(crate) fn other_objects(
    alloc: Global,
    path: &str,
    outcome: &Outcome,
    stop: &Option<StopPlace>,
) -> Result<Vec<u8>, AllocError> {
    if matches!(&outcome.ended, Ended::NoCar(_) | Ended::Unreadable(_)) {
        return Ok(Vec::new(alloc));
    }
    let mut out = Writer::new(Vec::new(alloc));
    out.begin_object()?;
    push_text(&mut out, "job", "receive")?;
    push_text(&mut out, "end", end_of(&outcome.ended))?;
    push_number(&mut out, "sections", outcome.sections)?;
    push_number(&mut out, "bytes", outcome.bytes)?;
    push_path(alloc, &mut out, path, outcome.bytes)?;
    if let Ended::Rejected(rejection) = &outcome.ended {
        push_rejection(&mut out, rejection, stop)?;
    }
    out.end_object()?;
    push_total(end_line(out)?, slice::from_ref(&undone(alloc)))
}

/// Appends the object of the error by which a stream ended, with this line.
pub(crate) fn push_ended(
    alloc: Global,
    text: Vec<u8>,
    ended: &Ended,
    line: &str,
) -> Result<Vec<u8>, AllocError> {
    let none = None;
    let (code, cid, path) = match ended {
        Ended::Rejected(rejection) => (rejection.code, cid_of(rejection), &rejection.path),
        Ended::NoCar(_) => (ErrorCode::Car, &none, &none),
        Ended::Unreadable(_) => (ErrorCode::Read, &none, &none),
        Ended::Unwritable(_, _) => (ErrorCode::Write, &none, &none),
        Ended::Accepted(_) | Ended::Memory => (ErrorCode::Memory, &none, &none),
    };
    let note = ErrorNote {
        code: code.word(),
        message: line,
        cid,
        path,
    };
    push_error(text, note)
}

// Returns the CID of the block that a rejection is about: that which is missing, or that of the section, or that in
// which a path leads no further.
fn cid_of(rejection: &Rejection) -> &Option<String> {
    match (&rejection.expected, &rejection.cid) {
        (Some(_), _) => &rejection.expected,
        (None, Some(_)) => &rejection.cid,
        (None, None) => &rejection.about,
    }
}

// Returns the word for how a stream ended.
fn end_of(ended: &Ended) -> &'static str {
    match ended {
        Ended::Accepted(_) => "done",
        Ended::Rejected(_) | Ended::NoCar(_) | Ended::Unreadable(_) => "rejected",
        Ended::Unwritable(_, _) => "write",
        Ended::Memory => "memory",
    }
}

// Appends the members for where an archive is that didn't get its name, and how many bytes it has.
fn push_path(alloc: Global, out: &mut Writer, path: &str, bytes: u64) -> Result<(), AllocError> {
    if path == "-" {
        return push_text(out, "file", path);
    }
    let part = format!(in alloc; "{path}.part")?;
    push_text(out, "part", part.as_str())?;
    push_number(out, "part_bytes", bytes)
}

// Appends the member with the first place that was rejected.
fn push_rejection(
    out: &mut Writer,
    rejection: &Rejection,
    stop: &Option<StopPlace>,
) -> Result<(), AllocError> {
    out.key("fault")?;
    out.begin_object()?;
    push_number(out, "place", rejection.place)?;
    push_text(out, "reason", rejection.reason.as_str())?;
    push_optional(out, "cid", &rejection.cid)?;
    push_optional(out, "expected", &rejection.expected)?;
    if let Some(stop) = stop {
        push_number(out, "visit", stop.visit.into())?;
        push_text(out, "path", stop.path.as_str())?;
    }
    out.end_object()
}

// Appends a member with a text, if there is one.
fn push_optional(out: &mut Writer, name: &str, text: &Option<String>) -> Result<(), AllocError> {
    match text {
        Some(text) => push_text(out, name, text.as_str()),
        None => Ok(()),
    }
}

// Makes the result of a job that isn't done, for the total.
fn undone(alloc: Global) -> JobResult {
    JobResult {
        end: End::Write,
        counts: Counts {
            visits: 0,
            kept: 0,
            sections: 0,
            bytes: 0,
            known: None,
        },
        skips: Vec::new(alloc),
    }
}
