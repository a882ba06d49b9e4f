//! The object of a job.

ghost use Rattle.std.specs.Prelude.{IfOk};
ghost use Rattle.ix_json_report.specs.Members.{Appends, AppendsLine};
ghost use Rattle.ix_json_report.specs.Objects.{job_object};
ghost use Rattle.ix_json_report.specs.Tokens.{end_tokens, counts_tokens, written_tokens, known_tokens, absent_tokens, job_tokens};

use crate::line::end_line;
use crate::members::{push_number, push_text};
use crate::place::{ArchivePlace, push_place};
use crate::skips::{SkipNotes, push_skips};
use ix_car::{Counts, End};
use ix_jobs::JobResult;
use ix_walk::Job;
use json::Writer;
use std::alloc::{AllocError, Global};

/// Appends the line of a job: an object with its name, its end and its counts as in the text report,
/// how many skips were absent, if they were counted, where its archive is, and its skips in their order,
/// each with its path and why its bytes are malformed, if that is known.
pub fn push_job(
    alloc: Global,
    text: Vec<u8>,
    job: &Job,
    outcome: &JobResult,
    notes: SkipNotes<'_>,
    place: ArchivePlace<'_>,
) -> Result<Vec<u8>, AllocError>
    ensures { IfOk result (λ r.
        AppendsLine text.items r.items (job_object job.now outcome.now notes.entry place.entry)) }
{
    let mut out = Writer::new(text);
    push_object(alloc, &mut out, job, outcome, notes, place)?;
    end_line(out)
}

// Appends the object of a job.
fn push_object(
    alloc: Global,
    out: &mut Writer,
    job: &Job,
    outcome: &JobResult,
    notes: SkipNotes<'_>,
    place: ArchivePlace<'_>,
) -> Result<(), AllocError>
    ensures { Appends out.old out.new (job_tokens job.now outcome.now notes.entry place.entry) result }
{
    out.begin_object()?;
    push_end(alloc, out, job, outcome.end)?;
    push_counts(out, &outcome.counts)?;
    push_known(out, outcome.counts.known)?;
    push_absent(out, notes.absent)?;
    push_place(out, place)?;
    push_skips(alloc, out, outcome.skips.as_slice(), notes)?;
    out.end_object()
}

// Appends the name of a job and how it ended.
fn push_end(alloc: Global, out: &mut Writer, job: &Job, end: End) -> Result<(), AllocError>
    ensures { Appends out.old out.new (end_tokens job.now end) result }
{
    let word = format!(in alloc; "{end}")?;
    push_text(out, "job", job.name())?;
    push_text(out, "end", word.as_str())
}

// Appends the counts of a job, but for how many blocks are known.
fn push_counts(out: &mut Writer, counts: &Counts) -> Result<(), AllocError>
    ensures { Appends out.old out.new (counts_tokens counts.now) result }
{
    push_number(out, "visits", counts.visits.into())?;
    push_number(out, "kept", counts.kept.into())?;
    push_written(out, counts)
}

// Appends how many sections and bytes were written.
fn push_written(out: &mut Writer, counts: &Counts) -> Result<(), AllocError>
    ensures { Appends out.old out.new (written_tokens counts.now) result }
{
    push_number(out, "sections", counts.sections.into())?;
    push_number(out, "bytes", counts.bytes)
}

// Appends how many blocks are known, if they were counted.
fn push_known(out: &mut Writer, known: Option<u32>) -> Result<(), AllocError>
    ensures { Appends out.old out.new (known_tokens known) result }
{
    match known {
        Some(known) => push_number(out, "known", known.into()),
        None => Ok(()),
    }
}

// Appends how many skips were absent, if they were counted.
fn push_absent(out: &mut Writer, absent: Option<usize>) -> Result<(), AllocError>
    ensures { Appends out.old out.new (absent_tokens absent) result }
{
    match absent {
        Some(absent) => push_number(out, "absent", absent as u64),
        None => Ok(()),
    }
}
