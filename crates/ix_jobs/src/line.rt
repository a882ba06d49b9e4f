//! One line of a job file.

ghost use Rattle.std.specs.Prelude.{◌≡◌};
ghost use Rattle.std.specs.Str.Lines.{strip_carriage_return};
ghost use Rattle.ix_cid.specs.Results.{Reads};
ghost use Rattle.ix_jobs.specs.Jobs.{is_ignored, is_text, text_in, fields_in, job_of_fields, line_job, with_file_line};
ghost use Rattle.ix_jobs.specs.LineParts.{pieces, first_field, last_field};
ghost use Rattle.ix_jobs.specs.Gives.{Gives};

use crate::fault::JobErrorKind;
use crate::field::{limit_in, roots_in, selector_in};
use crate::job_list::JobList;
use ix_walk::{Job, is_name};
use std::alloc::Global;
use std::str;

/// Adds the job of a line, unless the line is ignored.
pub(crate) fn add_line(
    alloc: Global,
    jobs: &mut JobList,
    line: &[u8],
    greatest: u32,
) -> Result<(), JobErrorKind>
    ensures { Gives (λ _. jobs.new) result (with_file_line greatest 1000 jobs.old line.now) }
{
    let line = without_return(line);
    if is_ignored(line) {
        return Ok(());
    }
    let job = line_job(alloc, line, greatest)?;
    jobs.add(alloc, job)
}

/// Returns a line without one carriage return at its end.
pub(crate) fn without_return(line: &[u8]) -> &[u8]
    ensures { result.now ≡ strip_carriage_return line.now }
{
    match line.split_last() {
        Some((b'\r', front)) => front,
        _ => line,
    }
}

/// Returns whether a line, without its carriage return, is empty or a comment.
pub(crate) fn is_ignored(line: &[u8]) -> bool
    ensures { result ≡ is_ignored line.now }
{
    matches!(line.first(), None | Some(b'#'))
}

/// Returns the job of a line that isn't ignored, with a limit up to the greatest.
pub(crate) fn line_job(alloc: Global, line: &[u8], greatest: u32) -> Result<Job, JobErrorKind>
    ensures { Gives (λ job. job) result (line_job greatest line.now) }
{
    let text = text_in(line)?;
    let (name, roots, limit, selector) = fields_in(text)?;
    job_of_fields(alloc, name, roots, limit, selector, greatest)
}

// Returns the text of a line if all its bytes are printable.
fn text_in(line: &[u8]) -> Result<&str, JobErrorKind>
    ensures { Reads (λ text. text.now) result (text_in line.now) }
{
    if !is_text(line) {
        return Err(JobErrorKind::Text);
    }
    match str::from_utf8(line) {
        Ok(text) => Ok(text),
        Err(_) => Err(JobErrorKind::Text),
    }
}

// Returns whether each byte is printable.
fn is_text(line: &[u8]) -> bool
    ensures { result ≡ is_text line.now }
{
    line.iter().all(|byte| matches!(*byte, b' '..=b'~'))
}

// Splits a line into its four fields.
fn fields_in(text: &str) -> Result<(&str, &str, &str, &str), JobErrorKind>
    ensures { Reads (λ f. (f.0.now, f.1.now, f.2.now, f.3.now)) result (fields_in text.now) }
{
    let (name, rest) = first_field(text)?;
    let (roots, rest) = first_field(rest)?;
    let (limit, rest) = first_field(rest)?;
    let selector = last_field(rest)?;
    Ok((name, roots, limit, selector))
}

// Splits a line at its first space.
fn first_field(text: &str) -> Result<(&str, &str), JobErrorKind>
    ensures { Reads (λ f. (f.0.now, pieces f.1.now)) result (first_field (pieces text.now)) }
{
    match text.split_once(' ') {
        Some((field, rest)) if !field.is_empty() => Ok((field, rest)),
        _ => Err(JobErrorKind::Fields),
    }
}

// Returns a field that has no space after it.
fn last_field(text: &str) -> Result<&str, JobErrorKind>
    ensures { Reads (λ field. field.now) result (last_field (pieces text.now)) }
{
    match text.split_once(' ') {
        None if !text.is_empty() => Ok(text),
        _ => Err(JobErrorKind::Fields),
    }
}

// Returns the job of four fields. Whatever the constructor of jobs rejects was rejected before.
fn job_of_fields(
    alloc: Global,
    name: &str,
    roots: &str,
    limit: &str,
    selector: &str,
    greatest: u32,
) -> Result<Job, JobErrorKind>
    ensures { Gives (λ job. job) result (job_of_fields greatest name.now roots.now limit.now selector.now) }
{
    if !is_name(name) {
        return Err(JobErrorKind::Name);
    }
    let roots = roots_in(alloc, roots)?;
    let limit = limit_in(limit, greatest)?;
    let selector = selector_in(alloc, selector)?;
    let name = String::from_str(alloc, name)?;
    Ok(Job::with_limit_up_to(greatest, name, roots, selector, limit).unwrap())
}
