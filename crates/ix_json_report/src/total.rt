//! The object with the totals.

ghost use Rattle.std.specs.Prelude.{◌≡◌, IfOk};
ghost use Rattle.ix_jobs.specs.Report.{is_done, done_count, skip_count};
ghost use Rattle.ix_json_report.specs.Members.{Appends, AppendsLine};
ghost use Rattle.ix_json_report.specs.Objects.{total_object};
ghost use Rattle.ix_json_report.specs.Tokens.{totals_tokens, total_tokens};

use crate::line::end_line;
use crate::members::push_number;
use ix_car::End;
use ix_jobs::JobResult;
use json::Writer;
use std::alloc::AllocError;

/// Appends the last line: an object with the number of jobs, of those that are done, and of skips.
pub fn push_total(text: Vec<u8>, results: &[JobResult]) -> Result<Vec<u8>, AllocError>
    ensures { IfOk result (λ r. AppendsLine text.items r.items (total_object results.now)) }
{
    let mut out = Writer::new(text);
    push_object(&mut out, results)?;
    end_line(out)
}

// Appends the object with the totals.
fn push_object(out: &mut Writer, results: &[JobResult]) -> Result<(), AllocError>
    ensures { Appends out.old out.new (total_tokens results.now) result }
{
    out.begin_object()?;
    out.key("total")?;
    out.begin_object()?;
    push_totals(out, results)?;
    out.end_object()?;
    out.end_object()
}

// Appends the three totals. More than 2^64 skips don't fit into memory.
fn push_totals(out: &mut Writer, results: &[JobResult]) -> Result<(), AllocError>
    ensures { Appends out.old out.new (totals_tokens results.now) result }
{
    let done = done_count(results);
    let Ok(skips) = u64::try_from(skip_count(results)) else {
        return Err(AllocError);
    };
    push_number(out, "jobs", results.len() as u64)?;
    push_number(out, "done", done as u64)?;
    push_number(out, "skips", skips)
}

// Returns the number of jobs that are done.
fn done_count(results: &[JobResult]) -> usize
    ensures { result ≡ done_count results.now }
{
    results.iter().filter(|outcome| is_done(outcome)).count()
}

// Returns whether a job is done.
fn is_done(outcome: &JobResult) -> bool
    ensures { result ≡ is_done outcome.now.end }
{
    matches!(outcome.end, End::Done)
}

// Returns the number of skips. Their sum is below 2^128, since a slice and a `Vec` have fewer than 2^64
// elements.
fn skip_count(results: &[JobResult]) -> u128
    ensures { result ≡ skip_count results.now }
{
    let mut count = 0;
    for outcome in results {
        count += outcome.skips.len() as u128;
    }
    count
}
