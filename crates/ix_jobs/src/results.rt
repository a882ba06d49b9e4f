//! The report and the exit status.

ghost use Rattle.std.specs.Prelude.{◌≡◌, ◌++◌, [], ◌∷◌, codes, decimal, length, string_bytes, IfOk, OnOk};
ghost use Rattle.ix_jobs.specs.Report.{
  is_done,
  skip_line,
  skip_lines,
  end_line,
  known_words,
  counts_words,
  total_line,
  report_of,
  done_count,
  skip_count,
  status_of,
  absent_line,
  report_with_absent,
};

use ix_car::{Counts, End, Skip};
use ix_walk::Job;
use std::alloc::{AllocError, Global};

/// The result of a job.
#[derive(Debug, Drop)]
pub struct JobResult {
    pub end: End,
    pub counts: Counts,
    pub skips: Vec<Skip>,
}

impl JobResult {
    // Returns whether the job is done.
    fn is_done(&self) -> bool
        ensures { result ≡ is_done self.now.end }
    {
        matches!(self.end, End::Done)
    }
}

/// Returns the report of jobs and their results, a line each, ended by `0a`, with numbers in decimal:
/// for each job in order `NAME END visits=V kept=K sections=S bytes=B`, with ` known=N` where known blocks
/// were counted, then for each of its skips two spaces and `SEQ VERDICT CIDTEXT`; at last `total jobs=N done=D skips=T`.
///
/// The ends are `done`, `limit`, `memory`, `write` and `start`; the verdicts of skips `codec`,
/// `hash`, `missing`, `damaged` and `malformed`. The text of a CIDv1 is `b` and base32, that of a
/// CIDv0 `v0-` and hex in lower case.
pub fn report(alloc: Global, jobs: &[Job], results: &[JobResult]) -> Result<Vec<u8>, AllocError>
    requires { length jobs.now ≡ length results.now }
    ensures { IfOk result (λ text. text.items ≡ report_of jobs.now results.now) }
{
    let mut text = String::new(alloc);
    for (job, outcome) in jobs.iter().zip(results) {
        push_job_line(&mut text, job, outcome)?;
        push_skip_lines(alloc, &mut text, outcome.skips.as_slice())?;
    }
    push_totals(&mut text, jobs.len(), results)?;
    Ok(text.into_bytes())
}

/// Returns the report of jobs whose absent skips were taken out of their results and counted: as `report`
/// does, with ` absent=N` at the end of the line of each job.
pub fn report_with_absent(
    alloc: Global,
    jobs: &[Job],
    results: &[JobResult],
    absent: &[usize],
) -> Result<Vec<u8>, AllocError>
    ensures { IfOk result (λ text. text.items ≡ report_with_absent jobs.now results.now absent.now) }
{
    let mut text = String::new(alloc);
    for ((job, outcome), count) in jobs.iter().zip(results).zip(absent) {
        push_absent_line(&mut text, job, outcome, *count)?;
        push_skip_lines(alloc, &mut text, outcome.skips.as_slice())?;
    }
    push_totals(&mut text, jobs.len(), results)?;
    Ok(text.into_bytes())
}

/// Returns the exit status: 4 if some job's end isn't done, else 3 if there is a skip, else 0.
pub fn status(results: &[JobResult]) -> u8
    ensures { result ≡ status_of results.now }
{
    if !results.iter().all(|outcome| outcome.is_done()) {
        4
    } else if skip_count(results) > 0 {
        3
    } else {
        0
    }
}

// Appends the line of a job.
fn push_job_line(text: &mut String, job: &Job, outcome: &JobResult) -> Result<(), AllocError>
    ensures { OnOk result (string_bytes text.new ≡ string_bytes text.old ++ end_line job.now outcome.now) }
{
    push_counts(text, job, outcome)?;
    push_known(text, outcome.counts.known)
}

// Appends the line of a job of which so many skips are absent.
fn push_absent_line(
    text: &mut String,
    job: &Job,
    outcome: &JobResult,
    absent: usize,
) -> Result<(), AllocError>
    ensures { OnOk result (string_bytes text.new
        ≡ string_bytes text.old ++ absent_line job.now outcome.now absent) }
{
    push_counts(text, job, outcome)?;
    push_absent(text, outcome.counts.known, absent)
}

// Appends how many blocks are known, if they were counted, how many skips are absent, and a line end.
fn push_absent(text: &mut String, known: Option<u32>, absent: usize) -> Result<(), AllocError>
    ensures { OnOk result (string_bytes text.new
        ≡ string_bytes text.old ++ known_words known ++ codes " absent=" ++ decimal absent ++ 10 ∷ []) }
{
    match known {
        Some(known) => writeln!(text, " known={known} absent={absent}"),
        None => writeln!(text, " absent={absent}"),
    }
}

// Appends the name, the end and the counts of a job.
fn push_counts(text: &mut String, job: &Job, outcome: &JobResult) -> Result<(), AllocError>
    ensures { OnOk result (string_bytes text.new
        ≡ string_bytes text.old ++ counts_words job.now.name outcome.now.end outcome.now.counts) }
{
    let name = job.name();
    let end = outcome.end;
    let Counts {
        visits,
        kept,
        sections,
        bytes,
        known: _,
    } = outcome.counts;
    write!(
        text,
        "{name} {end} visits={visits} kept={kept} sections={sections} bytes={bytes}"
    )
}

// Appends how many blocks are known, if they were counted, and a line end.
fn push_known(text: &mut String, known: Option<u32>) -> Result<(), AllocError>
    ensures { OnOk result (string_bytes text.new ≡ string_bytes text.old ++ known_words known ++ 10 ∷ []) }
{
    match known {
        Some(known) => writeln!(text, " known={known}"),
        None => writeln!(text, ""),
    }
}

// Appends the lines of skips.
fn push_skip_lines(alloc: Global, text: &mut String, skips: &[Skip]) -> Result<(), AllocError>
    ensures { OnOk result (string_bytes text.new ≡ string_bytes text.old ++ skip_lines skips.now) }
{
    for skip in skips {
        push_skip_line(alloc, text, skip)?;
    }
    Ok(())
}

// Appends the line of a skip.
fn push_skip_line(alloc: Global, text: &mut String, skip: &Skip) -> Result<(), AllocError>
    ensures { OnOk result (string_bytes text.new ≡ string_bytes text.old ++ skip_line skip.now) }
{
    let seq = skip.seq;
    let verdict = skip.verdict;
    let cid = skip.cid.text(alloc)?;
    writeln!(text, "  {seq} {verdict} {cid}")
}

// Appends the last line, with the numbers of results that are done and of their skips.
fn push_totals(text: &mut String, jobs: usize, results: &[JobResult]) -> Result<(), AllocError>
    ensures { OnOk result (string_bytes text.new
        ≡ string_bytes text.old ++ total_line jobs (done_count results.now) (skip_count results.now)) }
{
    let done = done_count(results);
    let skips = skip_count(results);
    push_total_line(text, jobs, done, skips)
}

// Appends the last line.
fn push_total_line(
    text: &mut String,
    jobs: usize,
    done: usize,
    skips: u128,
) -> Result<(), AllocError>
    ensures { OnOk result (string_bytes text.new ≡ string_bytes text.old ++ total_line jobs done skips) }
{
    writeln!(text, "total jobs={jobs} done={done} skips={skips}")
}

// Returns the number of jobs that are done.
fn done_count(results: &[JobResult]) -> usize
    ensures { result ≡ done_count results.now }
{
    results.iter().filter(|outcome| outcome.is_done()).count()
}

// Returns the number of skips. Their sum is below 2^128, since a slice and a `Vec` have fewer than 2^64
// elements.
fn skip_count(results: &[JobResult]) -> u128
    ensures { result ≡ skip_count results.now }
{
    let mut count = 0;
    for outcome in results {
        count += outcome.skips.len() as u128;
    }
    count
}
