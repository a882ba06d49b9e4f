//! Jobs, their walks, and verdicts.

ghost use Rattle.ix_check.specs.Visits.{IsVisitOf};

use anyhow::{Error, Result, bail, ensure};
use ix_case_formats::cids::{cids_of, hex_of_cids};
use ix_case_formats::selectors::selector_of;
use ix_case_formats::texts::two_words;
use ix_check::{Check, ShaCheck, Verdict};
use ix_store::Store;
use ix_walk::{Job, JobFault, Visit, Walk, WalkStop};
use std::alloc::{AllocError, Global};

/// The matcher.
pub const MATCHER: &str = "a1612ea0";

/// The job of a name, roots, a limit and a selector.
pub fn job_of(alloc: Global, name: &str, roots: &str, limit: &str, selector: &str) -> Result<Job> {
    let name = String::from_str(alloc, name)?;
    let roots = cids_of(alloc, roots)?;
    let selector = selector_of(alloc, selector)?;
    match Job::new(name, roots, selector, limit.parse::<u32>()?) {
        Ok(job) => Ok(job),
        Err(fault) => bail!("no job: {fault:?}"),
    }
}

/// The job of `ROOTS LIMIT SELECTOR`.
pub fn job_of_words(alloc: Global, input: &str) -> Result<Job> {
    let (roots, rest) = two_words(input)?;
    let (limit, selector) = two_words(rest)?;
    job_of(alloc, "a", roots, limit, selector)
}

/// `new_job LIMIT ROOTS NAME = NAME ROOTS LIMIT` or the fault, with the matcher
pub fn new_job(alloc: Global, input: &str) -> Result<String> {
    let (limit, rest) = two_words(input)?;
    let (roots, name) = rest.split_once(' ').unwrap_or((rest, ""));
    match job_or_fault(alloc, limit.parse::<u32>()?, roots, name)? {
        Ok(job) => text_of_job(alloc, &job),
        Err(fault) => format!(in alloc; "{fault:?}").map_err(Error::from),
    }
}

// The job of a limit, roots and a name, with the matcher, or its fault.
fn job_or_fault(
    alloc: Global,
    limit: u32,
    roots: &str,
    name: &str,
) -> Result<Result<Job, JobFault>> {
    let roots = cids_of(alloc, roots)?;
    let name = String::from_str(alloc, name)?;
    Ok(Job::new(name, roots, selector_of(alloc, MATCHER)?, limit))
}

// `NAME ROOTS LIMIT` of a job.
fn text_of_job(alloc: Global, job: &Job) -> Result<String> {
    let name = job.name();
    let roots = hex_of_cids(alloc, job.roots())?;
    let limit = job.limit();
    format!(in alloc; "{name} {roots} {limit}").map_err(Error::from)
}

/// `walk NUMBER ROOTS LIMIT SELECTOR = VISIT VISIT .. STOP`, each visit as the job's number, its own
/// number, its depth and the place of its block, with a dot between; `none` is no block, and `!`
/// is after a malformed one
pub fn walk(alloc: Global, store: &Store, input: &str) -> Result<String> {
    let (number, rest) = two_words(input)?;
    match job_of_words(alloc, rest) {
        Ok(job) => text_of_numbered(alloc, store, &job, number),
        Err(error) => Err(error),
    }
}

/// `walk_once` as `walk`, where each link is visited once
pub fn walk_once(alloc: Global, store: &Store, input: &str) -> Result<String> {
    let (number, rest) = two_words(input)?;
    match job_of_words(alloc, rest) {
        Ok(job) => text_of_numbered(alloc, store, &job.links_once(), number),
        Err(error) => Err(error),
    }
}

// The same of a job and its number.
fn text_of_numbered(alloc: Global, store: &Store, job: &Job, number: &str) -> Result<String> {
    let mut walk = Walk::new(alloc, store, job, number.parse::<u32>()?)?;
    text_of_walk(alloc, store, &mut walk)
}

// The visits of a walk, and the stop after them.
fn text_of_walk(alloc: Global, store: &Store, walk: &mut Walk<'_>) -> Result<String> {
    let answer = text_of_visits(alloc, store, walk)?;
    ensure!(is_over(walk), "the walk goes on after its end");
    Ok(answer)
}

// Whether a walk gives nothing more, though it is asked twice.
fn is_over(walk: &mut Walk<'_>) -> bool {
    walk.next().is_none() && walk.next().is_none()
}

// What a walk gives up to its end.
fn text_of_visits(alloc: Global, store: &Store, walk: &mut Walk<'_>) -> Result<String, AllocError> {
    let mut answer = String::new(alloc);
    push_visits(&mut answer, store, walk)?;
    answer.as_str().trim_end().to_string(alloc)
}

// Appends what a walk gives up to its end, with a space after each.
fn push_visits(answer: &mut String, store: &Store, walk: &mut Walk<'_>) -> Result<(), AllocError> {
    for item in walk {
        push_item(answer, store, &item)?;
    }
    Ok(())
}

// Appends a visit, or the stop of a walk, and a space.
fn push_item(
    answer: &mut String,
    store: &Store,
    item: &Result<Visit, WalkStop>,
) -> Result<(), AllocError> {
    match item {
        Ok(visit) => push_visit(answer, store, visit),
        Err(stop) => write!(answer, "{stop:?} "),
    }
}

// Appends a visit and a space.
fn push_visit(answer: &mut String, store: &Store, visit: &Visit) -> Result<(), AllocError> {
    push_numbers(answer, visit.job, visit.seq, visit.depth)?;
    push_block(answer, store, visit)?;
    answer.push_str(if visit.malformed { "! " } else { " " })
}

// Appends a visit's job, number and depth, with a dot after each.
fn push_numbers(answer: &mut String, job: u32, seq: u32, depth: u32) -> Result<(), AllocError> {
    write!(answer, "{job}.{seq}.{depth}.")
}

// Appends the place of a visit's block, with `other` before it where the store has the block elsewhere.
fn push_block(answer: &mut String, store: &Store, visit: &Visit) -> Result<(), AllocError> {
    let Some(place) = visit.block else {
        return answer.push_str("none");
    };
    if store.find(&visit.cid) != Some(place) {
        answer.push_str("other")?;
    }
    write!(answer, "{place}")
}

/// `visits ROOTS LIMIT SELECTOR = COUNT`, and the stop after it
pub fn visits(alloc: Global, store: &Store, input: &str) -> Result<String> {
    let job = job_of_words(alloc, input)?;
    text_of_count(alloc, store, &job)
}

// How many visits a walk gives, and its stop.
fn counted(walk: Walk<'_>) -> (u32, Option<WalkStop>) {
    let mut count = 0u32;
    let mut stopped = None;
    for item in walk {
        match item {
            Ok(_) => count = count.saturating_add(1),
            Err(stop) => stopped = Some(stop),
        }
    }
    (count, stopped)
}

// How many visits a job has, and the stop after the count.
fn text_of_count(alloc: Global, store: &Store, job: &Job) -> Result<String> {
    match counted(Walk::new(alloc, store, job, 0)?) {
        (count, Some(stop)) => format!(in alloc; "{count} {stop:?}").map_err(Error::from),
        (count, None) => count.to_string(alloc).map_err(Error::from),
    }
}

/// `verdict ROOT = VERDICT` of the visit of a root, with the receipt of the check
pub fn verdict(alloc: Global, store: &Store, input: &str) -> Result<String> {
    let job = job_of(alloc, "a", input, "1", MATCHER)?;
    text_of_verdict(alloc, store, &job)
}

// The verdict of a job's first visit, as text.
fn text_of_verdict(alloc: Global, store: &Store, job: &Job) -> Result<String> {
    let verdict = verdict_of_first(alloc, store, job)?;
    verdict.to_string(alloc).map_err(Error::from)
}

// The verdict of a job's first visit.
fn verdict_of_first(alloc: Global, store: &Store, job: &Job) -> Result<Verdict> {
    let mut walk = Walk::new(alloc, store, job, 0)?;
    match walk.next() {
        Some(Ok(visit)) => verdict_of_visit(alloc, store, &visit),
        _ => bail!("no visit"),
    }
}

// The verdict of a visit, for which there has to be the receipt of the first one.
fn verdict_of_visit(alloc: Global, store: &Store, visit: &Visit) -> Result<Verdict>
    requires { IsVisitOf store.now visit.now }
{
    let mut check = ShaCheck::new(alloc);
    let verdict = check.check(alloc, store, visit)?;
    ensure!(
        check.receipts() == [(0, 0)].as_slice(),
        "the receipts are others"
    );
    Ok(verdict)
}
