//! Makes a job from its fields, without a job file.

ghost use Rattle.std.specs.Prelude.{◌≡◌, length, Ok, IfOk, IfErr};
ghost use Rattle.ix_jobs.specs.JobWords.{AreJobsOf, AreWordsRefused, IsJobOf, IsSelectorOf, IsSelectorRefused};

use crate::job_line::LineFault;
use crate::selector_word::{SelectorWord, selector_hex};
use crate::{JobErrorKind, limit_in, selector_in, with_links_once};
use ix_cid::Cid;
use ix_selector::Selector;
use ix_walk::{Job, MOST_ROOTS, is_name};
use std::alloc::{AllocError, Global};

/// The fields of one job: its name, its roots, its limit in decimal digits, the greatest limit that it may
/// have, and its selector.
#[derive(Debug, Drop, Clone, Copy)]
pub struct JobWords<'a> {
    pub name: &'a str,
    pub roots: &'a [Cid],
    pub limit: &'a str,
    pub greatest_limit: u32,
    pub selector: SelectorWord<'a>,
}

/// Returns the one job of these fields. It expands a CID once if that is asked for, and else at every
/// link. The name is checked first, then the selector, the number of roots, and the limit.
pub fn jobs_of_words(alloc: Global, words: &JobWords<'_>, once: bool) -> Result<Vec<Job>, LineFault>
    ensures jobs { IfOk result (λ jobs. AreJobsOf words.now once jobs.items) }
    ensures one { IfOk result (λ jobs. length jobs.items ≡ 1) }
    ensures refused { IfErr result (AreWordsRefused words.now) }
{
    let job = job_of_words(alloc, words)?;
    let mut jobs = Vec::with_capacity(alloc, 1)?;
    jobs.push(job)?;
    Ok(with_links_once(alloc, jobs, once)?)
}

// Returns the job of these fields, which expands a CID at every link.
fn job_of_words(alloc: Global, words: &JobWords<'_>) -> Result<Job, LineFault>
    ensures job { IfOk result (IsJobOf words.now) }
    ensures refused { IfErr result (AreWordsRefused words.now) }
{
    if !is_name(words.name) {
        return Err(LineFault::Field(JobErrorKind::Name));
    }
    let selector = selector_of(alloc, &words.selector)?;
    if words.roots.is_empty() || words.roots.len() > MOST_ROOTS {
        return Err(LineFault::Field(JobErrorKind::Root));
    }
    let limit = match limit_in(words.limit, words.greatest_limit) {
        Ok(limit) => limit,
        Err(_) => return Err(LineFault::Field(JobErrorKind::Limit)),
    };
    let name = String::from_str(alloc, words.name)?;
    let roots = clones(alloc, words.roots)?;
    match Job::with_limit_up_to(words.greatest_limit, name, roots, selector, limit) {
        Ok(job) => Ok(job),
        Err(_) => unreachable!(),
    }
}

// Returns the selector of a word.
fn selector_of(alloc: Global, word: &SelectorWord<'_>) -> Result<Selector, LineFault>
    ensures selector { IfOk result (λ selector. IsSelectorOf word.now (Ok selector)) }
    ensures refused { IfErr result (IsSelectorRefused word.now) }
{
    let line = selector_hex(alloc, word)?;
    let hex = match line.strip_suffix("\n") {
        Some(hex) => hex,
        None => unreachable!(),
    };
    match selector_in(alloc, hex) {
        Ok(selector) => Ok(selector),
        Err(kind) => Err(LineFault::Field(kind)),
    }
}

// Returns clones of CIDs.
fn clones(alloc: Global, cids: &[Cid]) -> Result<Vec<Cid>, AllocError>
    ensures { IfOk result (λ clones. clones.items ≡ cids.now) }
{
    let mut clones = Vec::with_capacity(alloc, cids.len())?;
    for cid in cids {
        clones.push(cid.try_clone(alloc)?)?;
    }
    Ok(clones)
}
