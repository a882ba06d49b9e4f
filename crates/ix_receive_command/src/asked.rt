//! What is asked for: the job of the arguments, and the paths of its roots.

use crate::spec::{LIMIT, ROOT, SPEC};
use clap::ArgMatches;
use ix_cid::Cid;
use ix_cli_io::{ErrorCode, Failure};
use ix_job_errors::job_fault_words;
use ix_jobs::{JobWords, SelectorWord, jobs_of_words, selector_hex};
use ix_load::{RootPaths, Roots, SCOPE, Scope, Unresolved, no_jobs};
use ix_path::RootPath;
use ix_walk::Job;
use std::alloc::{AllocError, Global};

// The name of the job in the report.
const NAME: &str = "receive";

// The limit where none is given.
const MOST_VISITS: &str = "4294967295";

const TOO_DEEP: &str =
    "--root and --selector: the path, of which each number counts twice, and the \
selector at its end nest more than 128 deep together";

/// What is asked for.
#[derive(Drop)]
pub(crate) struct Asked {
    pub job: Job,
    /// The paths of its roots, if any leads on.
    pub paths: Vec<RootPath>,
}

/// Returns what the arguments ask for, or why they are those of no job.
pub(crate) fn asked_for<'a>(alloc: Global, words: &ArgMatches<'a>) -> Result<Asked, Failure> {
    let scope = Scope::given(alloc, &SPEC, SCOPE.optional_text(words))?;
    let selector = scope.given_selector(words);
    let limit = LIMIT.optional_text(words).unwrap_or(MOST_VISITS);
    let (option, roots) = ("--root <ROOT>", ROOT.optional_text(words));
    let roots = Roots::given(alloc, &SPEC, option, roots, &[], scope)?;
    let cids = roots.cids(alloc)?;
    // The selector is checked first, with the roots alone.
    let job = job_of(alloc, cids.as_slice(), limit, &selector)?;
    match paths_of(roots) {
        Some(paths) => asked_along(alloc, paths, cids.as_slice(), limit, &selector),
        None => Ok(Asked {
            job,
            paths: Vec::new(alloc),
        }),
    }
}

// Returns the paths of roots that have one.
fn paths_of(roots: Roots) -> Option<RootPaths> {
    match roots {
        Roots::Paths(paths) => Some(paths),
        Roots::Cids(_cids) => None,
        Roots::Header => None,
    }
}

// Returns what is asked for along paths, whose selector was read.
fn asked_along(
    alloc: Global,
    paths: RootPaths,
    roots: &[Cid],
    limit: &str,
    selector: &SelectorWord<'_>,
) -> Result<Asked, Failure> {
    let Ok(inner) = selector_hex(alloc, selector) else {
        return Err(Failure::from(AllocError));
    };
    let hex = match paths.unresolved_hex(alloc, selector, inner.trim_end()) {
        Ok(hex) => hex,
        Err(Unresolved::TooDeep) => {
            return Err(Failure::stopped(ErrorCode::Path, String::from_str(alloc, TOO_DEEP)));
        }
        Err(unresolved) => return Err(no_jobs(alloc, unresolved)?),
    };
    let job = job_of(alloc, roots, limit, &SelectorWord::Hex(hex.as_str()))?;
    Ok(Asked {
        job,
        paths: paths.into_paths(),
    })
}

// Returns the job of these roots and this selector, or why there is none.
fn job_of(
    alloc: Global,
    roots: &[Cid],
    limit: &str,
    selector: &SelectorWord<'_>,
) -> Result<Job, Failure> {
    let words = JobWords {
        name: NAME,
        roots,
        limit,
        greatest_limit: u32::MAX,
        selector: *selector,
    };
    match jobs_of_words(alloc, &words, true) {
        Ok(mut jobs) => match jobs.pop() {
            Some(job) => Ok(job),
            None => Err(Failure::from(AllocError)),
        },
        Err(fault) => {
            let line = job_fault_words(alloc, &fault, &words);
            Err(Failure::stopped(ErrorCode::Job, line))
        }
    }
}
