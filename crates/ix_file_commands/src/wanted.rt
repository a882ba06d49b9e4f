//! What a file is verified for: what a selector enters from its roots, or from where a path from its root ends.

use crate::car_input::Rejection;
use crate::verify_spec::{EXACT, PATH, PATHS, SPEC};
use clap::ArgMatches;
use clap::error::ErrorKind as UsageKind;
use ix_cid::Cid;
use ix_cli_io::{Failure, Stop};
use ix_job_errors::job_fault_words;
use ix_jobs::{JobWords, SelectorWord, jobs_of_words, selector_hex};
use ix_load::{
    RootPaths, SCOPE, SELECTOR, SELECTOR_HEX, SOME_ROOT, Scope, Unresolved, refused_roots,
    some_root,
};
use ix_path::{PathError, RootPath};
use ix_store::Store;
use ix_walk::Job;
use std::alloc::{AllocError, Global};

// The name of the job, and its limit.
const NAME: &str = "verify";

const LIMIT: &str = "4294967295";

// How many roots a job has at most.
const MOST_ROOTS: usize = 64;

const TOO_DEEP: &str = "--path and --selector: the path and the selector at its end nest more than \
128 deep together";

/// What is asked for of a file.
#[derive(Clone, Copy)]
pub(crate) struct Wanted<'a> {
    // The selector from the roots, or from where the path ends.
    selector: SelectorWord<'a>,
    scope: Scope,
    path: Option<&'a str>,
    // Whether only paths of findings are asked for, so a root that is named twice counts once.
    counts_roots_once: bool,
}

impl<'a> Wanted<'a> {
    /// Reads the arguments. Returns None if they ask for nothing but everything below the roots, however many
    /// these are.
    pub(crate) fn given(
        alloc: Global,
        words: &ArgMatches<'a>,
    ) -> Result<Option<Wanted<'a>>, Failure> {
        let is_asked = is_asked(words);
        if !is_asked && !PATHS.is_given(words) {
            return Ok(None);
        }
        let scope = Scope::given(alloc, &SPEC, SCOPE.optional_text(words))?;
        let path = PATH.optional_text(words);
        if let Some(path) = path {
            check_path(alloc, path, scope)?;
        }
        Ok(Some(Wanted {
            selector: scope.given_selector(words),
            scope,
            path,
            counts_roots_once: !is_asked,
        }))
    }

    /// Returns the line of a selector that is rejected, if it is.
    pub(crate) fn refused(&self, alloc: Global) -> Option<Result<String, AllocError>> {
        match some_root(alloc) {
            Ok(roots) => self.job(alloc, roots.as_slice(), &self.selector).err(),
            Err(error) => Some(Err(error)),
        }
    }

    /// Returns the job of the roots in the header of a file, or None if there are none, or too many for a job and
    /// nothing is asked for but paths. Where there is a path, it leads on from the one root in the store of the file's
    /// blocks.
    pub(crate) fn job_in<'b>(
        &self,
        alloc: Global,
        file: &'b str,
        roots: &[Cid],
        store: &Store,
    ) -> Result<Option<Job>, Rejection<'b>> {
        let job = match (self.path, roots) {
            (None, []) => return Ok(None),
            (None, _) if self.counts_roots_once => {
                let distinct = first_distinct(alloc, roots)?;
                if distinct.len() > MOST_ROOTS {
                    return Ok(None);
                }
                self.job(alloc, distinct.as_slice(), &self.selector)
            }
            (None, _) => self.job(alloc, roots, &self.selector),
            (Some(path), [root]) => {
                let hex = self.hex_along(alloc, file, path, root, store)?;
                self.job(alloc, roots, &SelectorWord::Hex(hex.as_str()))
            }
            (Some(_), _) => {
                let why = format!(in alloc;
                    "--path leads on from one root, and there are {}",
                    roots.len()
                )?;
                return Err(refused(alloc, file, why.as_str())?);
            }
        };
        match job {
            Ok(job) => Ok(Some(job)),
            Err(line) => Err(refused(alloc, file, line?.as_str())?),
        }
    }

    // Returns the job of these roots and this selector, or why there is none.
    fn job(
        &self,
        alloc: Global,
        roots: &[Cid],
        selector: &SelectorWord<'_>,
    ) -> Result<Job, Result<String, AllocError>> {
        let words = JobWords {
            name: NAME,
            roots,
            limit: LIMIT,
            greatest_limit: u32::MAX,
            selector: *selector,
        };
        match jobs_of_words(alloc, &words, true) {
            Ok(mut jobs) => jobs.pop().ok_or(Err(AllocError)),
            Err(fault) => Err(job_fault_words(alloc, &fault, &words)),
        }
    }

    // Returns the selector, in hex, from the root of a file along the path.
    fn hex_along<'b>(
        &self,
        alloc: Global,
        file: &'b str,
        path: &str,
        root: &Cid,
        store: &Store,
    ) -> Result<String, Rejection<'b>> {
        let text = format!(in alloc; "{SOME_ROOT}/{path}")?;
        let most = self.scope.most_segments();
        // The path was parsed before the files were read.
        let Ok(mut whole) = RootPath::parse(alloc, text.as_str(), most) else {
            return Err(Rejection::from(AllocError));
        };
        whole.root = root.try_clone(alloc)?;
        let paths = RootPaths::of(alloc, whole)?;
        // The selector was read before the files were.
        let Ok(inner) = selector_hex(alloc, &self.selector) else {
            return Err(Rejection::from(AllocError));
        };
        match paths.selector_hex(alloc, store, &self.selector, inner.trim_end()) {
            Ok(hex) => Ok(hex),
            Err(Unresolved::Stopped(stop)) => Err(Rejection::NoPath(
                file,
                hinted(alloc, path, stop)?,
            )),
            Err(Unresolved::TooDeep) => {
                let error = SPEC.refusal(alloc, UsageKind::InvalidValue, TOO_DEEP)?;
                Err(Rejection::from(Failure::from(error)))
            }
            Err(Unresolved::Memory) => Err(Rejection::from(AllocError)),
        }
    }
}

// Returns each of some roots once, in the order of first occurrences, up to one more than a job may have.
fn first_distinct(alloc: Global, roots: &[Cid]) -> Result<Vec<Cid>, AllocError> {
    let mut distinct = Vec::new(alloc);
    for root in roots {
        if distinct.len() <= MOST_ROOTS && !distinct.contains(root) {
            distinct.push(root.try_clone(alloc)?)?;
        }
    }
    Ok(distinct)
}

// Returns the line for a path that leads no further, which says so if the path begins with a slash.
fn hinted(alloc: Global, path: &str, stop: Stop) -> Result<Stop, AllocError> {
    if !path.starts_with('/') {
        return Ok(stop);
    }
    let line = format!(in alloc;
        "{}; PATH begins with a slash, so its first segment is empty",
        stop.line.as_str()
    )?;
    Ok(Stop { line, ..stop })
}

// Returns whether something is asked for.
fn is_asked<'a>(words: &ArgMatches<'a>) -> bool {
    EXACT.is_given(words)
        || SELECTOR.optional_text(words).is_some()
        || SELECTOR_HEX.optional_text(words).is_some()
        || SCOPE.optional_text(words).is_some()
        || PATH.optional_text(words).is_some()
}

// Checks that a path can follow a root. The place of an error is counted from where the path begins.
fn check_path(alloc: Global, path: &str, scope: Scope) -> Result<(), Failure> {
    let text = format!(in alloc; "{SOME_ROOT}/{path}")?;
    match RootPath::parse(alloc, text.as_str(), scope.most_segments()) {
        Ok(_) => Ok(()),
        Err(PathError::Memory) => Err(Failure::from(AllocError)),
        Err(error) => {
            let before = text.len().saturating_sub(path.len());
            let error = match error {
                PathError::Escape(place) => PathError::Escape(place.saturating_sub(before)),
                other => other,
            };
            let message = format!(in alloc; "invalid value '{path}' for '--path <PATH>': {error}")?;
            let error = SPEC.refusal(alloc, UsageKind::ValueValidation, message.as_str())?;
            Err(Failure::from(error))
        }
    }
}

// Makes the rejection of a file with roots that are those of no job.
fn refused<'b>(alloc: Global, file: &str, why: &str) -> Result<Rejection<'b>, AllocError> {
    let error = refused_roots(alloc, &SPEC, file, why)?;
    Ok(Rejection::from(Failure::from(error)))
}
