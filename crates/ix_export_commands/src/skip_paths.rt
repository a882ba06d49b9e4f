//! The option `--paths`: each skip with the path of its visit.

use ix_jobs::JobResult;
use ix_json_report::{SkipCause, SkipNotes};
use ix_load::RunReport;
use ix_options::{ArgKind, ArgSpec};
use ix_path::{cause_word, malformed_fault};
use ix_store::Store;
use ix_trace::{trace, with_paths};
use ix_verdict::Verdict;
use ix_walk::Job;
use std::alloc::{AllocError, Global};
use std::str;

/// Whether each skip in the report has the path of its visit.
pub(crate) const PATHS: ArgSpec = ArgSpec {
    name: "paths",
    given: ArgKind::Flag,
    help: "Report each skip with its path from the root",
};

// The line where memory runs out.
const NO_PATHS: &str = "note: out of memory for the paths of skips";

/// What was run, and what is reported of it.
#[derive(Drop, Clone, Copy)]
pub(crate) struct Ran<'a> {
    pub store: &'a Store,
    pub jobs: &'a [Job],
    pub report: &'a RunReport,
}

/// The paths of the skips of each job, in their order, and why their bytes are malformed, or none.
#[derive(Drop)]
pub(crate) struct SkipPaths {
    each: Vec<Vec<Option<String>>>,
    causes: Vec<Vec<Option<SkipCause<'static>>>>,
}

impl SkipPaths {
    // Returns the paths of the skips of the job of this number.
    fn of_job(&self, number: usize) -> &[Option<String>] {
        match self.each.get(number) {
            Some(paths) => paths.as_slice(),
            None => &[],
        }
    }

    // Returns why the bytes of the skips of the job of this number are malformed.
    fn causes_of_job(&self, number: usize) -> &[Option<SkipCause<'static>>] {
        match self.causes.get(number) {
            Some(causes) => causes.as_slice(),
            None => &[],
        }
    }

    /// Returns none.
    pub(crate) fn none(alloc: Global) -> SkipPaths {
        SkipPaths {
            each: Vec::new(alloc),
            causes: Vec::new(alloc),
        }
    }
}

impl<'a> Ran<'a> {
    /// Returns the first job and its result.
    pub(crate) fn first(&self) -> Option<(&'a Job, &'a JobResult)> {
        Some((self.jobs.first()?, self.report.results.first()?))
    }

    /// Returns what a report says of the skips of the job of this number besides.
    pub(crate) fn notes<'p>(&self, number: usize, paths: &'p SkipPaths) -> SkipNotes<'p> {
        SkipNotes {
            absent: self.report.absent_of(number),
            paths: paths.of_job(number),
            causes: paths.causes_of_job(number),
        }
    }

    /// Returns the report as text, in which each skip has its path, if that is asked for. If memory runs out
    /// for it, a line on standard error says so.
    pub(crate) fn text<R: AllocGlobal + Eprint>(&self, rt: &R, are_asked: bool) -> Option<String> {
        if !are_asked {
            return None;
        }
        match self.text_with_paths(rt.alloc()) {
            Ok(text) => Some(text),
            Err(_) => {
                self.note_no_paths(rt);
                None
            }
        }
    }

    // Returns the report as text, in which each skip has its path.
    fn text_with_paths(&self, alloc: Global) -> Result<String, AllocError> {
        let report = str::from_utf8(self.report.report.as_slice()).unwrap_or("");
        let paths = self.traced(alloc)?;
        let mut all = Vec::new(alloc);
        for path in paths.each.iter().flatten() {
            all.push(path.as_ref().map(|path| path.as_str()))?;
        }
        with_paths(alloc, report, all.as_slice())
    }

    /// Says on standard error that memory ran out for paths.
    pub(crate) fn note_no_paths<R: Eprint>(&self, rt: &R) {
        let _ = rt.eprintln(NO_PATHS);
    }

    /// Returns the paths of the skips of each job, and why their bytes are malformed.
    pub(crate) fn traced(&self, alloc: Global) -> Result<SkipPaths, AllocError> {
        let mut each = Vec::with_capacity(alloc, self.jobs.len())?;
        let mut causes = Vec::with_capacity(alloc, self.jobs.len())?;
        for (job, outcome) in self.jobs.iter().zip(&self.report.results) {
            let numbers = numbers_of(alloc, outcome)?;
            let mut paths = trace(alloc, self.store, job, numbers.as_slice())?;
            // Each visit was made before, so there is a path for each.
            paths.resize_with(numbers.len(), || None)?;
            each.push(paths)?;
            causes.push(causes_in(alloc, self.store, outcome)?)?;
        }
        Ok(SkipPaths { each, causes })
    }
}

// Returns why the bytes of skips are malformed, in their order.
fn causes_in(
    alloc: Global,
    store: &Store,
    outcome: &JobResult,
) -> Result<Vec<Option<SkipCause<'static>>>, AllocError> {
    let mut causes = Vec::with_capacity(alloc, outcome.skips.len())?;
    for skip in &outcome.skips {
        let fault = if skip.verdict == Verdict::Malformed {
            malformed_fault(store, &skip.cid)
        } else {
            None
        };
        causes.push(fault.map(|fault| SkipCause {
            words: cause_word(fault.kind),
            offset: fault.place as u64,
        }))?;
    }
    Ok(causes)
}

// Returns the numbers of the visits that were skipped.
fn numbers_of(alloc: Global, outcome: &JobResult) -> Result<Vec<u32>, AllocError> {
    let mut numbers = Vec::with_capacity(alloc, outcome.skips.len())?;
    for skip in &outcome.skips {
        numbers.push(skip.seq)?;
    }
    Ok(numbers)
}
