//! What is printed of a stream that ended.

use crate::json_receive::{accepted_objects, other_objects, push_ended};
use crate::stream::{Ended, Outcome};
use crate::visit_paths::{ListedVisits, StopPlace, first_visit};
use ix_car::{Counts, End, Skip};
use ix_cid::HashFunction;
use ix_cli_io::print_report;
use ix_jobs::{JobResult, report, report_with_absent};
use ix_json_report::{SkipCause, SkipNotes};
use ix_own_archive::Counts as Received;
use ix_path::{cause_word, fault_in};
use ix_verdict::Verdict;
use ix_walk::Job;
use std::alloc::{AllocError, Global};
use std::{slice, str};

// The line where memory runs out for paths, as that of `get`.
const NO_PATHS: &str = "note: out of memory for the paths of skips";

/// What a report is made of besides how the stream ended.
#[derive(Clone, Copy)]
pub(crate) struct Report<'a> {
    pub job: &'a Job,
    /// The path of the stream, and that of the archive; `-` is standard input or output.
    pub input: &'a str,
    pub path: &'a str,
    /// Whether it is printed how many blocks are absent.
    pub shows_absent: bool,
    /// Whether it is printed where these are, and where a stream stopped.
    pub has_paths: bool,
    pub is_json: bool,
    pub is_quiet: bool,
}

impl<'a> Report<'a> {
    /// Prints to standard error how a stream ended. The archive of one that was accepted has its name, or
    /// not. If standard error can't be written, or memory runs out, there is no one to report to.
    pub(crate) fn print<R: AllocGlobal + Eprint>(&self, rt: &R, outcome: &Outcome, is_named: bool) {
        if let Ended::Accepted(counts) = &outcome.ended {
            if !self.is_quiet
                && let Ok(text) = self.accepted(rt, outcome, counts, is_named)
            {
                print_report(rt, text.as_slice());
            }
            return;
        }
        self.print_other(rt, outcome);
    }

    // Prints how a stream ended that wasn't accepted.
    fn print_other<R: AllocGlobal + Eprint>(&self, rt: &R, outcome: &Outcome) {
        let alloc = rt.alloc();
        let Ok(line) = self.line(alloc, &outcome.ended) else {
            return;
        };
        let _ = rt.eprintln(line.as_str());
        let stop = self.stop_place(rt, outcome);
        if !self.is_json {
            if let (Ended::Rejected(rejection), Some(stop)) = (&outcome.ended, &stop)
                && let Ok(line) = rejection.visit_line(alloc, stop)
            {
                let _ = rt.eprintln(line.as_str());
            }
            return;
        }
        if let Ok(text) = self.objects(alloc, outcome, &stop, line.as_str()) {
            print_report(rt, text.as_slice());
        }
    }

    // Returns the objects of a stream that wasn't accepted, with that of its error, which has this line.
    fn objects(
        &self,
        alloc: Global,
        outcome: &Outcome,
        stop: &Option<StopPlace>,
        line: &str,
    ) -> Result<Vec<u8>, AllocError> {
        let text = other_objects(alloc, self.path, outcome, stop)?;
        push_ended(alloc, text, &outcome.ended, line)
    }

    // Returns the visit at which a stream stopped, if it is asked for, and is one of the job. If memory runs
    // out for it, a line on standard error says so.
    fn stop_place<R: AllocGlobal + Eprint>(&self, rt: &R, outcome: &Outcome) -> Option<StopPlace> {
        let Ended::Rejected(rejection) = &outcome.ended else {
            return None;
        };
        let cid = rejection.stopped_at.as_ref()?;
        if !self.has_paths {
            return None;
        }
        let found = match &outcome.kept {
            Some(kept) => first_visit(rt.alloc(), kept, self.job, cid),
            None => Err(AllocError),
        };
        match found {
            Ok(stop) => stop,
            Err(_) => {
                let _ = rt.eprintln(NO_PATHS);
                None
            }
        }
    }

    // Returns the report of a stream that was accepted. If memory runs out for the paths of what is absent,
    // a line on standard error says so, and the report is made without.
    fn accepted<R: AllocGlobal + Eprint>(
        &self,
        rt: &R,
        outcome: &Outcome,
        counts: &Received,
        is_named: bool,
    ) -> Result<Vec<u8>, AllocError> {
        let alloc = rt.alloc();
        if self.has_paths && (counts.missing > 0 || counts.unread > 0) {
            if let Some(kept) = &outcome.kept
                && let Ok(listed) = ListedVisits::of(alloc, kept, self.job)
                && let Ok(report) = self.with_visits(alloc, outcome, counts, is_named, listed)
            {
                return Ok(report);
            }
            let _ = rt.eprintln(NO_PATHS);
        }
        let skips = copied(alloc, &outcome.skips)?;
        let listed = ListedVisits::without_paths(alloc, skips);
        self.with_visits(alloc, outcome, counts, is_named, listed)
    }

    // Returns the report of a stream that was accepted, which lists these visits.
    fn with_visits(
        &self,
        alloc: Global,
        outcome: &Outcome,
        counts: &Received,
        is_named: bool,
        listed: ListedVisits,
    ) -> Result<Vec<u8>, AllocError> {
        let absent = if self.shows_absent {
            Some(counts.missing as usize)
        } else {
            None
        };
        let ListedVisits { skips, paths } = listed;
        if self.is_json {
            let causes = causes_of(alloc, skips.as_slice(), !paths.is_empty())?;
            let result = result_with(outcome, counts, skips);
            let notes = SkipNotes {
                absent,
                paths: paths.as_slice(),
                causes: causes.as_slice(),
            };
            return accepted_objects(alloc, self.path, is_named, self.job, result, notes);
        }
        let result = result_of(alloc, outcome, counts)?;
        let (jobs, results) = (slice::from_ref(self.job), slice::from_ref(&result));
        let text = match absent {
            Some(absent) => report_with_absent(alloc, jobs, results, &[absent])?,
            None => report(alloc, jobs, results)?,
        };
        if paths.is_empty() {
            return Ok(text);
        }
        with_lines(alloc, text, skips.as_slice(), paths.as_slice())
    }

    // Returns the line for a stream that wasn't accepted.
    fn line(&self, alloc: Global, ended: &Ended) -> Result<String, AllocError> {
        let (input, path) = (self.input, self.path);
        match ended {
            Ended::Rejected(rejection) => rejection.line(alloc, input),
            Ended::NoCar(line) => format!(in alloc; "{input}: {line}"),
            Ended::Unreadable(error) => format!(in alloc; "cannot read {input}: {error}"),
            Ended::Unwritable(error, _) => format!(in alloc; "cannot write {path}: {error}"),
            Ended::Accepted(_) | Ended::Memory => String::from_str(alloc, "memory"),
        }
    }
}

// Returns a report in which the line of the job is followed by those of visits with their paths.
fn with_lines(
    alloc: Global,
    report: Vec<u8>,
    skips: &[Skip],
    paths: &[Option<String>],
) -> Result<Vec<u8>, AllocError> {
    let lines = str::from_utf8(report.as_slice()).unwrap_or("");
    let (Some(job), Some(total)) = (lines.lines().next(), lines.lines().next_back()) else {
        return Ok(report);
    };
    let mut text = String::from_str(alloc, job)?;
    for (skip, path) in skips.iter().zip(paths) {
        let (visit, verdict, cid) = (skip.seq, skip.verdict, skip.cid.text(alloc)?);
        write!(text, "\n  {visit} {verdict} {cid}")?;
        if let Some(path) = path {
            write!(text, " {path}")?;
        }
    }
    writeln!(text, "\n{total}")?;
    Ok(text.into_bytes())
}

/// Returns the result of the job of a stream that was accepted, with its skips.
pub(crate) fn result_of(
    alloc: Global,
    outcome: &Outcome,
    counts: &Received,
) -> Result<JobResult, AllocError> {
    let skips = copied(alloc, &outcome.skips)?;
    Ok(result_with(outcome, counts, skips))
}

// Returns copies of skips.
fn copied(alloc: Global, skips: &Vec<Skip>) -> Result<Vec<Skip>, AllocError> {
    let mut copies = Vec::with_capacity(alloc, skips.len())?;
    for skip in skips {
        copies.push(Skip {
            seq: skip.seq,
            cid: skip.cid.try_clone(alloc)?,
            verdict: skip.verdict,
        })?;
    }
    Ok(copies)
}

// Returns the result of the job of a stream that was accepted, with these visits as skips. Each of its visits
// is kept, since all its blocks are sound.
fn result_with(outcome: &Outcome, counts: &Received, skips: Vec<Skip>) -> JobResult {
    JobResult {
        end: End::Done,
        counts: Counts {
            visits: counts.visits,
            kept: counts.visits,
            sections: u32::try_from(outcome.sections).unwrap_or(u32::MAX),
            bytes: outcome.bytes,
            known: None,
        },
        skips,
    }
}

// Returns why the bytes of skips are malformed, in their order, if that is asked for: of identity CIDs, since the
// bytes of no other skip came.
fn causes_of(
    alloc: Global,
    skips: &[Skip],
    are_asked: bool,
) -> Result<Vec<Option<SkipCause<'static>>>, AllocError> {
    let mut causes = Vec::new(alloc);
    if !are_asked {
        return Ok(causes);
    }
    for skip in skips {
        let parts = skip.cid.parts();
        let is_inline = parts.hash_function() == Some(HashFunction::Identity);
        let fault = if is_inline && skip.verdict == Verdict::Malformed {
            fault_in(parts.digest)
        } else {
            None
        };
        causes.push(fault.map(|fault| SkipCause {
            words: cause_word(fault.kind),
            offset: fault.place as u64,
        }))?;
    }
    Ok(causes)
}
