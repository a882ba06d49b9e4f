//! The command `verify`: whether CARv1 files are sound, and whole.

use crate::car_input::{CarInput, NOT_SOUND, Rejection};
use crate::exact::{Inexact, inexact_header, inexact_in};
use crate::job_archives::{JobArchives, other_header};
use crate::verify_report::{Report, print_no_file, print_report};
pub use crate::verify_spec::SPEC;
use crate::verify_spec::{ALL, BLOCKS_ONLY, EXACT, FILES, PATHS, PREFER_SOUND, QUIET, WITH};
use crate::wanted::Wanted;
use clap::ArgMatches;
use clap::error::ErrorKind as UsageKind;
use ix_cli_io::{
    ANY_SIZE, Causes, ErrorCode, Failure, Progress, ProgressMode, REFUSED, STANDARD_INPUT,
    check_memory, size_of_all,
};
use ix_load::allowed_missing;
use ix_options::{
    Host, JSON, VERIFIERS, available_processors, failure_object, later_note, most_input, print_all,
    print_notes, progress_mode,
};
use ix_sections::{Copies, read_header};
use ix_store::Store;
use ix_trace::trace;
use ix_verdict::AllowMissing;
use ix_verify::{
    Beside, Findings, JobWalk, Observer, OtherFile, Scope, load_beside, verify_beside, verify_job,
    verify_sections,
};
use ix_walk::Job;
use std::alloc::{AllocError, Global};
use std::io::ErrorKind;
use std::num::NonZeroUsize;
use std::rt::{Clock, Files};

// How many findings of a file are printed without `--all`.
const FIRST: usize = 20;

// The line where memory runs out for paths.
const NO_PATHS: &str = "note: out of memory for the paths of links";

// The line where links have no path since a job has no such roots.
const TOO_MANY_ROOTS: &str = "note: links have no paths: they are followed from more than 64 roots";

// What the arguments choose besides the files.
#[derive(Clone, Copy)]
struct VerifyCommand<'a> {
    threads: NonZeroUsize,
    scope: Scope,
    // What is asked for in place of everything below the roots, if that was given.
    wanted: Option<Wanted<'a>>,
    // The jobs whose archives are verified, if that was given.
    archives: Option<JobArchives<'a>>,
    // Whether a file is to be exactly what is asked for.
    is_exact: bool,
    // Which copy of a block counts for a link.
    copies: Copies,
    // Which links may lead to blocks that aren't there, if that was given.
    allowed: Option<AllowMissing>,
    // Whether all findings are printed, with the line of the file after them.
    prints_all: bool,
    // Whether a link is printed with its path.
    has_paths: bool,
    is_json: bool,
    is_quiet: bool,
    // The greatest size of a file.
    most_input: u64,
    progress: ProgressMode,
}

/// Runs the command and returns the status. The files of `--with` are read first; if one is rejected, no other
/// is verified. After a file that is rejected it goes on with the next.
pub fn run<'a, R: Host>(rt: &R, words: &ArgMatches<'a>, is_terminal: bool) -> Result<u8, Failure> {
    let command = VerifyCommand::read(rt.alloc(), words, available_processors(rt), is_terminal)?;
    if let Some(wanted) = &command.wanted
        && let Some(line) = wanted.refused(rt.alloc())
    {
        return Err(Failure::stopped(ErrorCode::Job, line));
    }
    let progress = Progress::new(rt, command.progress);
    let mut others = Vec::new(rt.alloc());
    let paths = words.get_strs(WITH.name).unwrap_or(&[]);
    check_memory(rt, paths)?;
    let files = words.get_strs(FILES.name).unwrap_or(&[]);
    if command.archives.is_none() {
        progress.expect(size_of_both(rt, paths, files));
    }
    if let Err(rejection) = command.read_others(rt, paths, &progress, &mut others) {
        progress.end();
        return Ok(command.report(rt, rejection));
    }
    let others = others.as_slice();
    if let Some(archives) = &command.archives {
        return command.verify_archives(rt, archives, others, &progress);
    }
    let mut status = 0;
    for path in files {
        let told = command.verify_file(rt, path, None, others, &progress);
        status = worse(status, command.told(rt, told, &progress));
    }
    Ok(status)
}

// Returns how many bytes two groups of files have together, or 0 if that isn't known of each.
fn size_of_both<R: Files>(rt: &R, paths: &[&str], files: &[&str]) -> u64 {
    let size = size_of_all(rt, files);
    if paths.is_empty() {
        return size;
    }
    match size_of_all(rt, paths) {
        0 => 0,
        more if size > 0 => size.saturating_add(more),
        _ => 0,
    }
}

// Adds a file, unless it was rejected.
fn push_other<'a>(
    others: &mut Vec<OtherFile>,
    other: Result<OtherFile, Rejection<'a>>,
) -> Result<(), Rejection<'a>> {
    match other {
        Ok(other) => {
            others.push(other).map_err(AllocError::from)?;
            Ok(())
        }
        Err(rejection) => Err(rejection),
    }
}

// Returns the status of two files from the status of each.
fn worse(status: u8, other: u8) -> u8 {
    match (status, other) {
        (REFUSED, _) | (_, REFUSED) => REFUSED,
        _ => status.max(other),
    }
}

impl<'a> VerifyCommand<'a> {
    // Reads the arguments. The first that is rejected is reported, in this order: standard input that is given
    // twice, what is asked for, the codecs of missing blocks, and the size.
    fn read(
        alloc: Global,
        words: &ArgMatches<'a>,
        processors: usize,
        is_terminal: bool,
    ) -> Result<VerifyCommand<'a>, Failure> {
        check_standard_input(alloc, words)?;
        let archives = JobArchives::given(alloc, words)?;
        let threads = VERIFIERS.threads(words, processors) as usize;
        Ok(VerifyCommand {
            threads: NonZeroUsize::new(threads).unwrap_or(NonZeroUsize::MIN),
            scope: if BLOCKS_ONLY.is_given(words) {
                Scope::Sections
            } else {
                Scope::Graph
            },
            wanted: Wanted::given(alloc, words)?,
            archives,
            is_exact: EXACT.is_given(words),
            copies: if PREFER_SOUND.is_given(words) {
                Copies::Sound
            } else {
                Copies::First
            },
            allowed: allowed_missing(alloc, &SPEC, words)?,
            prints_all: ALL.is_given(words),
            has_paths: PATHS.is_given(words),
            is_json: JSON.is_given(words),
            is_quiet: QUIET.is_given(words),
            most_input: most_input(alloc, &SPEC, words, ANY_SIZE)?,
            progress: progress_mode(words, &QUIET, is_terminal),
        })
    }

    // Prints why a file is rejected, as JSON too if that is asked for, and returns the status. If an output can't be
    // written, there is no one to report to.
    fn report<'f, R: AllocGlobal + Eprint + Print>(&self, rt: &R, rejection: Rejection<'f>) -> u8 {
        let failure = rejection.into_failure(rt.alloc());
        let status = failure.report(rt, Causes::Beside);
        if self.is_json
            && let Ok(Some(object)) = failure_object(rt.alloc(), &failure)
        {
            let _ = print_all(rt, object.as_slice());
        }
        status
    }

    // Returns the status of a file that was verified, and prints why it is rejected if it is.
    fn told<'f, R: Host>(
        &self,
        rt: &R,
        told: Result<u8, Rejection<'f>>,
        progress: &Progress<R>,
    ) -> u8 {
        match told {
            Ok(status) => status,
            Err(rejection) => {
                progress.end();
                self.report(rt, rejection)
            }
        }
    }

    // Verifies the archive of each job beside others, and returns the status.
    fn verify_archives<R: Host>(
        &self,
        rt: &R,
        archives: &JobArchives<'_>,
        others: &[OtherFile],
        progress: &Progress<R>,
    ) -> Result<u8, Failure> {
        let mut status = 0;
        for job in &archives.read(rt, self.most_input)? {
            let path = archives.path_of(rt.alloc(), job)?;
            let told = self.verify_archive(rt, path.as_str(), job, others, progress);
            status = worse(status, self.told(rt, told, progress));
        }
        Ok(status)
    }

    // Verifies the archive of a job beside others, prints what was found, or that it isn't there, and returns the
    // status.
    fn verify_archive<'f, R: Host>(
        &self,
        rt: &R,
        path: &'f str,
        job: &Job,
        others: &[OtherFile],
        progress: &Progress<R>,
    ) -> Result<u8, Rejection<'f>> {
        let told = self.verify_file(rt, path, Some(job), others, progress);
        if is_not_there(&told) {
            progress.end();
            print_no_file(rt, path, self.is_json)?;
            return Ok(NOT_SOUND);
        }
        told
    }

    // Reads the files beside which others are verified, up to the first that is rejected.
    fn read_others<'f, R: Host>(
        &self,
        rt: &R,
        paths: &[&'f str],
        progress: &Progress<R>,
        others: &mut Vec<OtherFile>,
    ) -> Result<(), Rejection<'f>> {
        for path in paths {
            push_other(others, self.read_other(rt, path, progress))?;
        }
        Ok(())
    }

    // Reads a file beside which others are verified.
    fn read_other<'f, R: Host>(
        &self,
        rt: &R,
        path: &'f str,
        progress: &Progress<R>,
    ) -> Result<OtherFile, Rejection<'f>> {
        let CarInput { car, source, .. } = self.load(rt, path, progress)?;
        match OtherFile::read(rt.alloc(), car) {
            Ok(other) => Ok(other),
            Err(fault) => Err(source.rejection(fault)),
        }
    }

    // Reads a file.
    fn load<'f, R: Host>(
        &self,
        rt: &R,
        path: &'f str,
        progress: &Progress<R>,
    ) -> Result<CarInput<'f>, Rejection<'f>> {
        CarInput::load(rt, path, self.most_input, self.threads.get(), progress)
    }

    // Verifies a file beside others, as the archive of a job if one is given, prints what was found and how many blocks
    // are a later copy, and returns the status.
    fn verify_file<'f, R: Host>(
        &self,
        rt: &R,
        path: &'f str,
        job: Option<&Job>,
        others: &[OtherFile],
        progress: &Progress<R>,
    ) -> Result<u8, Rejection<'f>> {
        let input = self.load(rt, path, progress)?;
        let Judged {
            found,
            inexact,
            paths,
        } = match job {
            Some(job) => self.archive_findings(rt, &input, others, job, progress)?,
            None => self.judge(rt, &input, others, progress)?,
        };
        progress.end_checked();
        let report = Report {
            path,
            bytes: input.size,
            car: input.car.as_slice(),
            start: input.source.start,
            found: &found,
            inexact: inexact.as_ref(),
            most: self.most(),
            prints_all: self.prints_all,
            is_json: self.is_json,
            shows_absent: self.allowed.is_some(),
            paths: paths.as_slice(),
        };
        let status = if self.is_quiet && report.is_whole() {
            0
        } else {
            print_report(rt, &report)?
        };
        print_later(rt, path, found.later_count);
        Ok(status)
    }

    // Verifies a file beside others, and shows how far it is.
    fn judge<'f, R: Host>(
        &self,
        rt: &R,
        input: &CarInput<'f>,
        others: &[OtherFile],
        progress: &Progress<R>,
    ) -> Result<Judged, Rejection<'f>> {
        match &self.wanted {
            Some(wanted) => self.wanted_findings(rt, input, others, wanted, progress),
            None => Ok(Judged::of(rt.alloc(), self.findings(rt, input, others, progress)?)),
        }
    }

    // Returns how many findings of a kind are kept at most.
    fn most(&self) -> usize {
        if self.prints_all { usize::MAX } else { FIRST }
    }

    // Verifies a file beside others, with everything below its roots if links are followed.
    fn findings<'f, R: Host>(
        &self,
        rt: &R,
        input: &CarInput<'f>,
        others: &[OtherFile],
        progress: &Progress<R>,
    ) -> Result<Findings, Rejection<'f>> {
        let (alloc, threads, most) = (rt.alloc(), self.threads, self.most());
        let observer = Observing { progress };
        let found = match self.scope {
            Scope::Sections => verify_sections(rt, alloc, &input.car, threads, most, &observer),
            Scope::Graph => {
                let beside = Beside {
                    others,
                    copies: self.copies,
                    allowed: self.allowed(),
                    observer: &observer,
                };
                verify_beside(rt, alloc, &input.car, beside, threads, most)
            }
        };
        match found {
            Ok(found) => Ok(found),
            Err(fault) => Err(input.source.rejection(fault)),
        }
    }

    // Returns which links may lead to blocks that aren't there.
    fn allowed(&self) -> AllowMissing {
        self.allowed.unwrap_or(AllowMissing::none())
    }

    // Verifies a file beside others for what is asked for, and shows how far it is.
    fn wanted_findings<'f, R: Host>(
        &self,
        rt: &R,
        input: &CarInput<'f>,
        others: &[OtherFile],
        wanted: &Wanted<'_>,
        progress: &Progress<R>,
    ) -> Result<Judged, Rejection<'f>> {
        let (store, later_count) = self.store_of(rt, input, others)?;
        match job_of(rt.alloc(), input, wanted, &store)? {
            None => self.rootless_findings(rt, input, others, progress),
            Some(job) => {
                let mut judged = self.job_findings(rt, input, &store, &job, progress)?;
                judged.found.later_count = later_count;
                Ok(judged)
            }
        }
    }

    // Verifies a file beside others as the archive of a job, and shows how far it is.
    fn archive_findings<'f, R: Host>(
        &self,
        rt: &R,
        input: &CarInput<'f>,
        others: &[OtherFile],
        job: &Job,
        progress: &Progress<R>,
    ) -> Result<Judged, Rejection<'f>> {
        let (store, later_count) = self.store_of(rt, input, others)?;
        let mut judged = self.job_findings(rt, input, &store, job, progress)?;
        judged.found.later_count = later_count;
        if !self.is_exact {
            judged.inexact = other_header(rt.alloc(), input.car.as_slice(), job)?;
        }
        Ok(judged)
    }

    // Verifies a file whose header has no roots: nothing is asked for, and it is no export. So is one with more roots
    // than a job has, of whose links no path is known.
    fn rootless_findings<'f, R: Host>(
        &self,
        rt: &R,
        input: &CarInput<'f>,
        others: &[OtherFile],
        progress: &Progress<R>,
    ) -> Result<Judged, Rejection<'f>> {
        let inexact = if self.is_exact {
            Some(inexact_header(rt.alloc())?)
        } else {
            None
        };
        let found = self.findings(rt, input, others, progress)?;
        if self.has_paths && found.skips.count > 0 {
            let _ = rt.eprintln(TOO_MANY_ROOTS);
        }
        Ok(Judged {
            found,
            inexact,
            paths: Vec::new(rt.alloc()),
        })
    }

    // Loads the blocks of a file and of others, and returns how many are a later copy.
    fn store_of<'f, R: Host>(
        &self,
        rt: &R,
        input: &CarInput<'f>,
        others: &[OtherFile],
    ) -> Result<(Store, usize), Rejection<'f>> {
        let (alloc, threads) = (rt.alloc(), self.threads.get());
        match load_beside(rt, alloc, &input.car, others, self.copies, threads) {
            Ok(loaded) => Ok(loaded),
            Err(fault) => Err(input.source.rejection(fault)),
        }
    }

    // Verifies a file for a job over a store, and shows how far it is.
    fn job_findings<'f, R: Host>(
        &self,
        rt: &R,
        input: &CarInput<'f>,
        store: &Store,
        job: &Job,
        progress: &Progress<R>,
    ) -> Result<Judged, Rejection<'f>> {
        let (alloc, threads, most) = (rt.alloc(), self.threads, self.most());
        let observer = Observing { progress };
        let walk = JobWalk {
            store,
            job,
            allowed: self.allowed(),
            observer: &observer,
        };
        let found = match verify_job(rt, alloc, &input.car, walk, threads, most) {
            Ok(found) => found,
            Err(fault) => return Err(input.source.rejection(fault)),
        };
        let inexact = if self.is_exact {
            inexact_in(alloc, input.car.as_slice(), job)?
        } else {
            None
        };
        let paths = if self.has_paths {
            link_paths(rt, store, job, &found)
        } else {
            Vec::new(alloc)
        };
        Ok(Judged {
            found,
            inexact,
            paths,
        })
    }
}

// Returns whether a file isn't there.
fn is_not_there<'f>(told: &Result<u8, Rejection<'f>>) -> bool {
    match told {
        Err(Rejection::Failure(Failure::CannotRead(_, error))) => {
            error.kind() == ErrorKind::NotFound
        }
        _ => false,
    }
}

// What was found of a file.
#[derive(Drop)]
struct Judged {
    found: Findings,
    // The first place at which it isn't exactly what is asked for, if it is to be.
    inexact: Option<Inexact>,
    // The paths of the links that were kept, in their order, if they are asked for.
    paths: Vec<Option<String>>,
}

impl Judged {
    // Returns these findings alone.
    fn of(alloc: Global, found: Findings) -> Judged {
        Judged {
            found,
            inexact: None,
            paths: Vec::new(alloc),
        }
    }
}

// Returns the paths of the links that were kept of a walk of a job. If memory runs out, a line on standard error says
// so.
fn link_paths<R: AllocGlobal + Eprint>(
    rt: &R,
    store: &Store,
    job: &Job,
    found: &Findings,
) -> Vec<Option<String>> {
    match traced(rt.alloc(), store, job, found) {
        Ok(paths) => paths,
        Err(_) => {
            let _ = rt.eprintln(NO_PATHS);
            Vec::new(rt.alloc())
        }
    }
}

// Returns the paths of the links that were kept of a walk of a job.
fn traced(
    alloc: Global,
    store: &Store,
    job: &Job,
    found: &Findings,
) -> Result<Vec<Option<String>>, AllocError> {
    let mut numbers = Vec::with_capacity(alloc, found.skips.first.len())?;
    for skip in &found.skips.first {
        numbers.push(skip.seq)?;
    }
    trace(alloc, store, job, numbers.as_slice())
}

// Returns the job of the roots of a file, or None if it has none.
fn job_of<'f>(
    alloc: Global,
    input: &CarInput<'f>,
    wanted: &Wanted<'_>,
    store: &Store,
) -> Result<Option<Job>, Rejection<'f>> {
    match read_header(alloc, input.car.as_slice()) {
        Ok((roots, _)) => wanted.job_in(alloc, input.source.path, roots.as_slice(), store),
        Err(fault) => Err(input.source.rejection(fault)),
    }
}

// Shows how far the verification of files is.
#[derive(Drop)]
struct Observing<'a, 'p, R> {
    progress: &'a Progress<'p, R>,
}

impl<'a, 'p, R: AllocGlobal + Clock + Eprint> Observer for Observing<'a, 'p, R> {
    fn on_sections(&self, count: usize) {
        self.progress.add_checked(count);
    }

    fn on_visit(&self) {
        self.progress.add_followed();
    }
}

// Prints how many blocks of a file are a later copy, if any are.
fn print_later<R: AllocGlobal + Eprint>(rt: &R, path: &str, count: usize) {
    if count > 0 {
        print_notes(rt, later_note(rt.alloc(), path, count));
    }
}

// Rejects standard input that is given twice.
fn check_standard_input<'a>(alloc: Global, words: &ArgMatches<'a>) -> Result<(), Failure> {
    let files = times_of_input(words.get_strs(FILES.name).unwrap_or(&[]));
    let others = times_of_input(words.get_strs(WITH.name).unwrap_or(&[]));
    let message = match (files, others) {
        (0, 0) | (1, 0) | (0, 1) => return Ok(()),
        (_, 0) => "standard input is given twice for '<FILE>...'",
        (0, _) => "standard input is given twice for '--with <FILE>'",
        _ => "standard input is given for '<FILE>...' and for '--with <FILE>'",
    };
    let error = SPEC.refusal(alloc, UsageKind::ArgumentConflict, message)?;
    Err(Failure::from(error))
}

// Returns how often standard input is among some files.
fn times_of_input(paths: &[&str]) -> usize {
    paths.iter().filter(|path| **path == STANDARD_INPUT).count()
}
