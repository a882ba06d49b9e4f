//! The command `receive`: an archive as it arrives.

use crate::asked::{Asked, asked_for};
use crate::path_watch::PathWatch;
use crate::report::{Report, result_of};
pub use crate::spec::SPEC;
use crate::spec::{ANY_HEADER, FILE, MAX_BLOCK, OUT, PATHS, WHOLE, WITH};
use crate::stream::{Ended, Incoming, Outcome, Reception, Request};
use clap::ArgMatches;
use ix_cli_io::{
    ANY_SIZE, Failure, Naming, Output, Progress, ProgressMode, Published, REFUSED, STANDARD_INPUT,
    check_standard_output, occupy_std_fds,
};
use ix_load::{BlockFiles, Indexed, LoadedBlocks, allowed_missing};
use ix_options::{
    Host, JSON, NO_SYNC, QUIET, Terminals, at_most_processors, available_processors, given_size,
    output_path, progress_mode,
};
use ix_own_archive::ExpectedHeader;
use ix_store::Store;
use ix_verdict::AllowMissing;
use ix_walk::Job;
use std::alloc::{AllocError, Global};
use std::fs;
use std::io::{self, Read, Write};
use std::num::NonZeroUsize;

// The status of a stream that isn't accepted, or whose archive can't be written or isn't whole if it has to be.
const NOT_RECEIVED: u8 = 4;

// The status of a stream that is accepted and skips links.
const HAS_SKIPS: u8 = 3;

// How many threads hash sections at most.
const HASHERS: usize = 8;

// The greatest length of a section where none is given.
const MOST_SECTION: u64 = 8 * 1024 * 1024;

/// Runs the command and returns the status. Its first error is reported, checked in this order: arguments,
/// the files of the base, standard output that is an input, the beginning of the stream, output, and the stream.
///
/// A thread reads the stream, and may still wait for its next bytes when the command returns.
pub fn run<'a, R: Host + Copy + Send + 'static>(
    rt: &R,
    words: &ArgMatches<'a>,
    terminals: Terminals,
) -> Result<u8, Failure>
where
    R::Reader: Send + 'static,
{
    let command = ReceiveCommand::read(rt.alloc(), words, terminals)?;
    let Asked { job, paths } = asked_for(rt.alloc(), words)?;
    let loaded = command.load_base(rt)?;
    let base = match &loaded {
        Some(blocks) => Some(store_of(blocks)),
        None => None,
    };
    let paths = match PathWatch::new(rt.alloc(), paths, base)? {
        Ok(paths) => paths,
        Err(stop) => return Err(Failure::Stopped(stop)),
    };
    let wanted = Wanted {
        job: &job,
        base,
        paths,
    };
    // Where standard output is closed, the input that is opened next takes its number.
    if command.path.is_none() {
        check_standard_output(rt, command.inputs(rt.alloc())?.as_slice())?;
    }
    if command.input == STANDARD_INPUT {
        return command.receive(rt, wanted, rt.reader());
    }
    match fs::open(rt, command.input) {
        Ok(file) => command.receive(rt, wanted, file),
        Err(error) => Err(Failure::cannot_read(rt.alloc(), command.input, &error)),
    }
}

// What the arguments choose besides what is asked for.
#[derive(Drop)]
struct ReceiveCommand<'a> {
    // The path of the stream.
    input: &'a str,
    // The path of the archive, or None for standard output.
    path: Option<&'a str>,
    // The files whose blocks are here already.
    base: BlockFiles<'a>,
    // Which blocks may be missing, if that was given.
    allowed: Option<AllowMissing>,
    header: ExpectedHeader,
    // The greatest length of a section.
    most: usize,
    naming: Naming,
    is_synced: bool,
    has_paths: bool,
    is_json: bool,
    is_quiet: bool,
    progress: ProgressMode,
}

impl<'a> ReceiveCommand<'a> {
    // Reads the arguments. An empty path is rejected, and so is an archive that would go to a terminal.
    fn read(
        alloc: Global,
        words: &ArgMatches<'a>,
        terminals: Terminals,
    ) -> Result<ReceiveCommand<'a>, Failure> {
        let path = output_path(alloc, &SPEC, &OUT, words, terminals.output, "archive")?;
        let most = given_size(alloc, &SPEC, words, &MAX_BLOCK, MOST_SECTION)?;
        let allowed = allowed_missing(alloc, &SPEC, words)?;
        Ok(ReceiveCommand {
            input: FILE.optional_text(words).unwrap_or(STANDARD_INPUT),
            path,
            base: BlockFiles::of_receiver(alloc, &SPEC, words, &WITH, ANY_SIZE)?,
            allowed,
            header: if ANY_HEADER.is_given(words) {
                ExpectedHeader::Any
            } else {
                ExpectedHeader::OfJob
            },
            most: usize::try_from(most).unwrap_or(usize::MAX),
            naming: if WHOLE.is_given(words) {
                Naming::Whole
            } else {
                Naming::Complete
            },
            is_synced: !NO_SYNC.is_given(words),
            has_paths: PATHS.is_given(words),
            is_json: JSON.is_given(words),
            is_quiet: QUIET.is_given(words),
            progress: progress_mode(words, &QUIET, terminals.errors),
        })
    }

    // Loads the blocks that are here already, if files of them are given.
    fn load_base<R: Host>(&self, rt: &R) -> Result<Option<LoadedBlocks>, Failure> {
        if self.base.paths().is_empty() {
            return Ok(None);
        }
        let threads = available_processors(rt);
        let progress = Progress::new(rt, self.progress);
        let files = self.base.read(rt, threads, &progress)?;
        let blocks = self.base.store_of(rt, files, threads, Indexed::Alone)?;
        progress.end();
        Ok(Some(blocks))
    }

    // Receives a stream. Closed streams are occupied, and the output is created, only once the first bytes
    // came, so a closed standard input is an error and not an empty input.
    fn receive<R: Host + Copy + Send + 'static, I: Read + Drop + Send + 'static>(
        &self,
        rt: &R,
        wanted: Wanted<'_>,
        input: I,
    ) -> Result<u8, Failure> {
        let incoming = match Incoming::begin(rt, rt.alloc(), input) {
            Ok(incoming) => incoming,
            Err(Ended::Unreadable(error)) => {
                return Err(Failure::cannot_read(rt.alloc(), self.input, &error));
            }
            Err(_) => return Err(Failure::from(AllocError)),
        };
        let _streams = occupy_std_fds(rt)?;
        let stream = Stream { wanted, incoming };
        match self.path {
            None => self.pass_on(rt, stream),
            Some(path) => self.store(rt, path, stream),
        }
    }

    // Passes a stream on to standard output.
    fn pass_on<R: Host, I: Read + Drop>(
        &self,
        rt: &R,
        stream: Stream<'_, I>,
    ) -> Result<u8, Failure> {
        let job = stream.wanted.job;
        let outcome = self.take(rt, stream, io::writer(rt))?;
        self.report(job, "-").print(rt, &outcome, true);
        Ok(self.status_of(&outcome.ended))
    }

    // Returns the paths of all inputs.
    fn inputs(&self, alloc: Global) -> Result<Vec<&'a str>, AllocError> {
        let mut inputs = Vec::from_slice(alloc, self.base.paths())?;
        inputs.push(self.input)?;
        Ok(inputs)
    }

    // Writes a stream to a file, which gets its name if the stream is accepted, and is discarded if it is none.
    fn store<R: Host, I: Read + Drop>(
        &self,
        rt: &R,
        path: &str,
        stream: Stream<'_, I>,
    ) -> Result<u8, Failure> {
        let job = stream.wanted.job;
        let inputs = self.inputs(rt.alloc())?;
        let output = Output::create(rt, path, inputs.as_slice(), self.is_synced)?;
        let mut outcome = match self.take(rt, stream, &output) {
            Ok(outcome) => outcome,
            Err(failure) => {
                output.discard(rt);
                return Err(failure);
            }
        };
        cut_to_whole(&output, &mut outcome);
        let published = match &outcome.ended {
            Ended::Accepted(counts) => {
                let result = result_of(rt.alloc(), &outcome, counts)?;
                output.publish(rt, job, &result, self.naming)
            }
            Ended::NoCar(_) | Ended::Unreadable(_) => {
                output.discard(rt);
                Ok(UNNAMED)
            }
            Ended::Rejected(_) | Ended::Unwritable(_, _) | Ended::Memory => Ok(UNNAMED),
        };
        let is_named = match &published {
            Ok(published) => {
                print_note(rt, &published.note);
                published.is_named
            }
            Err(_) => false,
        };
        self.report(job, path).print(rt, &outcome, is_named);
        published.map(|_| self.status_of(&outcome.ended))
    }

    // Returns the status of a stream.
    fn status_of(&self, ended: &Ended) -> u8 {
        match ended {
            Ended::Accepted(counts) if counts.unread == 0 => 0,
            Ended::Accepted(_) if self.naming == Naming::Whole => NOT_RECEIVED,
            Ended::Accepted(_) => HAS_SKIPS,
            Ended::Rejected(_) | Ended::Unwritable(_, _) | Ended::Memory => NOT_RECEIVED,
            Ended::NoCar(_) | Ended::Unreadable(_) => REFUSED,
        }
    }

    // Receives a stream, and shows progress.
    fn take<R: Host, I: Read + Drop, W: Write + Drop>(
        &self,
        rt: &R,
        stream: Stream<'_, I>,
        writer: W,
    ) -> Result<Outcome, Failure> {
        let Stream { wanted, incoming } = stream;
        let Wanted { job, base, paths } = wanted;
        let request = Request {
            alloc: rt.alloc(),
            job,
            base,
            allowed: self.allowed.unwrap_or(AllowMissing::none()),
            header: self.header,
            most: self.most,
            threads: NonZeroUsize::new(at_most_processors(rt, HASHERS)).unwrap_or(
                NonZeroUsize::MIN,
            ),
            has_paths: self.has_paths,
        };
        let progress = Progress::new(rt, self.progress);
        let outcome = Reception::new(request, paths, writer)?.receive(rt, incoming, &progress);
        if progress.is_shown() {
            progress.end_received();
        }
        Ok(outcome)
    }

    // Returns what a report is made of.
    fn report<'s>(&'s self, job: &'s Job, path: &'s str) -> Report<'s> {
        Report {
            job,
            input: self.input,
            path,
            shows_absent: self.allowed.is_some(),
            has_paths: self.has_paths,
            is_json: self.is_json,
            is_quiet: self.is_quiet,
        }
    }
}

// What is asked for, beside the blocks that are here already.
#[derive(Drop)]
struct Wanted<'s> {
    job: &'s Job,
    base: Option<&'s Store>,
    paths: PathWatch<'s>,
}

// A stream of which a piece was read, and what is asked of it.
#[derive(Drop)]
struct Stream<'s, I> {
    wanted: Wanted<'s>,
    incoming: Incoming<I>,
}

// Returns the store of blocks that were loaded.
fn store_of(blocks: &LoadedBlocks) -> &Store {
    &blocks.store
}

// Cuts the file of a stream whose write failed, which may have ended within a section, to the header and whole
// sections, and counts those that it has.
fn cut_to_whole(output: &Output, outcome: &mut Outcome) {
    let Ended::Unwritable(_, ends) = &outcome.ended else {
        return;
    };
    let size = output.size();
    let whole = ends.iter().copied().filter(|end| *end <= size);
    let (count, bytes) = whole.fold((0u64, outcome.bytes), |(count, _), end| {
        (count.saturating_add(1), end)
    });
    output.cut(bytes);
    // The first end of a file that had nothing is that of its header.
    let header = u64::from(outcome.bytes == 0);
    outcome.sections = outcome
        .sections
        .saturating_add(count.saturating_sub(header));
    outcome.bytes = bytes;
}

// An output that didn't get its name.
const UNNAMED: Published = Published {
    is_named: false,
    note: None,
};

// Prints a note on an output to standard error, if there is one.
fn print_note<R: Eprint>(rt: &R, note: &Option<String>) {
    if let Some(note) = note {
        let _ = rt.eprint(note.as_str());
    }
}
