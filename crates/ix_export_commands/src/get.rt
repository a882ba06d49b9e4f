//! The command `get`: one archive, without a job file.

ghost use Rattle.std.specs.Prelude.{◌≡◌, length, if◌then◌else◌, IfOk};
ghost use Rattle.std.specs.Arc.{arc_value};
ghost use Rattle.ix_cli_io.specs.Naming.{has_all_asked};

use crate::json_jobs::{file_report, part_size};
use crate::skip_paths::{PATHS, Ran, SkipPaths};
use clap::ArgMatches;
use ix_cid::Cid;
use ix_cli_io::{
    ANY_SIZE, ErrorCode, Failure, Naming, Noted, Output, Progress, ProgressMode, STANDARD_INPUT,
    WriteErrors, check_memory, check_standard_output, failed_write, has_all_asked, met_roots_alone,
    occupy_std_fds, print_report,
};
use ix_job_errors::{job_fault_words, lacks_an_edge};
use ix_jobs::{JobResult, JobWords, SelectorWord, jobs_of_words, selector_hex};
use ix_load::{
    BlockFiles, Indexed, KnownInputs, LoadedBlocks, Prefetching, RootPaths, RootWords, Roots,
    RunReport, SCOPE, Scope, ThreadCounts, allowed_missing, clones, forget_store, no_jobs,
    no_roots, refused_roots, roots_note,
};
use ix_options::{
    ALLOW_MISSING, ArgKind, ArgSpec, BLOCKS, CARV2, CommandSpec, Host, JSON, MAX_INPUT, NO_SYNC,
    PREFER_SOUND, PREFETCH, PROGRESS, QUIET, SYNC, Terminals, VERIFIERS, WALKERS, WHOLE, WITHOUT,
    WITHOUT_LIST, available_processors, most_input, naming, output_path, print_notes,
    progress_mode,
};
use ix_run::RunFault;
use ix_store::Store;
use ix_verdict::AllowMissing;
use ix_walk::Job;
use std::alloc::{AllocError, Global};
use std::fs::File;
use std::io::{self, ErrorKind, Write};
use std::rt::{Clock, Files};
use std::sync::{Arc, Wait};
use std::thread::Threads;

const ABOUT: &str = "Export one archive, without a job file";

const HELP: &str = "Everything reachable from the root, over all links:\n\
\n\
\x20 ix_export get --blocks library.car --out album.car \\\n\
\x20   --root bafyreif4cx2fmzgnlynimiv5s5pmkhdcciunwtqscgjd2tvhr5yqjh7u4i\n\
\n\
A root may have a path, CID/albums/0: its segments are keys of maps and indexes\n\
of lists, percent-escaped as in URLs, or each in a --segment. The archive then\n\
has the blocks on the path and everything below its end, or with --scope block\n\
the one in which it ends. Several roots have one path in common. A CID may be in\n\
any base of multibase, and with its path in a URL, https://HOST/ipfs/CID/albums.\n\
Without --root the roots are those in the header of the first file, and a line\n\
on standard error names them.\n\
\n\
A selector says which links to follow, as JSON with the keys of the IPLD\n\
Selectors specification (docs/SELECTORS.md), or as DAG-CBOR in hex, which the\n\
command `selector` makes of that. With several roots one archive has what is\n\
reachable from all of them. A block with several links to it is expanded once,\n\
or at every link with --every-arrival, which changes how many links count, and\n\
not the archive of a job within its limit. Without --limit up to 4294967295\n\
links are followed, counting the roots, and with --every-arrival up to 1000000.\n\
\n\
With --without the archive leaves out each block of which the receiver has a\n\
sound copy: the first of its CID in these files, or with --prefer-sound any.\n\
With --without-list it leaves out each block whose CID the list has: a CIDv1 in\n\
base32 on each line, empty lines and lines that begin with # aside. A list is\n\
trusted, so the receiver runs `verify --blocks-only` before `inspect --cids`\n\
prints it. The report says how many blocks are known.\n\
\n\
With --allow-missing links to blocks of these codecs that are in no file are no\n\
skips: the report counts them as absent, and the status doesn't. A root may not\n\
be missing, and a damaged block is a skip. The archive is the same. WHICH is\n\
raw, dag-cbor, both with a comma between, or all.\n\
\n\
Of several copies of a block the first counts. With --prefer-sound each copy is\n\
hashed, and the first that is sound counts, so that damaged replicas make up for\n\
each other. A line on standard error says how many blocks are a later copy.\n\
\n\
The archive is written to FILE.part, which is renamed to FILE if the job is done\n\
and no root was skipped. It replaces a file with that name; if links were\n\
skipped, a line on standard error says how many. Otherwise it stays as\n\
FILE.part, FILE stays as it was, and a line on standard error says why. With\n\
--whole it is renamed only if nothing was skipped, and else the status is 4.\n\
With --partial it is renamed also if a root was skipped or the job ended with\n\
limit. Of --whole, --complete and --partial the last counts. The archive is on\n\
the disk before it is renamed, unless --no-sync is given. Without --out, or with\n\
--out -, it goes to standard output, which must not be a terminal.\n\
\n\
The report is that of the command `jobs` for one job, `get`, and goes to\n\
standard error. With --paths each skip ends with its path from the root, as\n\
`show` takes it. A note follows if nothing was found below the roots, or if a\n\
recursion of the selector has no edge {\"@\":{}}. With --json the report is JSON:\n\
docs/JSON.md has its keys.\n\
\n\
Status: 0 if the job is done and nothing was skipped, 3 if it is done and\n\
something was skipped below the roots, 4 if it ended otherwise, a root was\n\
skipped or --whole isn't met, 2 if the arguments or a file are rejected, with a\n\
line on standard error that has the cause.";

// What memory runs out for during the run.
const RUN: &str = "the traversal";

// The name of the one job in the report.
const NAME: &str = "get";

// The status of a job that isn't done, or of which a root was skipped, or a link if the archive is to be whole.
const INCOMPLETE: u8 = 4;

// Notes after the report: the job found nothing below its roots; its selector can't recur.
const NOTHING_BELOW: &str = "note: the selector matched nothing below the root";

const NO_EDGE: &str =
    "note: a recursion of the selector has no edge {\"@\":{}}, so it never recurs";

// The limit where none is given: for a job that expands a block once, and at every link to it.
const ONCE_LIMIT: &str = "4294967295";

const EVERY_LIMIT: &str = "1000000";

const ROOT: ArgSpec = ArgSpec {
    name: "root",
    given: ArgKind::Optional("ROOT[,..]"),
    help: "1 to 64 of CID[/PATH] [default: the header's]",
};

const SELECTOR: ArgSpec = ArgSpec {
    name: "selector",
    given: ArgKind::ConflictsWithBoth("JSON", "selector-hex", "scope"),
    help: "IPLD selector as JSON [default: everything]",
};

const SELECTOR_HEX: ArgSpec = ArgSpec {
    name: "selector-hex",
    given: ArgKind::ConflictsWith("HEX", "scope"),
    help: "IPLD selector as DAG-CBOR in hex",
};

const SEGMENT: ArgSpec = ArgSpec {
    name: "segment",
    given: ArgKind::AnyMany("NAME"),
    help: "Segment after ROOT's path; several add up",
};

const LIMIT: ArgSpec = ArgSpec {
    name: "limit",
    given: ArgKind::Optional("N"),
    help: "Link budget, 1 to 4294967295",
};

const ONCE: ArgSpec = ArgSpec {
    name: "once",
    given: ArgKind::FlagOver("every-arrival"),
    help: "Expand a block once [default]",
};

const EVERY_ARRIVAL: ArgSpec = ArgSpec {
    name: "every-arrival",
    given: ArgKind::FlagOver("once"),
    help: "Expand a block at every link to it, not once",
};

const OUT: ArgSpec = ArgSpec {
    name: "out",
    given: ArgKind::Optional("FILE"),
    help: "Archive to write [default: standard output]",
};

const COMPLETE: ArgSpec = ArgSpec {
    name: "complete",
    given: ArgKind::FlagOverBoth("partial", "whole"),
    help: "Rename only if done, no root skipped [default]",
};

const PARTIAL: ArgSpec = ArgSpec {
    name: "partial",
    given: ArgKind::FlagOverBoth("complete", "whole"),
    help: "Rename FILE also at the limit or without a root",
};

const VERBOSE: ArgSpec = ArgSpec {
    name: "verbose",
    given: ArgKind::Flag,
    help: "Accepted: an error always has its cause",
};

/// The command: the job, how it is exported, and where to.
pub static SPEC: CommandSpec = CommandSpec {
    name: "get",
    about: ABOUT,
    help: HELP,
    words: &[
        BLOCKS,
        ROOT,
        SEGMENT,
        SCOPE,
        SELECTOR,
        SELECTOR_HEX,
        LIMIT,
        ONCE,
        EVERY_ARRIVAL,
        WITHOUT,
        WITHOUT_LIST,
        ALLOW_MISSING,
        OUT,
        WALKERS,
        VERIFIERS,
        PREFETCH,
        MAX_INPUT,
        CARV2,
        PREFER_SOUND,
        WHOLE,
        COMPLETE,
        PARTIAL,
        SYNC,
        NO_SYNC,
        PATHS,
        JSON,
        PROGRESS,
        QUIET,
        VERBOSE,
    ],
};

/// Runs the command and returns the status. Its first error is reported, checked in this order:
/// arguments, blocks, output.
pub fn run<'a, R: Host>(
    rt: &R,
    words: &ArgMatches<'a>,
    terminals: Terminals,
) -> Result<u8, Failure> {
    let command = GetCommand::read(rt.alloc(), words, available_processors(rt), terminals)?;
    let roots = command.roots.cids(rt.alloc())?;
    let jobs = match command.jobs(rt.alloc(), roots.as_slice(), &command.selector) {
        Ok(jobs) => jobs,
        Err(line) => return Err(Failure::stopped(ErrorCode::Job, line)),
    };
    let progress = Progress::new(rt, command.progress);
    let status = match command.load(rt, &progress) {
        Ok((blocks, roots)) => {
            let status = match command.jobs_in(rt, jobs, &blocks.store, roots.as_slice()) {
                Ok(jobs) => command.export(rt, &blocks, &jobs, &progress),
                Err(failure) => Err(failure),
            };
            blocks.print_note(rt, &status);
            forget_store(blocks.store);
            status
        }
        Err(failure) => Err(failure),
    };
    progress.end();
    status
}

// What the arguments choose.
#[derive(Drop)]
struct GetCommand<'a> {
    roots: Roots,
    scope: Scope,
    limit: &'a str,
    // The selector from the roots, or from where their path ends.
    selector: SelectorWord<'a>,
    // Whether a block is expanded once, and not at every link to it.
    once: bool,
    blocks: BlockFiles<'a>,
    // What the receiver has.
    known: KnownInputs<'a>,
    // Which blocks may be missing.
    allowed: Option<AllowMissing>,
    // The path of the archive, or None for standard output.
    path: Option<&'a str>,
    threads: ThreadCounts,
    naming: Naming,
    is_synced: bool,
    is_quiet: bool,
    has_paths: bool,
    is_json: bool,
    progress: ProgressMode,
}

impl<'a> GetCommand<'a> {
    // Reads the arguments. An empty path is rejected, and so is an archive that would go to a terminal.
    fn read(
        alloc: Global,
        words: &ArgMatches<'a>,
        processors: usize,
        terminals: Terminals,
    ) -> Result<GetCommand<'a>, Failure> {
        let path = output_path(alloc, &SPEC, &OUT, words, terminals.output, "archive")?;
        let most = most_input(alloc, &SPEC, words, ANY_SIZE)?;
        let blocks = BlockFiles::given(alloc, &SPEC, words, most, true)?;
        let known = KnownInputs::given(alloc, &SPEC, words, &blocks)?;
        let allowed = allowed_missing(alloc, &SPEC, words)?;
        let scope = Scope::given(alloc, &SPEC, SCOPE.optional_text(words))?;
        let prefetching = Prefetching::given(alloc, &SPEC, words)?;
        let names = words.get_strs(SEGMENT.name).unwrap_or(&[]);
        Ok(GetCommand {
            roots: Roots::given(
                alloc,
                &SPEC,
                "--root <ROOT>",
                ROOT.optional_text(words),
                names,
                scope,
            )?,
            scope,
            limit: limit_of(words),
            selector: selector_of(words, scope),
            once: !EVERY_ARRIVAL.is_given(words),
            blocks,
            known,
            allowed,
            path,
            threads: ThreadCounts::by_processors(words, processors, prefetching),
            naming: naming(words, Naming::Complete),
            is_synced: !NO_SYNC.is_given(words),
            is_quiet: QUIET.is_given(words),
            has_paths: PATHS.is_given(words),
            is_json: JSON.is_given(words),
            progress: progress_mode(words, &QUIET, terminals.errors),
        })
    }

    // Returns the one job over these roots, or why the arguments are those of no job.
    fn jobs(
        &self,
        alloc: Global,
        roots: &[Cid],
        selector: &SelectorWord<'_>,
    ) -> Result<Arc<Vec<Job>>, Result<String, AllocError>>
        ensures { IfOk result (λ jobs. length (arc_value jobs).items ≡ 1) }
    {
        let words = JobWords {
            name: NAME,
            roots,
            limit: self.limit,
            greatest_limit: u32::MAX,
            selector: *selector,
        };
        match jobs_of_words(alloc, &words, self.once) {
            Ok(jobs) => match Arc::new(alloc, jobs) {
                Ok(jobs) => Ok(jobs),
                Err(_) => Err(Err(AllocError)),
            },
            Err(fault) => Err(job_fault_words(alloc, &fault, &words)),
        }
    }

    // Returns the job: that of the arguments, or where the roots are those of a header or have a path, the
    // one over these.
    fn jobs_in<R: AllocGlobal + Eprint>(
        &self,
        rt: &R,
        jobs: Arc<Vec<Job>>,
        store: &Store,
        roots: &[Cid],
    ) -> Result<Arc<Vec<Job>>, Failure>
        requires { length (arc_value jobs).items ≡ 1 }
        ensures { IfOk result (λ jobs. length (arc_value jobs).items ≡ 1) }
    {
        let alloc = rt.alloc();
        let chosen = match &self.roots {
            Roots::Cids(_) => return Ok(jobs),
            Roots::Header => self.header_words(alloc, roots)?,
            Roots::Paths(paths) => self.path_words(alloc, store, paths)?,
        };
        let selector = match &chosen.hex {
            Some(hex) => SelectorWord::Hex(hex.as_str()),
            None => self.selector,
        };
        match self.jobs(alloc, chosen.roots.as_slice(), &selector) {
            Ok(jobs) => {
                self.print_roots(rt, chosen.roots.as_slice());
                Ok(jobs)
            }
            Err(line) => Err(self.refused(alloc, line)?),
        }
    }

    // Returns the words for the roots in the header of the first file.
    fn header_words(&self, alloc: Global, roots: &[Cid]) -> Result<RootWords, Failure> {
        if roots.is_empty() {
            return Err(Failure::from(no_roots(alloc, &SPEC, self.first_path())?));
        }
        Ok(RootWords {
            roots: clones(alloc, roots)?,
            hex: None,
        })
    }

    // Returns the words for roots with a path, which is followed in the store.
    fn path_words(
        &self,
        alloc: Global,
        store: &Store,
        paths: &RootPaths,
    ) -> Result<RootWords, Failure> {
        // The selector was read before the files were.
        let Ok(inner) = selector_hex(alloc, &self.selector) else {
            return Err(Failure::from(AllocError));
        };
        match paths.selector_hex(alloc, store, &self.selector, inner.trim_end()) {
            Ok(hex) => Ok(RootWords {
                roots: paths.cids(alloc)?,
                hex: Some(hex),
            }),
            Err(unresolved) => Err(no_jobs(alloc, unresolved)?),
        }
    }

    // Returns the path of the first file.
    fn first_path(&self) -> &str {
        match self.blocks.paths().first() {
            Some(path) => path,
            None => STANDARD_INPUT,
        }
    }

    // Prints which roots those in the header are, unless it is to be quiet.
    fn print_roots<R: AllocGlobal + Eprint>(&self, rt: &R, roots: &[Cid]) {
        if matches!(&self.roots, Roots::Header) && !self.is_quiet {
            print_notes(rt, roots_note(rt.alloc(), self.first_path(), roots));
        }
    }

    // Makes the failure for roots in a header that are those of no job, or for arguments that are.
    fn refused(
        &self,
        alloc: Global,
        line: Result<String, AllocError>,
    ) -> Result<Failure, AllocError> {
        if !matches!(&self.roots, Roots::Header) {
            return Ok(Failure::stopped(ErrorCode::Job, line));
        }
        let error = refused_roots(alloc, &SPEC, self.first_path(), line?.as_str())?;
        Ok(Failure::from(error))
    }

    // Loads the blocks, and finds those that the receiver has. Returns the roots in the header of the first
    // file too, unless roots are given.
    fn load<R: Host>(
        &self,
        rt: &R,
        progress: &Progress<R>,
    ) -> Result<(LoadedBlocks, Vec<Cid>), Failure> {
        let loaders = self.threads.loaders(rt);
        check_memory(rt, self.known.inputs(rt.alloc(), &self.blocks)?.as_slice())?;
        let files = self.blocks.read(rt, loaders, progress)?;
        let roots = match self.roots {
            Roots::Header => self.blocks.header_roots(rt.alloc(), files.as_slice())?,
            _ => Vec::new(rt.alloc()),
        };
        let base_files = self.known.read(rt, &self.blocks, loaders, progress);
        let mut blocks = self
            .blocks
            .store_of(rt, files, loaders, Indexed::Prefetched)?;
        self.known.add_to(rt, &mut blocks, base_files?, loaders)?;
        Ok((blocks, roots))
    }

    // Exports the one job: to standard output, or to a file, which is discarded if the run is rejected.
    // Closed streams are occupied only after the input was read, so a closed standard input is an error
    // and not an empty input.
    fn export<R: Host>(
        &self,
        rt: &R,
        blocks: &LoadedBlocks,
        jobs: &Arc<Vec<Job>>,
        progress: &Progress<R>,
    ) -> Result<u8, Failure>
        requires { length (arc_value jobs.now).items ≡ 1 }
    {
        let _streams = occupy_std_fds(rt)?;
        let errors = WriteErrors::new();
        let inputs = self.known.inputs(rt.alloc(), &self.blocks)?;
        let Some(path) = self.path else {
            check_standard_output(rt, inputs.as_slice())?;
            let writer = Noted::new(io::writer(rt), &errors).buffered(rt.alloc());
            return match self.write(rt, blocks, jobs, writer, progress) {
                Ok(ran) => {
                    let archive = Archive {
                        path: "-",
                        is_named: true,
                    };
                    let ran = Ran {
                        store: &blocks.store,
                        jobs: jobs.as_slice(),
                        report: &ran,
                    };
                    Ok(self.print_outcome(rt, archive, &ran, &errors))
                }
                Err(fault) => Err(refusal(rt, "-", fault, &errors)),
            };
        };
        let output = Output::create(rt, path, inputs.as_slice(), self.is_synced)?;
        let writer = output.writer(rt.alloc(), &errors);
        match self.write(rt, blocks, jobs, writer, progress) {
            Ok(ran) => {
                let ran = Ran {
                    store: &blocks.store,
                    jobs: jobs.as_slice(),
                    report: &ran,
                };
                self.publish(rt, path, output, &ran, &errors)
            }
            Err(fault) => {
                output.discard(rt);
                Err(refusal(rt, path, fault, &errors))
            }
        }
    }

    // Runs the one job, which is written to this writer.
    fn write<R: AllocGlobal + Clock + Eprint + Threads + Wait + Sync, W: Write + Drop>(
        &self,
        rt: &R,
        blocks: &LoadedBlocks,
        jobs: &Arc<Vec<Job>>,
        writer: Result<W, AllocError>,
        progress: &Progress<R>,
    ) -> Result<RunReport, RunFault>
        requires { length (arc_value jobs.now).items ≡ 1 }
    {
        let mut writers = Vec::with_capacity(rt.alloc(), 1)?;
        writers.push(writer?)?;
        let ran = self.threads.run(rt, blocks, jobs, writers, progress)?;
        Ok(ran.allowing(rt.alloc(), self.allowed, jobs.as_slice())?)
    }

    // Whether a job that finds nothing below its roots is what was asked for.
    fn ends_at_its_roots(&self) -> bool {
        self.scope == Scope::Block || matches!(&self.roots, Roots::Paths(_))
    }

    // Publishes the file if it is to be named, and then reports, whether it was or not.
    fn publish<R: AllocGlobal + Eprint + Files<File = File>>(
        &self,
        rt: &R,
        path: &str,
        output: Output,
        ran: &Ran<'_>,
        errors: &WriteErrors,
    ) -> Result<u8, Failure> {
        let Some((job, told)) = ran.first() else {
            output.discard(rt);
            return Ok(INCOMPLETE);
        };
        let published = output.publish(rt, job, told, self.naming);
        let is_named = match &published {
            Ok(published) => {
                print_note(rt, &published.note);
                published.is_named
            }
            Err(_) => false,
        };
        let archive = Archive { path, is_named };
        let status = self.print_outcome(rt, archive, ran, errors);
        published.map(|_| status)
    }

    // Prints the report and its notes to standard error, and returns the status. If standard error can't
    // be written, or memory runs out, there is no one to report to.
    fn print_outcome<R: AllocGlobal + Eprint + Files>(
        &self,
        rt: &R,
        archive: Archive<'_>,
        ran: &Ran<'_>,
        errors: &WriteErrors,
    ) -> u8 {
        let Some((job, told)) = ran.first() else {
            return INCOMPLETE;
        };
        let status = status_of(self.naming, job, told, ran.report.status);
        print_notes(rt, failed_write(rt.alloc(), archive.path, told, errors));
        if status != 0 || !self.is_quiet {
            self.print_run(rt, archive, ran);
        }
        if !self.ends_at_its_roots() && met_roots_alone(job, told) {
            let _ = rt.eprintln(NOTHING_BELOW);
        }
        if let Ok(true) = lacks_an_edge(rt.alloc(), &self.selector) {
            let _ = rt.eprintln(NO_EDGE);
        }
        status
    }

    // Prints the report of a run to standard error, as text or as JSON.
    fn print_run<R: AllocGlobal + Eprint + Files>(
        &self,
        rt: &R,
        archive: Archive<'_>,
        ran: &Ran<'_>,
    ) {
        if !self.is_json {
            match ran.text(rt, self.has_paths) {
                Some(text) => print_report(rt, text.as_bytes()),
                None => print_report(rt, ran.report.report.as_slice()),
            }
            return;
        }
        let alloc = rt.alloc();
        let Archive { path, is_named } = archive;
        let size = if is_named {
            None
        } else {
            part_size(rt, path).ok()
        };
        // If memory runs out for the paths, the report is printed without.
        if self.has_paths {
            if let Ok(paths) = ran.traced(alloc)
                && let Ok(report) = file_report(alloc, path, size, ran, &paths)
            {
                print_report(rt, report.as_slice());
                return;
            }
            ran.note_no_paths(rt);
        }
        if let Ok(report) = file_report(alloc, path, size, ran, &SkipPaths::none(alloc)) {
            print_report(rt, report.as_slice());
        }
    }
}

// The archive: its path, or `-` for standard output, and whether it has its name.
#[derive(Clone, Copy)]
struct Archive<'a> {
    path: &'a str,
    is_named: bool,
}

// Returns the selector among the arguments, or the one of the scope.
fn selector_of<'a>(words: &ArgMatches<'a>, scope: Scope) -> SelectorWord<'a> {
    match (
        SELECTOR.optional_text(words),
        SELECTOR_HEX.optional_text(words),
    ) {
        (Some(text), _) => SelectorWord::Json(text.as_bytes()),
        (None, Some(text)) => SelectorWord::Hex(text),
        (None, None) => scope.selector(None),
    }
}

// Returns the limit among the arguments, or the one for how a block is expanded.
fn limit_of<'a>(words: &ArgMatches<'a>) -> &'a str {
    let most = if EVERY_ARRIVAL.is_given(words) {
        EVERY_LIMIT
    } else {
        ONCE_LIMIT
    };
    LIMIT.optional_text(words).unwrap_or(most)
}

// Maps an error of the run: an archive that can't be started is an output that can't be written.
fn refusal<R: AllocGlobal + Files>(
    rt: &R,
    path: &str,
    fault: RunFault,
    errors: &WriteErrors,
) -> Failure {
    match fault {
        RunFault::Write(_) => {
            let unknown = io::Error::from(ErrorKind::WriteZero);
            let error = errors.first().unwrap_or(unknown);
            Failure::cannot_write(rt.alloc(), path, &error)
        }
        fault => Failure::from(fault).at(rt, RUN),
    }
}

// Prints a note on an output to standard error, if there is one.
fn print_note<R: Eprint>(rt: &R, note: &Option<String>) {
    if let Some(note) = note {
        let _ = rt.eprint(note.as_str());
    }
}

// Returns the status: `INCOMPLETE` if the archive lacks what it should have by how it is named, else that of
// the report.
fn status_of(naming: Naming, job: &Job, told: &JobResult, status: u8) -> u8
    ensures { result ≡ (if has_all_asked naming job.now told.now then status else 4) }
{
    if has_all_asked(naming, job, told) {
        status
    } else {
        INCOMPLETE
    }
}
