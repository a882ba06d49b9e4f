//! The command `jobs`: an archive for each job of a job file, and a report.

ghost use Rattle.std.specs.Prelude.{IfOk};
ghost use Rattle.std.specs.Arc.{arc_value};
ghost use Rattle.ix_walk.specs.JobMeaning.{AreFew};
ghost use Rattle.ix_run.specs.Run.{CanRun};

use crate::json_jobs::{ArchiveFolder, folder_report, part_sizes};
use crate::skip_paths::{PATHS, Ran, SkipPaths};
use clap::ArgMatches;
use ix_cli_io::{
    Failure, LARGEST_INPUT, Naming, NamingRule, Output, Progress, ProgressMode, STANDARD_INPUT,
    WriteErrors, check_memory, discard_outputs, failed_writes, has_all_asked, make_outputs,
    occupy_std_fds, publish_outputs, read_input, without_archived,
};
use ix_load::{
    BlockFiles, Indexed, KnownInputs, LoadedBlocks, PART, Prefetching, RunOutputs, RunReport,
    ThreadCounts, allowed_missing, forget_store, given_part, job_file_failure, refused_inputs,
};
use ix_options::{
    ALLOW_MISSING, ArgKind, ArgSpec, BLOCKS, CARV2, CommandSpec, Host, JSON, MAX_INPUT_1G,
    MAX_LIMIT, PREFER_SOUND, PREFETCH, PROGRESS, QUIET, VERBOSE, VERIFIERS_4, WALKERS_4, WHOLE,
    WITHOUT, WITHOUT_LIST, most_input, naming, print_all, print_notes, progress_mode,
};
use ix_run::{JobChoice, RunFault, load_jobs};
use ix_verdict::AllowMissing;
use ix_walk::Job;
use std::alloc::{AllocError, Global};
use std::fs::File;
use std::rt::Files;
use std::sync::Arc;

const ABOUT: &str = "Export an archive for each job of a job file, and print a report";

const HELP: &str = "Each line of the job file is a job, NAME ROOTS LIMIT SELECTOR with one space\n\
between:\n\
\n\
\x20 photos bafkreif2pall7dybz7vecqka3zo24irdwabwdi4wc55jznaq75q7eaavvu 9 a1612ea0\n\
\n\
NAME      1 to 64 characters of [a-z0-9_-], unique in the file\n\
ROOTS     1 to 64 comma-separated CIDv1s in base32\n\
LIMIT     the link budget from all roots together, 1 to 1000000, or 1 to N with\n\
\x20         --max-limit N\n\
SELECTOR  an IPLD selector as DAG-CBOR in hex: see the command `selector`\n\
\n\
A block with two links to it is visited twice: it counts twice, and is hashed\n\
once. Empty lines and lines that begin with # are ignored. There are at most\n\
1000 jobs.\n\
\n\
With --part K/N the K-th of N parts of the jobs is run: of J jobs, numbered from\n\
0, those from (K-1)*J/N up to, and not including, K*J/N, both rounded down. So\n\
the parts 1 to N are all jobs. The whole file is read and checked, whatever the\n\
part; it may have 1000000 jobs, and a part 1000.\n\
\n\
A job has one archive, whose header names its roots in their order, and which\n\
has each block once.\n\
\n\
The archive of a job is written to DIR/NAME.car.part. Soon after its job ended\n\
with done or limit it is renamed to DIR/NAME.car, and replaces a file with that\n\
name; otherwise DIR/NAME.car stays as it was. DIR must exist. As many files are\n\
open at once as there are jobs. At the end the report on standard output has\n\
a line for each job, how it ended (done, limit, memory, write, start) and its\n\
counts, then a line for each link that was skipped (codec, hash, missing,\n\
damaged, malformed), and at last the totals; with --json it is JSON, whose keys\n\
docs/JSON.md has. With --paths the line of a skip ends with its path from the\n\
root, as `show` takes it. Links of other codecs than raw and\n\
DAG-CBOR and of other hashes than SHA-256, SHA-512 and identity are skipped;\n\
UnixFS isn't read. The digest of an identity CID is the block itself: links\n\
inside it are followed, and it has no block in the archive.\n\
\n\
With --resume each job is left out whose DIR/NAME.car is a regular file that\n\
begins with the header of its archive: what a run that was stopped had named. A\n\
line on standard error says how many. It can't see whether such an archive is\n\
of the same blocks and options, so give each set of archives a folder.\n\
\n\
With --once a job expands a block at its first visit with the same residual\n\
selector, and only if the block is sound. Later visits count, with nothing below\n\
them. So a graph has about as many visits as links. The archive is the same\n\
unless a run hits its limit.\n\
\n\
With --without the archives leave out each block of which the receiver has a\n\
sound copy: the first of its CID in these files, or with --prefer-sound any.\n\
With --without-list they leave out each block whose CID the list has: a CIDv1 in\n\
base32 on each line, empty lines and lines that begin with # aside. A list is\n\
trusted, so the receiver runs `verify --blocks-only` before `inspect --cids`\n\
prints it. The line of a job in the report ends with how many of its blocks are\n\
known.\n\
\n\
With --allow-missing links to blocks of these codecs that are in no file are no\n\
skips: the line of a job ends with how many are absent, and the status doesn't\n\
count them. A root may not be missing, and a damaged block is a skip. The\n\
archives are the same. WHICH is raw, dag-cbor, both with a comma between, or\n\
all.\n\
\n\
Of several copies of a block the first counts. With --prefer-sound each copy is\n\
hashed, and the first that is sound counts, so that damaged replicas make up for\n\
each other. A line on standard error says how many blocks are a later copy.\n\
\n\
With --complete only the archives of jobs that are done, with no root skipped,\n\
are renamed, and with --whole those of which no link was skipped either: the\n\
others stay as .part, a line on standard error says why, and with --whole the\n\
status is 4. Of --whole, --complete and --partial the last counts. An archive\n\
that lacks something may replace a file; a line on standard error says how many\n\
links were skipped. For backups give --whole --sync.\n\
\n\
With --sync each archive is on the disk before its job counts as done: a disk\n\
that is full or fails only then ends the job with write.\n\
\n\
With --progress standard error gets the number of jobs that are closed, of\n\
visits and of bytes written. On a terminal it rewrites one line (the default for\n\
runs over two seconds); otherwise it prints at most one line per second.\n\
\n\
Status: 0 if every job is done and nothing was skipped, 3 if every job is done\n\
and something was skipped, 4 if a job ended otherwise or --whole isn't met, 2 if\n\
the arguments or a file are rejected, with a line on standard error, and with\n\
--verbose the cause on another.";

// The status if an archive isn't whole that has to be.
const NOT_WHOLE: u8 = 4;

const JOBS: ArgSpec = ArgSpec {
    name: "jobs",
    given: ArgKind::Required("FILE"),
    help: "Job file, or - for standard input",
};

const OUT: ArgSpec = ArgSpec {
    name: "out",
    given: ArgKind::Required("DIR"),
    help: "Directory for the archives; it must exist",
};

const RESUME: ArgSpec = ArgSpec {
    name: "resume",
    given: ArgKind::Flag,
    help: "Leave out jobs whose archives are in DIR",
};

const ONCE: ArgSpec = ArgSpec {
    name: "once",
    given: ArgKind::FlagOver("every-arrival"),
    help: "Expand a block once, not at every link to it",
};

const EVERY_ARRIVAL: ArgSpec = ArgSpec {
    name: "every-arrival",
    given: ArgKind::FlagOver("once"),
    help: "Expand a block at every link to it [default]",
};

const SYNC: ArgSpec = ArgSpec {
    name: "sync",
    given: ArgKind::FlagOver("no-sync"),
    help: "Sync each archive to disk before its job is done",
};

const NO_SYNC: ArgSpec = ArgSpec {
    name: "no-sync",
    given: ArgKind::FlagOver("sync"),
    help: "Rename without waiting for the disk [default]",
};

const COMPLETE: ArgSpec = ArgSpec {
    name: "complete",
    given: ArgKind::FlagOverBoth("partial", "whole"),
    help: "Rename only if done, no root skipped",
};

const PARTIAL: ArgSpec = ArgSpec {
    name: "partial",
    given: ArgKind::FlagOverBoth("complete", "whole"),
    help: "Rename archives of done and of limit [default]",
};

/// The command.
pub static SPEC: CommandSpec = CommandSpec {
    name: "jobs",
    about: ABOUT,
    help: HELP,
    words: &[
        BLOCKS,
        JOBS,
        OUT,
        PART,
        RESUME,
        WITHOUT,
        WITHOUT_LIST,
        ALLOW_MISSING,
        MAX_LIMIT,
        WALKERS_4,
        VERIFIERS_4,
        PREFETCH,
        MAX_INPUT_1G,
        CARV2,
        PREFER_SOUND,
        ONCE,
        EVERY_ARRIVAL,
        WHOLE,
        COMPLETE,
        PARTIAL,
        SYNC,
        NO_SYNC,
        PATHS,
        JSON,
        PROGRESS,
        QUIET,
        VERBOSE,
    ],
};

/// Runs the command and returns the status. Its first error is reported, checked in this order:
/// arguments, blocks, job file, their contents, outputs. A run that is rejected leaves no output.
pub fn run<'a, R: Host>(rt: &R, words: &ArgMatches<'a>, is_terminal: bool) -> Result<u8, Failure> {
    let command = JobsCommand::read(rt.alloc(), words, is_terminal)?;
    let progress = Progress::new(rt, command.progress);
    let status = match command.load(rt, &progress) {
        Ok(loaded) => {
            let status = command.export(rt, &loaded, &progress);
            loaded.blocks.print_note(rt, &status);
            forget_store(loaded.blocks.store);
            status
        }
        Err(failure) => Err(failure),
    };
    progress.end();
    status
}

// What is exported.
#[derive(Drop)]
struct Loaded {
    blocks: LoadedBlocks,
    jobs: Arc<Vec<Job>>,
    // How many jobs were left out, since their archives are there.
    left_out: usize,
}

// What the arguments choose.
#[derive(Drop)]
struct JobsCommand<'a> {
    blocks: BlockFiles<'a>,
    // What the receiver has.
    known: KnownInputs<'a>,
    // Which blocks may be missing.
    allowed: Option<AllowMissing>,
    // The path of the job file, the part of it that is asked for, and how many bytes an input may have.
    job_file: &'a str,
    part: Option<&'a str>,
    most: u64,
    folder: &'a str,
    choice: JobChoice,
    // Whether jobs are left out whose archives are there.
    is_resumed: bool,
    threads: ThreadCounts,
    is_synced: bool,
    naming: Naming,
    has_paths: bool,
    is_json: bool,
    is_quiet: bool,
    progress: ProgressMode,
}

impl<'a> JobsCommand<'a> {
    // Reads the arguments. The first that is rejected is reported, in this order: the part, standard
    // input for both files, and an empty directory, which would be the root directory.
    fn read(
        alloc: Global,
        words: &ArgMatches<'a>,
        is_terminal: bool,
    ) -> Result<JobsCommand<'a>, Failure> {
        let part = given_part(alloc, &SPEC, words)?;
        let most = most_input(alloc, &SPEC, words, LARGEST_INPUT)?;
        let blocks = BlockFiles::given(alloc, &SPEC, words, most, CARV2.is_given(words))?;
        let known = KnownInputs::given(alloc, &SPEC, words, &blocks)?;
        let allowed = allowed_missing(alloc, &SPEC, words)?;
        let prefetching = Prefetching::given(alloc, &SPEC, words)?;
        let job_file = JOBS.text(words);
        if job_file == STANDARD_INPUT
            && let Some(option) = known.standard_input(&blocks)
        {
            return Err(Failure::from(refused_inputs(alloc, &SPEC, option, JOBS.name)?));
        }
        let folder = OUT.text(words);
        if folder.is_empty() {
            return Err(Failure::from(SPEC.refused_value(alloc, "--out <DIR>")?));
        }
        Ok(JobsCommand {
            blocks,
            known,
            allowed,
            job_file,
            part: PART.optional_text(words),
            most,
            folder,
            choice: JobChoice {
                part,
                greatest_limit: MAX_LIMIT.limit(words),
                once: ONCE.is_given(words),
            },
            is_resumed: RESUME.is_given(words),
            threads: ThreadCounts::given(words, prefetching),
            is_synced: SYNC.is_given(words),
            naming: naming(words, Naming::Ended),
            is_quiet: QUIET.is_given(words),
            has_paths: PATHS.is_given(words),
            is_json: JSON.is_given(words),
            progress: progress_mode(words, &QUIET, is_terminal),
        })
    }

    // Loads the block files and the chosen jobs of the job file. All files are read before the first is
    // looked at.
    fn load<R: Host>(&self, rt: &R, progress: &Progress<R>) -> Result<Loaded, Failure>
        ensures { IfOk result (λ loaded. AreFew (arc_value loaded.jobs).items) }
    {
        let loaders = self.threads.loaders(rt);
        check_memory(rt, self.inputs(rt.alloc())?.as_slice())?;
        let files = self.blocks.read(rt, loaders, progress)?;
        let job_file = read_input(rt, self.job_file, self.most)?;
        let base_files = self.known.read(rt, &self.blocks, loaders, progress);
        let mut blocks = self.blocks.store_of(rt, files, loaders, Indexed::Alone)?;
        let jobs = self.jobs_of(rt.alloc(), job_file.as_slice())?;
        self.known.add_to(rt, &mut blocks, base_files?, loaders)?;
        let (jobs, left_out) = if self.is_resumed {
            without_archived(rt, self.folder, jobs)
        } else {
            (jobs, 0)
        };
        Ok(Loaded {
            blocks,
            jobs: Arc::new(rt.alloc(), jobs)?,
            left_out,
        })
    }

    // Returns the chosen jobs of the job file with these bytes.
    fn jobs_of(&self, alloc: Global, job_file: &[u8]) -> Result<Vec<Job>, Failure>
        ensures { IfOk result (λ jobs. AreFew jobs.items) }
    {
        match load_jobs(alloc, job_file, self.choice) {
            Ok(jobs) => Ok(jobs),
            Err(RunFault::Jobs(fault)) => {
                let greatest = self.choice.greatest_limit;
                Err(job_file_failure(alloc, self.job_file, job_file, fault, greatest))
            }
            Err(fault) => Err(Failure::from(fault)),
        }
    }

    // Returns the paths of all inputs.
    fn inputs(&self, alloc: Global) -> Result<Vec<&'a str>, AllocError> {
        let mut inputs = self.known.inputs(alloc, &self.blocks)?;
        inputs.push(self.job_file)?;
        Ok(inputs)
    }

    // Exports the jobs and prints their report. Closed streams are occupied only after the inputs were
    // read, so a closed standard input is an error and not an empty input. If the run is rejected, the
    // outputs are discarded.
    fn export<R: Host>(
        &self,
        rt: &R,
        loaded: &Loaded,
        progress: &Progress<R>,
    ) -> Result<u8, Failure>
        requires { AreFew (arc_value loaded.now.jobs).items }
    {
        let Loaded {
            blocks,
            jobs,
            left_out,
        } = loaded;
        let _streams = occupy_std_fds(rt)?;
        let errors = WriteErrors::new();
        let inputs = self.inputs(rt.alloc())?;
        let outputs = make_outputs(
            rt,
            self.folder,
            jobs.as_slice(),
            inputs.as_slice(),
            self.is_synced,
        )?;
        let archives = RunOutputs {
            outputs: outputs.as_slice(),
            errors: &errors,
            rule: NamingRule {
                naming: self.naming,
                allowed: self.allowed,
            },
        };
        match self.write(rt, blocks, jobs, archives, progress) {
            Ok(ran) => {
                let ran = Ran {
                    store: &blocks.store,
                    jobs: jobs.as_slice(),
                    report: &ran,
                };
                let status = self.publish(rt, outputs, &ran, &errors)?;
                print_notes(rt, self.note_on_jobs(rt.alloc(), jobs.len(), *left_out));
                Ok(status)
            }
            Err(fault) => {
                discard_outputs(rt, outputs);
                Err(Failure::from(fault))
            }
        }
    }

    // Runs the jobs, whose archives go to these outputs.
    fn write<R: Host>(
        &self,
        rt: &R,
        blocks: &LoadedBlocks,
        jobs: &Arc<Vec<Job>>,
        archives: RunOutputs<'_>,
        progress: &Progress<R>,
    ) -> Result<RunReport, RunFault>
        requires { CanRun (arc_value jobs.now).items archives.outputs.now }
    {
        let ran = self.threads.run_to(rt, blocks, jobs, archives, progress)?;
        Ok(ran.allowing(rt.alloc(), self.allowed, jobs.as_slice())?)
    }

    // Publishes the outputs of a run, prints its report, and then the notes.
    fn publish<R: AllocGlobal + Eprint + Files<File = File> + Print>(
        &self,
        rt: &R,
        outputs: Vec<Output>,
        ran: &Ran<'_>,
        errors: &WriteErrors,
    ) -> Result<u8, Failure> {
        let jobs = ran.jobs;
        let results = ran.report.results.as_slice();
        let published = publish_outputs(rt, outputs, jobs, results, self.naming);
        self.print_run(rt, ran, published.is_ok())?;
        let notes = published?;
        print_notes(rt, Ok(notes));
        print_notes(
            rt,
            failed_writes(rt.alloc(), self.folder, jobs, results, errors),
        );
        Ok(self.status_of(ran))
    }

    // Returns the status of a run: that of the report, unless an archive isn't whole that has to be.
    fn status_of(&self, ran: &Ran<'_>) -> u8 {
        let mut results = ran.jobs.iter().zip(&ran.report.results);
        let is_whole = results.all(|(job, told)| has_all_asked(self.naming, job, told));
        if self.naming == Naming::Whole && !is_whole {
            NOT_WHOLE
        } else {
            ran.report.status
        }
    }

    // Returns the note on how many jobs were left out, or that there is none, in the job file or in the part of
    // it that is asked for.
    fn note_on_jobs(
        &self,
        alloc: Global,
        jobs: usize,
        left_out: usize,
    ) -> Result<String, AllocError> {
        let path = self.job_file;
        match (jobs, left_out, self.part) {
            (0, 0, None) => format!(in alloc; "note: {path} has no job\n"),
            (0, 0, Some(part)) => format!(in alloc; "note: part {part} of {path} has no job\n"),
            (_, 0, _) => Ok(String::new(alloc)),
            (_, 1, _) => String::from_str(
                alloc,
                "note: 1 job was left out: its archive is there\n",
            ),
            (_, more, _) => format!(in alloc;
                "note: {more} jobs were left out: their archives are there\n"
            ),
        }
    }

    // Prints the report of a run whose outputs were published, as text or as JSON, unless it is to be quiet
    // and the status is 0. If a rename failed, not all are named that should be.
    fn print_run<R: AllocGlobal + Eprint + Files + Print>(
        &self,
        rt: &R,
        ran: &Ran<'_>,
        are_named: bool,
    ) -> Result<(), Failure> {
        if self.is_quiet && are_named && ran.report.status == 0 {
            return Ok(());
        }
        if !self.is_json {
            return match ran.text(rt, self.has_paths) {
                Some(text) => print_all(rt, text.as_bytes()),
                None => print_all(rt, ran.report.report.as_slice()),
            };
        }
        let alloc = rt.alloc();
        let folder = ArchiveFolder {
            path: self.folder,
            naming: self.naming,
            are_named,
            part_sizes: part_sizes(rt, self.folder, ran.jobs)?,
        };
        // If memory runs out for the paths, the report is printed without.
        if self.has_paths {
            if let Ok(paths) = ran.traced(alloc)
                && let Ok(report) = folder_report(alloc, &folder, ran, &paths)
            {
                return print_all(rt, report.as_slice());
            }
            ran.note_no_paths(rt);
        }
        let report = folder_report(alloc, &folder, ran, &SkipPaths::none(alloc))?;
        print_all(rt, report.as_slice())
    }
}
