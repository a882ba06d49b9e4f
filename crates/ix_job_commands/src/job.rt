//! The command `job`: the line of a job for a job file.

use clap::ArgMatches;
use clap::error::ErrorKind;
use ix_cid::Cid;
use ix_cid::code::DAG_PB;
use ix_cli_io::{
    ANY_SIZE, ErrorCode, Failure, LARGEST_INPUT, Progress, ProgressMode, STANDARD_INPUT, Stop,
    read_all,
};
use ix_job_errors::line_fault_words;
use ix_jobs::{JobWords, SelectorWord, job_line_up_to, jobs_of_words, selector_hex};
use ix_load::{
    BlockFiles, Indexed, LoadedBlocks, RootPaths, Roots, SCOPE, Scope, Unresolved, forget_store,
    roots_text,
};
use ix_options::{
    ArgKind, ArgSpec, CARV2, CommandSpec, Host, MAX_INPUT, MAX_LIMIT, PREFER_SOUND, QUIET_ACCEPTED,
    available_processors, most_input, print_answer,
};
use std::alloc::{AllocError, Global};

const ABOUT: &str = "Print the line of a job for a job file";

const HELP: &str = "Append the lines of jobs to a job file:\n\
\n\
\x20 ix_export job photos \\\n\
\x20   bafkreif2pall7dybz7vecqka3zo24irdwabwdi4wc55jznaq75q7eaavvu 1000 \\\n\
\x20   '{\"R\":{\"l\":{\"none\":{}},\":>\":{\"a\":{\">\":{\"@\":{}}}}}}' >>photos.jobs\n\
\n\
A root may have a path, CID/albums/0, as that of the command `get`. It is\n\
followed in the files of --blocks, and the selector of the line goes along it.\n\
Then JSON is the selector from its end, everything without JSON, or with --scope\n\
block the block in which the path ends alone.\n\
\n\
Status: 0 if a line was printed, 3 if a path leads no further, 2 if an argument\n\
or a file is rejected, with a line on standard error that says why.";

const NAME: ArgSpec = ArgSpec {
    name: "name",
    given: ArgKind::Positional("NAME"),
    help: "1 to 64 characters of [a-z0-9_-]",
};

const ROOTS: ArgSpec = ArgSpec {
    name: "roots",
    given: ArgKind::Positional("ROOT[,ROOT..]"),
    help: "1 to 64 comma-separated CIDs, or CID/PATH",
};

const LIMIT: ArgSpec = ArgSpec {
    name: "limit",
    given: ArgKind::Positional("LIMIT"),
    help: "Link budget, 1 to the N of --max-limit",
};

const JSON: ArgSpec = ArgSpec {
    name: "json",
    given: ArgKind::OptionalPositional("JSON"),
    help: "IPLD selector as JSON, or - for standard input",
};

const BLOCKS: ArgSpec = ArgSpec {
    name: "blocks",
    given: ArgKind::OptionalMany("FILE"),
    help: "CARv1 file in which paths lead; several add up",
};

const TOO_DEEP: &str = "ROOT and JSON: the path and the selector at its end nest more than 128 \
deep together";

/// The command.
pub static SPEC: CommandSpec = CommandSpec {
    name: "job",
    about: ABOUT,
    help: HELP,
    words: &[
        NAME,
        ROOTS,
        LIMIT,
        JSON,
        BLOCKS,
        SCOPE,
        MAX_LIMIT,
        MAX_INPUT,
        CARV2,
        PREFER_SOUND,
        QUIET_ACCEPTED,
    ],
};

/// Runs the command and returns the status: prints the line of the job, or why there is none.
pub fn run<'a, R: Host>(rt: &R, words: &ArgMatches<'a>) -> Result<u8, Failure> {
    let alloc = rt.alloc();
    let scope = Scope::given(alloc, &SPEC, SCOPE.optional_text(words))?;
    let roots = Roots::given(alloc, &SPEC, "<ROOT>", Some(ROOTS.text(words)), &[], scope)?;
    match JSON.optional_text(words) {
        Some(STANDARD_INPUT) => {
            let input = read_all(alloc, rt.reader(), 0, LARGEST_INPUT, STANDARD_INPUT)?;
            print_job(rt, words, &roots, scope, Some(input.as_slice()))
        }
        Some(text) => print_job(rt, words, &roots, scope, Some(text.as_bytes())),
        None => print_job(rt, words, &roots, scope, None),
    }
}

// Prints the line of the job over these roots, with a selector if there is one, or why there is none.
fn print_job<'a, R: Host>(
    rt: &R,
    words: &ArgMatches<'a>,
    roots: &Roots,
    scope: Scope,
    json: Option<&[u8]>,
) -> Result<u8, Failure> {
    let cids = roots.cids(rt.alloc())?;
    if let Some(root) = cids.iter().find(|root| root.version() == 0) {
        let line = version_0_words(rt.alloc(), root);
        return Err(Failure::stopped(ErrorCode::Job, line));
    }
    let text = roots_text(rt.alloc(), cids.as_slice())?;
    match (roots, json) {
        (Roots::Paths(paths), _) if paths.leads_on() => {
            print_line_along(rt, words, paths, scope, json)
        }
        (_, Some(json)) => print_line(rt, words, text.as_str(), json),
        (_, None) => Err(Failure::from(no_selector(rt.alloc())?)),
    }
}

// Returns why a CIDv0 is no root in a job file.
fn version_0_words(alloc: Global, root: &Cid) -> Result<String, AllocError> {
    let mut bytes = Vec::from_slice(alloc, &[1, DAG_PB as u8])?;
    bytes.extend_from_slice(root.as_bytes())?;
    let hint = match Cid::read(alloc, bytes.as_slice()) {
        Ok((cid, _)) => cid.text(alloc)?,
        Err(_) => return Err(AllocError),
    };
    format!(in alloc;
        "ROOT: {} is a CIDv0, and a job file has CIDv1s alone: the CIDv1 of the same hash is {hint}",
        root.text(alloc)?
    )
}

// Makes the error for a job without a selector, whose roots have no path.
fn no_selector(alloc: Global) -> Result<clap::Error, AllocError> {
    SPEC.refusal(
        alloc,
        ErrorKind::MissingRequiredArgument,
        "a selector is missing: give <JSON>, or roots with a path",
    )
}

// Prints the line of the job with this selector, or why the arguments aren't those of a job.
fn print_line<'a, R: AllocGlobal + Print>(
    rt: &R,
    words: &ArgMatches<'a>,
    roots: &str,
    json: &[u8],
) -> Result<u8, Failure> {
    let alloc = rt.alloc();
    let (name, limit) = (NAME.text(words), LIMIT.text(words));
    let greatest = MAX_LIMIT.limit(words);
    match job_line_up_to(alloc, name, roots, limit, greatest, json) {
        Ok(line) => print_answer(rt, Ok(line)),
        Err(fault) => {
            let words = line_fault_words(alloc, &fault, name, roots, limit, greatest);
            Err(Failure::stopped(ErrorCode::Job, words))
        }
    }
}

// Prints the line of the job whose roots have a path, or why there is none.
fn print_line_along<'a, R: Host>(
    rt: &R,
    words: &ArgMatches<'a>,
    paths: &RootPaths,
    scope: Scope,
    json: Option<&[u8]>,
) -> Result<u8, Failure> {
    let blocks = load(rt, words)?;
    let line = line_along(rt.alloc(), words, &blocks, paths, scope.selector(json));
    forget_store(blocks.store);
    match line {
        Ok(line) => print_answer(rt, Ok(line)),
        Err(Unresolved::Stopped(stop)) => Err(Failure::Stopped(stop)),
        Err(Unresolved::TooDeep) => {
            let line = String::from_str(rt.alloc(), TOO_DEEP);
            Err(Failure::stopped(ErrorCode::Path, line))
        }
        Err(Unresolved::Memory) => Err(Failure::from(AllocError)),
    }
}

// Loads the blocks in which paths lead.
fn load<'a, R: Host>(rt: &R, words: &ArgMatches<'a>) -> Result<LoadedBlocks, Failure> {
    let alloc = rt.alloc();
    let most = most_input(alloc, &SPEC, words, ANY_SIZE)?;
    let files = BlockFiles::given(alloc, &SPEC, words, most, true)?;
    if files.paths().is_empty() {
        let error = SPEC.refusal(
            alloc,
            ErrorKind::MissingRequiredArgument,
            "a root with a path needs '--blocks <FILE>'",
        )?;
        return Err(Failure::from(error));
    }
    let progress = Progress::new(rt, ProgressMode::Off);
    let loaders = available_processors(rt);
    let bytes = files.read(rt, loaders, &progress)?;
    files.store_of(rt, bytes, loaders, Indexed::Alone)
}

// Returns the line of the job whose roots have a path: its selector goes along the path.
fn line_along<'a>(
    alloc: Global,
    words: &ArgMatches<'a>,
    blocks: &LoadedBlocks,
    paths: &RootPaths,
    selector: SelectorWord<'_>,
) -> Result<String, Unresolved> {
    let (name, limit) = (NAME.text(words), LIMIT.text(words));
    let cids = paths.cids(alloc)?;
    let roots = roots_text(alloc, cids.as_slice())?;
    let greatest_limit = MAX_LIMIT.limit(words);
    let hex = match selector_hex(alloc, &selector) {
        Ok(inner) => paths.selector_hex(alloc, &blocks.store, &selector, inner.trim_end())?,
        Err(fault) => {
            let line = line_fault_words(alloc, &fault, name, roots.as_str(), limit, greatest_limit);
            return Err(Unresolved::Stopped(Stop::new(ErrorCode::Job, line?)));
        }
    };
    let job = words_of(name, cids.as_slice(), limit, greatest_limit, hex.as_str());
    match jobs_of_words(alloc, &job, false) {
        Ok(_) => Ok(format!(in alloc; "{name} {roots} {limit} {hex}\n")?),
        Err(fault) => {
            let line = line_fault_words(alloc, &fault, name, roots.as_str(), limit, greatest_limit);
            Err(Unresolved::Stopped(Stop::new(ErrorCode::Job, line?)))
        }
    }
}

// Returns the fields of a job whose selector is in hex.
fn words_of<'b>(
    name: &'b str,
    roots: &'b [Cid],
    limit: &'b str,
    greatest_limit: u32,
    hex: &'b str,
) -> JobWords<'b> {
    let selector = SelectorWord::Hex(hex);
    JobWords {
        name,
        roots,
        limit,
        greatest_limit,
        selector,
    }
}
