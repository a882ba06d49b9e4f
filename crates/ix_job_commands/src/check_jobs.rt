//! The command `check-jobs`: what is wrong with each line of a job file.

use crate::json_faults::fault_objects;
use clap::ArgMatches;
use ix_cli_io::{ANY_SIZE, ErrorCode, Failure, REFUSED, read_input};
use ix_job_errors::{fault_lines, job_faults_of_part, job_faults_up_to};
use ix_jobs::JobsFault;
use ix_json_report::{ErrorNote, push_error};
use ix_load::{PART, given_part};
use ix_options::{
    ArgKind, ArgSpec, CommandSpec, JSON, MAX_INPUT, MAX_LIMIT, QUIET, most_input, print_all,
};
use ix_run::{RunFault, fault_line};
use ix_sections::{is_carv2, read_header};
use std::alloc::{AllocError, Global};
use std::rt::Files;

const ABOUT: &str = "Report what is wrong with each line of a job file";

const HELP: &str = "Prints nothing if the command `jobs` accepts the file, with the same N of\n\
--max-limit and the same --part. Otherwise the first line printed is the error\n\
of `jobs`, and each other line says which line of the file is faulty, in which\n\
field, what is wrong there and what would be right. With --json each of these\n\
lines is an object, and the error of `jobs` is the last: docs/JSON.md has their\n\
keys.\n\
\n\
Status: 0 if the command `jobs` accepts the file, 2 otherwise.";

const FILE: ArgSpec = ArgSpec {
    name: "file",
    given: ArgKind::Positional("FILE"),
    help: "Job file, or - for standard input",
};

/// The command.
pub static SPEC: CommandSpec = CommandSpec {
    name: "check-jobs",
    about: ABOUT,
    help: HELP,
    words: &[FILE, PART, MAX_LIMIT, MAX_INPUT, JSON, QUIET],
};

/// Runs the command and returns the status: prints nothing if the command `jobs` accepts the file.
/// Otherwise it prints the error of `jobs`, and then what is wrong with each faulty line.
pub fn run<'a, R: AllocGlobal + Files + Input + Print>(
    rt: &R,
    words: &ArgMatches<'a>,
) -> Result<u8, Failure> {
    let alloc = rt.alloc();
    let path = FILE.text(words);
    let part = given_part(alloc, &SPEC, words)?;
    let most = most_input(alloc, &SPEC, words, ANY_SIZE)?;
    let file = read_input(rt, path, most)?;
    if is_car(alloc, file.as_slice()) {
        let line = format!(in alloc;
            "{path}: a CAR file and no job file; ix_export inspect describes it"
        );
        return Err(Failure::stopped(ErrorCode::Jobs, line));
    }
    let greatest = MAX_LIMIT.limit(words);
    let faults = match part {
        Some(part) => job_faults_of_part(alloc, file.as_slice(), part, greatest)?,
        None => job_faults_up_to(alloc, file.as_slice(), greatest)?,
    };
    let faults = faults.as_slice();
    if JSON.is_given(words) {
        return print_objects(rt, file.as_slice(), faults, greatest);
    }
    print_faults(rt, file.as_slice(), faults, greatest)
}

// Returns whether a file begins as a CARv1 or CARv2 file does.
fn is_car(alloc: Global, bytes: &[u8]) -> bool {
    is_carv2(bytes) || read_header(alloc, bytes).is_ok()
}

// Prints an object for each faulty line of a job file that has these faults, and one for the error of `jobs`.
fn print_objects<R: AllocGlobal + Print>(
    rt: &R,
    file: &[u8],
    faults: &[JobsFault],
    greatest: u32,
) -> Result<u8, Failure> {
    let Some(first) = faults.first() else {
        return Ok(0);
    };
    let lines = fault_lines(rt.alloc(), file, faults, greatest)?;
    let objects = fault_objects(rt.alloc(), lines.as_str())?;
    let line = fault_line(rt.alloc(), &RunFault::Jobs(*first))?;
    let none = None;
    let note = ErrorNote {
        code: ErrorCode::Jobs.word(),
        message: line.as_str(),
        cid: &none,
        path: &none,
    };
    print_all(rt, push_error(objects, note)?.as_slice())?;
    Ok(REFUSED)
}

// Prints what is wrong with a job file that has these faults.
fn print_faults<R: AllocGlobal + Print>(
    rt: &R,
    file: &[u8],
    faults: &[JobsFault],
    greatest: u32,
) -> Result<u8, Failure> {
    let Some(first) = faults.first() else {
        return Ok(0);
    };
    print_text(rt, refusal(rt, first))?;
    print_text(rt, fault_lines(rt.alloc(), file, faults, greatest))?;
    Ok(REFUSED)
}

// Prints a text, unless memory ran out for it.
fn print_text<R: AllocGlobal + Print>(
    rt: &R,
    text: Result<String, AllocError>,
) -> Result<(), Failure> {
    print_all(rt, text?.as_bytes())
}

// Returns the line that the command `jobs` prints for this fault.
fn refusal<R: AllocGlobal>(rt: &R, first: &JobsFault) -> Result<String, AllocError> {
    let mut line = fault_line(rt.alloc(), &RunFault::Jobs(*first))?;
    line.push('\n')?;
    Ok(line)
}
