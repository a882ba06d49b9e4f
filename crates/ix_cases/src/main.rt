//! `ix_cases`: runs the test vectors in files with the public calls of the library, and reports
//! the answers that differ from the expected ones.
//!
//! Its arguments are the paths of the files. It prints one line with how many cases agree. The status
//! is 1 if one differs, which standard error then reports with its file and line, and 2 if a file can't
//! be read.
//!
//! ```sh
//! ix_cases varints.cases cids.cases
//! ```
#![tactic(auto)]

mod answers;
mod bench;
mod example;
mod jobs;
mod paths;
mod receiving;
mod runs;
mod stores;
mod tally;
mod walks;

use anyhow::{Context, Result};
use bench::{Bench, Outcome};
use std::process::ExitCode;
use std::rt::{Env, Files};
use std::sync::Wait;
use std::thread::Threads;
use std::{env, fs};
use tally::Tally;

fn main(rt: HostRuntime) -> ExitCode {
    match try_files(&rt) {
        Ok(tally) if tally.differing == 0 => ExitCode::from(0),
        Ok(_) => ExitCode::from(1),
        Err(error) => {
            // If standard error can't be written, there is no one to report to.
            let _ = eprintln!(rt; "{error}");
            ExitCode::from(2)
        }
    }
}

// Answers the cases of the files that the arguments name.
fn try_files<R: AllocGlobal + Env + Eprint + Files + Print + Threads + Wait + Sync>(
    rt: &R,
) -> Result<Tally> {
    let tally = tally_of_files(rt)?;
    println!(rt; "{tally}")?;
    Ok(tally)
}

// Counts the cases of the files that the arguments name.
fn tally_of_files<R: AllocGlobal + Env + Eprint + Files + Threads + Wait + Sync>(
    rt: &R,
) -> Result<Tally> {
    match Bench::new(rt.alloc()) {
        Ok(mut bench) => count_files(rt, &mut bench),
        Err(error) => Err(error),
    }
}

// Counts the cases of these files, each after what those before have set up.
fn count_files<R: AllocGlobal + Env + Eprint + Files + Threads + Wait + Sync>(
    rt: &R,
    bench: &mut Bench,
) -> Result<Tally> {
    let mut tally = Tally::new();
    for path in env::args(rt)?.skip(1) {
        count_file(rt, bench, path.as_str(), &mut tally)?;
    }
    Ok(tally)
}

// Counts the file with this path, and its cases.
fn count_file<R: AllocGlobal + Eprint + Files + Threads + Wait + Sync>(
    rt: &R,
    bench: &mut Bench,
    path: &str,
    tally: &mut Tally,
) -> Result<()> {
    let text = fs::read_to_string(rt, path).context(format_args!("cannot read {path}"))?;
    try_file(rt, bench, path, text.as_str(), tally)?;
    tally.count_file();
    Ok(())
}

// Runs the cases of a file, and reports each that differs.
fn try_file<R: AllocGlobal + Eprint + Threads + Wait + Sync>(
    rt: &R,
    bench: &mut Bench,
    path: &str,
    text: &str,
    tally: &mut Tally,
) -> Result<()> {
    for (number, line) in (1u64..).zip(text.lines()) {
        try_line(rt, bench, path, number, line, tally)?;
    }
    Ok(())
}

// Runs a line, reports it if it differs, and counts it.
fn try_line<R: AllocGlobal + Eprint + Threads + Wait + Sync>(
    rt: &R,
    bench: &mut Bench,
    path: &str,
    number: u64,
    line: &str,
    tally: &mut Tally,
) -> Result<()> {
    let outcome = bench.outcome_of(rt, line)?;
    print_difference(rt, path, number, bench.example_name(), &outcome)?;
    tally.count(&outcome);
    Ok(())
}

// Reports a case that differs, with its file, its line and its example.
fn print_difference<R: Eprint>(
    rt: &R,
    path: &str,
    number: u64,
    name: &str,
    outcome: &Outcome,
) -> Result<()> {
    if let Some(difference) = outcome.difference() {
        eprintln!(rt; "{path}:{number}: {name}: {difference}")?;
    }
    Ok(())
}
