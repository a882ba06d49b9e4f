//! `ix_export`: exports subgraphs of CARv1 files.
//!
//! Each command has a module: its row in the table of commands, a record of what its arguments choose,
//! and what it does with them. It reads files, calls `ix_run` and the libraries beside it, prints their
//! results and returns the exit status. One line on standard error reports the first error, checked in
//! this order: arguments, blocks, job file, their contents, outputs; the status is then 2. Tests, and no
//! contract, show that it prints these results.
//!
//! ```sh
//! ix_export jobs --blocks examples/library.car --jobs examples/library.jobs --out out
//! ```
#![tactic(auto)]

mod arguments;
mod commands;

use crate::arguments::read_arguments;
use crate::commands::{check_numbers, command_line};
use clap::ArgMatches;
use ix_block_commands::{block, show};
use ix_cli_io::{Causes, Failure, Help, REFUSED, print_report};
use ix_export_commands::{get, jobs, root};
use ix_file_commands::{inspect, verify};
use ix_job_commands::{check_jobs, job, selector};
use ix_options::{Host, JSON, Terminals, VERBOSE, failure_object, print_all};
use ix_receive_command::receive;
use ix_run::RunFault;
use std::io::IsTerminal;
use std::process::ExitCode;

// The commands that report as JSON, and those of them whose report goes to standard error.
const JSON_COMMANDS: [&str; 8] = [
    "get",
    "jobs",
    "receive",
    "inspect",
    "verify",
    "check-jobs",
    "block",
    "show",
];

const STDERR_COMMANDS: [&str; 4] = ["get", "receive", "block", "show"];

fn main(rt: HostRuntime) -> ExitCode {
    let terminals = Terminals {
        output: rt.stdout().is_terminal(),
        errors: rt.stderr().is_terminal(),
    };
    let status = match read_arguments(&rt) {
        Ok(words) => run_command(&rt, words.as_slice(), terminals),
        Err(failure) => failure.report(&rt, Causes::Hidden),
    };
    ExitCode::from(status)
}

// Runs the command that these arguments name, and returns the status.
fn run_command<R: Host + Copy + Send + 'static>(
    rt: &R,
    words: &[String],
    terminals: Terminals,
) -> u8
where
    R::Reader: Send + 'static,
{
    let Ok(commands) = command_line(rt.alloc()) else {
        return Failure::Fault(RunFault::Memory).report(rt, Causes::Hidden);
    };
    match commands.try_get_matches_from(words) {
        Err(error) => match print_help(rt, error) {
            Ok(status) => status,
            Err(failure) => failure.report(rt, Causes::Hidden),
        },
        Ok(matches) => match matches.subcommand() {
            Some((name, words)) => run_named(rt, name, words, terminals),
            // The command line requires a command.
            None => REFUSED,
        },
    }
}

// Runs the command of this name, reports its failure, and returns its status.
fn run_named<'a, R: Host + Copy + Send + 'static>(
    rt: &R,
    name: &str,
    words: &ArgMatches<'a>,
    terminals: Terminals,
) -> u8
where
    R::Reader: Send + 'static,
{
    if let Err(failure) = check_numbers(rt.alloc(), name, words) {
        return failure.report(rt, Causes::Hidden);
    }
    match outcome_of(rt, name, words, terminals) {
        Ok(status) => status,
        Err(failure) => report(rt, name, words, failure.at(rt, name)),
    }
}

// Runs the command of this name.
fn outcome_of<'a, R: Host + Copy + Send + 'static>(
    rt: &R,
    name: &str,
    words: &ArgMatches<'a>,
    terminals: Terminals,
) -> Result<u8, Failure>
where
    R::Reader: Send + 'static,
{
    match name {
        "get" => get::run(rt, words, terminals),
        "jobs" => jobs::run(rt, words, terminals.errors),
        "job" => job::run(rt, words),
        "check-jobs" => check_jobs::run(rt, words),
        "selector" => selector::run(rt, words),
        "block" => block::run(rt, words, terminals),
        "show" => show::run(rt, words, terminals),
        "inspect" => inspect::run(rt, words),
        "verify" => verify::run(rt, words, terminals.errors),
        "receive" => receive::run(rt, words, terminals),
        _ => root::run(rt, words),
    }
}

// Reports the failure of the command of this name, and returns its status. It is reported with the cause; those of
// `jobs` and `root` have one line, and the cause on a second with `--verbose`. With `--json` an object follows, where
// the report of the command goes.
fn report<'a, R: Host>(rt: &R, name: &str, words: &ArgMatches<'a>, failure: Failure) -> u8 {
    let causes = match name {
        "jobs" | "root" => causes_of(words),
        _ => Causes::Beside,
    };
    let status = failure.report(rt, causes);
    if !JSON_COMMANDS.contains(&name) || !JSON.is_given(words) {
        return status;
    }
    if let Ok(Some(object)) = failure_object(rt.alloc(), &failure) {
        if STDERR_COMMANDS.contains(&name) {
            print_report(rt, object.as_slice());
        } else {
            // If standard output can't be written, there is no one to report to.
            let _ = print_all(rt, object.as_slice());
        }
    }
    status
}

// Prints the help or the version, if the arguments asked for it.
fn print_help<R: AllocGlobal + Eprint + Print>(rt: &R, error: clap::Error) -> Result<u8, Failure> {
    Help::asked_for(error)?.print(rt)?;
    Ok(0)
}

// Returns how the cause of a failure is reported.
fn causes_of<'a>(words: &ArgMatches<'a>) -> Causes {
    if VERBOSE.is_given(words) {
        Causes::Below
    } else {
        Causes::Hidden
    }
}
