//! The command `root`: the archive of one block, from hex to hex.

use clap::ArgMatches;
use ix_cli_io::{Failure, LARGEST_INPUT, STANDARD_INPUT, read_all};
use ix_job_errors::cid_fault_words;
use ix_options::{
    ArgKind, ArgSpec, CommandSpec, MAX_INPUT_1G, QUIET_ACCEPTED, VERBOSE, most_input, print_answer,
};
use ix_run::{RunFault, printed_root, root_of_text};
use std::alloc::Global;

const ABOUT: &str = "Export the archive of one block, from hex to hex";

const HELP: &str = "The archive has the block of the CID alone, if it is there and sound.\n\
\n\
Standard input is a CARv1 file in hex; spaces, tabs and line ends are skipped.\n\
Status: 0 if an archive was printed, 2 if the arguments or the input are\n\
rejected, with a line on standard error and, with --verbose, the cause on\n\
another.";

const CID: ArgSpec = ArgSpec {
    name: "cid",
    given: ArgKind::Required("TEXT"),
    help: "CIDv1 of the root, in base32",
};

/// The command.
pub static SPEC: CommandSpec = CommandSpec {
    name: "root",
    about: ABOUT,
    help: HELP,
    words: &[CID, MAX_INPUT_1G, QUIET_ACCEPTED, VERBOSE],
};

/// Runs the command and returns the status. Its first error is reported, checked in this order: CID,
/// standard input, hex, CAR file.
pub fn run<'a, R: AllocGlobal + Input + Print>(
    rt: &R,
    words: &ArgMatches<'a>,
) -> Result<u8, Failure> {
    let most = most_input(rt.alloc(), &SPEC, words, LARGEST_INPUT)?;
    print_answer(rt, archive_of(rt, CID.text(words), most))
}

// Returns what the command prints for the text of a CID.
fn archive_of<R: AllocGlobal + Input>(rt: &R, text: &str, most: u64) -> Result<String, Failure> {
    let root = match root_of_text(rt.alloc(), text) {
        Ok(root) => root,
        Err(fault) => return Err(root_failure(rt.alloc(), text, fault)),
    };
    let input = read_all(rt.alloc(), rt.reader(), 0, most, STANDARD_INPUT)?;
    printed_root(rt.alloc(), root, input.as_slice()).map_err(Failure::from)
}

// Makes the failure for a text of a CID that is rejected, with what is wrong with it.
fn root_failure(alloc: Global, text: &str, fault: RunFault) -> Failure {
    match cid_fault_words(alloc, text) {
        Ok(Some(cause)) => explained(alloc, fault, cause),
        Ok(None) => Failure::from(fault),
        Err(error) => Failure::from(error),
    }
}

// Makes the failure for the option with the CID, with this cause.
fn explained(alloc: Global, fault: RunFault, cause: String) -> Failure {
    match String::from_str(alloc, "--cid") {
        Ok(option) => Failure::Explained(fault, option, cause),
        Err(error) => Failure::from(error),
    }
}
