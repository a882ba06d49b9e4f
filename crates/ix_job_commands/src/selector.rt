//! The command `selector`: converts a selector from JSON to hex, or back.

use clap::ArgMatches;
use ix_cli_io::{ErrorCode, Failure, LARGEST_INPUT, STANDARD_INPUT, read_all};
use ix_options::{ArgKind, ArgSpec, CommandSpec, QUIET_ACCEPTED, print_answer};
use ix_selector_json::{hex_fault_line, hex_of_json, json_fault_line, json_of_hex};
use std::alloc::AllocError;

const ABOUT: &str = "Convert a selector from JSON to hex, or back";

const HELP: &str =
    "JSON has the keys of the IPLD Selectors specification. Everything below a root:\n\
\n\
\x20 {\"R\":{\"l\":{\"none\":{}},\":>\":{\"a\":{\">\":{\"@\":{}}}}}}\n\
\n\
Without JSON and --hex, or if JSON is -, it is read from standard input.\n\
docs/SELECTORS.md has the forms and recipes. Status: 0 if a line was printed, 2\n\
if the text is not a selector, with a line that says why.";

const JSON: ArgSpec = ArgSpec {
    name: "json",
    given: ArgKind::OptionalPositional("JSON"),
    help: "IPLD selector as JSON",
};

const HEX: ArgSpec = ArgSpec {
    name: "hex",
    given: ArgKind::ConflictsWith("TEXT", "json"),
    help: "IPLD selector in hex, to be printed as JSON",
};

/// The command.
pub static SPEC: CommandSpec = CommandSpec {
    name: "selector",
    about: ABOUT,
    help: HELP,
    words: &[JSON, HEX, QUIET_ACCEPTED],
};

/// Runs the command and returns the status.
pub fn run<'a, R: AllocGlobal + Eprint + Input + Print>(
    rt: &R,
    words: &ArgMatches<'a>,
) -> Result<u8, Failure> {
    match (HEX.optional_text(words), JSON.optional_text(words)) {
        (Some(text), _) => match json_of_hex(rt.alloc(), text) {
            Ok(line) => print_answer(rt, Ok(line)),
            Err(fault) => Err(refused(hex_fault_line(rt.alloc(), &fault, text))),
        },
        (None, Some(text)) if text != STANDARD_INPUT => print_hex(rt, text.as_bytes()),
        _ => {
            let input = read_all(rt.alloc(), rt.reader(), 0, LARGEST_INPUT, STANDARD_INPUT)?;
            print_hex(rt, input.as_slice())
        }
    }
}

// Prints the selector of a JSON text in hex, or why there is none.
fn print_hex<R: AllocGlobal + Eprint + Print>(rt: &R, text: &[u8]) -> Result<u8, Failure> {
    match hex_of_json(rt.alloc(), text) {
        Ok(line) => print_answer(rt, Ok(line)),
        Err(fault) => Err(refused(json_fault_line(rt.alloc(), &fault, text))),
    }
}

// Makes the failure for a text that is no selector, with this line.
fn refused(line: Result<String, AllocError>) -> Failure {
    Failure::stopped(ErrorCode::Job, line)
}
