//! The one output of a command: a file, or standard output.

use crate::command::CommandSpec;
use crate::options::ArgSpec;
use clap::ArgMatches;
use clap::error::ErrorKind;
use ix_cli_io::{Failure, STANDARD_INPUT};
use std::alloc::{AllocError, Global};

/// Returns the path that the option names, or None for standard output, which must not be a terminal. The
/// errors say what would be written.
pub fn output_path<'a>(
    alloc: Global,
    spec: &'static CommandSpec,
    option: &ArgSpec,
    words: &ArgMatches<'a>,
    is_terminal: bool,
    what: &str,
) -> Result<Option<&'a str>, Failure> {
    match option.optional_text(words) {
        Some("") => Err(Failure::from(spec.refused_value(alloc, "--out <FILE>")?)),
        Some(path) if path != STANDARD_INPUT => Ok(Some(path)),
        _ if is_terminal => Err(Failure::from(refused_terminal(alloc, spec, what)?)),
        _ => Ok(None),
    }
}

// Makes the error for bytes that would go to a terminal.
fn refused_terminal(
    alloc: Global,
    spec: &'static CommandSpec,
    what: &str,
) -> Result<clap::Error, AllocError> {
    let message = format!(in alloc;
        "the {what} would go to a terminal: give '--out <FILE>', or redirect standard output"
    )?;
    spec.refusal(alloc, ErrorKind::MissingRequiredArgument, message.as_str())
}
