//! The part of a job file that a command is about.

use clap::ArgMatches;
use clap::error::ErrorKind;
use ix_jobs::Part;
use ix_options::{ArgKind, ArgSpec, CommandSpec};
use std::alloc::{AllocError, Global};

/// The part of a job file that is run or checked.
pub const PART: ArgSpec = ArgSpec {
    name: "part",
    given: ArgKind::Optional("K/N"),
    help: "The K-th of N parts of FILE, with N up to 1000000",
};

/// Returns the part of the job file that is asked for, or None for the whole file.
pub fn given_part<'a>(
    alloc: Global,
    spec: &'static CommandSpec,
    words: &ArgMatches<'a>,
) -> Result<Option<Part>, clap::Error> {
    let Some(text) = PART.optional_text(words) else {
        return Ok(None);
    };
    match part_in(text) {
        Some(part) => Ok(Some(part)),
        None => Err(refused_part(alloc, spec, text)?),
    }
}

// Parses a part, K/N.
fn part_in(text: &str) -> Option<Part> {
    let (number, of) = text.split_once('/')?;
    Part::new(number_in(number)?, number_in(of)?)
}

// Parses a number, which has no sign.
fn number_in(text: &str) -> Option<u32> {
    if text.starts_with('+') {
        return None;
    }
    text.parse().ok()
}

// Makes the error for a text that isn't a part.
fn refused_part(
    alloc: Global,
    spec: &'static CommandSpec,
    text: &str,
) -> Result<clap::Error, AllocError> {
    let message = format!(in alloc;
        "invalid value '{text}' for '--part <K/N>': K is from 1 to N, and N from 1 to 1000000"
    )?;
    spec.refusal(alloc, ErrorKind::ValueValidation, message.as_str())
}
