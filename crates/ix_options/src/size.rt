//! Sizes in arguments: bytes, or multiples of 1024 by a unit.

use crate::command::CommandSpec;
use crate::options::{ArgSpec, MAX_INPUT};
use clap::ArgMatches;
use clap::error::ErrorKind;
use ix_cli_io::Failure;
use std::alloc::{AllocError, Global};

/// Returns the greatest size of an input that was given to a command, or this one.
pub fn most_input(
    alloc: Global,
    spec: &'static CommandSpec,
    words: &ArgMatches<'_>,
    default: u64,
) -> Result<u64, Failure> {
    given_size(alloc, spec, words, &MAX_INPUT, default)
}

/// Returns the size that was given for an option of a command, or this one.
pub fn given_size(
    alloc: Global,
    spec: &'static CommandSpec,
    words: &ArgMatches<'_>,
    option: &ArgSpec,
    default: u64,
) -> Result<u64, Failure> {
    let Some(text) = option.optional_text(words) else {
        return Ok(default);
    };
    match size_in(text) {
        Some(size) => Ok(size),
        None => Err(Failure::from(refused_size(alloc, spec, option.name, text)?)),
    }
}

// Parses a size: a number of bytes, or with K, M, G or T of 1024 times as many each, in either case,
// and iB after it or not. It is at least 1.
fn size_in(text: &str) -> Option<u64> {
    let end = text
        .bytes()
        .position(|byte| !byte.is_ascii_digit())
        .unwrap_or(text.len());
    let (digits, unit) = text.split_at_checked(end)?;
    let count: u64 = digits.parse().ok()?;
    let size = count.checked_mul(factor_of(unit)?)?;
    if size == 0 { None } else { Some(size) }
}

// Returns the factor of a unit.
fn factor_of(unit: &str) -> Option<u64> {
    match unit.strip_suffix("iB").unwrap_or(unit) {
        "" if unit.is_empty() => Some(1),
        "K" | "k" => Some(1 << 10),
        "M" | "m" => Some(1 << 20),
        "G" | "g" => Some(1 << 30),
        "T" | "t" => Some(1 << 40),
        _ => None,
    }
}

// Makes the error for a text that isn't a size.
fn refused_size(
    alloc: Global,
    spec: &'static CommandSpec,
    option: &str,
    text: &str,
) -> Result<clap::Error, AllocError> {
    let message = format!(in alloc;
        "invalid value '{text}' for '--{option} <SIZE>': SIZE is a number of bytes from 1 to 18446744073709551615, or of K, M, G or T, as in 4G or 4GiB"
    )?;
    spec.refusal(alloc, ErrorKind::ValueValidation, message.as_str())
}
