//! Reads the arguments of the process.

use ix_cli_io::Failure;
use std::alloc::{AllocError, Global};
use std::env::{self, FillError};
use std::fmt::Write;
use std::rt::Env;

/// Returns the arguments of the process. The first is the program's name.
pub(crate) fn read_arguments<R: AllocGlobal + Env>(rt: &R) -> Result<Vec<String>, Failure> {
    match env::args(rt) {
        Ok(arguments) => arguments.collect(rt.alloc()).map_err(Failure::from),
        Err(error) => Err(Failure::of_words(&error, first_other_than_utf8(rt)?)),
    }
}

// Returns the first argument that isn't UTF-8, with bytes other than printed ASCII escaped. If it is
// longer than the buffer, the text says only that.
fn first_other_than_utf8<R: AllocGlobal + Env>(rt: &R) -> Result<String, AllocError> {
    let mut room = [0u8; 1024];
    for number in 0..usize::MAX {
        match rt.arg(number, &mut room) {
            Ok(length) => {
                let argument = &room[..length];
                if str::from_utf8(argument).is_err() {
                    return quoted(rt.alloc(), number, argument);
                }
            }
            Err(FillError::TooLong) => {}
            Err(FillError::NotPresent) => break,
        }
    }
    String::from_str(rt.alloc(), "one of over 1024 bytes")
}

// Returns an argument as it is reported, with its number.
fn quoted(alloc: Global, number: usize, argument: &[u8]) -> Result<String, AllocError> {
    let mut text = format!(in alloc; "number {number}, '")?;
    for byte in argument {
        match byte {
            b' '..=b'~' => text.push(char::from(*byte))?,
            _ => write!(text, "\\x{byte:02x}")?,
        }
    }
    text.push('\'')?;
    Ok(text)
}
