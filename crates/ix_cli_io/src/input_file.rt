//! The inputs of a run, which none of its outputs may be.

use crate::files::STANDARD_INPUT;
use crate::part::FileId;
use std::alloc::AllocError;
use std::fs;
use std::io::{self, ErrorKind};
use std::rt::Files;

// The paths of standard input and standard output, where the system has them.
const STANDARD_INPUT_PATHS: [&str; 2] = ["/dev/stdin", "/proc/self/fd/0"];

const STANDARD_OUTPUT_PATHS: [&str; 2] = ["/dev/stdout", "/proc/self/fd/1"];

/// Which file an input is.
#[derive(Clone, Copy)]
pub(crate) enum InputFile {
    /// This one.
    Known(FileId),
    /// No file that an output could be: it is gone.
    Gone,
    /// Standard input, and the system doesn't say which file it is.
    Unknown,
}

/// Returns which files the inputs at these paths are; `-` is standard input.
pub(crate) fn identify_all<R: Files + AllocGlobal>(
    rt: &R,
    paths: &[&str],
) -> Result<Vec<InputFile>, AllocError> {
    let mut inputs = Vec::with_capacity(rt.alloc(), paths.len())?;
    for path in paths {
        inputs.push(identify(rt, path))?;
    }
    Ok(inputs)
}

// Returns which file the input at a path is; `-` is standard input.
fn identify<R: Files>(rt: &R, path: &str) -> InputFile {
    if path != STANDARD_INPUT {
        return file_id(rt, path).map_or(InputFile::Gone, InputFile::Known);
    }
    for name in STANDARD_INPUT_PATHS {
        if let Some(id) = file_id(rt, name) {
            return InputFile::Known(id);
        }
    }
    InputFile::Unknown
}

/// Rejects an output if its path, or its part, is one of the inputs under any name, or may be one.
pub(crate) fn check_no_input<R: Files>(rt: &R, path: &str, inputs: &[InputFile]) -> io::Result<()> {
    let Some(id) = file_id(rt, path) else {
        return Ok(());
    };
    for input in inputs {
        match *input {
            InputFile::Known(input) if input == id => {
                return Err(io::Error::new(
                    ErrorKind::AlreadyExists,
                    "it is an input: give another output",
                ));
            }
            InputFile::Unknown => {
                return Err(io::Error::new(
                    ErrorKind::AlreadyExists,
                    "it may be standard input: give that file by its path, or another output",
                ));
            }
            _ => {}
        }
    }
    Ok(())
}

/// Rejects standard output if it is a regular file and one of the inputs.
pub(crate) fn check_stream<R: Files>(rt: &R, inputs: &[InputFile]) -> io::Result<()> {
    for name in STANDARD_OUTPUT_PATHS {
        let Ok(metadata) = fs::metadata(rt, name) else {
            continue;
        };
        let output = FileId::of(&metadata);
        let mut known = inputs.iter();
        if metadata.is_file()
            && known.any(|input| matches!(input, InputFile::Known(id) if *id == output))
        {
            return Err(io::Error::new(
                ErrorKind::AlreadyExists,
                "it is an input: give another output",
            ));
        }
        return Ok(());
    }
    Ok(())
}

// Returns which file is at a path, if there is one. Links are followed.
fn file_id<R: Files>(rt: &R, path: &str) -> Option<FileId> {
    match fs::metadata(rt, path) {
        Ok(metadata) => Some(FileId::of(&metadata)),
        Err(_) => None,
    }
}
