//! Prints what commands answer.

use ix_cli_io::Failure;
use ix_json_report::{ErrorNote, push_error};
use std::alloc::{AllocError, Global};
use std::io::{self, Write};

/// Writes a text to standard output.
pub fn print_all<R: AllocGlobal + Print>(rt: &R, text: &[u8]) -> Result<(), Failure> {
    io::writer(rt)
        .write_all(text)
        .map_err(|error| Failure::cannot_write(rt.alloc(), "-", &error))
}

/// Prints the whole output of a command, if there is one, and returns the status 0.
pub fn print_answer<R: AllocGlobal + Print>(
    rt: &R,
    text: Result<String, Failure>,
) -> Result<u8, Failure> {
    print_all(rt, text?.as_bytes()).map(|()| 0)
}

/// Prints notes to standard error. If it can't be written, or memory runs out, there is no one to report
/// to.
pub fn print_notes<R: Eprint>(rt: &R, notes: Result<String, AllocError>) {
    if let Ok(notes) = notes {
        let _ = rt.eprint(notes.as_str());
    }
}

/// Makes the note that so many blocks are a later copy, after what it is about.
pub fn later_note(alloc: Global, about: &str, count: usize) -> Result<String, AllocError> {
    let blocks = if count == 1 { "block" } else { "blocks" };
    format!(in alloc; "{about}: {count} {blocks} from a later copy\n")
}

/// Returns the line with the object of a failure, or None if the parser of the command line rejected the arguments.
pub fn failure_object(alloc: Global, failure: &Failure) -> Result<Option<Vec<u8>>, AllocError> {
    let Some(code) = failure.code() else {
        return Ok(None);
    };
    let message = failure.message(alloc)?;
    let none = None;
    let (cid, path) = match failure {
        Failure::Stopped(stop) => (&stop.cid, &stop.path),
        _ => (&none, &none),
    };
    let note = ErrorNote {
        code: code.word(),
        message: message.as_str(),
        cid,
        path,
    };
    Ok(Some(push_error(Vec::new(alloc), note)?))
}
