//! Occupies the standard streams that are closed.

ghost use Rattle.std.specs.Prelude.{codes};
ghost use Rattle.ix_cli_io.specs.Failure.{RefusesPath};

use crate::fault::Failure;
use std::fs::{self, File};
use std::io;
use std::os::fd::{AsRawFd, OwnedFd};
use std::rt::Files;

// A file that usually exists, and reads as empty.
const DEV_NULL: &str = "/dev/null";

// The greatest file descriptor of a standard stream.
const STANDARD_ERROR: i32 = 2;

/// The files that are open in place of closed standard streams.
#[derive(Drop)]
pub struct FdGuard {
    _input: Option<OwnedFd>,
    _output: Option<OwnedFd>,
    _error: Option<OwnedFd>,
}

/// Opens a file in place of each standard stream that is closed. A new file takes the lowest free
/// descriptor, so without this an output could receive what is printed. These files can't be written,
/// so printing to a closed stream still fails. If a descriptor stays free, the error is that standard
/// output can't be written.
pub fn occupy_std_fds<R: AllocGlobal + Files<File = File>>(rt: &R) -> Result<FdGuard, Failure>
    ensures refused { RefusesPath (codes "-") result }
{
    match open_fds(rt) {
        Ok(held) => Ok(held),
        Err(error) => Err(Failure::cannot_write(rt.alloc(), "-", &error)),
    }
}

// At most three of the descriptors are free.
fn open_fds<R: Files<File = File>>(rt: &R) -> io::Result<FdGuard> {
    Ok(FdGuard {
        _input: at_standard_stream(rt)?,
        _output: at_standard_stream(rt)?,
        _error: at_standard_stream(rt)?,
    })
}

// Opens a file that can't be written. It is kept if its descriptor is that of a standard stream.
fn at_standard_stream<R: Files<File = File>>(rt: &R) -> io::Result<Option<OwnedFd>> {
    let opened = unwritable(rt)?;
    Ok((opened.as_raw_fd() <= STANDARD_ERROR).then_some(opened))
}

// Opens /dev/null for reading, or else the read end of a pipe, whose other end is closed at once.
fn unwritable<R: Files<File = File>>(rt: &R) -> io::Result<OwnedFd> {
    match fs::open(rt, DEV_NULL) {
        Ok(file) => Ok(OwnedFd::from(file)),
        Err(_) => {
            let (reader, _writer) = io::pipe(rt)?;
            Ok(OwnedFd::from(reader))
        }
    }
}
