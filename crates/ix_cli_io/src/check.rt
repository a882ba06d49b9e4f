//! Which outputs are rejected before anything is created.

ghost use Rattle.std.specs.Prelude.{IfErr, codes};
ghost use Rattle.ix_cli_io.specs.Failure.{IsPathFailure};

use crate::fault::Failure;
use crate::input_file::{InputFile, check_no_input, check_stream, identify_all};
use crate::part::{check_part, part_path};
use std::fs::{self, File};
use std::io::{self, ErrorKind};
use std::os::unix::fs::MetadataExt;
use std::path::Path;
use std::rt::Files;

// A file of the file system that has the streams of each process.
const PROCESS: &str = "/proc/self";

// How many links are followed from one to another at most.
const MOST_LINKS: u32 = 40;

/// Rejects standard output if it is a regular file that is one of the inputs. Where the system doesn't say which
/// file it is, nothing is rejected.
pub fn check_standard_output<R: Files + AllocGlobal>(rt: &R, inputs: &[&str]) -> Result<(), Failure>
    ensures refused { IfErr result (IsPathFailure (codes "-")) }
{
    let inputs = identify_all(rt, inputs)?;
    match check_stream(rt, inputs.as_slice()) {
        Ok(()) => Ok(()),
        Err(error) => Err(Failure::cannot_write(rt.alloc(), "-", &error)),
    }
}

// Rejects an output that is a link to a stream of a process, as /dev/stdout is: the link would be replaced by a
// file. Links are followed one by one, up to one on the file system of the processes.
fn check_links<R: Files + AllocGlobal>(rt: &R, path: &str) -> io::Result<()> {
    let Ok(processes) = fs::symlink_metadata(rt, PROCESS) else {
        return Ok(());
    };
    let mut path = Path::new(path).to_path_buf(rt.alloc())?;
    for _ in 0..MOST_LINKS {
        match fs::symlink_metadata(rt, path.as_str()) {
            Ok(metadata) if metadata.is_symlink() => {
                if metadata.dev() == processes.dev() {
                    return Err(io::Error::new(
                        ErrorKind::AlreadyExists,
                        "it is a link to a stream: give --out - for standard output",
                    ));
                }
            }
            _ => return Ok(()),
        }
        let target = fs::read_link(rt, path.as_str())?;
        path.pop();
        path.push(target.as_str())?;
    }
    Ok(())
}

/// Rejects an output if something other than a file is at its path, or a link to a stream of a process, or if
/// `check_output` rejects it.
pub(crate) fn check_file<R: Files<File = File> + AllocGlobal>(
    rt: &R,
    path: &str,
    inputs: &[&str],
) -> io::Result<()> {
    check_links(rt, path)?;
    match fs::metadata(rt, path) {
        Ok(metadata) if !metadata.is_file() && !metadata.is_dir() => {
            return Err(io::Error::new(ErrorKind::AlreadyExists, "not a regular file"));
        }
        _ => {}
    }
    let inputs = identify_all(rt, inputs)?;
    check_output(rt, path, inputs.as_slice())
}

/// Rejects an output that is a directory or an input, or that another run writes.
pub(crate) fn check_output<R: Files<File = File> + AllocGlobal>(
    rt: &R,
    path: &str,
    inputs: &[InputFile],
) -> io::Result<()> {
    let part = part_path(rt.alloc(), path)?;
    match fs::metadata(rt, path) {
        Ok(metadata) if metadata.is_dir() => {
            return Err(io::Error::new(ErrorKind::AlreadyExists, "is a directory"));
        }
        _ => {}
    }
    check_no_input(rt, path, inputs)?;
    check_no_input(rt, part.as_str(), inputs)?;
    check_part(rt, part.as_str())
}
