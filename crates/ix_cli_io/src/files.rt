//! Reads input files.

ghost use Rattle.std.specs.Prelude.{◌≤◌, IfOk, IfErr, IfNone};
ghost use Rattle.ix_cli_io.specs.Failure.{IsInputFailure, IsRead, IsReadFrom};

use crate::fault::Failure;
use crate::memory::available_memory;
use crate::progress::{Loading, Progress};
use ix_run::RunFault;
use std::alloc::{AllocError, Global};
use std::fs::{self, File, OpenFile};
use std::io::{self, ErrorKind, Read};
use std::os::unix::fs::FileExt;
use std::rt::{Clock, Files};
use std::sync::atomic::{AtomicBool, Ordering};
use std::thread::{self, Threads};

/// The greatest size of an input by default, in bytes, where there is one: 1 GiB.
pub const LARGEST_INPUT: u64 = 1 << 30;

/// The greatest size of an input where there is none.
pub const ANY_SIZE: u64 = u64::MAX;

// From this size on a file is compared with the memory that is available, and read by several threads.
const LARGE: usize = 64 * 1024 * 1024;

// How many bytes threads read before progress is shown.
const ROUND: usize = 64 * 1024 * 1024;

/// The path that names standard input.
pub const STANDARD_INPUT: &str = "-";

/// Reads a file of at most so many bytes, or standard input if the path is `-`. The size of a file is
/// checked before it is read.
pub fn read_input<R: AllocGlobal + Files + Input>(
    rt: &R,
    path: &str,
    most: u64,
) -> Result<Vec<u8>, Failure>
    ensures { IsRead most path.now result }
{
    if path == STANDARD_INPUT {
        return read_all(rt.alloc(), rt.reader(), 0, most, path);
    }
    let (file, size) = open_file(rt, path, most)?;
    read_all(rt.alloc(), file, size, most, path)
}

/// Returns how many bytes the files at these paths have together, or 0 if that isn't known of each.
pub fn size_of_all<R: Files>(rt: &R, paths: &[&str]) -> u64 {
    let mut size: u64 = 0;
    for path in paths {
        match fs::metadata(rt, *path) {
            Ok(metadata) if *path != STANDARD_INPUT => size = size.saturating_add(metadata.len()),
            _ => return 0,
        }
    }
    size
}

/// Reads an input as `read_input` does, and shows progress. A large file is read by so many threads.
pub fn load_input<R>(
    rt: &R,
    path: &str,
    most: u64,
    threads: usize,
    progress: &Progress<R>,
) -> Result<Vec<u8>, Failure>
where
    R: AllocGlobal + Clock + Eprint + Files<File = File> + Input + Threads + Sync,
    ensures { IsRead most path.now result }
{
    if path == STANDARD_INPUT {
        return read_all(
            rt.alloc(),
            Loading::new(rt.reader(), progress),
            0,
            most,
            path,
        );
    }
    let (file, size) = open_file(rt, path, most)?;
    if size < LARGE || threads < 2 {
        return read_all(rt.alloc(), Loading::new(file, progress), size, most, path);
    }
    let mut input = vec![in rt.alloc(); 0u8; size]?;
    match fill(rt, &file, input.as_mut_slice(), threads, progress) {
        Ok(()) => Ok(input),
        Err(error) => Err(Failure::cannot_read(rt.alloc(), path, &error)),
    }
}

// Fills a buffer with the front of a file, by so many threads, and shows progress. What the file has
// beyond it is not read; a file that is shorter is an error.
fn fill<R: AllocGlobal + Clock + Eprint + Threads + Sync>(
    rt: &R,
    file: &File,
    buffer: &mut [u8],
    threads: usize,
    progress: &Progress<R>,
) -> io::Result<()> {
    let mut offset: u64 = 0;
    for round in buffer.chunks_mut(ROUND) {
        let size = round.len() as u64;
        match fill_round(rt, file, round, offset, threads) {
            Ok(()) => {}
            Err(error) if error.kind() == ErrorKind::UnexpectedEof => {
                return Err(io::Error::new(
                    ErrorKind::UnexpectedEof,
                    "it became shorter while it was read",
                ));
            }
            Err(error) => return Err(error),
        }
        offset = offset.wrapping_add(size);
        progress.add_loaded(size);
    }
    Ok(())
}

// Fills a buffer from an offset of a file on, by so many threads. If one fails, all is read again by one,
// for the error.
fn fill_round<R: Threads + Sync>(
    rt: &R,
    file: &File,
    buffer: &mut [u8],
    offset: u64,
    threads: usize,
) -> io::Result<()> {
    let size = buffer.len().div_ceil(threads.max(1)).max(1);
    let failed = AtomicBool::new(false);
    let fill = |start: usize, piece: &mut [u8]| {
        let offset = offset.wrapping_add(start as u64);
        if file.read_exact_at(piece, offset).is_err() {
            failed.store(true, Ordering::SeqCst);
        }
    };
    thread::for_each_chunk_mut(rt, buffer, size, &fill);
    if failed.load(Ordering::SeqCst) {
        file.read_exact_at(buffer, offset)
    } else {
        Ok(())
    }
}

// Opens a file and returns it with its size, which isn't too large.
fn open_file<R: Files + AllocGlobal>(
    rt: &R,
    path: &str,
    most: u64,
) -> Result<(R::File, usize), Failure>
    ensures small { IfOk result (λ opened. opened.1 ≤ most) }
    ensures refused { IfErr result (IsInputFailure path.now) }
{
    let alloc = rt.alloc();
    let file = match fs::open(rt, path) {
        Ok(file) => file,
        Err(error) => return Err(Failure::cannot_read(alloc, path, &error)),
    };
    let size = match file.metadata() {
        Ok(metadata) => metadata.len(),
        Err(error) => return Err(Failure::cannot_read(alloc, path, &error)),
    };
    match size_fault(rt, size, most) {
        Ok(None) => Ok((file, size as usize)),
        Ok(Some(cause)) => Err(Failure::too_large(alloc, path, cause)),
        Err(_) => Err(Failure::Fault(RunFault::Memory)),
    }
}

// Returns why a file of this size is too large, if it is.
fn size_fault<R: Files + AllocGlobal>(
    rt: &R,
    size: u64,
    most: u64,
) -> Result<Option<String>, AllocError>
    ensures { IfOk result (λ fault. IfNone fault (size ≤ most)) }
{
    if size > most {
        return Ok(Some(format!(in rt.alloc();
            "an input has at most {most} bytes: --max-input allows more"
        )?));
    }
    if size < LARGE as u64 {
        return Ok(None);
    }
    match available_memory(rt) {
        Some(free) if free < size => Ok(Some(format!(in rt.alloc();
            "it has {size} bytes, and {free} bytes of memory are available: free some, or use a machine with more"
        )?)),
        _ => Ok(None),
    }
}

/// Reads all that a reader gives, up to so many bytes. Room for the expected number of bytes is allocated
/// first.
pub fn read_all<R: Read + Drop>(
    alloc: Global,
    reader: R,
    expected: usize,
    most: u64,
    path: &str,
) -> Result<Vec<u8>, Failure>
    ensures { IsReadFrom (R.remaining reader) most path.now result }
{
    let mut input = Vec::with_capacity(alloc, expected)?;
    match reader.take(most.saturating_add(1)).read_to_end(&mut input) {
        Ok(_) if input.len() as u64 > most => {
            let cause = format!(in alloc; "an input has at most {most} bytes")?;
            Err(Failure::too_large(alloc, path, cause))
        }
        Ok(_) => Ok(input),
        Err(error) => Err(Failure::cannot_read(alloc, path, &error)),
    }
}
