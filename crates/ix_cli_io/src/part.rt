//! The file to which an output is written before it is renamed.
//!
//! The output `PATH` is written to `PATH.part`. From its creation until it is renamed, the file has an
//! advisory lock of the process, so no other run takes it for a stale one. Where a file system has no
//! locks, runs go on without.

use std::alloc::{AllocError, Global};
use std::fs::{self, File, Metadata, OpenFile, OpenOptions, Permissions, TryLockError};
use std::io::{self, ErrorKind};
use std::os::unix::fs::{MetadataExt, OpenOptionsExt, PermissionsExt};
use std::rt::Files;

// The error numbers of file systems without locks: ENOLCK, ENOSYS, EOPNOTSUPP.
const NO_LOCKS: [i32; 3] = [37, 38, 95];

// How many times a new file is tried to be locked while another run has it locked for a moment.
const LOCK_TRIES: u32 = 1_000;

// The permission bits of a file, and those of a new one before the process's mask.
const PERMISSION_BITS: u32 = 0o777;

const NEW_FILE: u32 = 0o666;

/// Returns the path at which an output is written before it is renamed.
pub(crate) fn part_path(alloc: Global, path: &str) -> Result<String, AllocError> {
    format!(in alloc; "{path}.part")
}

/// The identity of a file, whatever its names: its device and its inode number.
#[derive(Clone, Copy, PartialEq, Eq)]
pub(crate) struct FileId {
    device: u64,
    number: u64,
}

impl FileId {
    /// Returns the identity from a file's metadata.
    pub(crate) fn of(metadata: &Metadata) -> FileId {
        FileId {
            device: metadata.dev(),
            number: metadata.ino(),
        }
    }
}

// What is at the path of a part.
enum Left {
    Nothing,
    // A file, which some run may still be writing.
    Stale,
    // A link, a directory or a device, which no run creates.
    Other,
}

// Returns what is at the path of a part. Links aren't followed.
fn left_at<R: Files>(rt: &R, part: &str) -> io::Result<Left> {
    match fs::symlink_metadata(rt, part) {
        Ok(metadata) if metadata.is_file() => Ok(Left::Stale),
        Ok(_) => Ok(Left::Other),
        Err(error) if error.kind() == ErrorKind::NotFound => Ok(Left::Nothing),
        Err(error) => Err(error),
    }
}

/// Rejects an output if another run writes its part, or if it can't be written.
pub(crate) fn check_part<R: Files<File = File>>(rt: &R, part: &str) -> io::Result<()> {
    match left_at(rt, part)? {
        Left::Nothing => Ok(()),
        Left::Stale => lock_stale(rt, part).map(|_| ()),
        Left::Other => Err(other_than_file()),
    }
}

// Opens and locks the stale file at a path, unless another run writes it.
fn lock_stale<R: Files<File = File>>(rt: &R, part: &str) -> io::Result<File> {
    let file = open_stale(rt, part)?;
    lock(&file)?;
    if is_at(rt, &file, part) {
        Ok(file)
    } else {
        Err(in_use())
    }
}

// Opens a stale file for writing, since over NFS only such a file can be locked exclusively. One that
// may not be written is opened for reading.
fn open_stale<R: Files<File = File>>(rt: &R, part: &str) -> io::Result<File> {
    match OpenOptions::new().read(true).write(true).open(rt, part) {
        Err(error) if error.kind() == ErrorKind::PermissionDenied => fs::open(rt, part),
        opened => opened,
    }
}

// Locks a file, if its file system has locks, unless another run has locked it.
fn lock(file: &File) -> io::Result<()> {
    match file.try_lock() {
        Ok(()) => Ok(()),
        Err(TryLockError::WouldBlock) => Err(in_use()),
        Err(TryLockError::Error(error)) if has_no_locks(&error) => Ok(()),
        Err(TryLockError::Error(error)) => Err(error),
    }
}

fn has_no_locks(error: &io::Error) -> bool {
    match error.raw_os_error() {
        Some(code) => NO_LOCKS.contains(&code),
        None => false,
    }
}

// Returns the error that another run writes the output.
fn in_use() -> io::Error {
    io::Error::new(ErrorKind::WouldBlock, "another run is writing it")
}

fn other_than_file() -> io::Error {
    io::Error::new(
        ErrorKind::AlreadyExists,
        "something other than a file is at its .part: remove that",
    )
}

// Removes the stale part of an output, unless another run writes it. It is locked until it is removed,
// so nothing else is removed.
fn remove_stale<R: Files<File = File>>(rt: &R, part: &str) -> io::Result<()> {
    match left_at(rt, part)? {
        Left::Nothing => Ok(()),
        Left::Stale => {
            let locked = lock_stale(rt, part)?;
            let removed = fs::remove_file(rt, part);
            drop(locked);
            removed
        }
        Left::Other => Err(other_than_file()),
    }
}

/// Creates the part of a path, in place of a stale one, and locks it. If anything fails after that, the
/// file is removed. It has no permission bits that the file doesn't have that it will replace.
pub(crate) fn create_part<R: Files<File = File>>(
    rt: &R,
    part: &str,
    path: &str,
) -> io::Result<File> {
    remove_stale(rt, part)?;
    let bits = match fs::symlink_metadata(rt, path) {
        Ok(replaced) if replaced.is_file() => replaced.permissions().mode() & PERMISSION_BITS,
        _ => NEW_FILE,
    };
    let mut options = OpenOptions::new();
    options.write(true).create_new(true).mode(bits);
    let file = match options.open(rt, part) {
        Err(error) if error.kind() == ErrorKind::AlreadyExists => return Err(in_use()),
        made => made?,
    };
    lock_made(rt, &file, part)?;
    Ok(file)
}

// Locks a file that was just created at a path, or removes it. A run that starts at the same time may
// have locked it first, to look at it or to remove it.
fn lock_made<R: Files<File = File>>(rt: &R, file: &File, part: &str) -> io::Result<()> {
    match lock_again(file) {
        Ok(()) if is_at(rt, file, part) => Ok(()),
        Ok(()) => Err(in_use()),
        Err(error) => {
            // If it isn't another run that has the lock, nobody can lock it.
            if error.kind() != ErrorKind::WouldBlock && is_at(rt, file, part) {
                let _ = fs::remove_file(rt, part);
            }
            Err(error)
        }
    }
}

// Locks a file that another run may have locked for a moment.
fn lock_again(file: &File) -> io::Result<()> {
    for _ in 1..LOCK_TRIES {
        match lock(file) {
            Err(error) if error.kind() == ErrorKind::WouldBlock => {}
            locked => return locked,
        }
    }
    lock(file)
}

/// Renames an open part to its path, with the permission bits of the file that it replaces, and returns
/// whether something was there. It isn't renamed if the file is no longer where it was created.
pub(crate) fn rename_part<R: Files<File = File>>(
    rt: &R,
    file: &File,
    part: &str,
    path: &str,
) -> io::Result<bool> {
    if !is_at(rt, file, part) {
        return Err(io::Error::new(
            ErrorKind::NotFound,
            "its .part is no longer the file that was written",
        ));
    }
    let replaced = fs::symlink_metadata(rt, path);
    if let Ok(replaced) = &replaced {
        keep_permissions(file, replaced)?;
    }
    fs::rename(rt, part, path)?;
    Ok(replaced.is_ok())
}

/// Removes an open part, unless the file is no longer where it was created. What can't be removed stays.
pub(crate) fn remove_part<R: Files<File = File>>(rt: &R, file: &File, part: &str) {
    if is_at(rt, file, part) {
        let _ = fs::remove_file(rt, part);
    }
}

// Copies the permission bits of the file that is replaced, if they differ.
fn keep_permissions(file: &File, replaced: &Metadata) -> io::Result<()> {
    let wanted = replaced.permissions().mode() & PERMISSION_BITS;
    if !replaced.is_file() || file.metadata()?.permissions().mode() & PERMISSION_BITS == wanted {
        return Ok(());
    }
    file.set_permissions(Permissions::from_mode(wanted))
}

// Returns whether an open file is the one at a path.
fn is_at<R: Files>(rt: &R, file: &R::File, path: &str) -> bool {
    match (file.metadata(), fs::symlink_metadata(rt, path)) {
        (Ok(open), Ok(named)) => FileId::of(&open) == FileId::of(&named),
        _ => false,
    }
}
