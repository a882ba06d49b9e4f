//! The store of the blocks of files.

ghost use Rattle.std.specs.Prelude.{◌≡◌, IfOk, IfErr};
ghost use Rattle.std.specs.Arc.{arc_value};
ghost use Rattle.ix_sections.specs.Files.{IsStoreOf, IsFirstFault, HasRead, blocks_by, later_by};
ghost use Rattle.ix_sections.specs.Loader.{copies_in, blocks_in};

use crate::files::fault::FileFault;
use crate::files::loader::{Copies, Loader};
use ix_store::{SoundStore, Store};
use std::alloc::{AllocError, Global};
use std::sync::Arc;
use std::thread::Threads;

/// How files are read.
#[derive(Debug, Drop, Clone, Copy, PartialEq, Eq)]
pub struct Reading {
    /// Whether the CARv1 file in a CARv2 file is read, and such a file not rejected.
    pub carv2: bool,
    pub copies: Copies,
}

/// The settled store of the blocks of files, and how many of them are a later copy, since the first isn't sound.
#[derive(Drop)]
pub struct FileBlocks {
    pub store: Arc<Store>,
    pub later_count: usize,
}

/// Returns the blocks of files, read one after the other: of all their sections, put end to end, the copy of each CID that
/// counts. Or returns the first error, and its file. The memory of the files is kept in the store, and no block is copied.
/// So many threads index the blocks.
pub fn blocks_of<R: Threads + Sync>(
    rt: &R,
    alloc: Global,
    files: Vec<Vec<u8>>,
    reading: Reading,
    threads: usize,
) -> Result<FileBlocks, FileFault>
    ensures store { IfOk result (λ blocks.
        IsStoreOf reading files.items (arc_value blocks.store) blocks.later_count) }
    ensures refused { IfErr result (IsFirstFault reading files.items) }
{
    let count = files.len();
    let loader = loader_of(rt, alloc, files, reading, threads)?;
    match settled(rt, alloc, loader, threads) {
        Ok(blocks) => Ok(blocks),
        Err(_) => Err(FileFault::memory(count)),
    }
}

// Reads files one after the other.
fn loader_of<R: Threads + Sync>(
    rt: &R,
    alloc: Global,
    files: Vec<Vec<u8>>,
    reading: Reading,
    threads: usize,
) -> Result<Loader, FileFault>
    ensures copies { IfOk result (λ loader. copies_in loader ≡ reading.copies) }
    ensures read { IfOk result (λ loader. HasRead reading files.items (blocks_in loader)) }
    ensures refused { IfErr result (IsFirstFault reading files.items) }
{
    let mut loader = Loader::new(alloc, reading.copies);
    for (number, bytes) in files.into_iter().enumerate() {
        match loader.with_file(rt, alloc, bytes, reading.carv2, threads) {
            Ok(more) => loader = more,
            Err(fault) => return Err(FileFault {
                file: number,
                fault,
            }),
        }
    }
    Ok(loader)
}

// Returns the settled store of what a loader has read.
fn settled<R: Threads + Sync>(
    rt: &R,
    alloc: Global,
    loader: Loader,
    threads: usize,
) -> Result<FileBlocks, AllocError>
    ensures store { IfOk result (λ blocks.
        arc_value blocks.store ≡ blocks_by (copies_in loader) (blocks_in loader)) }
    ensures later { IfOk result (λ blocks.
        blocks.later_count ≡ later_by (copies_in loader) (blocks_in loader)) }
{
    let (store, later_count) = match loader {
        Loader::First(loader) => (loader.finish_by(rt, threads)?, 0),
        Loader::Sound(loader) => {
            let SoundStore { store, later_count } = loader.finish_by(rt, threads)?;
            (store, later_count)
        }
    };
    Ok(FileBlocks {
        store: Arc::new(alloc, store)?,
        later_count,
    })
}
