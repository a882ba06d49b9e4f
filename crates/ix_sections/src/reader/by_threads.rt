//! Reading CARv1 files whose blocks several threads index.

ghost use Rattle.std.specs.Prelude.{◌≡◌, ◌≤◌, [], length, drop, IfOk};
ghost use Rattle.std.specs.Arc.{arc_value};
ghost use Rattle.ix_sections.specs.Reading.{blocks_after};
ghost use Rattle.ix_sections.specs.Gives.{Gives};
ghost use Rattle.ix_sections.specs.Payload.{IsWithin, bytes_of, bytes_to};

use crate::fault::{CarFault, CarKind};
use crate::payload::Payload;
use crate::reader::indexing::{ByThreads, Indexing};
use crate::reader::store::with_file;
use ix_store::{Store, StoreBuilder};
use std::alloc::{AllocError, Global};
use std::marker::Model;
use std::sync::Arc;
use std::thread::Threads;

/// The blocks of CARv1 files that are read one after the other: those of the sections of all files,
/// put end to end, of which the first of each CID counts.
///
/// ```rust
/// let loader = BlockLoader::new(alloc);
/// let payload = payload_of(first.as_slice())?;
/// let loader = loader.with_file_by(rt, alloc, first, payload, threads)?;
/// let store = loader.finish_by(rt, threads)?;
/// ```
#[derive(Drop)]
pub struct BlockLoader {
    builder: StoreBuilder,
}

impl Model for BlockLoader {
    ghost use Rattle.ix_store.specs.Store.{Blocks};

    ghost Value = { Blocks };

    ghost view = { λ loader. loader.builder.pairs };
}

impl BlockLoader {
    /// Creates a loader that has read no file.
    pub fn new(alloc: Global) -> BlockLoader
        ensures { result ≡ [] }
    {
        BlockLoader {
            builder: StoreBuilder::new(alloc),
        }
    }

    /// Reads one file more, which is a part of these bytes, or returns its first error, with which the
    /// blocks are lost. The loader takes over the bytes up to the end of the part, and no block is
    /// copied.
    pub fn with_file_by<R: Threads + Sync>(
        self,
        rt: &R,
        alloc: Global,
        bytes: Vec<u8>,
        payload: Payload,
        threads: usize,
    ) -> Result<BlockLoader, CarFault>
        requires { IsWithin payload bytes.items }
        ensures { Gives (λ loader. loader) (bytes_to payload bytes.items) result
            (blocks_after self (bytes_of payload bytes.items)) }
    {
        let mut bytes = bytes;
        bytes.truncate(payload.end);
        let Ok(file) = Arc::new(alloc, bytes) else {
            return Err(CarFault {
                kind: CarKind::Memory,
                place: 0,
            });
        };
        let indexing = ByThreads { rt, threads };
        let builder = with_file(self.builder, &file, payload.start, &indexing)?;
        Ok(BlockLoader { builder })
    }

    /// Reads one file more, which is the end of shared bytes from an offset on, or returns its first
    /// error, with which the blocks are lost. The offset of an error is counted from there too. The
    /// loader keeps a share of the bytes.
    pub fn with_shared_by<R: Threads + Sync>(
        self,
        rt: &R,
        file: &Arc<Vec<u8>>,
        start: usize,
        threads: usize,
    ) -> Result<BlockLoader, CarFault>
        requires { start ≤ length (arc_value file.now).items }
        ensures { Gives (λ loader. loader) (drop start (arc_value file.now).items) result
            (blocks_after self (drop start (arc_value file.now).items)) }
    {
        match with_file(self.builder, file, start, &ByThreads { rt, threads }) {
            Ok(builder) => Ok(BlockLoader { builder }),
            Err(CarFault { kind, place }) => Err(CarFault {
                kind,
                place: place - start,
            }),
        }
    }

    /// Returns the settled store of the blocks of all files.
    pub fn finish_by<R: Threads + Sync>(self, rt: &R, threads: usize) -> Result<Store, AllocError>
        ensures { IfOk result (λ store. store ≡ self) }
    {
        ByThreads { rt, threads }.build(self.builder)
    }
}
