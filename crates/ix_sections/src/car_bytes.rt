//! The bytes of a CARv1 file.

ghost use Rattle.std.specs.Prelude.{◌≡◌, IfOk};
ghost use Rattle.ix_sections.specs.Gives.{Gives};
ghost use Rattle.ix_sections.specs.Copies.{with_copies};
ghost use Rattle.ix_sections.specs.Payload.{IsWithin, bytes_of};
ghost use Rattle.ix_sections.specs.Reading.{blocks_after};
ghost use Rattle.ix_sections.specs.Sections.{section_list};

use crate::fault::CarFault;
use crate::payload::Payload;
use crate::reader::{BlockLoader, SoundLoader};
use std::alloc::{AllocError, Global};
use std::marker::Model;
use std::sync::Arc;
use std::thread::Threads;

/// The bytes of a CARv1 file, which may be a part of another file. Stores of its blocks share them.
#[derive(Drop)]
pub struct CarBytes {
    file: Arc<Vec<u8>>,
    start: usize,
}

impl Model for CarBytes {
    ghost use Rattle.std.specs.Prelude.{List, ℕ, ◌≤◌, drop, length};
    ghost use Rattle.std.specs.Arc.{arc_value};

    ghost Value = { List ℕ };

    ghost view = { λ car. drop car.start (arc_value car.file).items };

    ghost invariant = { λ car. car.start ≤ length (arc_value car.file).items };
}

impl CarBytes {
    /// Takes over the bytes of a file up to the end of its CARv1 file. None is copied.
    pub fn new(alloc: Global, bytes: Vec<u8>, payload: Payload) -> Result<CarBytes, AllocError>
        requires { IsWithin payload bytes.items }
        ensures { IfOk result (λ car. car ≡ bytes_of payload bytes.items) }
    {
        let mut bytes = bytes;
        bytes.truncate(payload.end);
        match Arc::new(alloc, bytes) {
            Ok(file) => Ok(CarBytes {
                file,
                start: payload.start,
            }),
            Err(_) => Err(AllocError),
        }
    }

    /// Takes over the bytes of a file that is a CARv1 file as a whole.
    pub fn whole(alloc: Global, bytes: Vec<u8>) -> Result<CarBytes, AllocError>
        ensures { IfOk result (λ car. car ≡ bytes.items) }
    {
        match Arc::new(alloc, bytes) {
            Ok(file) => Ok(CarBytes { file, start: 0 }),
            Err(_) => Err(AllocError),
        }
    }

    /// Returns the bytes.
    pub fn as_slice(&self) -> &[u8]
        ensures { result.now ≡ self.now }
    {
        &self.file.as_slice()[self.start..]
    }

    /// Adds the blocks of the file to those of a loader, or returns the file's first error.
    pub fn add_to<R: Threads + Sync>(
        &self,
        rt: &R,
        loader: BlockLoader,
        threads: usize,
    ) -> Result<BlockLoader, CarFault>
        ensures { Gives (λ more. more) self.now result (blocks_after loader self.now) }
    {
        loader.with_shared_by(rt, &self.file, self.start, threads)
    }

    /// Adds the copies in the file to those of a loader, or returns the file's first error.
    pub fn add_copies_to(&self, loader: SoundLoader) -> Result<SoundLoader, CarFault>
        ensures { Gives (λ more. more) self.now result (with_copies loader (section_list self.now)) }
    {
        loader.with_shared(&self.file, self.start)
    }
}
