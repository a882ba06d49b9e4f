//! What reads files of blocks, one after the other.

ghost use Rattle.std.specs.Prelude.{◌≡◌, ◌≢◌, [], IfOk, IfErr, Ok, Err};
ghost use Rattle.ix_sections.specs.Gives.{Gives};
ghost use Rattle.ix_sections.specs.Payload.{IsWithin, bytes_of, bytes_to};
ghost use Rattle.ix_sections.specs.declared.fault.CarKind.TheVariants.{Memory};
ghost use Rattle.ix_sections.specs.Files.{with_car, with_file, IsReadFault};
ghost use Rattle.ix_sections.specs.Loader.{copies_in, blocks_in};

use crate::files::payload::payload_in;
use crate::{BlockLoader, CarFault, Payload, SoundLoader};
use std::alloc::Global;
use std::thread::Threads;

/// Which copy of a block counts, where several sections have its CID: those of one file, or of several, which are
/// put end to end.
#[derive(Debug, Drop, Clone, Copy, PartialEq, Eq)]
pub enum Copies {
    /// The first.
    First,
    /// The first that is sound, or the first if none is.
    Sound,
}

// What reads files: by which copy of a block counts.
#[derive(Drop)]
pub(crate) enum Loader {
    First(BlockLoader),
    Sound(SoundLoader),
}

impl Loader {
    // Creates a loader that has read no file.
    pub(crate) fn new(alloc: Global, copies: Copies) -> Loader
        ensures copies { copies_in result ≡ copies }
        ensures blocks { blocks_in result ≡ [] }
    {
        match copies {
            Copies::First => Loader::First(BlockLoader::new(alloc)),
            Copies::Sound => Loader::Sound(SoundLoader::new(alloc)),
        }
    }

    // Reads one file more, or returns its first error. So many threads index the blocks.
    pub(crate) fn with_file<R: Threads + Sync>(
        self,
        rt: &R,
        alloc: Global,
        bytes: Vec<u8>,
        carv2: bool,
        threads: usize,
    ) -> Result<Loader, CarFault>
        ensures copies { IfOk result (λ more. copies_in more ≡ copies_in self) }
        ensures blocks { IfOk result (λ more.
            with_file carv2 (copies_in self) (blocks_in self) bytes.items ≡ Ok (blocks_in more)) }
        ensures refused { IfErr result
            (IsReadFault (with_file carv2 (copies_in self) (blocks_in self) bytes.items)) }
    {
        let payload = payload_in(carv2, bytes.as_slice())?;
        self.with_part(rt, alloc, bytes, payload, threads)
    }

    // Reads the CARv1 file that is a part of a file, or returns its first error.
    fn with_part<R: Threads + Sync>(
        self,
        rt: &R,
        alloc: Global,
        bytes: Vec<u8>,
        payload: Payload,
        threads: usize,
    ) -> Result<Loader, CarFault>
        requires { IsWithin payload bytes.items }
        ensures copies { IfOk result (λ more. copies_in more ≡ copies_in self) }
        ensures gives { Gives (λ more. blocks_in more) (bytes_to payload bytes.items) result
            (with_car (copies_in self) (blocks_in self) (bytes_of payload bytes.items)) }
    {
        match self {
            Loader::First(loader) => {
                let loader = loader.with_file_by(rt, alloc, bytes, payload, threads)?;
                Ok(Loader::First(loader))
            }
            Loader::Sound(loader) => {
                let loader = loader.with_file(alloc, bytes, payload)?;
                Ok(Loader::Sound(loader))
            }
        }
    }
}
