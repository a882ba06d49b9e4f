//! Reading CARv1 files of whose copies of a block the first that is sound counts.

ghost use Rattle.std.specs.Prelude.{◌≡◌, ◌≤◌, ℕ, [], length, drop, IfOk, IfErr};
ghost use Rattle.std.specs.Arc.{arc_value};
ghost use Rattle.ix_store.specs.Sound.{sound_copies, later_count};
ghost use Rattle.ix_sections.specs.Copies.{with_copies};
ghost use Rattle.ix_sections.specs.Gives.{Gives};
ghost use Rattle.ix_sections.specs.Payload.{IsWithin, IsOffsetIn, bytes_of, bytes_to};
ghost use Rattle.ix_sections.specs.Reads.{ReadsFrom, IsEnd};
ghost use Rattle.ix_sections.specs.Sections.{section_list, sections_in};

use crate::fault::{CarFault, CarKind};
use crate::payload::Payload;
use crate::reader::header::header_at;
use crate::reader::section::{FaultAt, section_at};
use crate::reader::store::fault_in;
use ix_store::{SoundBuilder, SoundStore};
use std::alloc::{AllocError, Global};
use std::marker::Model;
use std::sync::Arc;
use std::thread::Threads;

/// The copies of blocks in CARv1 files that are read one after the other: those in the sections of all
/// files, put end to end. Of the copies of a block the first that is sound counts, and the first if
/// none is.
///
/// ```rust
/// let loader = SoundLoader::new(alloc);
/// let payload = payload_of(first.as_slice())?;
/// let loader = loader.with_file(alloc, first, payload)?;
/// let built = loader.finish_by(rt, threads)?;
/// println!(rt; "{} blocks from a later copy", built.later_count)?;
/// ```
#[derive(Drop)]
pub struct SoundLoader {
    builder: SoundBuilder,
}

impl Model for SoundLoader {
    ghost use Rattle.ix_store.specs.Store.{Blocks};

    ghost Value = { Blocks };

    ghost view = { λ loader. loader.builder.pairs };
}

impl SoundLoader {
    /// Creates a loader that has read no file.
    pub fn new(alloc: Global) -> SoundLoader
        ensures { result ≡ [] }
    {
        SoundLoader {
            builder: SoundBuilder::new(alloc),
        }
    }

    /// Reads one file more, which is a part of these bytes, or returns its first error, with which the
    /// blocks are lost. The loader takes over the bytes up to the end of the part, and no block is
    /// copied.
    pub fn with_file(
        self,
        alloc: Global,
        bytes: Vec<u8>,
        payload: Payload,
    ) -> Result<SoundLoader, CarFault>
        requires { IsWithin payload bytes.items }
        ensures { Gives (λ loader. loader) (bytes_to payload bytes.items) result
            (with_copies self (section_list (bytes_of payload bytes.items))) }
    {
        let mut bytes = bytes;
        bytes.truncate(payload.end);
        let Ok(file) = Arc::new(alloc, bytes) else {
            return Err(CarFault {
                kind: CarKind::Memory,
                place: 0,
            });
        };
        let builder = with_copies_in(self.builder, &file, payload.start)?;
        Ok(SoundLoader { builder })
    }

    /// Reads one file more, which is the end of shared bytes from an offset on, or returns its first
    /// error, with which the blocks are lost. The offset of an error is counted from there too. The
    /// loader keeps a share of the bytes.
    pub fn with_shared(self, file: &Arc<Vec<u8>>, start: usize) -> Result<SoundLoader, CarFault>
        requires { start ≤ length (arc_value file.now).items }
        ensures { Gives (λ loader. loader) (drop start (arc_value file.now).items) result
            (with_copies self (section_list (drop start (arc_value file.now).items))) }
    {
        match with_copies_in(self.builder, file, start) {
            Ok(builder) => Ok(SoundLoader { builder }),
            Err(CarFault { kind, place }) => Err(CarFault {
                kind,
                place: place - start,
            }),
        }
    }

    /// Returns the settled store of the blocks of all files, and how many of them are a later copy.
    /// `threads` threads hash each copy.
    pub fn finish_by<R: Threads + Sync>(
        self,
        rt: &R,
        threads: usize,
    ) -> Result<SoundStore, AllocError>
        ensures store { IfOk result (λ built. built.store ≡ sound_copies self) }
        ensures later { IfOk result (λ built. built.later_count ≡ later_count self) }
    {
        self.builder.build(rt, threads)
    }
}

// Adds the copies in a CARv1 file to those of a builder, which keeps a share of its bytes. It begins at
// an offset of these, and no error has its place before that.
fn with_copies_in(
    builder: SoundBuilder,
    file: &Arc<Vec<u8>>,
    start: usize,
) -> Result<SoundBuilder, CarFault>
    requires { IsOffsetIn start (arc_value file.now).items }
    ensures gives { Gives (λ builder. builder.pairs) (arc_value file.now).items result
        (with_copies builder.pairs (section_list (drop start (arc_value file.now).items))) }
    ensures from { IfErr result (λ fault. start ≤ fault.place) }
{
    let sections = match header_at(&file.as_slice()[start..]) {
        Ok(sections) => sections,
        Err(fault) => return Err(fault_in(file.as_slice(), fault)),
    };
    match with_copies_of(builder, file, sections) {
        Ok(builder) => Ok(builder),
        Err(fault) => Err(fault_in(file.as_slice(), fault)),
    }
}

// Adds the copies in the sections at the end of a file, whatever the size from which the offsets of
// the sections are counted.
fn with_copies_of(
    builder: SoundBuilder,
    file: &Arc<Vec<u8>>,
    sections: &[u8],
) -> Result<SoundBuilder, FaultAt>
    requires { IsEnd sections.now (arc_value file.now).items }
    ensures { (size : ℕ) → ReadsFrom (λ builder. builder.pairs)
        (λ rest. with_copies builder.pairs (sections_in size rest)) sections.now result }
{
    let mut builder = builder;
    let Ok(number) = builder.take_file(file) else {
        return Err(FaultAt::at(CarKind::Memory, sections));
    };
    let mut rest = sections;
    while !rest.is_empty() {
        let (cid, block, after) = section_at(rest)?;
        let cid_size = cid.as_bytes().len();
        let place = file.len() - after.len() - block.len() - cid_size;
        let Ok(()) = builder.add_section(number, place, cid_size, block.len()) else {
            return Err(FaultAt::at(CarKind::Memory, rest));
        };
        rest = after;
    }
    Ok(builder)
}
