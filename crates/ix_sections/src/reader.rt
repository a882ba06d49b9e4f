//! Reading CARv1 files.

ghost use Rattle.ix_sections.specs.Reading.{blocks_of};
ghost use Rattle.ix_sections.specs.Gives.{Gives};

mod batch;
mod by_threads;
mod header;
mod indexing;
mod section;
mod sections;
mod sound;
mod store;

use crate::fault::{CarFault, CarKind};
use crate::reader::indexing::InTurn;
use crate::reader::store::load_shared;
pub use batch::read_batch;
pub use by_threads::BlockLoader;
use ix_store::Store;
pub use sections::{CarFile, Section, read_header, read_section, read_sections};
pub use sound::SoundLoader;
use std::alloc::Global;
use std::sync::Arc;

/// Reads the blocks of a CARv1 file (a header, then sections of a CID and a block) under their
/// CIDs, in the order of the sections, or returns the file's first error.
///
/// The header is read first, and then each section in turn. The offset of an error is that of the
/// length of the header or section in question, also for `Truncated` and `Memory`, or the end of
/// the file if memory runs out after all sections. The errors of a header or section, in this
/// order:
/// - its length ends early: `Truncated`; isn't a varint: `Varint`; is above what is left:
///   `Truncated`;
/// - a header isn't a DAG-CBOR map, or has no integer `version`: `Header`; the version isn't 1:
///   `Version`; `roots` is absent or isn't a list of links: `Header`;
/// - a section doesn't begin with a CID: `SectionCid`.
///
/// Any number of roots is read, even none, and other keys of the header are ignored. Of sections
/// with one CID the first counts, whatever the bytes: the later ones are read to their end and
/// dropped. The file is copied once and read once. The store is settled: it caches what is found of
/// a block.
pub fn read_car(alloc: Global, bytes: &[u8]) -> Result<Store, CarFault>
    ensures { Gives (λ store. store) bytes.now result (blocks_of bytes.now) }
{
    match Vec::from_slice(alloc, bytes) {
        Ok(copy) => load_car(alloc, copy),
        Err(_) => Err(CarFault {
            kind: CarKind::Memory,
            place: 0,
        }),
    }
}

// Reads the blocks of a CARv1 file as `read_car` does. The store takes over the file's bytes: each
// block stays in place, and none is copied.
fn load_car(alloc: Global, bytes: Vec<u8>) -> Result<Store, CarFault>
    ensures { Gives (λ store. store) bytes.items result (blocks_of bytes.items) }
{
    match Arc::new(alloc, bytes) {
        Ok(file) => load_shared(alloc, &file, &InTurn),
        Err(_) => Err(CarFault {
            kind: CarKind::Memory,
            place: 0,
        }),
    }
}
