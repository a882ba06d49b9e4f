//! Which blocks of a store the files of a receiver have.

ghost use Rattle.std.specs.Prelude.{IfOk, IfErr};
ghost use Rattle.ix_sections.specs.Files.{IsFirstFault, IsReadFault, with_file};
ghost use Rattle.ix_sections.specs.declared.files.loader.Copies.TheVariants.{First, Sound};
ghost use Rattle.ix_known.specs.Files.{IsKnownByFiles, AddsBaseFile};

use crate::base::Base;
use crate::known::known_places_alone;
use ix_sections::{CarFault, Copies, FileFault, Reading, blocks_of, payload_in};
use ix_store::{PlaceSet, Store};
use std::alloc::Global;
use std::thread::Threads;

/// Returns the positions in a store of the blocks of which the files of a receiver have a sound copy that counts, over
/// the files, read one after the other: the first copy of each CID, or any. Or returns the first error, and its file.
/// So many threads look their sections up and hash them. The memory of a file is freed once that is done, or, where any
/// copy counts, that of all files at the end.
pub fn known_of<R: Threads + Sync>(
    rt: &R,
    alloc: Global,
    store: &Store,
    files: Vec<Vec<u8>>,
    reading: Reading,
    threads: usize,
) -> Result<PlaceSet, FileFault>
    ensures known { IfOk result (IsKnownByFiles reading store.now files.items) }
    ensures refused { IfErr result (IsFirstFault reading files.items) }
{
    match reading.copies {
        Copies::First => known_by_first(rt, alloc, store, files, reading.carv2, threads),
        Copies::Sound => known_by_sound(rt, alloc, store, files, reading.carv2, threads),
    }
}

// Returns them where the first copy of each CID counts.
fn known_by_first<R: Threads + Sync>(
    rt: &R,
    alloc: Global,
    store: &Store,
    files: Vec<Vec<u8>>,
    carv2: bool,
    threads: usize,
) -> Result<PlaceSet, FileFault>
    ensures known { IfOk result
        (IsKnownByFiles (record { carv2 = carv2; copies = First }) store.now files.items) }
    ensures refused { IfErr result
        (IsFirstFault (record { carv2 = carv2; copies = First }) files.items) }
{
    let mut base = Base::new(alloc, store);
    for (number, bytes) in files.into_iter().enumerate() {
        match with_base_file(rt, alloc, base, bytes.as_slice(), carv2, threads) {
            Ok(more) => base = more,
            Err(fault) => return Err(FileFault {
                file: number,
                fault,
            }),
        }
    }
    Ok(base.into_known())
}

// Returns them where any copy counts.
fn known_by_sound<R: Threads + Sync>(
    rt: &R,
    alloc: Global,
    store: &Store,
    files: Vec<Vec<u8>>,
    carv2: bool,
    threads: usize,
) -> Result<PlaceSet, FileFault>
    ensures known { IfOk result
        (IsKnownByFiles (record { carv2 = carv2; copies = Sound }) store.now files.items) }
    ensures refused { IfErr result
        (IsFirstFault (record { carv2 = carv2; copies = Sound }) files.items) }
{
    let count = files.len();
    let reading = Reading {
        carv2,
        copies: Copies::Sound,
    };
    let base = blocks_of(rt, alloc, files, reading, threads)?;
    match known_places_alone(alloc, store, &base.store) {
        Ok(known) => Ok(known),
        Err(_) => Err(FileFault::memory(count)),
    }
}

// Reads one file more of a receiver, or returns its first error.
fn with_base_file<'a, R: Threads + Sync>(
    rt: &R,
    alloc: Global,
    base: Base<'a>,
    bytes: &[u8],
    carv2: bool,
    threads: usize,
) -> Result<Base<'a>, CarFault>
    ensures added { IfOk result (AddsBaseFile carv2 bytes.now base.entry) }
    ensures refused { IfErr result (λ fault. (blocks : _)
        → IsReadFault (with_file carv2 First blocks bytes.now) fault) }
{
    let payload = payload_in(carv2, bytes)?;
    base.with_file(rt, alloc, bytes, payload, threads)
}
