//! Reading the blocks of a CARv1 file into a store.

ghost use Rattle.std.specs.Prelude.{◌≡◌, ◌≤◌, ◌-◌, length, drop, IfErr};
ghost use Rattle.std.specs.Arc.{arc_value};
ghost use Rattle.ix_sections.specs.Reading.{blocks_after, blocks_of, sections_at};
ghost use Rattle.ix_sections.specs.Gives.{Gives};
ghost use Rattle.ix_sections.specs.Reads.{ReadsFrom, IsEnd};

use crate::fault::{CarFault, CarKind};
use crate::reader::header::header_at;
use crate::reader::indexing::Indexing;
use crate::reader::section::{FaultAt, section_at};
use ix_store::{Store, StoreBuilder};
use std::alloc::Global;
use std::sync::Arc;

// Reads the blocks of a file into a settled store, which keeps a share of the file's bytes.
pub(super) fn load_shared<I: Indexing>(
    alloc: Global,
    file: &Arc<Vec<u8>>,
    indexing: &I,
) -> Result<Store, CarFault>
    requires { I.ready indexing.now }
    ensures { Gives (λ store. store) (arc_value file.now).items result (blocks_of (arc_value file.now).items) }
{
    match with_file(StoreBuilder::new(alloc), file, 0, indexing) {
        Ok(builder) => indexing.build(builder).map_err(|_| CarFault {
            kind: CarKind::Memory,
            place: file.len(),
        }),
        Err(fault) => Err(fault),
    }
}

// Adds the blocks of a CARv1 file to those of a builder, which keeps a share of its bytes. It begins at
// an offset of these, and so does no error before it.
pub(super) fn with_file<I: Indexing>(
    builder: StoreBuilder,
    file: &Arc<Vec<u8>>,
    start: usize,
    indexing: &I,
) -> Result<StoreBuilder, CarFault>
    requires { (start ≤ length (arc_value file.now).items) × I.ready indexing.now }
    ensures gives { Gives (λ builder. builder.pairs) (arc_value file.now).items result
        (blocks_after builder.pairs (drop start (arc_value file.now).items)) }
    ensures from { IfErr result (λ fault. start ≤ fault.place) }
{
    let sections = match header_at(&file.as_slice()[start..]) {
        Ok(sections) => sections,
        Err(fault) => return Err(fault_in(file.as_slice(), fault)),
    };
    match with_blocks_of(builder, file, sections, indexing) {
        Ok(builder) => Ok(builder),
        Err(fault) => Err(fault_in(file.as_slice(), fault)),
    }
}

// Returns an error with its offset counted from the start of the file.
pub(super) fn fault_in(file: &[u8], fault: FaultAt) -> CarFault
    requires { fault.left ≤ length file.now }
    ensures { result ≡ record { kind = fault.kind; place = length file.now - fault.left } }
{
    CarFault {
        kind: fault.kind,
        place: file.len() - fault.left,
    }
}

// Adds the blocks of the sections at the end of a file. Those that are due are indexed.
fn with_blocks_of<I: Indexing>(
    builder: StoreBuilder,
    file: &Arc<Vec<u8>>,
    sections: &[u8],
    indexing: &I,
) -> Result<StoreBuilder, FaultAt>
    requires { IsEnd sections.now (arc_value file.now).items × I.ready indexing.now }
    ensures { ReadsFrom (λ builder. builder.pairs) (λ rest. sections_at (length rest) builder.pairs rest)
        sections.now result }
{
    let mut builder = builder;
    let Ok(number) = builder.take_file(file) else {
        return Err(FaultAt::at(CarKind::Memory, sections));
    };
    let mut rest = sections;
    while !rest.is_empty() {
        let (cid, block, after) = section_at(rest)?;
        let cid_size = cid.as_bytes().len();
        let place = file.len() - after.len() - block.len() - cid_size;
        let Ok(()) = builder.add_section(number, place, cid_size, block.len()) else {
            return Err(FaultAt::at(CarKind::Memory, rest));
        };
        let Ok(()) = indexing.index_due(&mut builder) else {
            return Err(FaultAt::at(CarKind::Memory, rest));
        };
        rest = after;
    }
    Ok(builder)
}
