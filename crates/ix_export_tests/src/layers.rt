//! A graph with far more visits than blocks.

use crate::archives::Left;
use ix_car::Counts;
use ix_cid::Cid;
use ix_fixtures::{ABC, ABC_SECTION, archive_with, bytes_of, sections_of, store_of};
use ix_store::Store;
use sha2::{Digest, Sha256};
use std::alloc::Global;
use std::test::Fail;

/// Forty layers, each a list of two links to the next, above a raw block; the CID of the first; and
/// the archive of all of them.
pub fn layers(alloc: Global) -> Result<(Store, Cid, Vec<u8>), Fail> {
    let mut store = store_of(alloc, &[ABC_SECTION])?;
    let mut cid = bytes_of(alloc, &[ABC])?;
    let mut sections = sections_of(alloc, &[ABC_SECTION])?;
    for _ in 0..40 {
        let mut block = bytes_of(alloc, &["82"])?;
        for _ in 0..2 {
            block.extend_from_slice(b"\xd8\x2a\x58\x25\x00")?;
            block.extend_from_slice(cid.as_slice())?;
        }
        cid = bytes_of(alloc, &["01711220"])?;
        cid.extend_from_slice(Sha256::digest(block.as_slice()).as_slice())?;
        let mut with_section = bytes_of(alloc, &["77"])?;
        with_section.extend_from_slice(cid.as_slice())?;
        with_section.extend_from_slice(block.as_slice())?;
        with_section.extend_from_slice(sections.as_slice())?;
        sections = with_section;
        let (key, _) = Cid::read(alloc, cid.as_slice())?;
        store.add(key, block)?;
    }
    store.enable_memo()?;
    let (root, _) = Cid::read(alloc, cid.as_slice())?;
    let archive = archive_with(alloc, cid.as_slice(), sections.as_slice())?;
    Ok((store, root, archive))
}

/// Whether this is left of so many visits of the layers: each layer is written once, and nothing is
/// skipped.
pub fn is_layers(left: &Left, visits: u32, archive: &[u8]) -> bool {
    let counts = Counts {
        visits,
        kept: visits,
        sections: 41,
        bytes: 4_899,
        known: None,
    };
    left.counts == counts && left.bytes.as_slice() == archive && left.skips.is_empty()
}
