//! The blocks of CIDs that name them by their hash.

ghost use Rattle.std.specs.Prelude.{◌≡◌, IfOk, IfSome, Some};
ghost use Rattle.ix_store.specs.Store.{bytes_of};
ghost use Rattle.ix_walk.specs.Arriving.{IsPositionOf, IsReading};
ghost use Rattle.ix_walk.specs.Descent.{IsItem};
ghost use Rattle.ix_verdict.specs.Needed.{NeedsBlock};
ghost use Rattle.ix_prefetch.specs.Link.{IsStoredAt};
ghost use Rattle.ix_prefetch.specs.Reading.{IsReadAt};

use crate::pair_index::NO_PAIR;
use ix_cid::code::DAG_CBOR;
use ix_cid::{Cid, CidRef};
use ix_store::{Cursor, Store};
use ix_verdict::{Needed, bytes_needed};
use std::alloc::{AllocError, Global};

/// The place of a block in the store, for a CID that names it by its hash, and whether it should be
/// DAG-CBOR.
#[derive(Clone, Copy)]
pub(crate) struct StoredAt {
    pub place: u32,
    pub is_data: bool,
}

impl StoredAt {
    /// The number that the pair of a link there may have, before it has one: none for what isn't
    /// DAG-CBOR.
    pub(crate) fn guess(self) -> u32 {
        if self.is_data { 0 } else { NO_PAIR }
    }
}

/// What was read at a place: the CID there, the bytes of the block if they are DAG-CBOR, and whether
/// they should be and are not.
#[derive(Drop)]
pub(crate) struct Read<'a> {
    pub cid: Cid,
    pub bytes: Option<Cursor<'a>>,
    pub malformed: bool,
}

/// A DAG-CBOR block: its CID and its bytes.
#[derive(Drop)]
pub(crate) struct Block<'a> {
    pub cid: Cid,
    pub bytes: Cursor<'a>,
}

/// Returns the place of the block of a CID, if the CID is of a known codec and names its block by its
/// hash, and the store has the block.
pub(crate) fn stored_at(
    alloc: Global,
    store: &Store,
    cid: &CidRef<'_>,
) -> Result<Option<StoredAt>, AllocError>
    ensures { IfOk result (λ o. IfSome o (λ s. IsStoredAt store.now cid.now s.place)) }
{
    let parts = cid.parts();
    match bytes_needed(&parts) {
        Needed::Block(_) => {
            let found = store.find(&cid.to_cid(alloc)?);
            Ok(numbered(found, parts.codec == DAG_CBOR))
        }
        Needed::Nothing(_) | Needed::Digest => Ok(None),
    }
}

// Returns a place that fits its field.
fn numbered(place: Option<usize>, is_data: bool) -> Option<StoredAt>
    ensures { IfSome result (λ s. place ≡ Some s.place) }
{
    let place = place?;
    if place >= u32::MAX as usize {
        return None;
    }
    Some(StoredAt {
        place: place as u32,
        is_data,
    })
}

/// Returns the bytes of a block that a walk expands, if its CID is DAG-CBOR, and whether they should
/// be DAG-CBOR and are not.
pub(crate) fn read_stored<'a>(
    store: &'a Store,
    cid: &Cid,
    block: Option<usize>,
) -> (Option<Cursor<'a>>, bool)
    requires needed { NeedsBlock cid.now }
    requires block { IsPositionOf store.now cid.now block }
    ensures bytes { IfSome result.0 (λ b. bytes_of store.now cid.now ≡ Some b) }
    ensures reading { IsReading store.now cid.now result.0 result.1 }
    ensures item { IfSome result.0 (λ b. IsItem b) }
{
    if cid.parts().codec != DAG_CBOR {
        return (None, false);
    }
    let Some(place) = block else {
        return (None, false);
    };
    let bytes = store.cursor(place);
    if store.is_malformed(place) {
        return (None, true);
    }
    (Some(bytes), false)
}

/// Reads the block at a place, if the CID there names it by its hash and is of a known codec.
pub(crate) fn read_at<'a>(
    alloc: Global,
    store: &'a Store,
    place: usize,
) -> Result<Option<Read<'a>>, AllocError>
    ensures { IfOk result (λ o. IfSome o (IsReadAt store.now place)) }
{
    if place >= store.len() {
        return Ok(None);
    }
    let cid = store.cid_at(place)?;
    let Needed::Block(_) = bytes_needed(&cid.parts()) else {
        return Ok(None);
    };
    let Some(found) = store.find_near(Some(place), &cid) else {
        return Ok(None);
    };
    if found != place {
        return Ok(None);
    }
    let (bytes, malformed) = read_stored(store, &cid, Some(found));
    Ok(Some(Read {
        cid,
        bytes,
        malformed,
    }))
}
