//! Which blocks of a store a have-list has.

ghost use Rattle.std.specs.Prelude.{IfOk, IfErr, OnOk};
ghost use Rattle.ix_jobs.specs.Places.{HasListed};
ghost use Rattle.ix_jobs.specs.Listing.{IsListFault, IsKnownWith};

use crate::list::listed_cids;
use crate::list_fault::{ListErrorKind, ListFault};
use ix_cid::Cid;
use ix_store::{PlaceSet, Store};
use std::alloc::{AllocError, Global};

/// Inserts the positions in a store of the blocks under these CIDs. A CID of which the store has no
/// block adds nothing. Nothing is hashed.
pub fn insert_listed(known: &mut PlaceSet, store: &Store, cids: &[Cid]) -> Result<(), AllocError>
    ensures { OnOk result (HasListed store.now cids.now known.old known.new) }
{
    for cid in cids {
        if let Some(place) = store.find(cid) {
            known.insert(place)?;
        }
    }
    Ok(())
}

/// Adds to known positions in a store, or to none, those of the blocks under the CIDs of a have-list. Or returns the
/// first faulty line. Nothing is hashed.
pub fn with_listed(
    alloc: Global,
    known: Option<PlaceSet>,
    store: &Store,
    list: &[u8],
) -> Result<PlaceSet, ListFault>
    ensures known { IfOk result (IsKnownWith known store.now list.now) }
    ensures refused { IfErr result (IsListFault list.now) }
{
    let cids = listed_cids(alloc, list)?;
    let mut known = match known {
        Some(known) => known,
        None => PlaceSet::new(alloc),
    };
    match insert_listed(&mut known, store, cids.as_slice()) {
        Ok(()) => Ok(known),
        Err(_) => Err(ListFault {
            kind: ListErrorKind::Memory,
            line: 0,
        }),
    }
}
