//! Which blocks of a store a receiver has.

ghost use Rattle.std.specs.Prelude.{◌≡◌, IfOk, OnOk};
ghost use Rattle.ix_store.specs.Store.{IsPlaceIn};
ghost use Rattle.ix_known.specs.Known.{IsKnownIn, IsPutIf, IsAnswerOf, knows};

use ix_check::verdict_in;
use ix_cid::Cid;
use ix_store::{PlaceSet, Store};
use std::alloc::{AllocError, Global};

/// Returns the positions in a store of the blocks that a receiver has: those under whose CID a base,
/// which is what it has, holds a sound block. The blocks of the base are hashed on the calling thread.
pub fn known_places_alone(
    alloc: Global,
    store: &Store,
    base: &Store,
) -> Result<PlaceSet, AllocError>
    ensures { IfOk result (IsKnownIn store.now base.now) }
{
    let mut known = PlaceSet::new(alloc);
    for place in 0..store.len() {
        put_known(&mut known, place, answer_at(store, base, place))?;
    }
    Ok(known)
}

// Puts a position in, if the answer is that its block is known. Without an answer, memory ran out.
fn put_known(known: &mut PlaceSet, place: usize, answer: Option<bool>) -> Result<(), AllocError>
    ensures { OnOk result (IsPutIf answer known.old known.new place) }
{
    match answer {
        Some(true) => known.insert(place),
        Some(false) => Ok(()),
        None => Err(AllocError),
    }
}

// Returns whether a base has a sound block under the CID of a store's block, or nothing if memory ran
// out.
fn answer_at(store: &Store, base: &Store, place: usize) -> Option<bool>
    requires { IsPlaceIn store.now place }
    ensures { IsAnswerOf store.now base.now place result }
{
    match store.cid_at(place) {
        Ok(cid) => Some(knows(base, &cid)),
        Err(_) => None,
    }
}

/// Whether a base has a sound block under a CID. An identity CID has none.
pub fn knows(base: &Store, cid: &Cid) -> bool
    ensures { result ≡ knows base.now cid.now }
{
    verdict_in(base, cid).is_sound()
}
