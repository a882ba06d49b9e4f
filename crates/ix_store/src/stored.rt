//! The verdict on a CID in a store.

ghost use Rattle.std.specs.Prelude.{◌≡◌};
ghost use Rattle.ix_store.specs.Store.{position_of};
ghost use Rattle.ix_store.specs.Verdict.{verdict_of};

use crate::store::Store;
use crate::table::has_fault;
use ix_cid::Cid;
use ix_cid::code::DAG_CBOR;
use ix_verdict::{Needed, Verdict, bytes_needed};

/// Returns the verdict on a CID, whose block is at this position of a store, if it has one: as `verdict_on`
/// the CID and the block, but for what the store has cached.
pub fn verdict_at(store: &Store, cid: &Cid, place: Option<usize>) -> Verdict
    requires { place ≡ position_of store.now cid.now }
    ensures { result ≡ verdict_of store.now cid.now }
{
    let parts = cid.parts();
    match bytes_needed(&parts) {
        Needed::Nothing(verdict) => verdict,
        Needed::Digest => Verdict::of_inline(parts.codec == DAG_CBOR && has_fault(parts.digest)),
        Needed::Block(_) => match place {
            None => Verdict::Missing,
            Some(place) => Verdict::of_block(
                store.hash_matches(place),
                parts.codec == DAG_CBOR && store.is_malformed(place),
            ),
        },
    }
}
