//! Whether blocks have the digests of their CIDs.

ghost use Rattle.std.specs.Prelude.{◌≡◌};
ghost use Rattle.ix_store.specs.Memo.{hash_matches, has_digest_of};

use ix_cid::{Parts, parts_at};
use ix_verdict::has_digest;

// Whether the digest of a CID is that of a block. Bytes that aren't a CID's have empty parts.
pub(crate) fn hash_matches(cid: &[u8], block: &[u8]) -> bool
    ensures { result ≡ hash_matches (cid.now, block.now) }
{
    is_digest_in(&parts_at(cid), block)
}

// Whether the digest of a CID with these parts is that of a block. No block has the digest of an
// unknown hash function.
fn is_digest_in(parts: &Parts<'_>, block: &[u8]) -> bool
    ensures { result ≡ has_digest_of parts.now block.now }
{
    match parts.hash_function() {
        None => false,
        Some(function) => has_digest(function, parts.digest, block),
    }
}
