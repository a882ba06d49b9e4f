//! Which bytes a verdict needs.

ghost use Rattle.std.specs.Prelude.{◌≡◌};
ghost use Rattle.ix_cid.specs.Parts.{parts_view};
ghost use Rattle.ix_verdict.specs.Needed.{needed_of};
ghost use Rattle.ix_verdict.specs.Verdict.{is_codec};

use crate::verdict::Verdict;
use ix_cid::code::{DAG_CBOR, RAW};
use ix_cid::{HashFunction, Parts};

/// Which bytes the verdict on a CID needs, beside its codec and its hash function.
#[derive(Debug, Drop, Clone, Copy, PartialEq, Eq)]
pub enum Needed {
    /// None, since the codec or the hash function is unknown: this is the verdict.
    Nothing(Verdict),
    /// Those inline in the CID, which is an identity CID.
    Digest,
    /// A block whose hash by this function, SHA-256 or SHA-512, is the CID's digest.
    Block(HashFunction),
}

/// Returns which bytes the verdict on a CID with these parts needs.
#[inline]
pub fn bytes_needed(parts: &Parts<'_>) -> Needed
    ensures { result ≡ needed_of (parts_view parts.now) }
{
    if !is_codec(parts.codec) {
        return Needed::Nothing(Verdict::Codec);
    }
    match parts.hash_function() {
        None => Needed::Nothing(Verdict::Hash),
        Some(HashFunction::Identity) => Needed::Digest,
        Some(function) => Needed::Block(function),
    }
}

// Whether the codec is raw or DAG-CBOR.
fn is_codec(codec: u64) -> bool
    ensures { result ≡ is_codec codec }
{
    matches!(codec, RAW | DAG_CBOR)
}
