//! Why the bytes that a CID names are malformed.

ghost use Rattle.std.specs.Prelude.{◌≡◌};
ghost use Rattle.ix_path.specs.Causes.{IsWhyMalformed, IsFaultIn, cause_word};

use crate::resolution::judged;
use ix_cbor::{CborFault, CborKind, check};
use ix_cid::Cid;
use ix_store::Store;
use ix_verdict::Verdict;

/// Returns the first error of the bytes that a CID names, if the verdict on it is Malformed: those of its
/// block, or of an identity CID its digest. Nothing is kept: they are read again.
pub fn malformed_fault(store: &Store, cid: &Cid) -> Option<CborFault>
    ensures { IsWhyMalformed store.now cid.now result }
{
    match judged(store, cid, &cid.parts()) {
        (Verdict::Malformed, bytes) => fault_in(bytes),
        _ => None,
    }
}

/// Returns the first error of bytes as a block of DAG-CBOR, if they aren't one.
pub fn fault_in(bytes: &[u8]) -> Option<CborFault>
    ensures { IsFaultIn bytes.now result }
{
    match check(bytes) {
        Ok(()) => None,
        Err(fault) => Some(fault),
    }
}

/// Returns what is wrong with bytes in some words, as in a report.
pub fn cause_word(kind: CborKind) -> &'static str
    ensures { result.now ≡ cause_word kind }
{
    match kind {
        CborKind::Truncated => "truncated",
        CborKind::NotShortest => "not shortest",
        CborKind::Indefinite => "indefinite length",
        CborKind::Tag => "tag",
        CborKind::Link => "link",
        CborKind::Simple => "simple value",
        CborKind::Float => "float",
        CborKind::KeyKind => "key kind",
        CborKind::KeyOrder => "key order",
        CborKind::Rest => "bytes after the item",
        CborKind::Nesting => "nesting",
        CborKind::Memory => "memory",
    }
}
