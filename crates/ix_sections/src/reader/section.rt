//! Reading the parts of a CARv1 file: bytes with their length before them, and a section.

ghost use Rattle.std.specs.Prelude.{◌≡◌, ◌<◌, ◌++◌, length, IfOk};
ghost use Rattle.ix_sections.specs.Reading.{text_at, section_at};
ghost use Rattle.ix_sections.specs.Reads.{Reads, IsEnd, StandsWithin};

use crate::fault::CarKind;
use ix_cid::{Cid, CidRef, VarintFault, read_varint};

// What is wrong, and how many bytes there are from its offset to the end.
#[derive(Drop)]
pub(super) struct FaultAt {
    pub(super) kind: CarKind,
    pub(super) left: usize,
}

impl FaultAt {
    // Returns the error of what is at the front of these bytes.
    pub(super) fn at(kind: CarKind, bytes: &[u8]) -> FaultAt
        ensures { result ≡ record { kind = kind; left = length bytes.now } }
    {
        FaultAt {
            kind,
            left: bytes.len(),
        }
    }
}

// Returns the bytes whose length is at the front, and the bytes after them.
pub(super) fn text_at(bytes: &[u8]) -> Result<(&[u8], &[u8]), FaultAt>
    ensures reads { Reads (λ r. (r.0.now, r.1.now)) result (text_at bytes.now) }
    ensures shorter { IfOk result (λ r. length r.1.now < length bytes.now) }
    ensures end { IfOk result (λ r. IsEnd (r.0.now ++ r.1.now) bytes.now) }
    ensures within { StandsWithin result bytes.now }
{
    let (length, size) = match read_varint(bytes) {
        Ok(found) => found,
        Err(VarintFault::Truncated) => return Err(FaultAt::at(CarKind::Truncated, bytes)),
        Err(VarintFault::TooLong | VarintFault::NotMinimal) => {
            return Err(FaultAt::at(CarKind::Varint, bytes));
        }
    };
    let (_, rest) = bytes.split_at(size);
    if length > rest.len() as u64 {
        return Err(FaultAt::at(CarKind::Truncated, bytes));
    }
    Ok(rest.split_at(length as usize))
}

// Returns the CID and the block of the section at the front, in place, and the bytes after it.
pub(super) fn section_at(bytes: &[u8]) -> Result<(CidRef<'_>, &[u8], &[u8]), FaultAt>
    ensures reads { Reads (λ r. ((r.0, r.1.now), r.2.now)) result (section_at bytes.now) }
    ensures shorter { IfOk result (λ r. length r.2.now < length bytes.now) }
    ensures end { IfOk result (λ r. IsEnd (r.0 ++ (r.1.now ++ r.2.now)) bytes.now) }
    ensures within { StandsWithin result bytes.now }
{
    let (section, rest) = text_at(bytes)?;
    let Ok(length) = Cid::length_at(section) else {
        return Err(FaultAt::at(CarKind::SectionCid, bytes));
    };
    let (cid, block) = section.split_at(length);
    Ok((CidRef::of(cid), block, rest))
}
