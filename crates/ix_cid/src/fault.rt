//! Why bytes or a text are rejected.

use std::alloc::AllocError;
use std::fmt;

/// Why there is no varint at the front.
#[derive(Debug, Drop, Clone, Copy, PartialEq, Eq)]
pub enum VarintFault {
    /// The bytes end before the varint does.
    Truncated,
    /// Nine bytes all have the high bit.
    TooLong,
    /// The last byte is `00` and not the only one.
    NotMinimal,
}

/// Why there is no CID at the front, or why a text isn't one.
#[derive(Debug, Drop, Clone, Copy, PartialEq, Eq)]
pub enum CidFault {
    /// The bytes end before the CID does.
    Truncated,
    /// A varint is too long or not minimal.
    Varint,
    /// The version, which is not 1.
    Version(u64),
    /// Out of memory.
    Memory,
    /// A text does not begin with `b`.
    Multibase,
    /// What follows is not base32: another letter, a wrong number of letters, or bits left over.
    Base32,
    /// Bytes follow the CID of a text.
    Rest,
}

impl From<AllocError> for CidFault {
    ghost use Rattle.std.specs.Prelude.{◌≡◌};
    ghost use Rattle.ix_cid.specs.declared.fault.CidFault.TheVariants.{Memory};

    ghost from_gives = { λ _ fault. fault ≡ Memory };

    fn from(_error: AllocError) -> CidFault {
        CidFault::Memory
    }
}

impl fmt::Display for CidFault {
    ghost use Rattle.std.specs.Prelude.{Some};
    ghost use Rattle.ix_cid.specs.FaultWords.{fault_words};

    ghost output = { λ f. Some (fault_words f) };

    fn fmt<W: fmt::Write>(&self, f: &mut fmt::Formatter<W>) -> fmt::Result {
        match self {
            CidFault::Truncated => f.write_str("truncated"),
            CidFault::Varint => f.write_str("varint"),
            CidFault::Version(number) => write!(f, "version {number}"),
            CidFault::Memory => f.write_str("memory"),
            CidFault::Multibase => f.write_str("multibase"),
            CidFault::Base32 => f.write_str("base32"),
            CidFault::Rest => f.write_str("rest"),
        }
    }
}
