//! Why a file is rejected.

ghost use Rattle.std.specs.Prelude.{◌≡◌};
ghost use Rattle.ix_sections.specs.declared.fault.CarKind.TheVariants.{Memory};

use std::fmt;

/// What is wrong with a CARv1 file.
#[derive(Debug, Drop, Clone, Copy, PartialEq, Eq)]
pub enum CarKind {
    /// The file ends inside a varint, the header or a section.
    Truncated,
    /// A length isn't a valid varint.
    Varint,
    /// The header isn't a map with an integer `version` and a list of links `roots`.
    Header,
    /// The header has this version instead of 1.
    Version(i128),
    /// A section doesn't begin with a CID.
    SectionCid,
    /// Out of memory.
    Memory,
}

/// Why a file is rejected, and where: the offset of the length of the header or section in
/// question.
#[derive(Debug, Drop, Clone, Copy, PartialEq, Eq)]
pub struct CarFault {
    pub kind: CarKind,
    /// The offset in bytes from the start of the file.
    pub place: usize,
}

impl CarFault {
    /// Returns the error of memory that ran out at this offset.
    pub fn no_memory(place: usize) -> CarFault
        ensures { result ≡ record { kind = Memory; place = place } }
    {
        CarFault {
            kind: CarKind::Memory,
            place,
        }
    }
}

impl fmt::Display for CarKind {
    ghost use Rattle.std.specs.Prelude.{Some};
    ghost use Rattle.ix_sections.specs.FaultWords.{fault_words};

    ghost output = { λ k. Some (fault_words k) };

    fn fmt<W: fmt::Write>(&self, f: &mut fmt::Formatter<W>) -> fmt::Result {
        match self {
            CarKind::Truncated => f.write_str("truncated"),
            CarKind::Varint => f.write_str("varint"),
            CarKind::Header => f.write_str("header"),
            CarKind::Version(number) => write!(f, "version {number}"),
            CarKind::SectionCid => f.write_str("cid"),
            CarKind::Memory => f.write_str("memory"),
        }
    }
}
