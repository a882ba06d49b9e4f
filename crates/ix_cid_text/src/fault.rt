//! Why a text isn't that of a CID.

ghost use Rattle.std.specs.Prelude.{◌≡◌};
ghost use Rattle.ix_cid_text.specs.TextWords.{cid_words};

use crate::base::Base;
use ix_cid::CidFault;
use std::alloc::{AllocError, AllocFailed};
use std::fmt;

/// Why a text isn't that of a CID: the first error in the order of the variants. Memory may run out at
/// any step.
#[derive(Debug, Drop, Clone, Copy, PartialEq, Eq)]
pub enum CidTextFault {
    /// The text is empty, or neither a multibase prefix nor the 46 characters of a CIDv0.
    Multibase,
    /// It has more digits than `MOST_DIGITS` in this base, where there may be no more.
    TooManyDigits(Base),
    /// This base has no such digit as the one that is at this offset in the text, in bytes.
    Digit(Base, usize),
    /// The digits of this base are those of no bytes: one too many, or bits that are left over and not 0.
    Bits(Base),
    /// The bytes are no CID, or another one than its text can be of, and why.
    Cid(CidFault),
    /// Memory ran out.
    Memory,
}

impl From<AllocError> for CidTextFault {
    ghost use Rattle.std.specs.Prelude.{◌≡◌};
    ghost use Rattle.ix_cid_text.specs.declared.fault.CidTextFault.TheVariants.{Memory};

    ghost from_gives = { λ _ fault. fault ≡ Memory };

    fn from(_error: AllocError) -> CidTextFault {
        CidTextFault::Memory
    }
}

impl<T: Drop> From<AllocFailed<T>> for CidTextFault {
    ghost use Rattle.std.specs.Prelude.{◌≡◌};
    ghost use Rattle.ix_cid_text.specs.declared.fault.CidTextFault.TheVariants.{Memory};

    ghost from_gives = { λ _ fault. fault ≡ Memory };

    fn from(_error: AllocFailed<T>) -> CidTextFault {
        CidTextFault::Memory
    }
}

impl fmt::Display for CidTextFault {
    ghost use Rattle.std.specs.Prelude.{Some};
    ghost use Rattle.ix_cid_text.specs.TextWords.{fault_words};

    ghost output = { λ fault. Some (fault_words fault) };

    fn fmt<W: fmt::Write>(&self, f: &mut fmt::Formatter<W>) -> fmt::Result {
        match self {
            CidTextFault::Multibase => f.write_str(
                "neither a multibase prefix nor the 46 characters of a CIDv0",
            ),
            CidTextFault::TooManyDigits(base) => {
                write!(f, "more than 1024 digits of {base}: give it in base32")
            }
            CidTextFault::Digit(base, place) => { write!(f, "no digit of {base} at byte {place}") }
            CidTextFault::Bits(base) => {
                write!(f, "a digit of {base} too many, or another one at its end")
            }
            CidTextFault::Cid(fault) => f.write_str(cid_words(*fault)),
            CidTextFault::Memory => f.write_str("out of memory"),
        }
    }
}

// Returns what is wrong with the bytes of a text.
fn cid_words(fault: CidFault) -> &'static str
    ensures { result.now ≡ cid_words fault }
{
    match fault {
        CidFault::Truncated => "a CID that ends early",
        CidFault::Varint => "a CID with a number that isn't in its shortest form",
        CidFault::Version(18) => "a CIDv0 after a multibase prefix, of which it has none",
        CidFault::Version(_) => "a CID of another version than its text is of",
        CidFault::Rest => "a CID with more after it",
        CidFault::Multibase | CidFault::Base32 | CidFault::Memory => "no CID",
    }
}
