//! Why a text is no path.

use ix_cid_text::CidTextFault;
use std::alloc::{AllocError, AllocFailed};
use std::fmt;

/// Why a text is no path: the first error of the text, but for the number of segments, which is
/// checked last. Memory may run out at any step.
#[derive(Debug, Drop, Clone, Copy, PartialEq, Eq)]
pub enum PathError {
    /// The text before the segments is no CID, and why.
    Cid(CidTextFault),
    /// A `%` is not followed by two hex digits. This is its offset in the text, in bytes.
    Escape(usize),
    /// There are more segments than this.
    TooManySegments(usize),
    /// Memory ran out.
    Memory,
}

impl From<AllocError> for PathError {
    ghost use Rattle.std.specs.Prelude.{◌≡◌};
    ghost use Rattle.ix_path.specs.declared.error.PathError.TheVariants.{Memory};

    ghost from_gives = { λ _ error. error ≡ Memory };

    fn from(_error: AllocError) -> PathError {
        PathError::Memory
    }
}

impl<T: Drop> From<AllocFailed<T>> for PathError {
    ghost use Rattle.std.specs.Prelude.{◌≡◌};
    ghost use Rattle.ix_path.specs.declared.error.PathError.TheVariants.{Memory};

    ghost from_gives = { λ _ error. error ≡ Memory };

    fn from(_error: AllocFailed<T>) -> PathError {
        PathError::Memory
    }
}

impl fmt::Display for PathError {
    ghost use Rattle.std.specs.Prelude.{Some};
    ghost use Rattle.ix_path.specs.Words.{error_words};

    ghost output = { λ error. Some (error_words error) };

    fn fmt<W: fmt::Write>(&self, f: &mut fmt::Formatter<W>) -> fmt::Result {
        match self {
            PathError::Cid(fault) => write!(f, "not a CID: {fault}"),
            PathError::Escape(place) => write!(f, "no two hex digits after the % at byte {place}"),
            PathError::TooManySegments(most) => write!(f, "more than {most} segments"),
            PathError::Memory => f.write_str("out of memory"),
        }
    }
}
