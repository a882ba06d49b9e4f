//! Why a job file is rejected.

use std::alloc::{AllocError, AllocFailed};
use std::fmt;

/// What is wrong with a line. The checks of a line are in the order of the kinds, so the first check
/// that fails gives the kind. Memory may run out at any of them.
#[derive(Debug, Drop, Clone, Copy, PartialEq, Eq)]
pub enum JobErrorKind {
    /// The line has a byte outside `20` to `7e`.
    Text,
    /// The line isn't four fields, none empty, with one space between.
    Fields,
    /// The first field is not a name: 1 to 64 bytes of `a` to `z`, `0` to `9`, `-` and `_`.
    Name,
    /// The second field isn't one to 64 comma-separated CIDv1s.
    Root,
    /// The third field isn't decimal digits without a leading zero, from 1 to 1,000,000.
    Limit,
    /// The fourth field isn't an even number of hex digits.
    Hex,
    /// The bytes of the fourth field are not a selector.
    Selector,
    /// An earlier line has the name.
    Repeated,
    /// There are 1,000 jobs before this one, in the file or in the part of it that is run; or 1,000,000
    /// in a file that is run by parts.
    TooMany,
    /// Memory ran out.
    Memory,
}

/// Why a job file is rejected: what is wrong with its first faulty line.
#[derive(Debug, Drop, Clone, Copy, PartialEq, Eq)]
pub struct JobsFault {
    pub kind: JobErrorKind,
    /// The number of the line, from 1. Ignored lines are counted too.
    pub line: u64,
}

impl fmt::Display for JobErrorKind {
    ghost use Rattle.std.specs.Prelude.{Some};
    ghost use Rattle.ix_jobs.specs.FaultWords.{fault_words};

    ghost output = { λ k. Some (fault_words k) };

    fn fmt<W: fmt::Write>(&self, f: &mut fmt::Formatter<W>) -> fmt::Result {
        match self {
            JobErrorKind::Text => f.write_str("text"),
            JobErrorKind::Fields => f.write_str("fields"),
            JobErrorKind::Name => f.write_str("name"),
            JobErrorKind::Root => f.write_str("root"),
            JobErrorKind::Limit => f.write_str("limit"),
            JobErrorKind::Hex => f.write_str("hex"),
            JobErrorKind::Selector => f.write_str("selector"),
            JobErrorKind::Repeated => f.write_str("repeated"),
            JobErrorKind::TooMany => f.write_str("too many"),
            JobErrorKind::Memory => f.write_str("memory"),
        }
    }
}

impl From<AllocError> for JobErrorKind {
    ghost use Rattle.std.specs.Prelude.{◌≡◌};
    ghost use Rattle.ix_jobs.specs.declared.fault.JobErrorKind.TheVariants.{Memory};

    ghost from_gives = { λ _ kind. kind ≡ Memory };

    fn from(_error: AllocError) -> JobErrorKind {
        JobErrorKind::Memory
    }
}

impl<T: Drop> From<AllocFailed<T>> for JobErrorKind {
    ghost use Rattle.std.specs.Prelude.{◌≡◌};
    ghost use Rattle.ix_jobs.specs.declared.fault.JobErrorKind.TheVariants.{Memory};

    ghost from_gives = { λ _ kind. kind ≡ Memory };

    fn from(_error: AllocFailed<T>) -> JobErrorKind {
        JobErrorKind::Memory
    }
}
