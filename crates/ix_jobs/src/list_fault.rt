//! Why a have-list is rejected.

ghost use Rattle.std.specs.Prelude.{◌≡◌, IfOk, string_bytes};
ghost use Rattle.ix_jobs.specs.ListFaultLine.{line_of};

use std::alloc::{AllocError, AllocFailed, Global};
use std::fmt;

/// What is wrong with a line. The checks of a line are in the order of the kinds, so the first check
/// that fails gives the kind. Memory may run out at any of them.
#[derive(Debug, Drop, Clone, Copy, PartialEq, Eq)]
pub enum ListErrorKind {
    /// The line has a byte outside `20` to `7e`.
    Text,
    /// The line isn't a CIDv1 in base32.
    Cid,
    /// Memory ran out.
    Memory,
}

/// Why a have-list is rejected: what is wrong with its first faulty line.
#[derive(Debug, Drop, Clone, Copy, PartialEq, Eq)]
pub struct ListFault {
    pub kind: ListErrorKind,
    /// The number of the line, from 1. Ignored lines are counted too.
    pub line: u64,
}

impl fmt::Display for ListErrorKind {
    ghost use Rattle.std.specs.Prelude.{Some};
    ghost use Rattle.ix_jobs.specs.ListFaultLine.{fault_words};

    ghost output = { λ k. Some (fault_words k) };

    fn fmt<W: fmt::Write>(&self, f: &mut fmt::Formatter<W>) -> fmt::Result {
        match self {
            ListErrorKind::Text => f.write_str("text"),
            ListErrorKind::Cid => f.write_str("cid"),
            ListErrorKind::Memory => f.write_str("memory"),
        }
    }
}

impl<T: Drop> From<AllocFailed<T>> for ListErrorKind {
    ghost use Rattle.std.specs.Prelude.{◌≡◌};
    ghost use Rattle.ix_jobs.specs.declared.list_fault.ListErrorKind.TheVariants.{Memory};

    ghost from_gives = { λ _ kind. kind ≡ Memory };

    fn from(_error: AllocFailed<T>) -> ListErrorKind {
        ListErrorKind::Memory
    }
}

/// Returns the line that the program prints for an error, without its end.
pub fn list_fault_line(alloc: Global, fault: &ListFault) -> Result<String, AllocError>
    ensures { IfOk result (λ line. string_bytes line ≡ line_of fault.now) }
{
    let kind = fault.kind;
    let line = fault.line;
    format!(in alloc; "known: {kind} at line {line}")
}
