//! Why there is no selector along a path.

use ix_selector::SelFault;
use std::alloc::{AllocError, AllocFailed};

/// Why there is no selector along a path.
#[derive(Debug, Drop, Clone, Copy, PartialEq, Eq)]
pub enum PathSelectorFault {
    /// What was given for the end of the path is no selector, and why.
    End(SelFault),
    /// The fields and indexes along the path and the selector at its end nest more than 128 deep
    /// together.
    TooDeep,
    /// Memory ran out.
    Memory,
}

impl From<AllocError> for PathSelectorFault {
    ghost use Rattle.std.specs.Prelude.{◌≡◌};
    ghost use Rattle.ix_path.specs.declared.selector_fault.PathSelectorFault.TheVariants.{Memory};

    ghost from_gives = { λ _ fault. fault ≡ Memory };

    fn from(_error: AllocError) -> PathSelectorFault {
        PathSelectorFault::Memory
    }
}

impl<T: Drop> From<AllocFailed<T>> for PathSelectorFault {
    ghost use Rattle.std.specs.Prelude.{◌≡◌};
    ghost use Rattle.ix_path.specs.declared.selector_fault.PathSelectorFault.TheVariants.{Memory};

    ghost from_gives = { λ _ fault. fault ≡ Memory };

    fn from(_error: AllocFailed<T>) -> PathSelectorFault {
        PathSelectorFault::Memory
    }
}
