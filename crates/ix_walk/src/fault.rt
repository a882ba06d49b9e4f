//! Why a job is rejected, and why a walk stops.

use std::alloc::AllocError;

/// Why a job is rejected.
#[derive(Debug, Drop, Clone, Copy, PartialEq, Eq)]
pub enum JobFault {
    /// The name isn't 1 to 64 bytes of `a` to `z`, `0` to `9`, `-` and `_`.
    Name,
    /// The limit is 0.
    LimitZero,
    /// The limit is above 1,000,000.
    LimitTooLarge,
    /// There is no root.
    NoRoot,
    /// There are more than 64 roots.
    TooManyRoots,
}

/// Why a walk stops before its end.
#[derive(Debug, Drop, Clone, Copy, PartialEq, Eq)]
pub enum WalkStop {
    /// The link budget is used up, and there are more visits.
    Limit,
    /// Out of memory.
    Memory,
}

impl From<AllocError> for WalkStop {
    ghost use Rattle.std.specs.Prelude.{◌≡◌};
    ghost use Rattle.ix_walk.specs.declared.fault.WalkStop.TheVariants.{Memory};

    ghost from_gives = { λ _ stop. stop ≡ Memory };

    fn from(_error: AllocError) -> WalkStop {
        WalkStop::Memory
    }
}
