//! Why no more is added to a table.

use std::alloc::{AllocError, AllocFailed};

/// Why no more is added to a table.
#[derive(Clone, Copy)]
pub(crate) enum TableStop {
    /// The table has as many residuals, links or CIDs as it can number, or a thread made no more of its
    /// share of a level.
    Full,
    /// Out of memory.
    Memory,
}

impl From<AllocError> for TableStop {
    ghost use Rattle.std.specs.Prelude.{◌≡◌};
    ghost use Rattle.ix_prefetch.specs.declared.stop.TableStop.TheVariants.{Memory};

    ghost from_gives = { λ _ stop. stop ≡ Memory };

    fn from(_error: AllocError) -> TableStop {
        TableStop::Memory
    }
}

impl<T: Drop> From<AllocFailed<T>> for TableStop {
    ghost use Rattle.std.specs.Prelude.{◌≡◌};
    ghost use Rattle.ix_prefetch.specs.declared.stop.TableStop.TheVariants.{Memory};

    ghost from_gives = { λ _ stop. stop ≡ Memory };

    fn from(_error: AllocFailed<T>) -> TableStop {
        TableStop::Memory
    }
}
