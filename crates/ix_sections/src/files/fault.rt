//! Why files are rejected.

ghost use Rattle.std.specs.Prelude.{◌≡◌};
ghost use Rattle.ix_sections.specs.declared.fault.CarKind.TheVariants.{Memory};

use crate::{CarFault, CarKind};

/// The first file that is rejected, by its number from 0, and its error, whose place is counted from the start of the
/// file. Of memory that ran out it may be another file.
#[derive(Debug, Drop, Clone, Copy, PartialEq, Eq)]
pub struct FileFault {
    pub file: usize,
    pub fault: CarFault,
}

impl FileFault {
    /// Returns the fault of memory that ran out at a file.
    pub fn memory(file: usize) -> FileFault
        ensures { result.fault.kind ≡ Memory }
    {
        FileFault {
            file,
            fault: CarFault {
                kind: CarKind::Memory,
                place: 0,
            },
        }
    }
}
