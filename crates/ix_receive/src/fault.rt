//! Why an archive is refused.

use ix_cid::Cid;
use ix_verdict::Verdict;
use std::alloc::AllocError;

/// Why a receiver refuses a section, or the end of an archive.
#[derive(Debug, Drop)]
pub enum ReceiveFault {
    /// The section isn't sound by itself: the verdict on it.
    Unsound(Verdict),
    /// The base has the block of its CID.
    InBase,
    /// A section under its CID has come before.
    Repeated,
    /// Its CID was visited before, when it was missing.
    OutOfOrder,
    /// The job doesn't visit its CID over what has come.
    NotAskedFor,
    /// The block of this CID is expected here, and may not be missing.
    Missing(Cid),
    /// The root with this CID can't be exported: the verdict on it. Only the end is refused so.
    Root(Cid, Verdict),
    /// The job has more visits than its limit.
    Limit,
    /// The receiver has refused something before, or out of memory.
    Ended,
    /// Out of memory.
    Memory,
}

impl From<AllocError> for ReceiveFault {
    ghost use Rattle.std.specs.Prelude.{◌≡◌};
    ghost use Rattle.ix_receive.specs.declared.fault.ReceiveFault.TheVariants.{Memory};

    ghost from_gives = { λ _ fault. fault ≡ Memory };

    fn from(_error: AllocError) -> ReceiveFault {
        ReceiveFault::Memory
    }
}
