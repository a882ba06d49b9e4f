//! The statuses of calls.

ghost use Rattle.std.specs.Prelude.{◌≡◌};
ghost use Rattle.ix_capi.specs.Answers.{code_of};

/// The status that a call returns.
#[derive(Debug, Drop, Clone, Copy, PartialEq, Eq)]
pub enum Status {
    /// Success.
    Done,
    /// Memory ran out, and nothing is changed, but for blocks of a file that was added to a store.
    Memory,
    /// The input is rejected, and the handle to be filled has the line that says why.
    Refused,
    /// A handle is empty or has other contents than the call needs, and nothing is changed.
    Handle,
    /// There is already a block under the CID, which stays.
    Known,
    /// The bytes are not one CID, and nothing is changed.
    NoCid,
    /// There is no such part, number or flag, and nothing is changed.
    Range,
}

impl Status {
    /// Returns the number of the status in C.
    pub(crate) fn code(self) -> u32
        ensures { result ≡ code_of self }
    {
        match self {
            Status::Done => 0,
            Status::Memory => 1,
            Status::Refused => 2,
            Status::Handle => 3,
            Status::Known => 4,
            Status::NoCid => 5,
            Status::Range => 6,
        }
    }
}
