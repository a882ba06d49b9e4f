//! What is asked of a stream.

/// The header that a stream has to begin with.
#[derive(Debug, Drop, Clone, Copy, PartialEq, Eq)]
pub enum ExpectedHeader {
    /// The one that is written for the job's roots, byte for byte.
    OfJob,
    /// Any that can be read.
    Any,
}

/// How long the parts of a stream may be at most.
#[derive(Debug, Drop, Clone, Copy, PartialEq, Eq)]
pub struct StreamLimits {
    /// The length of the header in bytes, as its varint says.
    pub header: usize,
    /// The length of a section in bytes, CID and block, as its varint says.
    pub section: usize,
}
