//! What an archive is found to have.

/// The counts of an archive that was received.
#[derive(Debug, Drop, Clone, Copy, PartialEq, Eq)]
pub struct Counts {
    /// The number of the job's visits over the sections.
    pub visits: u32,
    /// The number of those whose block is missing.
    pub missing: u32,
    /// The number of those whose CID isn't read: its codec or hash function is unknown, or it is an identity
    /// CID whose bytes aren't DAG-CBOR although its codec is.
    pub unread: u32,
}
