//! Visits.

use ix_cid::Cid;

/// One visit of a CID, through a link or as a root.
#[derive(Debug, Drop)]
pub struct Visit {
    pub job: u32,
    pub seq: u32,
    /// The number of links followed from the root.
    pub depth: u32,
    pub cid: Cid,
    /// The position of the block in the store.
    pub block: Option<usize>,
    /// Whether the CID is DAG-CBOR, and its bytes are there and are not valid DAG-CBOR.
    pub malformed: bool,
}
