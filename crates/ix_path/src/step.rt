//! What segments are.

/// What a segment of a path was followed as.
#[derive(Debug, Drop, Clone, Copy, PartialEq, Eq)]
pub enum PathStep {
    /// A key of a map.
    Key,
    /// An index of a list.
    Index(u64),
}
