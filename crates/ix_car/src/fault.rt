//! Why a delivery is rejected, and why an archive could not be created.

/// Why a delivery was rejected.
#[derive(Debug, Drop, Clone, Copy, PartialEq, Eq)]
pub enum SinkFault {
    /// A write failed. The sink accepts nothing more but its close.
    Write,
    /// Out of memory. The sink is unchanged.
    Memory,
}

/// Why an archive could not be created. Each variant returns the writer.
#[derive(Debug, Drop)]
pub enum ArchiveNew<W> {
    /// The writer took a part of the header and failed.
    Write(W),
    /// Out of memory; no byte was written.
    Memory(W),
}
