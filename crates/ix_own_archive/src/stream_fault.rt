//! Why a stream is not a job's own archive.

use crate::fault::ArchiveReason;
use std::fmt;

/// What is wrong with a stream.
#[derive(Debug, Drop)]
pub enum StreamReason {
    /// What is wrong with the archive.
    Archive(ArchiveReason),
    /// Its header is longer than the limit: its length in bytes, as its varint says.
    HeaderLength(u64),
    /// A section is longer than the limit: the length of CID and block in bytes, as its varint says.
    SectionLength(u64),
    /// The receiver of the stream has refused something before, or run out of memory.
    Ended,
}

/// What is wrong with a stream, and where.
#[derive(Debug, Drop)]
pub struct StreamFault {
    /// The offset in bytes from the beginning of the stream: 0 for the header, where its length begins
    /// for a section, or the end.
    pub place: u64,
    pub reason: StreamReason,
}

impl fmt::Display for StreamReason {
    ghost use Rattle.std.specs.Prelude.{Some};
    ghost use Rattle.ix_own_archive.specs.FaultWords.{stream_words};

    ghost output = { λ r. Some (stream_words r) };

    fn fmt<W: fmt::Write>(&self, f: &mut fmt::Formatter<W>) -> fmt::Result {
        match self {
            StreamReason::Archive(reason) => write!(f, "{reason}"),
            StreamReason::HeaderLength(length) => write!(f, "header: {length} bytes"),
            StreamReason::SectionLength(length) => write!(f, "section: {length} bytes"),
            StreamReason::Ended => f.write_str("ended"),
        }
    }
}

/// Writes the offset and what is wrong there.
impl fmt::Display for StreamFault {
    ghost use Rattle.std.specs.Prelude.{Some};
    ghost use Rattle.ix_own_archive.specs.FaultWords.{stream_fault_words};

    ghost output = { λ e. Some (stream_fault_words e) };

    fn fmt<W: fmt::Write>(&self, f: &mut fmt::Formatter<W>) -> fmt::Result {
        let (place, reason) = (self.place, &self.reason);
        write!(f, "{place}: {reason}")
    }
}
