//! Why the bytes of an archive are not a job's own.

use ix_cid::Cid;
use ix_receive::ReceiveFault;
use ix_sections::CarKind;
use std::fmt;

/// What is wrong with an archive.
#[derive(Debug, Drop)]
pub enum ArchiveReason {
    /// Its header can't be read.
    Header(CarKind),
    /// Its header isn't the one that is written for the job's roots.
    OtherHeader,
    /// A section can't be read.
    Section(CarKind),
    /// The receiver refuses the section with this CID.
    Refused(Cid, ReceiveFault),
    /// The receiver refuses the end.
    Unfinished(ReceiveFault),
    /// Out of memory.
    Memory,
}

/// What is wrong with an archive, and where.
#[derive(Debug, Drop)]
pub struct ArchiveFault {
    /// The offset in bytes: 0 for the header, where its length begins for a section, or the end.
    pub place: usize,
    pub reason: ArchiveReason,
}

// A receiver's fault, as it is written.
#[derive(Drop)]
struct Refusal<'a>(&'a ReceiveFault);

impl fmt::Display for Refusal<'_> {
    ghost use Rattle.std.specs.Prelude.{Some};
    ghost use Rattle.ix_own_archive.specs.FaultWords.{refusal_words};

    ghost output = { λ r. Some (refusal_words r.0.now) };

    fn fmt<W: fmt::Write>(&self, f: &mut fmt::Formatter<W>) -> fmt::Result {
        match self.0 {
            ReceiveFault::Unsound(verdict) => write!(f, "{verdict}"),
            ReceiveFault::InBase => f.write_str("in the base"),
            ReceiveFault::Repeated => f.write_str("repeated"),
            ReceiveFault::OutOfOrder => f.write_str("out of order"),
            ReceiveFault::NotAskedFor => f.write_str("not asked for"),
            ReceiveFault::Missing(_) => f.write_str("a block is missing"),
            ReceiveFault::Root(_, verdict) => write!(f, "root {verdict}"),
            ReceiveFault::Limit => f.write_str("limit"),
            ReceiveFault::Ended => f.write_str("ended"),
            ReceiveFault::Memory => f.write_str("memory"),
        }
    }
}

impl fmt::Display for ArchiveReason {
    ghost use Rattle.std.specs.Prelude.{Some};
    ghost use Rattle.ix_own_archive.specs.FaultWords.{reason_words};

    ghost output = { λ r. Some (reason_words r) };

    fn fmt<W: fmt::Write>(&self, f: &mut fmt::Formatter<W>) -> fmt::Result {
        match self {
            ArchiveReason::Header(kind) => write!(f, "header: {kind}"),
            ArchiveReason::OtherHeader => f.write_str("another header"),
            ArchiveReason::Section(kind) => write!(f, "section: {kind}"),
            ArchiveReason::Refused(_, fault) => write!(f, "refused: {}", Refusal(fault)),
            ArchiveReason::Unfinished(fault) => write!(f, "unfinished: {}", Refusal(fault)),
            ArchiveReason::Memory => f.write_str("memory"),
        }
    }
}

/// Writes the offset and what is wrong there.
impl fmt::Display for ArchiveFault {
    ghost use Rattle.std.specs.Prelude.{Some};
    ghost use Rattle.ix_own_archive.specs.FaultWords.{fault_words};

    ghost output = { λ e. Some (fault_words e) };

    fn fmt<W: fmt::Write>(&self, f: &mut fmt::Formatter<W>) -> fmt::Result {
        let (place, reason) = (self.place, &self.reason);
        write!(f, "{place}: {reason}")
    }
}
