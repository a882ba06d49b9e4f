//! Whether a file is the own archive of a job, and the first place at which it isn't.

use ix_cid::Cid;
use ix_own_archive::{ArchiveFault, ArchiveReason, ReceiveFault, check_archive};
use ix_verdict::AllowMissing;
use ix_walk::Job;
use std::alloc::{AllocError, Global};

/// The first place at which a file isn't the own archive of a job.
#[derive(Drop)]
pub(crate) struct Inexact {
    /// Its offset in the CARv1 file.
    pub place: usize,
    /// Why, in a word.
    pub reason: String,
    /// The CID of the section there, or of a block that is missing there.
    pub cid: Option<Cid>,
}

/// Returns where a CARv1 file isn't the own archive of a job, or None if it is. What the job doesn't find may be
/// missing, except for its roots: the walk of the job says what is, and which roots can't be exported.
pub(crate) fn inexact_in(
    alloc: Global,
    car: &[u8],
    job: &Job,
) -> Result<Option<Inexact>, AllocError> {
    match check_archive(alloc, car, job, AllowMissing::all()) {
        Ok(_) => Ok(None),
        Err(
            ArchiveFault {
                place: _,
                reason: ArchiveReason::Unfinished(ReceiveFault::Root(_, _)),
            },
        ) => Ok(None),
        Err(ArchiveFault { place, reason }) => Ok(Some(inexact_at(alloc, place, reason)?)),
    }
}

/// Returns that a file has no roots, so it is the own archive of no job.
pub(crate) fn inexact_header(alloc: Global) -> Result<Inexact, AllocError> {
    inexact_by(alloc, 0, "header")
}

// Returns the place with its reason in a word.
fn inexact_at(alloc: Global, place: usize, reason: ArchiveReason) -> Result<Inexact, AllocError> {
    match reason {
        ArchiveReason::Header(_) | ArchiveReason::OtherHeader => {
            inexact_by(alloc, place, "header")
        }
        ArchiveReason::Section(_) => inexact_by(alloc, place, "section"),
        ArchiveReason::Refused(cid, fault) => refused_at(alloc, place, fault, Some(cid)),
        ArchiveReason::Unfinished(fault) => refused_at(alloc, place, fault, None),
        ArchiveReason::Memory => Err(AllocError),
    }
}

// Returns the place with this word.
fn inexact_by(alloc: Global, place: usize, word: &str) -> Result<Inexact, AllocError> {
    Ok(Inexact {
        place,
        reason: String::from_str(alloc, word)?,
        cid: None,
    })
}

// Returns the place at which a section with this CID, or the end, is refused.
fn refused_at(
    alloc: Global,
    place: usize,
    fault: ReceiveFault,
    cid: Option<Cid>,
) -> Result<Inexact, AllocError> {
    let reason = word_of(alloc, &fault)?;
    let cid = match &fault {
        ReceiveFault::Missing(root) => Some(root.try_clone(alloc)?),
        _ => cid,
    };
    Ok(Inexact { place, reason, cid })
}

// Returns the word for why a section, or the end, isn't the next of an archive.
fn word_of(alloc: Global, fault: &ReceiveFault) -> Result<String, AllocError> {
    let word = match fault {
        ReceiveFault::Unsound(verdict) => return format!(in alloc; "{verdict}"),
        ReceiveFault::InBase => "known",
        ReceiveFault::Repeated => "repeated",
        ReceiveFault::OutOfOrder => "order",
        ReceiveFault::NotAskedFor => "surplus",
        ReceiveFault::Missing(_) => "missing",
        ReceiveFault::Root(_, verdict) => return format!(in alloc; "{verdict}"),
        ReceiveFault::Limit => "limit",
        // A file is checked up to the first fault, so a check that has ended ran out of memory.
        ReceiveFault::Ended | ReceiveFault::Memory => return Err(AllocError),
    };
    String::from_str(alloc, word)
}
