//! Checks the archive of one job.

ghost use Rattle.std.specs.Prelude.{◌≡◌, true, IfOk, OnErr};
ghost use Rattle.ix_api.specs.Checks.{IsCheckOf, IsRejectedBy, IsBlamed, IsMissingOr, ran_out, is_memory};

use ix_cid::Cid;
use ix_own_archive::{ArchiveFault, ArchiveReason, Counts, ReceiveFault, check_archive};
use ix_verdict::AllowMissing;
use ix_walk::Job;
use std::alloc::{AllocError, Global};

/// The result of a check of an archive.
#[derive(Debug, Drop)]
pub enum Checked {
    /// It is the job's own archive, and these are the counts of the job's visits over its sections.
    Own(Counts),
    /// It is rejected.
    Rejected(Rejection),
}

/// Why an archive is rejected.
#[derive(Debug, Drop)]
pub struct Rejection {
    /// The offset in bytes: 0 for the header, where its length begins for a section, or the end.
    pub place: usize,
    /// The block that is missing, or else the section that is refused, if it is one of these.
    pub cid: Option<Cid>,
    /// The reason and the offset as a line without its end.
    pub line: Vec<u8>,
}

/// Checks that the bytes of a CARv1 file are the own archive of a job, traversed with link-visit-once,
/// and that no block is missing but those that may be. The job's blocks aren't needed. Fails if memory
/// runs out.
pub fn check(
    alloc: Global,
    archive: &[u8],
    job: &Job,
    allowed: AllowMissing,
) -> Result<Checked, AllocError>
    ensures { IfOk result (IsCheckOf job.now allowed archive.now) }
{
    match check_archive(alloc, archive, job, allowed) {
        Ok(counts) => Ok(Checked::Own(counts)),
        Err(fault) => match reject(alloc, fault) {
            Ok(rejection) => Ok(Checked::Rejected(rejection)),
            Err(_) => Err(AllocError),
        },
    }
}

// Returns why an archive is rejected, unless memory ran out.
fn reject(alloc: Global, fault: ArchiveFault) -> Result<Rejection, AllocError>
    ensures { IfOk result (IsRejectedBy fault) }
{
    let ArchiveFault { place, reason } = fault;
    let line = format!(in alloc; "archive: {reason} at {place}")?;
    let cid = blamed(reason)?;
    Ok(Rejection {
        place,
        cid,
        line: line.into_bytes(),
    })
}

// Returns the CID of the block that is missing, or of the root that can't be exported, or else of the
// section that is refused, if it is one of these. Fails if memory ran out.
fn blamed(reason: ArchiveReason) -> Result<Option<Cid>, AllocError>
    ensures found { IfOk result (IsBlamed reason) }
    ensures memory { OnErr result (ran_out reason ≡ true) }
{
    match reason {
        ArchiveReason::Refused(cid, fault) => missing_or(fault, Some(cid)),
        ArchiveReason::Unfinished(fault) => missing_or(fault, None),
        ArchiveReason::Memory => Err(AllocError),
        ArchiveReason::Header(_) | ArchiveReason::OtherHeader | ArchiveReason::Section(_) => Ok(
            None,
        ),
    }
}

// Returns the CID of the block that is missing, or of the root that can't be exported, or else this
// section's. Fails if memory ran out.
fn missing_or(fault: ReceiveFault, section: Option<Cid>) -> Result<Option<Cid>, AllocError>
    ensures found { IfOk result (IsMissingOr section fault) }
    ensures memory { OnErr result (is_memory fault ≡ true) }
{
    match fault {
        ReceiveFault::Missing(cid) | ReceiveFault::Root(cid, _) => Ok(Some(cid)),
        ReceiveFault::Memory => Err(AllocError),
        ReceiveFault::Unsound(_)
        | ReceiveFault::InBase
        | ReceiveFault::Repeated
        | ReceiveFault::OutOfOrder
        | ReceiveFault::NotAskedFor
        | ReceiveFault::Limit
        | ReceiveFault::Ended => Ok(section),
    }
}
