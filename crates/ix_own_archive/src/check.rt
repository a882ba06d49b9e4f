//! The check of an archive.

ghost use Rattle.std.specs.Prelude.{◌≡◌, ◌++◌, Some, IfOk, IfErr, IfSome, OnOk};
ghost use Rattle.std.specs.List.{AllByRecursion};
ghost use Rattle.ix_cid.specs.Cid.{IsCid};
ghost use Rattle.ix_verdict.specs.Verdict.{verdict_with};
ghost use Rattle.ix_sections.specs.Writing.{header_of};
ghost use Rattle.ix_own_archive.specs.Ahead.{IsFrontVerdict};
ghost use Rattle.ix_own_archive.specs.Checking.{IsAccepted, IsJobsOwn, IsFaultAt, IsRightlyNot, IsHeaderReason, HasReceived, IsSectionReason};

use crate::fault::{ArchiveFault, ArchiveReason};
use ix_cid::Cid;
use ix_receive::{Counts, Receiver, law};
use ix_sections::{CarFault, CarKind, header_of, read_header, read_section};
use ix_store::verdict_on;
use ix_verdict::{AllowMissing, Verdict};
use ix_walk::Job;
use std::alloc::Global;

/// Checks that the bytes of a CARv1 file are the own archive of a job, traversed with link-visit-once,
/// that each root is sound or inline, and that no block is missing but those that may be. The counts are
/// those of the job's visits over the archive's sections.
///
/// The first thing that is wrong is the error. The header must be the one that is written for the job's
/// roots, byte for byte. A section has one spelling, so one that can be read is as it is written. Bytes
/// that are refused are the own archive of the job under no number, unless a block is missing that may
/// not be, a root can't be exported, or memory ran out.
pub fn check_archive(
    alloc: Global,
    archive: &[u8],
    job: &Job,
    allowed: AllowMissing,
) -> Result<Counts, ArchiveFault>
    ensures own { OnOk result (IsJobsOwn job.now archive.now) }
    ensures accepted { IfOk result (IsAccepted job.now allowed archive.now) }
    ensures fault { IfErr result (λ e. IsFaultAt job.now allowed archive.now e.place e.reason) }
    ensures rightly { IfErr result (λ e. IsRightlyNot job.now archive.now e.reason) }
{
    let Ok(header) = header_of(alloc, job.roots()) else {
        return Err(ArchiveFault {
            place: 0,
            reason: ArchiveReason::Memory,
        });
    };
    match archive.strip_prefix(header.as_slice()) {
        Some(sections) => check_sections(alloc, archive, sections, job, allowed),
        None => Err(ArchiveFault {
            place: 0,
            reason: header_reason(alloc, archive),
        }),
    }
}

// Returns what is wrong with the header of an archive, which isn't the one that is expected.
pub(crate) fn header_reason(alloc: Global, archive: &[u8]) -> ArchiveReason
    ensures { IsHeaderReason archive.now result }
{
    match read_header(alloc, archive) {
        Ok(_) => ArchiveReason::OtherHeader,
        Err(
            CarFault {
                kind: CarKind::Memory,
                place: _,
            },
        ) => ArchiveReason::Memory,
        Err(fault) => ArchiveReason::Header(fault.kind),
    }
}

// Checks the sections of an archive, which are what is after its header.
fn check_sections(
    alloc: Global,
    archive: &[u8],
    sections: &[u8],
    job: &Job,
    allowed: AllowMissing,
) -> Result<Counts, ArchiveFault>
    requires { archive.now ≡ header_of job.now.roots ++ sections.now }
    ensures own { OnOk result (IsJobsOwn job.now archive.now) }
    ensures accepted { IfOk result (IsAccepted job.now allowed archive.now) }
    ensures fault { IfErr result (λ e. IsFaultAt job.now allowed archive.now e.place e.reason) }
    ensures rightly { IfErr result (λ e. IsRightlyNot job.now archive.now e.reason) }
{
    law::received_one_by_one();
    roots_are_cids(job.roots());
    let mut receiver = Receiver::new(alloc, job, allowed);
    let mut rest = sections;
    while !rest.is_empty() {
        match receive_section(alloc, &mut receiver, rest, None) {
            Ok(after) => rest = after,
            Err(reason) => {
                return Err(ArchiveFault {
                    place: archive.len() - rest.len(),
                    reason,
                });
            }
        }
    }
    match receiver.finish() {
        Ok(counts) => Ok(counts),
        Err(fault) => Err(ArchiveFault {
            place: archive.len(),
            reason: ArchiveReason::Unfinished(fault),
        }),
    }
}

// States that roots are CIDs.
pub(crate) fn roots_are_cids(roots: &[Cid])
    ensures { AllByRecursion IsCid roots.now }
{
    for root in roots {
        let _bytes = root.as_bytes();
    }
}

// Returns the verdict on a CID and its block, which is known or found now.
fn known_verdict(known: Option<Verdict>, cid: &Cid, block: &[u8]) -> Verdict
    requires { IfSome known (λ v. v ≡ verdict_with cid.now (Some block.now)) }
    ensures { result ≡ verdict_with cid.now (Some block.now) }
{
    match known {
        Some(verdict) => verdict,
        None => verdict_on(cid.as_bytes(), block),
    }
}

// Offers the section at the front of some bytes to a receiver, and returns the bytes after it. The verdict
// on it may be known.
pub(crate) fn receive_section<'a>(
    alloc: Global,
    receiver: &mut Receiver<'_>,
    bytes: &'a [u8],
    known: Option<Verdict>,
) -> Result<&'a [u8], ArchiveReason>
    requires { IfSome known (IsFrontVerdict bytes.now) }
    ensures received { IfOk result (λ rest. HasReceived bytes.now rest.now receiver.old receiver.new) }
    ensures refused { IfErr result (IsSectionReason receiver.old bytes.now) }
{
    let (section, rest) = match read_section(bytes.len(), bytes) {
        Ok(read) => read,
        Err(fault) => return Err(ArchiveReason::Section(fault.kind)),
    };
    let Ok(cid) = section.cid.to_cid(alloc) else {
        return Err(ArchiveReason::Memory);
    };
    let verdict = known_verdict(known, &cid, section.block);
    match receiver.offer_judged(cid, section.block, verdict) {
        Ok(()) => Ok(rest),
        Err(fault) => match section.cid.to_cid(alloc) {
            Ok(cid) => Err(ArchiveReason::Refused(cid, fault)),
            Err(_) => Err(ArchiveReason::Memory),
        },
    }
}
