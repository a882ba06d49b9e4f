//! What was found of an archive, as C reads it.

ghost use Rattle.std.specs.Prelude.{◌≡◌, Some};
ghost use Rattle.ix_capi.specs.Calls.{SetsChecked, SetsPlace, SetsBlamedLength};
ghost use Rattle.ix_capi.specs.Results.{check_counts_of, blamed_cid, own_in, rejection_in, of_found, IsLeft, IsBlamePlaced};

use crate::handle::Handle;
use crate::results::{BytesPlace, place_of, set_place, set_result};
use crate::status::Status;
use ix_api::{Object, Rejection};
use std::alloc::Global;

/// The counts of an archive that is a job's own.
#[repr(C)]
#[derive(Debug, Drop, Clone, Copy, PartialEq, Eq)]
pub struct CheckCounts {
    /// The number of the job's visits over the archive's sections.
    pub visits: u32,
    /// The number of those whose block is missing.
    pub missing: u32,
}

// Where an archive is rejected, and the address of the CID that it blames, if there is one.
#[derive(Drop)]
struct RejectionPlace {
    place: usize,
    cid: BytesPlace,
}

/// Returns the counts of an archive that is a job's own.
pub(crate) fn check_counts(alloc: Global, handle: &mut Handle, counts: &mut CheckCounts) -> Status
    ensures { SetsChecked handle.old handle.new counts.old counts.new result }
{
    set_result(handle.read(alloc, counts_of), counts)
}

// Returns the counts, if this was found of a job's own archive.
fn counts_of(held: &Object) -> Result<CheckCounts, Status>
    ensures { result ≡ of_found check_counts_of (own_in (Some held.now)) }
{
    match held {
        Object::Accepted(counts) => Ok(CheckCounts {
            visits: counts.visits,
            missing: counts.missing,
        }),
        _ => Err(Status::Handle),
    }
}

/// Returns where an archive is rejected, and the address and length of the CID of the block that is missing,
/// or else of the section that is refused. If it is none of these, the length is 0.
pub(crate) fn check_fault(
    alloc: Global,
    handle: &mut Handle,
    place: &mut usize,
    cid: &mut *const u8,
    length: &mut usize,
) -> Status
    ensures place { SetsPlace handle.old handle.new place.old place.new result }
    ensures cid { SetsBlamedLength handle.old handle.new length.old length.new result }
    ensures left { IsLeft cid.old cid.new result }
{
    match handle.read(alloc, rejection_of) {
        Ok(found) => {
            *place = found.place;
            set_place(Ok(found.cid), cid, length)
        }
        Err(not_rejected) => not_rejected,
    }
}

// Returns where an archive is rejected, if this was found of one.
fn rejection_of(held: &Object) -> Result<RejectionPlace, Status>
    ensures { IsBlamePlaced (rejection_in (Some held.now)) result }
{
    let Object::Rejected(found) = held else {
        return Err(Status::Handle);
    };
    Ok(RejectionPlace {
        place: found.place,
        cid: place_of(blamed_cid(found)),
    })
}

// Returns the CID that a rejection blames, or no bytes.
fn blamed_cid(found: &Rejection) -> &[u8]
    ensures { result.now ≡ blamed_cid found.now }
{
    match &found.cid {
        Some(cid) => cid.as_bytes(),
        None => &[],
    }
}
