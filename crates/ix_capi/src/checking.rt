//! The call that checks an archive.

ghost use Rattle.std.specs.Prelude.{◌≡◌};
ghost use Rattle.ix_capi.specs.Answers.{IsCheckFound, HasFound, allowed_by};
ghost use Rattle.ix_capi.specs.Calls.{ChecksTo};

use crate::filling::{fill, fill_with};
use crate::handle::Handle;
use crate::status::Status;
use ix_api::{Checked, Object, check};
use ix_verdict::AllowMissing;
use std::alloc::{AllocError, Global};

/// Fills a handle with what is found of an archive that may be the own one of a job.
pub(crate) fn check_into(
    alloc: Global,
    job: &mut Handle,
    archive: &[u8],
    allowed: u32,
    out: &mut Handle,
) -> Status
    ensures { ChecksTo archive.now allowed job.old job.new out.old out.new result }
{
    let Some(allowed) = allowed_by(allowed) else {
        return Status::Range;
    };
    let Some(wanted) = job.take(alloc) else {
        return Status::Handle;
    };
    let found = found_by(alloc, &wanted, archive, allowed);
    job.put(alloc, wanted);
    match found {
        Some(Ok(found)) => fill_found(alloc, out, found),
        Some(Err(_)) => Status::Memory,
        None => Status::Handle,
    }
}

// Returns which blocks may be missing, by the flags of C: 1 for raw ones, 2 for those of DAG-CBOR.
fn allowed_by(flags: u32) -> Option<AllowMissing>
    ensures { result ≡ allowed_by flags }
{
    let (raw, dag_cbor) = match flags {
        0 => (false, false),
        1 => (true, false),
        2 => (false, true),
        3 => (true, true),
        _ => return None,
    };
    Some(AllowMissing { raw, dag_cbor })
}

// Returns what is found of an archive, if this is a job.
fn found_by(
    alloc: Global,
    held: &Object,
    archive: &[u8],
    allowed: AllowMissing,
) -> Option<Result<Checked, AllocError>>
    ensures { IsCheckFound archive.now allowed held.now result }
{
    match held {
        Object::Job(request) => Some(check(alloc, archive, &request.job, allowed)),
        _ => None,
    }
}

// Fills a handle with what was found of an archive. One that isn't accepted is refused.
fn fill_found(alloc: Global, handle: &mut Handle, found: Checked) -> Status
    ensures { HasFound found handle.old.pointed.value handle.new.pointed.value result }
{
    match found {
        Checked::Own(counts) => fill_with(alloc, handle, Object::Accepted(counts)),
        Checked::Rejected(rejection) => match fill(alloc, handle, Object::Rejected(rejection)) {
            Ok(()) => Status::Refused,
            Err(_) => Status::Memory,
        },
    }
}
