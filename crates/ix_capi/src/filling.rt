//! Fills the handles of calls.

ghost use Rattle.std.specs.Prelude.{◌≡◌, Some, OnOk, OnErr};
ghost use Rattle.ix_capi.specs.Answers.{IsFilled, IsRefused};

use crate::handle::Handle;
use crate::status::Status;
use ix_api::{Failure, Object};
use std::alloc::{AllocError, Global};

/// Fills a handle with this and drops what it had. If memory runs out, the handle is unchanged.
pub(crate) fn fill(alloc: Global, handle: &mut Handle, held: Object) -> Result<(), AllocError>
    ensures ok { OnOk result (handle.new.pointed.value ≡ Some held) }
    ensures err { OnErr result (handle.new.pointed.value ≡ handle.old.pointed.value) }
{
    match Box::new(alloc, held) {
        Ok(held) => {
            handle.put(alloc, held);
            Ok(())
        }
        Err(_) => Err(AllocError),
    }
}

/// Fills a handle in the same way, and returns the status.
pub(crate) fn fill_with(alloc: Global, handle: &mut Handle, held: Object) -> Status
    ensures { IsFilled held handle.old.pointed.value handle.new.pointed.value result }
{
    match fill(alloc, handle, held) {
        Ok(()) => Status::Done,
        Err(_) => Status::Memory,
    }
}

/// Fills a handle with the line of an error, or returns that memory ran out.
pub(crate) fn refuse(alloc: Global, handle: &mut Handle, failure: Failure) -> Status
    ensures { IsRefused failure handle.old.pointed.value handle.new.pointed.value result }
{
    let Failure::Refused(line) = failure else {
        return Status::Memory;
    };
    match fill(alloc, handle, Object::Refusal(line)) {
        Ok(()) => Status::Refused,
        Err(_) => Status::Memory,
    }
}
