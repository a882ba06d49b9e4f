//! Handles.

ghost use Rattle.std.specs.Prelude.{◌≡◌, None, Some, IfSome, IfNone};
ghost use Rattle.std.specs.Fn.{FnOnceReturnsAt};
ghost use Rattle.std.specs.Option.{is_some};
ghost use Rattle.ix_capi.specs.Results.{IsRead};

use crate::into_raw::RawParts;
use crate::raw_box::RawBox;
use crate::status::Status;
use ix_api::Object;
use std::alloc::Global;
use std::mem;

/// A handle as C has it: whether it has contents, and a pointer to them.
#[repr(C)]
pub struct Handle {
    is_held: bool,
    pointed: RawBox,
    ghost told: { is_held ≡ is_some pointed.value },
}

// The contents of a handle may be sent to another thread.
fn sent<T: Send>(value: T) -> T
    ensures { result ≡ value }
{
    value
}

impl Handle {
    fn empty() -> Handle
        ensures { result.pointed.value ≡ None }
    {
        Handle {
            is_held: false,
            pointed: RawBox::empty(),
        }
    }

    fn of(held: Box<Object>) -> Handle
        ensures { result.pointed.value ≡ Some held.value }
    {
        Handle {
            is_held: true,
            pointed: RawBox::of(RawParts::of(sent(held))),
        }
    }

    fn into_box(self, alloc: Global) -> Option<Box<Object>>
        ensures some { IfSome result (λ held. self.pointed.value ≡ Some held.value) }
        ensures none { IfNone result (self.pointed.value ≡ None) }
    {
        let Handle { is_held, pointed } = self;
        if is_held {
            Some(pointed.into_raw_parts(alloc).into_box())
        } else {
            None
        }
    }

    /// Takes the contents out of the handle, which is then empty.
    pub(crate) fn take(&mut self, alloc: Global) -> Option<Box<Object>>
        ensures some { IfSome result (λ held. self.old.pointed.value ≡ Some held.value) }
        ensures none { IfNone result (self.old.pointed.value ≡ None) }
        ensures empty { self.new.pointed.value ≡ None }
    {
        mem::replace(self, Handle::empty()).into_box(alloc)
    }

    /// Replaces the contents of the handle, which are dropped.
    pub(crate) fn put(&mut self, alloc: Global, held: Box<Object>)
        ensures { self.new.pointed.value ≡ Some held.value }
    {
        mem::replace(self, Handle::of(held)).into_box(alloc);
    }

    /// Reads the contents of the handle, which stay there. An empty one has nothing to read.
    pub(crate) fn read<T: Drop, F: FnOnce(&Object) -> Result<T, Status>>(
        &mut self,
        alloc: Global,
        reads: F,
    ) -> Result<T, Status>
        requires { F.IsAlwaysCallable reads }
        ensures read { IsRead (FnOnceReturnsAt F.FnOnce reads) self.old.pointed.value result }
        ensures kept { self.new.pointed.value ≡ self.old.pointed.value }
    {
        let Some(held) = self.take(alloc) else {
            return Err(Status::Handle);
        };
        let read = reads(&held);
        self.put(alloc, held);
        read
    }
}
