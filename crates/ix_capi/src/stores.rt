//! The calls on a store.

ghost use Rattle.std.specs.Prelude.{Some};
ghost use Rattle.ix_capi.specs.Answers.{HasAddedTo, HasFrozen, IsOwnerOf};
ghost use Rattle.ix_capi.specs.Calls.{Adds, Freezes, SharesWith};

use crate::filling::fill;
use crate::handle::Handle;
use crate::status::Status;
use ix_api::{Added, Object, add_block, freeze as frozen, share as shared};
use ix_store::Store;
use std::alloc::{AllocError, Global};
use std::sync::Arc;

/// Adds a block to an open store.
pub(crate) fn add(alloc: Global, store: &mut Handle, cid: &[u8], block: &[u8]) -> Status
    ensures { Adds cid.now block.now store.old store.new result }
{
    let Some(mut held) = store.take(alloc) else {
        return Status::Handle;
    };
    let status = add_to(alloc, &mut held, cid, block);
    store.put(alloc, held);
    status
}

// Adds a block, if this is an open store.
fn add_to(alloc: Global, held: &mut Object, cid: &[u8], block: &[u8]) -> Status
    ensures { HasAddedTo cid.now block.now (Some held.old) (Some held.new) result }
{
    let Object::Open(store) = held else {
        return Status::Handle;
    };
    match add_block(alloc, store, cid, block) {
        Added::New => Status::Done,
        Added::Known => Status::Known,
        Added::NoCid => Status::NoCid,
        Added::Memory => Status::Memory,
    }
}

/// Freezes an open store.
pub(crate) fn freeze(alloc: Global, store: &mut Handle) -> Status
    ensures { Freezes store.old store.new result }
{
    let Some(mut held) = store.take(alloc) else {
        return Status::Handle;
    };
    let content = Box::replace(&mut held, Object::Text(Vec::new(alloc)));
    let (content, status) = frozen_of(alloc, content);
    Box::replace(&mut held, content);
    store.put(alloc, held);
    status
}

// Returns the contents, frozen if they are an open store.
fn frozen_of(alloc: Global, held: Object) -> (Object, Status)
    ensures { HasFrozen (Some held) (Some result.0) result.1 }
{
    match held {
        Object::Open(open) => match frozen(alloc, open) {
            Ok(frozen) => (Object::Frozen(frozen), Status::Done),
            Err(open) => (Object::Open(open), Status::Memory),
        },
        other => (other, Status::Handle),
    }
}

/// Fills a handle with one more owner of a frozen store.
pub(crate) fn share(alloc: Global, store: &mut Handle, other: &mut Handle) -> Status
    ensures { SharesWith store.old store.new other.old other.new result }
{
    let Some(held) = store.take(alloc) else {
        return Status::Handle;
    };
    let owner = owner_of(&held);
    store.put(alloc, held);
    match owner {
        Some(Ok(owner)) => match fill(alloc, other, Object::Frozen(owner)) {
            Ok(()) => Status::Done,
            Err(_) => Status::Memory,
        },
        Some(Err(_)) => Status::Memory,
        None => Status::Handle,
    }
}

/// Returns one more owner, if this is a frozen store.
pub(crate) fn owner_of(held: &Object) -> Option<Result<Arc<Store>, AllocError>>
    ensures { IsOwnerOf held.now result }
{
    match held {
        Object::Frozen(frozen) => Some(shared(frozen)),
        _ => None,
    }
}
