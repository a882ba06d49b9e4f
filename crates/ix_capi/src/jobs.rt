//! The calls on a job.

ghost use Rattle.std.specs.Prelude.{Some};
ghost use Rattle.ix_capi.specs.Answers.{HasOnce, HasBase};
ghost use Rattle.ix_capi.specs.Calls.{MakesOnce, GetsBase, LeavesOut};

use crate::handle::Handle;
use crate::status::Status;
use crate::stores::owner_of;
use ix_api::Object;
use ix_store::Store;
use std::alloc::Global;
use std::sync::Arc;

/// Makes a job expand each CID once, and not at every link.
pub(crate) fn once(alloc: Global, job: &mut Handle) -> Status
    ensures { MakesOnce job.old job.new result }
{
    let Some(mut held) = job.take(alloc) else {
        return Status::Handle;
    };
    let content = Box::replace(&mut held, Object::Text(Vec::new(alloc)));
    let (content, status) = once_of(content);
    Box::replace(&mut held, content);
    job.put(alloc, held);
    status
}

// Returns the contents; if they are a job, it expands each CID once.
fn once_of(held: Object) -> (Object, Status)
    ensures { HasOnce (Some held) (Some result.0) result.1 }
{
    match held {
        Object::Job(request) => (Object::Job(request.links_once()), Status::Done),
        other => (other, Status::Handle),
    }
}

/// Makes a job leave out the blocks that its receiver has: the sound ones of the base, a frozen store.
pub(crate) fn without(alloc: Global, job: &mut Handle, base: &mut Handle) -> Status
    ensures { LeavesOut job.old job.new base.old base.new result }
{
    let Some(held) = base.take(alloc) else {
        return Status::Handle;
    };
    let owner = owner_of(&held);
    base.put(alloc, held);
    match owner {
        Some(Ok(owner)) => set_base(alloc, job, owner),
        Some(Err(_)) => Status::Memory,
        None => Status::Handle,
    }
}

// Gives the job of a handle this base, in place of the one that it has.
fn set_base(alloc: Global, job: &mut Handle, base: Arc<Store>) -> Status
    ensures { GetsBase base job.old job.new result }
{
    let Some(mut held) = job.take(alloc) else {
        return Status::Handle;
    };
    let content = Box::replace(&mut held, Object::Text(Vec::new(alloc)));
    let (content, status) = with_base(content, base);
    Box::replace(&mut held, content);
    job.put(alloc, held);
    status
}

// Returns the contents; if they are a job, it has this base.
fn with_base(held: Object, base: Arc<Store>) -> (Object, Status)
    ensures { HasBase base (Some held) (Some result.0) result.1 }
{
    match held {
        Object::Job(request) => (Object::Job(request.without(base)), Status::Done),
        other => (other, Status::Handle),
    }
}
