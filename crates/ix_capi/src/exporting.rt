//! The call that exports.

ghost use Rattle.ix_capi.specs.Answers.{IsExportedOf};
ghost use Rattle.ix_capi.specs.Calls.{ExportsTo};

use crate::filling::fill;
use crate::handle::Handle;
use crate::status::Status;
use ix_api::{Exported, Object, export_request};
use std::alloc::{AllocError, Global};

/// Fills a handle with the result of an export of a job over a frozen store.
pub(crate) fn export_into(
    alloc: Global,
    store: &mut Handle,
    job: &mut Handle,
    out: &mut Handle,
) -> Status
    ensures { ExportsTo store.old store.new job.old job.new out.old out.new result }
{
    let Some(blocks) = store.take(alloc) else {
        return Status::Handle;
    };
    let Some(wanted) = job.take(alloc) else {
        store.put(alloc, blocks);
        return Status::Handle;
    };
    let made = exported(alloc, &blocks, &wanted);
    store.put(alloc, blocks);
    job.put(alloc, wanted);
    match made {
        Some(Ok(made)) => match fill(alloc, out, Object::Exported(made)) {
            Ok(()) => Status::Done,
            Err(_) => Status::Memory,
        },
        Some(Err(_)) => Status::Memory,
        None => Status::Handle,
    }
}

// Returns the result of an export, if these are a frozen store and a job.
fn exported(alloc: Global, store: &Object, job: &Object) -> Option<Result<Exported, AllocError>>
    ensures { IsExportedOf store.now job.now result }
{
    match (store, job) {
        (Object::Frozen(store), Object::Job(job)) => Some(export_request(alloc, store, job)),
        _ => None,
    }
}
