//! The calls that fill handles with stores, jobs and selectors.

ghost use Rattle.ix_capi.specs.Answers.{IsAddedFrom};
ghost use Rattle.ix_capi.specs.Calls.{
  FillsWithNoBlocks,
  FillsWithStoreOf,
  Reads,
  FillsWithJobOf,
  FillsWithJobOfParts,
  FillsWithSelectorOf,
};

use crate::filling::{fill_with, refuse};
use crate::handle::Handle;
use crate::status::Status;
use ix_api::{
    Failure, Object, Request, add_car, job_of_line, job_of_parts, read_store, selector_of_json,
};
use ix_store::Store;
use std::alloc::Global;

/// Fills a handle with a store without blocks.
pub(crate) fn new_store(alloc: Global, store: &mut Handle) -> Status
    ensures { FillsWithNoBlocks store.old store.new result }
{
    fill_with(alloc, store, Object::Open(Store::new(alloc)))
}

/// Adds the blocks of a CARv1 file to the open store of a handle, or else fills the handle with a store
/// of them.
pub(crate) fn read_car(alloc: Global, store: &mut Handle, car: &[u8]) -> Status
    ensures { Reads car.now store.old store.new result }
{
    let Some(mut held) = store.take(alloc) else {
        return store_of_car(alloc, store, car);
    };
    let added = added_from(alloc, &mut held, car);
    store.put(alloc, held);
    match added {
        Some(Ok(())) => Status::Done,
        Some(Err(failure)) => refuse(alloc, store, failure),
        None => store_of_car(alloc, store, car),
    }
}

// Adds the blocks of a CARv1 file, if this is an open store.
fn added_from(alloc: Global, held: &mut Object, car: &[u8]) -> Option<Result<(), Failure>>
    ensures { IsAddedFrom car.now held.old held.new result }
{
    match held {
        Object::Open(store) => Some(add_car(alloc, store, car)),
        _ => None,
    }
}

// Fills a handle with the store of a CARv1 file.
fn store_of_car(alloc: Global, store: &mut Handle, car: &[u8]) -> Status
    ensures { FillsWithStoreOf car.now store.old store.new result }
{
    match read_store(alloc, car) {
        Ok(read) => fill_with(alloc, store, Object::Open(read)),
        Err(failure) => refuse(alloc, store, failure),
    }
}

/// Fills a handle with the job of a line.
pub(crate) fn job_from_line(alloc: Global, job: &mut Handle, line: &[u8]) -> Status
    ensures { FillsWithJobOf line.now job.old job.new result }
{
    match job_of_line(alloc, line) {
        Ok(read) => fill_with(alloc, job, Object::Job(Request::of(read))),
        Err(failure) => refuse(alloc, job, failure),
    }
}

/// Fills a handle with the job of these parts.
pub(crate) fn job_new(
    alloc: Global,
    job: &mut Handle,
    roots: &[u8],
    selector: &[u8],
    limit: u32,
) -> Status
    ensures { FillsWithJobOfParts roots.now selector.now limit job.old job.new result }
{
    match job_of_parts(alloc, roots, selector, limit) {
        Ok(made) => fill_with(alloc, job, Object::Job(Request::of(made))),
        Err(failure) => refuse(alloc, job, failure),
    }
}

/// Fills a handle with the hex of the selector of a JSON text.
pub(crate) fn selector_from_json(alloc: Global, text: &mut Handle, json: &[u8]) -> Status
    ensures { FillsWithSelectorOf json.now text.old text.new result }
{
    match selector_of_json(alloc, json) {
        Ok(hex) => fill_with(alloc, text, Object::Text(hex)),
        Err(failure) => refuse(alloc, text, failure),
    }
}
