//! Exports one job on the caller's thread.

ghost use Rattle.std.specs.Prelude.{None, Some, IfOk};
ghost use Rattle.ix_car.specs.Archive.{known_at, known_by};
ghost use Rattle.ix_car.specs.ArchiveMeaning.{borrowed};
ghost use Rattle.ix_api.specs.Exporting.{HasExported, IsWholeAtDone, IsBegun};
ghost use Rattle.ix_api.specs.Requests.{known_to};

use crate::request::Request;
use ix_jobs::{JobResult, report};
use ix_known::known_places_alone;
use ix_run::run_one_without;
use ix_store::{PlaceSet, Store};
use ix_walk::Job;
use std::alloc::{AllocError, Global};
use std::slice;

/// The result of an export of one job.
#[derive(Debug, Drop)]
pub struct Exported {
    /// How the job ended, its counts and its skips.
    pub result: JobResult,
    /// The CARv1 archive.
    pub archive: Vec<u8>,
    /// The report of a run of the job alone.
    pub report: Vec<u8>,
}

/// Exports one job over a store on the caller's thread. The archive is that of the job if it ends with
/// Done, and else a prefix of it.
pub fn export(alloc: Global, store: &Store, job: &Job) -> Result<Exported, AllocError>
    ensures exported { IfOk result (HasExported None store.now job.now) }
    ensures whole { IfOk result (IsWholeAtDone None store.now job.now) }
    ensures beginning { IfOk result (IsBegun None store.now job.now) }
{
    export_at(alloc, store, None, job)
}

/// Exports one job as `export` does, without the sections of the blocks that a receiver has: those under
/// whose CID a base, which is what it has, holds a sound block. They are counted as known.
pub fn export_without(
    alloc: Global,
    store: &Store,
    base: &Store,
    job: &Job,
) -> Result<Exported, AllocError>
    ensures exported { IfOk result (HasExported (known_by base.now) store.now job.now) }
    ensures whole { IfOk result (IsWholeAtDone (known_by base.now) store.now job.now) }
    ensures beginning { IfOk result (IsBegun (known_by base.now) store.now job.now) }
{
    let known = known_places_alone(alloc, store, base)?;
    export_at(alloc, store, Some(&known), job)
}

/// Exports what is requested: a job, without the blocks of its base if it has one.
pub fn export_request(
    alloc: Global,
    store: &Store,
    request: &Request,
) -> Result<Exported, AllocError>
    ensures exported { IfOk result (HasExported (known_to request.now) store.now request.now.job) }
    ensures whole { IfOk result (IsWholeAtDone (known_to request.now) store.now request.now.job) }
    ensures beginning { IfOk result (IsBegun (known_to request.now) store.now request.now.job) }
{
    match &request.base {
        Some(base) => export_without(alloc, store, base, &request.job),
        None => export(alloc, store, &request.job),
    }
}

// Exports one job without the sections of the blocks at known positions in the store, if they are given.
fn export_at(
    alloc: Global,
    store: &Store,
    known: Option<&PlaceSet>,
    job: &Job,
) -> Result<Exported, AllocError>
    ensures exported { IfOk result
        (HasExported (known_at store.now (borrowed known.entry)) store.now job.now) }
    ensures whole { IfOk result
        (IsWholeAtDone (known_at store.now (borrowed known.entry)) store.now job.now) }
    ensures beginning { IfOk result
        (IsBegun (known_at store.now (borrowed known.entry)) store.now job.now) }
{
    // A vector accepts every write while there is memory.
    let Ok((result, archive)) = run_one_without(alloc, store, known, job, Vec::new(alloc)) else {
        return Err(AllocError);
    };
    let report = report(alloc, slice::from_ref(job), slice::from_ref(&result))?;
    Ok(Exported {
        result,
        archive,
        report,
    })
}
