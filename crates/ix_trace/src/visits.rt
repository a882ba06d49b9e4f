//! Tracing the visits of a job.

ghost use Rattle.std.specs.Prelude.{IfOk};
ghost use Rattle.ix_trace.specs.Trace.{ArePaths};

use crate::tracer::Tracer;
use ix_store::Store;
use ix_walk::{Job, Walk, WalkStop};
use std::alloc::{AllocError, Global};

/// Returns the paths of the visits of a job that have these numbers, which rise. The walk of the job is
/// repeated up to the last of them, and a block is read once more only if it is on one of these paths. A
/// path that is there leads from a root of the job to the CID of the visit.
pub fn trace(
    alloc: Global,
    store: &Store,
    job: &Job,
    numbers: &[u32],
) -> Result<Vec<Option<String>>, AllocError>
    ensures { IfOk result (λ paths. ArePaths store.now job.now numbers.now paths.items) }
{
    let mut paths = Vec::with_capacity(alloc, numbers.len())?;
    let mut tracer = Tracer::new(alloc);
    for item in Walk::new(alloc, store, job, 0)? {
        let Some(next) = numbers.get(paths.len()) else {
            return Ok(paths);
        };
        let visit = match item {
            Ok(visit) => visit,
            Err(WalkStop::Limit) => return Ok(paths),
            Err(WalkStop::Memory) => return Err(AllocError),
        };
        tracer.advance(visit.depth)?;
        if visit.seq == *next {
            paths.push(tracer.path(alloc, store, job, &visit.cid)?)?;
        }
    }
    Ok(paths)
}
