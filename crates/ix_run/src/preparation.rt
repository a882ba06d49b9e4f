//! Loads what a run needs: the block store and the list of jobs.

ghost use Rattle.std.specs.Prelude.{◌≡◌, IfOk, IfErr};
ghost use Rattle.std.specs.Arc.{arc_value};
ghost use Rattle.ix_jobs.specs.Jobs.{jobs_of};
ghost use Rattle.ix_run.specs.Prepare.{IsFilesRefusal, IsLoaded};

use crate::fault::RunFault;
use ix_jobs::read_jobs;
use ix_sections::read_car;
use ix_store::Store;
use ix_walk::Job;
use std::alloc::{AllocError, Global};
use std::sync::Arc;

/// Loads the blocks of a CARv1 file and the jobs of a job file. If both are rejected, the error is that
/// of the CARv1 file.
pub fn prepare(
    alloc: Global,
    car: &[u8],
    jobs: &[u8],
) -> Result<(Arc<Store>, Arc<Vec<Job>>), RunFault>
    ensures loaded { IfOk result (IsLoaded car.now (jobs_of jobs.now)) }
    ensures refused { IfErr result (IsFilesRefusal car.now (jobs_of jobs.now)) }
{
    let store = read_car(alloc, car)?;
    let jobs = read_jobs(alloc, jobs)?;
    Ok(shared(alloc, store, jobs)?)
}

// Shares the blocks and the jobs between the threads of a run.
fn shared(
    alloc: Global,
    store: Store,
    jobs: Vec<Job>,
) -> Result<(Arc<Store>, Arc<Vec<Job>>), AllocError>
    ensures { IfOk result (λ p. (arc_value p.0 ≡ store) × (arc_value p.1 ≡ jobs)) }
{
    Ok((Arc::new(alloc, store)?, Arc::new(alloc, jobs)?))
}
