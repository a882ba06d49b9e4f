//! What is exported, and an export that has to begin.

ghost use Rattle.std.specs.Prelude.{◌≡◌, length, IfOk};
ghost use Rattle.std.specs.Arc.{arc_value};

use ix_check::Check;
use ix_fixtures::{LIST, OUTER, chain_of, jobs_of, list_of};
use ix_pipeline::{NotStarted, Outcome, Plan};
use ix_store::Store;
use ix_walk::Job;
use std::alloc::{AllocError, Global};
use std::sync::Arc;
use std::test::Fail;

/// A store, and jobs over it.
#[derive(Drop)]
pub struct ExportInput {
    pub store: Arc<Store>,
    pub jobs: Arc<Vec<Job>>,
}

/// The chain, and so many jobs of four visits over it.
pub fn chain(alloc: Global, count: u32) -> Result<ExportInput, Fail>
    ensures { IfOk result (λ input. length (arc_value input.jobs).items ≡ count) }
{
    let jobs = jobs_of(alloc, OUTER, count, 100)?;
    let store = Arc::new(alloc, chain_of(alloc)?)?;
    let jobs = Arc::new(alloc, jobs)?;
    Ok(ExportInput { store, jobs })
}

/// The damaged list, and so many jobs of five visits over it.
pub fn list(alloc: Global, count: u32) -> Result<ExportInput, Fail>
    ensures { IfOk result (λ input. length (arc_value input.jobs).items ≡ count) }
{
    let jobs = jobs_of(alloc, LIST, count, 100)?;
    let store = Arc::new(alloc, list_of(alloc)?)?;
    let jobs = Arc::new(alloc, jobs)?;
    Ok(ExportInput { store, jobs })
}

/// So many walkers, and so much room in the queue and in each lane.
pub fn plan_of(walkers: u32, queue: u32, lane: u32) -> Plan
    ensures { (result.walkers ≡ walkers) × (result.queue ≡ queue) × (result.lane ≡ lane) }
{
    Plan {
        walkers,
        queue,
        lane,
    }
}

/// Returns the result of an export, if it could start.
pub fn started<C: Check + Drop>(
    out: Result<Outcome<C>, NotStarted<C>>,
) -> Result<Outcome<C>, Fail> {
    match out {
        Ok(out) => Ok(out),
        Err(_) => Err(Fail::from(AllocError)),
    }
}
