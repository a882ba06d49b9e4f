//! The archive of one root.

ghost use Rattle.std.specs.Prelude.{◌≡◌, IfOk, IfErr, Ok};
ghost use Rattle.ix_run.specs.Root.{root_job, exported_from, is_whole_end, IsRefusalOf};

use crate::{RunFault, run_one};
use ix_car::End;
use ix_cid::Cid;
use ix_sections::read_car;
use ix_selector::Selector;
use ix_walk::Job;
use std::alloc::{AllocError, Global};

/// Returns the CARv1 archive of one root: what is kept of the visits of the job with that root, the
/// matcher selector and a limit of one visit, over the blocks of a CARv1 file.
pub fn export_root(alloc: Global, car: &[u8], root: Cid) -> Result<Vec<u8>, RunFault>
    ensures archive { IfOk result (λ archive. exported_from car.now root ≡ Ok archive.items) }
    ensures refused { IfErr result (λ fault. IsRefusalOf car.now fault) }
{
    let store = read_car(alloc, car)?;
    let job = root_job(alloc, root)?;
    // A vector accepts every write while there is memory.
    match run_one(alloc, &store, &job, Vec::new(alloc)) {
        Ok((result, archive)) if is_whole(result.end) => Ok(archive),
        _ => Err(RunFault::Memory),
    }
}

// Returns whether a job with this end was walked to its end or to its limit, and all was written.
fn is_whole(end: End) -> bool
    ensures { result ≡ is_whole_end end }
{
    matches!(end, End::Done | End::Limit)
}

// Returns the job of a root: the matcher, and one visit.
fn root_job(alloc: Global, root: Cid) -> Result<Job, AllocError>
    ensures { IfOk result (λ job. job ≡ root_job root) }
{
    let name = String::from_str(alloc, "root")?;
    let roots = vec![in alloc; root]?;
    let selector = Selector::matcher(alloc)?;
    // The name, the one root and the limit are valid.
    match Job::new(name, roots, selector, 1) {
        Ok(job) => Ok(job),
        Err(_) => Err(AllocError),
    }
}
