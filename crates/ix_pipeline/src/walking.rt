//! The walker threads.

ghost use Rattle.ix_stages.specs.Walking.{CanClaim};

use ix_stages::{ClaimSeat, Gate, JobSeat, Shared, walk_jobs};
use std::alloc::Global;
use std::sync::Wait;
use std::thread::{Scope, Threads};

/// Starts one walker. Returns false if no thread could be started.
pub(crate) fn start_walker<'s, 'e, R: Threads + Wait + Sync + 'e, G: Gate + Sync + 'e>(
    scope: &'s Scope<'s, &'e ()>,
    rt: &'e R,
    alloc: Global,
    shared: &'e Shared<'e, '_, G>,
    claimer: ClaimSeat<JobSeat>,
) -> bool
    requires { CanClaim shared.now claimer }
{
    scope
        .spawn(
            move ||
                requires { CanClaim shared.now claimer }
            { walk_jobs(rt, alloc, shared, claimer) },
        )
        .is_ok()
}
