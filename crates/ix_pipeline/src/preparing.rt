//! Everything that is made before the first thread.

ghost use Rattle.std.specs.Prelude.{◌≡◌, ◌<◌, ◌≤◌, All, vec_len, IfOk, IfErr, OnErr};
ghost use Rattle.ix_walk.specs.JobMeaning.{AreFew};
ghost use Rattle.ix_car.specs.Headline.{EachUnused};
ghost use Rattle.ix_stages.specs.Lanes.{IsNewLane};
ghost use Rattle.ix_pipeline.specs.Prepared.{IsPrepared, verifier_count, walker_count};

use crate::caller::Caller;
use crate::plan::Plan;
use crate::thread_law;
use crate::verifying::Verifier;
use ix_check::Check;
use ix_stages::{Claims, Course, JobSeat, LaneIn, LaneOut, QueueParts, VisitQueue, lane};
use ix_store::Store;
use ix_walk::Job;
use std::alloc::{AllocError, AllocFailed, Global};
use std::mem;
use std::snapshot::Snapshot;

// Names the course (expected sequence) of the jobs.
#[derive(Drop)]
struct JobCourse {
    store: Snapshot<Store>,
    jobs: Snapshot<Vec<Job>>,
}

impl Course for JobCourse {
    ghost use Rattle.ix_stages.specs.Course.{course_of};

    ghost expected = { λ c. course_of c.store.value c.jobs.value.items };
}

/// The queue, the claims, and the caller with its walkers and verifiers, which aren't started yet. All
/// memory of a flow is in it whose size is known beforehand.
#[derive(Drop)]
pub(crate) struct Prepared<C: Check + Drop> {
    pub(crate) queue: VisitQueue,
    pub(crate) claims: Claims<JobSeat>,
    pub(crate) caller: Caller<C>,
}

// Makes so many lanes.
fn make_lanes(
    alloc: Global,
    count: usize,
    capacity: u32,
) -> Result<Vec<(LaneIn, LaneOut)>, AllocError>
    ensures new { IfOk result (λ lanes. All (λ l. IsNewLane capacity l.0 l.1) lanes.items) }
    ensures count { IfOk result (λ lanes. vec_len lanes ≡ count) }
{
    let mut lanes = Vec::with_capacity(alloc, count)?;
    for _ in 0..count {
        lanes.push_reserved(lane(alloc, capacity)?);
    }
    Ok(lanes)
}

impl<C: Check + Drop> Prepared<C> {
    /// Makes the queue, claims and lanes for the export of these jobs by a verifier for each check, and
    /// room for everything else. If memory runs out, it returns the checks.
    pub(crate) fn new(
        alloc: Global,
        store: &Store,
        jobs: &Vec<Job>,
        plan: Plan,
        checks: Vec<C>,
    ) -> Result<Prepared<C>, AllocFailed<Vec<C>>>
        requires jobs { AreFew jobs.now.items }
        requires walkers { (1 ≤ plan.walkers) × (plan.walkers ≤ 64) }
        requires queue { 0 < plan.queue }
        requires lane { 0 < plan.lane }
        requires verifiers { vec_len checks ≤ 64 }
        requires unused { EachUnused C.checked checks.items }
        ensures prepared { IfOk result (IsPrepared C.checked store.now jobs.now.items) }
        ensures walkers { IfOk result (λ p. walker_count p ≡ plan.walkers) }
        ensures verifiers { IfOk result (λ p. verifier_count p ≡ vec_len checks) }
        ensures checks { IfErr result (λ e. e.value ≡ checks) }
    {
        let mut checks = checks;
        match Prepared::with_checks(alloc, store, jobs, plan, &mut checks) {
            Ok(prepared) => Ok(prepared),
            Err(AllocError) => Err(AllocFailed { value: checks }),
        }
    }

    // The same. It takes the checks out of `checks` once nothing can fail any more.
    fn with_checks(
        alloc: Global,
        store: &Store,
        jobs: &Vec<Job>,
        plan: Plan,
        checks: &mut Vec<C>,
    ) -> Result<Prepared<C>, AllocError>
        requires jobs { AreFew jobs.now.items }
        requires walkers { (1 ≤ plan.walkers) × (plan.walkers ≤ 64) }
        requires queue { 0 < plan.queue }
        requires lane { 0 < plan.lane }
        requires verifiers { vec_len checks.old ≤ 64 }
        requires unused { EachUnused C.checked checks.old.items }
        ensures prepared { IfOk result (IsPrepared C.checked store.now jobs.now.items) }
        ensures walkers { IfOk result (λ p. walker_count p ≡ plan.walkers) }
        ensures verifiers { IfOk result (λ p. verifier_count p ≡ vec_len checks.old) }
        ensures checks { OnErr result (checks.new ≡ checks.old) }
    {
        ix_stages::law::course_of_jobs();
        thread_law::each_is_job(jobs);
        let course = JobCourse {
            store: Snapshot::of(store),
            jobs: Snapshot::of(jobs),
        };
        let count = jobs.len();
        let verifiers = checks.len();
        let parts = VisitQueue::new(alloc, &course, plan.queue, count as u32, verifiers as u32)?;
        let QueueParts {
            queue,
            jobs: seats,
            mut takers,
            stop,
        } = parts;
        let mut lanes = make_lanes(alloc, verifiers, plan.lane)?;
        let (claims, claimers) = Claims::new(alloc, seats, plan.walkers)?;
        let mut caller = Caller::new(alloc, claimers, stop, count as u32, verifiers)?;
        for check in mem::replace(checks, Vec::new(alloc)) {
            let Some(seat) = takers.pop() else {
                unreachable!()
            };
            let Some((lane, receiver)) = lanes.pop() else {
                unreachable!()
            };
            let verifier = Verifier { seat, lane, check };
            caller.unstarted.push_reserved((verifier, receiver));
        }
        Ok(Prepared {
            queue,
            claims,
            caller,
        })
    }
}
