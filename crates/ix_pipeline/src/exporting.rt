//! The exporter with walkers and verifiers.

ghost use Rattle.std.specs.Prelude.{◌≡◌, length, vec_len, IfOk, IfErr};
ghost use Rattle.std.specs.Arc.{arc_value};
ghost use Rattle.ix_walk.specs.JobMeaning.{AreFew};
ghost use Rattle.ix_pipeline.specs.Exporting.{CanExport, HasExported};
ghost use Rattle.ix_pipeline.specs.Headline.{EachDelivered, EachArchived, EachFresh, EachKept};
ghost use Rattle.ix_pipeline.specs.Headline.{EachUnused, IsCheckedOnce, NoneOrAllStart, checked_by};
ghost use Rattle.ix_pipeline.specs.Planned.{IsPlan};

use crate::flowing::flow;
use crate::preparing::Prepared;
use crate::{Outcome, Plan};
use ix_car::{Sink, law};
use ix_check::Check;
use ix_stages::{Gate, JobWalks, Open, Task};
use ix_store::Store;
use ix_walk::Job;
use std::alloc::{AllocFailed, Global};
use std::sync::{Arc, Wait};
use std::thread::Threads;

/// An export that wasn't started, because memory ran out before any thread was started.
#[derive(Drop)]
pub struct NotStarted<C> {
    /// All checks, as they were given.
    pub checks: Vec<C>,
}

// The plan of an export, and the gate that walkers call.
#[derive(Drop)]
struct Gated<'a, G> {
    plan: Plan,
    gate: &'a G,
}

/// Exports every job into its sink, with as many walkers as the plan has and as many verifiers as there
/// are checks, and returns how each job ended.
///
/// Walkers claim jobs and put their visits into a queue. Verifiers take them from it, check each visit
/// once, and send the verdicts. The caller delivers each job's visits in order with their verdicts, and
/// closes its sink. All of that runs concurrently. Jobs end with Start only if no walker or no verifier
/// could be started, and then all do. The gate (a probe for tests) is called for each visit of a
/// walker. Every visit of a job that ends neither with Memory nor with Start was checked.
pub fn export<S, C, G, R>(
    rt: &R,
    alloc: Global,
    store: &Arc<Store>,
    jobs: &Arc<Vec<Job>>,
    sinks: &mut [S],
    checks: Vec<C>,
    gate: &G,
    plan: Plan,
) -> Result<Outcome<C>, NotStarted<C>>
where
    S: Sink,
    C: Check + Send + Drop,
    G: Gate + Sync,
    R: Threads + Wait + Sync,
    requires sinks { length sinks.old ≡ length (arc_value jobs.now).items }
    requires fresh { EachFresh S.calls sinks.old }
    requires unused { EachUnused C.checked checks.items }
    requires jobs { AreFew (arc_value jobs.now).items }
    requires plan { IsPlan plan (vec_len checks) }
    ensures delivered { IfOk result (λ out. EachDelivered S.calls
        (arc_value store.now) 0 (arc_value jobs.now).items out.ends.items sinks.new) }
    ensures archived { IfOk result (λ out. EachArchived S.calls
        (arc_value store.now) 0 (arc_value jobs.now).items out.ends.items sinks.new) }
    ensures started { IfOk result (λ out. NoneOrAllStart out.ends.items) }
    ensures facts { EachKept S.guarantee sinks.old sinks.new }
    ensures checked { IfOk result (λ out. IsCheckedOnce S.calls (arc_value store.now)
        (arc_value jobs.now).items out.ends.items sinks.new (checked_by C.checked out.checks.items)) }
    ensures not_started { IfErr result (λ none.
        (sinks.new ≡ sinks.old) × (none.checks.items ≡ checks.items)) }
{
    let walks = JobWalks::new(alloc, store, jobs);
    export_gated(rt, alloc, &walks, sinks, checks, Gated { plan, gate })
}

/// Exports as `export` does, by walks that may go by tables of expansions. No gate is called.
pub fn export_walks<S, C, R>(
    rt: &R,
    alloc: Global,
    walks: &JobWalks<'_>,
    sinks: &mut [S],
    checks: Vec<C>,
    plan: Plan,
) -> Result<Outcome<C>, NotStarted<C>>
where
    S: Sink,
    C: Check + Send + Drop,
    R: Threads + Wait + Sync,
    requires { CanExport S.calls C.checked walks.now.jobs sinks.old checks plan }
    ensures { HasExported S.calls S.guarantee C.checked walks.now
        sinks.old sinks.new checks result }
{
    export_gated(rt, alloc, walks, sinks, checks, Gated { plan, gate: &Open })
}

// Exports by these walks, and calls the gate.
fn export_gated<S, C, G, R>(
    rt: &R,
    alloc: Global,
    walks: &JobWalks<'_>,
    sinks: &mut [S],
    checks: Vec<C>,
    gated: Gated<'_, G>,
) -> Result<Outcome<C>, NotStarted<C>>
where
    S: Sink,
    C: Check + Send + Drop,
    G: Gate + Sync,
    R: Threads + Wait + Sync,
    requires { CanExport S.calls C.checked walks.now.jobs sinks.old checks gated.plan }
    ensures { HasExported S.calls S.guarantee C.checked walks.now
        sinks.old sinks.new checks result }
{
    let Gated { plan, gate } = gated;
    let store = walks.store();
    let jobs = walks.jobs();
    let prepared = match Prepared::new(alloc, store, jobs, plan, checks) {
        Ok(prepared) => prepared,
        Err(AllocFailed { value: checks }) => return Err(NotStarted { checks }),
    };
    let task = Task { walks, gate };
    let outcome = flow(rt, alloc, &task, sinks, prepared);
    law::faithful_is_archived();
    Ok(outcome)
}
