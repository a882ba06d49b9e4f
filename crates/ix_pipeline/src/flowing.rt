//! The flow: threads in a scope, while the caller collects.

ghost use Rattle.std.specs.Prelude.{◌≡◌, length, IsSomeAnd};
ghost use Rattle.ix_pipeline.specs.Flowing.{CanFlow, IsFlown};
ghost use Rattle.ix_pipeline.specs.Prepared.{IsPrepared};
ghost use Rattle.ix_pipeline.specs.Sinks.{AreFreshSinks};

use crate::caller::Caller;
use crate::preparing::Prepared;
use ix_car::{End, Sink};
use ix_check::Check;
use ix_stages::{Gate, Shared, Task};
use std::alloc::Global;
use std::sync::Wait;
use std::thread;
use std::thread::{Scope, Threads};

/// The result of an export.
#[derive(Drop)]
pub struct Outcome<C> {
    /// The checks of the verifiers that were started, in the order in which they were given.
    pub checks: Vec<C>,
    /// How each job ended, in the order of the jobs: the ends with which their sinks were closed.
    pub ends: Vec<End>,
}

// The body of the scope.
fn flow_in<'s, 'e, S, C, G, R>(
    scope: &'s Scope<'s, &'e ()>,
    rt: &'e R,
    alloc: Global,
    shared: &'e Shared<'e, '_, G>,
    sinks: &mut [S],
    caller: Caller<C>,
) -> Outcome<C>
where
    S: Sink,
    C: Check + Send + Drop + 'e,
    G: Gate + Sync + 'e,
    R: Threads + Wait + Sync + 'e,
    requires { CanFlow S.calls C.checked shared.now sinks.old caller }
    ensures { IsFlown S.calls S.guarantee C.checked shared.now.task.now
        sinks.old sinks.new result }
{
    let mut caller = caller;
    caller.start_verifiers(scope, rt, alloc, shared);
    if !caller.start_walkers(scope, rt, alloc, shared) {
        caller.stop_unfed(rt, shared.queue);
        caller.join(rt, alloc);
        return caller.close_unstarted(alloc, shared, sinks);
    }
    caller.collect(rt, alloc, sinks);
    caller.stop(rt, alloc, shared.queue, sinks);
    caller.join(rt, alloc);
    caller.drain(rt, alloc, shared, sinks)
}

// Runs the scope. What its closure wrote through references is known only when the closure returns
// them, and to the caller only when this function returns them. So this is a function of its own, and
// the result of the flow is passed through a reference too.
fn flow_scoped<'a, 'b, S, C, G, R>(
    rt: &R,
    alloc: Global,
    shared: &Shared<'_, '_, G>,
    sinks: &'a mut [S],
    outcome: &'b mut Option<Outcome<C>>,
    caller: Caller<C>,
) -> (&'a mut [S], &'b mut Option<Outcome<C>>)
where
    S: Sink,
    C: Check + Send + Drop,
    G: Gate + Sync,
    R: Threads + Wait + Sync,
    requires { CanFlow S.calls C.checked shared.now sinks.old caller }
    ensures sinks { result.0.ghost_name ≡ sinks.entry.ghost_name }
    ensures outcome { result.1.ghost_name ≡ outcome.entry.ghost_name }
    ensures flown { IsSomeAnd result.1.now (IsFlown S.calls S.guarantee C.checked
        shared.now.task.now sinks.old result.0.now) }
{
    thread::scope(
        thread::scope_env(),
        rt,
        move |scope| -> (&mut [S], &mut Option<Outcome<C>>)
            requires { CanFlow S.calls C.checked shared.now sinks.now caller }
            ensures sinks { result.0.ghost_name ≡ sinks.entry.ghost_name }
            ensures outcome { result.1.ghost_name ≡ outcome.entry.ghost_name }
            ensures flown { IsSomeAnd result.1.now (IsFlown S.calls S.guarantee C.checked
                shared.entry.now.task.now sinks.entry.now result.0.now) }
        {
            *outcome = Some(flow_in(scope, rt, alloc, shared, sinks, caller));
            (sinks, outcome)
        },
    )
}

/// Exports every job into its sink, by walkers and verifiers that run together, and returns how each
/// job ended. A job ends with Start only if no verifier or no walker could be started.
pub(crate) fn flow<S, C, G, R>(
    rt: &R,
    alloc: Global,
    task: &Task<'_, '_, G>,
    sinks: &mut [S],
    prepared: Prepared<C>,
) -> Outcome<C>
where
    S: Sink,
    C: Check + Send + Drop,
    G: Gate + Sync,
    R: Threads + Wait + Sync,
    requires prepared { IsPrepared C.checked task.now.walks.now.store task.now.walks.now.jobs prepared }
    requires sinks { AreFreshSinks S.calls (length task.now.walks.now.jobs) sinks.old }
    ensures { IsFlown S.calls S.guarantee C.checked task.now sinks.old sinks.new result }
{
    let Prepared {
        queue,
        claims,
        caller,
    } = prepared;
    let shared = Shared {
        task,
        queue: &queue,
        claims: &claims,
    };
    let mut outcome = None;
    let (_, _) = flow_scoped(rt, alloc, &shared, sinks, &mut outcome, caller);
    let Some(outcome) = outcome else {
        unreachable!()
    };
    outcome
}
