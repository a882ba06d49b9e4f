//! The verifier threads and what they guarantee.

ghost use Rattle.std.specs.Prelude.{IfSome};
ghost use Rattle.ix_stages.specs.Queue.{table_of};
ghost use Rattle.ix_pipeline.specs.Verifiers.{IsStartOf};
ghost use Rattle.ix_pipeline.specs.Working.{CanWork, HasWorked};

use ix_check::Check;
use ix_stages::{LaneIn, TakeSeat, VisitQueue, verify};
use ix_store::Store;
use std::alloc::Global;
use std::snapshot::Snapshot;
use std::sync::Wait;
use std::thread::{Promise, PromisedHandle, Scope, Threads};

/// The inputs of a verifier thread, which it gives back.
#[derive(Drop)]
pub(crate) struct Verifier<C> {
    pub seat: TakeSeat,
    pub lane: LaneIn,
    pub check: C,
}

/// The state with which a verifier started, for the guarantee about its result.
#[derive(Drop)]
pub(crate) struct StartFacts<C> {
    pub verifier: Snapshot<Verifier<C>>,
    pub store: Snapshot<Store>,
}

impl<C: Check> Promise<Verifier<C>> for StartFacts<C> {
    ghost use Rattle.ix_pipeline.specs.Working.{HasWorked};

    ghost kept_by = { λ p r. HasWorked C.checked p.store.value p.verifier.value r };
}

/// Starts one verifier. If no thread can be started, its inputs are lost.
pub(crate) fn start_verifier<'s, 'e, R, C>(
    scope: &'s Scope<'s, &'e ()>,
    rt: &'e R,
    alloc: Global,
    store: &'e Store,
    queue: &'e VisitQueue,
    verifier: Verifier<C>,
) -> Option<PromisedHandle<Verifier<C>, StartFacts<C>>>
where
    R: Threads + Wait + Sync + 'e,
    C: Check + Send + Drop + 'e,
    requires { CanWork store.now (table_of queue.now) verifier }
    ensures { IfSome result (IsStartOf store.now verifier) }
{
    let promise = StartFacts {
        verifier: Snapshot::of(&verifier),
        store: Snapshot::of(store),
    };
    scope
        .spawn_with(
            promise,
            move || -> Verifier<C>
                requires { CanWork store.now (table_of queue.now) verifier }
                ensures { HasWorked C.checked store.entry.now verifier result }
            {
                let mut verifier = verifier;
                let Verifier { seat, lane, check } = &mut verifier;
                verify(rt, alloc, store, queue, seat, lane, check);
                verifier
            },
        )
        .ok()
}
