//! The single-threaded exporter.

ghost use Rattle.std.specs.Prelude.{◌≡◌, [], length, IfOk, OnErr};
ghost use Rattle.ix_walk.specs.JobMeaning.{AreFew};
ghost use Rattle.ix_check.specs.Visits.{IsVisitOf};
ghost use Rattle.ix_pipeline.specs.Progress.{told_by, CanHand, HandsOnTo, DeliversTo, IsWalked, Exports, end_of};
ghost use Rattle.ix_pipeline.specs.Headline.{EachDelivered, EachArchived, Keeps, EachKept, EachFresh};
ghost use Rattle.ix_pipeline.specs.Headline.{IsCheckedOnce, NoneIsStart};

use crate::sink_state::SinkState;
use ix_car::{End, Sink, SinkFault, law};
use ix_check::{Check, Verdict};
use ix_store::Store;
use ix_walk::{Job, Visit, Walk, WalkStop};
use std::alloc::{AllocError, Global};

/// Exports every job into its sink, on one thread, and returns how each job ended. Each visit of a job
/// is checked once and, as long as no write failed, delivered with its verdict. After the last visit
/// the sink is closed. An `Err` means that memory ran out before the first event.
pub fn export_plain<S: Sink, C: Check>(
    alloc: Global,
    store: &Store,
    jobs: &[Job],
    sinks: &mut [S],
    check: &mut C,
) -> Result<Vec<End>, AllocError>
    requires sinks { length sinks.old ≡ length jobs.now }
    requires fresh { EachFresh S.calls sinks.old }
    requires unused { C.checked check.old ≡ [] }
    requires jobs { AreFew jobs.now }
    ensures delivered { IfOk result (λ ends.
        EachDelivered S.calls store.now 0 jobs.now ends.items sinks.new) }
    ensures archived { IfOk result (λ ends.
        EachArchived S.calls store.now 0 jobs.now ends.items sinks.new) }
    ensures started { IfOk result (λ ends. NoneIsStart ends.items) }
    ensures facts { EachKept S.guarantee sinks.old sinks.new }
    ensures checked { IfOk result (λ ends.
        IsCheckedOnce S.calls store.now jobs.now ends.items sinks.new (C.checked check.new)) }
    ensures untouched { OnErr result ((sinks.new ≡ sinks.old) × (C.checked check.new ≡ [])) }
{
    let mut ends = Vec::with_capacity(alloc, jobs.len())?;
    for (number, sink) in sinks.iter_mut().enumerate() {
        let end = export_job(alloc, store, &jobs[number], number as u32, sink, check);
        ends.push_reserved(end);
    }
    law::faithful_is_archived();
    Ok(ends)
}

// Exports one job, and closes its sink.
fn export_job<S: Sink, C: Check>(
    alloc: Global,
    store: &Store,
    job: &Job,
    number: u32,
    sink: &mut S,
    check: &mut C,
) -> End
    requires events { (S.calls sink.old).events ≡ [] }
    requires failed { (S.calls sink.old).failed ≡ [] }
    ensures exported { Exports store.now number job.now result
        (S.calls sink.new) (C.checked check.old) (C.checked check.new) }
    ensures kept { Keeps S.guarantee sink.old sink.new }
{
    let end = walk_job(alloc, store, job, number, sink, check).unwrap_or(End::Memory);
    sink.close(end);
    end
}

// Walks a job and handles each of its visits. Returns how the job ends; if memory runs out, it ends at
// once.
fn walk_job<S: Sink, C: Check>(
    alloc: Global,
    store: &Store,
    job: &Job,
    number: u32,
    sink: &mut S,
    check: &mut C,
) -> Result<End, AllocError>
    requires events { (S.calls sink.old).events ≡ [] }
    requires failed { (S.calls sink.old).failed ≡ [] }
    ensures walked { IsWalked store.now number job.now (end_of result) (C.checked check.old)
        (told_by S.calls C.checked sink.new check.new) }
    ensures kept { Keeps S.guarantee sink.old sink.new }
{
    let mut state = SinkState::Taking;
    for item in Walk::new(alloc, store, job, number)? {
        match item {
            Ok(visit) => state = hand_on(alloc, store, visit, state, sink, check)?,
            Err(WalkStop::Limit) => return Ok(state.end(End::Limit)),
            Err(WalkStop::Memory) => return Err(AllocError),
        }
    }
    Ok(state.end(End::Done))
}

// Checks a visit, and delivers it with its verdict if no write failed so far. Returns what happens to
// the visits after it.
fn hand_on<S: Sink, C: Check>(
    alloc: Global,
    store: &Store,
    visit: Visit,
    state: SinkState,
    sink: &mut S,
    check: &mut C,
) -> Result<SinkState, AllocError>
    requires visit { IsVisitOf store.now visit }
    requires can { CanHand state (S.calls sink.old) }
    ensures { HandsOnTo S.calls S.guarantee C.checked store.now visit state
        sink.old check.old result sink.new check.new }
{
    let verdict = check.check(alloc, store, &visit)?;
    deliver_one(alloc, visit, verdict, state, sink)
}

// Delivers a visit with its verdict if no write failed so far. Returns what happens to the visits after
// it.
fn deliver_one<S: Sink>(
    alloc: Global,
    visit: Visit,
    verdict: Verdict,
    state: SinkState,
    sink: &mut S,
) -> Result<SinkState, AllocError>
    requires can { CanHand state (S.calls sink.old) }
    ensures { DeliversTo S.calls S.guarantee (record { visit = visit; verdict = verdict }) state
        sink.old result sink.new }
{
    if state == SinkState::Failed {
        return Ok(state);
    }
    match sink.deliver(alloc, visit, verdict) {
        Ok(()) => Ok(SinkState::Taking),
        Err(SinkFault::Write) => Ok(SinkState::Failed),
        Err(SinkFault::Memory) => Err(AllocError),
    }
}
