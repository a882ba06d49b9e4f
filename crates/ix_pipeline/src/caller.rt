//! The caller of a flow: it starts the threads, receives while they run, stops and joins the
//! verifiers, and receives the rest.

ghost use Rattle.std.specs.Prelude.{◌≡◌, ◌≤◌, [], All, length, vec_len, IfOk};
ghost use Rattle.ix_car.specs.declared.sink.End.TheVariants.{Start};
ghost use Rattle.ix_car.specs.Headline.{EachKept};
ghost use Rattle.ix_stages.specs.Claims.{IsOfClaims};
ghost use Rattle.ix_stages.specs.Course.{course_of};
ghost use Rattle.ix_stages.specs.Lanes.{all_received};
ghost use Rattle.ix_stages.specs.Queue.{IsOfQueue};
ghost use Rattle.ix_stages.specs.Settled.{taken_by};
ghost use Rattle.ix_pipeline.specs.Collected.{IsDone, IsUnused, job_count};
ghost use Rattle.ix_stages.specs.Shared.{store_of, jobs_of, queue_of};
ghost use Rattle.ix_stages.specs.Walking.{AreReady};
ghost use Rattle.ix_pipeline.specs.Caller.{CanDrain, CanStart, HasJoinRoom, HasJoined, HasRoom, IsRoomFor};
ghost use Rattle.ix_pipeline.specs.Caller.{Gathers, IsAnsweredWell, IsSeatOf, IsStarted, IsTold, Joins, Stops};
ghost use Rattle.ix_pipeline.specs.Closed.{EachClosed};
ghost use Rattle.ix_pipeline.specs.Flowing.{AreVisitsOnce, IsFlown};
ghost use Rattle.ix_pipeline.specs.Sinks.{AreFreshSinks, CanCloseAll};

use crate::flowing::Outcome;
use crate::verifying::{StartFacts, Verifier, start_verifier};
use crate::walking::start_walker;
use crate::{Collector, drain_all, law, poll_lanes};
use ix_car::{End, Sink};
use ix_check::Check;
use ix_stages::{
    Backoff, ClaimSeat, Gate, JobSeat, LaneIn, LaneOut, Shared, StopSeat, TakeSeat, VisitQueue,
};
use std::alloc::{AllocError, Global};
use std::mem;
use std::sync::Wait;
use std::thread::{PromisedHandle, Scope, Threads};

/// The caller of a flow: the threads that it starts, what it receives with, and room for what the
/// verifiers give back.
#[derive(Drop)]
pub(crate) struct Caller<C: Check + Drop> {
    // The walkers' handles on the claims, until the walkers are started.
    claimers: Vec<ClaimSeat<JobSeat>>,
    /// The verifiers until they are started, each with the receiver of its lane.
    pub unstarted: Vec<(Verifier<C>, LaneOut)>,
    // The running verifiers, and the receivers of their lanes in the same order.
    verifiers: Vec<PromisedHandle<Verifier<C>, StartFacts<C>>>,
    lanes: Vec<LaneOut>,
    collector: Collector,
    // The seat that stops the verifiers.
    stop: StopSeat,
    // What the joined verifiers gave back: their seats, the senders of their lanes and their checks.
    takers: Vec<TakeSeat>,
    senders: Vec<LaneIn>,
    checks: Vec<C>,
    // Room for how each job ended.
    ends: Vec<End>,
}

// Backs off further, or resets the backoff if something came.
fn backoff_unless<R: Wait>(rt: &R, backoff: &mut Backoff, progress: bool) {
    if progress {
        *backoff = Backoff::new();
    } else {
        backoff.snooze(rt);
    }
}

// Puts Stops while the queue has room and fewer were put than there are verifiers. Returns how many
// were put so far.
fn send_stops<R: Wait>(
    rt: &R,
    queue: &VisitQueue,
    seat: &mut StopSeat,
    stops: usize,
    verifiers: usize,
) -> usize
    requires { IsOfQueue queue.now seat.old.table }
    ensures { IsSeatOf seat.old seat.new }
{
    for put in stops..verifiers {
        if !queue.try_stop(rt, seat) {
            return put;
        }
    }
    verifiers
}

// Joins the seats of the queue. What was sent for the items they took is then known to be good.
fn settle<G>(alloc: Global, shared: &Shared<'_, '_, G>, stop: StopSeat, takers: Vec<TakeSeat>)
    requires limits { All (λ job. job.limit ≤ 4294967295) (jobs_of shared.now) }
    requires stop { stop.table ≡ queue_of shared.now }
    requires course { stop.pass.course ≡ course_of (store_of shared.now) (jobs_of shared.now) }
    requires takers { All (λ s. s.table ≡ queue_of shared.now) takers.items }
    ensures { IsAnsweredWell shared.now (taken_by takers.items) }
{
    drop(shared.queue.settle(Vec::new(alloc), stop, takers));
    ix_stages::law::well_taken_is_good();
    law::sent_for_good();
}

// Closes every sink with one end.
fn close_all<S: Sink>(sinks: &mut [S], end: End, ends: Vec<End>) -> Vec<End>
    requires { CanCloseAll S.calls sinks.old ends }
    ensures closed { EachClosed S.calls end result.items sinks.new }
    ensures facts { EachKept S.guarantee sinks.old sinks.new }
{
    let mut ends = ends;
    for sink in sinks.iter_mut() {
        sink.close(end);
        ends.push_reserved(end);
    }
    ends
}

impl<C: Check + Drop> Caller<C> {
    /// Allocates a collector for so many jobs, and room for so many verifiers, of which none is there.
    pub(crate) fn new(
        alloc: Global,
        claimers: Vec<ClaimSeat<JobSeat>>,
        stop: StopSeat,
        jobs: u32,
        verifiers: usize,
    ) -> Result<Caller<C>, AllocError>
        ensures given { IfOk result (λ d. (d.claimers ≡ claimers) × (d.stop ≡ stop)) }
        ensures none { IfOk result (λ d. IsRoomFor verifiers d.unstarted) }
        ensures room { IfOk result (HasRoom jobs verifiers) }
    {
        Ok(Caller {
            claimers,
            unstarted: Vec::with_capacity(alloc, verifiers)?,
            verifiers: Vec::with_capacity(alloc, verifiers)?,
            lanes: Vec::with_capacity(alloc, verifiers)?,
            collector: Collector::new(alloc, jobs)?,
            stop,
            takers: Vec::with_capacity(alloc, verifiers)?,
            senders: Vec::with_capacity(alloc, verifiers)?,
            checks: Vec::with_capacity(alloc, verifiers)?,
            ends: Vec::with_capacity(alloc, jobs as usize)?,
        })
    }

    /// Starts the verifiers. The inputs of those that can't be started are lost.
    pub(crate) fn start_verifiers<'s, 'e, R, G>(
        &mut self,
        scope: &'s Scope<'s, &'e ()>,
        rt: &'e R,
        alloc: Global,
        shared: &'e Shared<'e, '_, G>,
    )
    where
        R: Threads + Wait + Sync + 'e,
        C: Send + 'e,
        requires { CanStart C.checked shared.now self.old }
        ensures started { IsStarted C.checked shared.now self.new }
        ensures claimers { self.new.claimers ≡ self.old.claimers }
    {
        for (verifier, lane) in mem::replace(&mut self.unstarted, Vec::new(alloc)) {
            let store = shared.task.walks.store();
            if let Some(handle) = start_verifier(scope, rt, alloc, store, shared.queue, verifier) {
                self.verifiers.push_reserved(handle);
                self.lanes.push_reserved(lane);
            }
        }
    }

    /// Starts the walkers, if a verifier runs. Returns whether a walker was started.
    pub(crate) fn start_walkers<'s, 'e, R, G>(
        &mut self,
        scope: &'s Scope<'s, &'e ()>,
        rt: &'e R,
        alloc: Global,
        shared: &'e Shared<'e, '_, G>,
    ) -> bool
    where
        R: Threads + Wait + Sync + 'e,
        G: Gate + Sync + 'e,
        requires seats { AreReady shared.now }
        requires claimers { All (IsOfClaims shared.now.claims.now) self.old.claimers.items }
        requires started { IsStarted C.checked shared.now self.old }
        ensures { IsStarted C.checked shared.now self.new }
    {
        if self.verifiers.is_empty() {
            return false;
        }
        let mut started = false;
        for claimer in mem::replace(&mut self.claimers, Vec::new(alloc)) {
            started |= start_walker(scope, rt, alloc, shared, claimer);
        }
        started
    }

    /// Receives, from the first item on, until every sink is closed. It checks for that only when
    /// nothing came.
    pub(crate) fn collect<R: Wait, S: Sink>(&mut self, rt: &R, alloc: Global, sinks: &mut [S])
        requires sinks { AreFreshSinks S.calls (job_count self.old.collector) sinks.old }
        requires unused { IsUnused self.old.collector × (all_received self.old.lanes.items ≡ []) }
        ensures on { Gathers S.calls S.guarantee self.old self.new sinks.old sinks.new }
        ensures done { IsDone self.new.collector }
    {
        law::unused_has_collected_nothing::<S>();
        let mut backoff = Backoff::new();
        let mut idle = true;
        for _ in rt.forever() {
            if idle && self.collector.is_done() {
                return;
            }
            let received = poll_lanes(alloc, &mut self.collector, self.lanes.as_mut_slice(), sinks);
            idle = received.items == 0;
            backoff_unless(rt, &mut backoff, !idle);
        }
        unreachable!()
    }

    /// Puts a Stop for each verifier, and goes on receiving until each has sent its last item, so that
    /// nobody waits for ever at a full queue or lane. Every sink was closed by `collect`, so no item is
    /// too far ahead.
    pub(crate) fn stop<R: Wait, S: Sink>(
        &mut self,
        rt: &R,
        alloc: Global,
        queue: &VisitQueue,
        sinks: &mut [S],
    )
        requires stop { IsOfQueue queue.now self.old.stop.table }
        requires told { IsTold S.calls self.old sinks.old }
        ensures { Gathers S.calls S.guarantee self.old self.new sinks.old sinks.new }
    {
        let verifiers = self.verifiers.len();
        let mut backoff = Backoff::new();
        let mut stops = 0usize;
        let mut ended_lanes = 0usize;
        for _ in rt.forever() {
            if ended_lanes >= verifiers {
                return;
            }
            stops = send_stops(rt, queue, &mut self.stop, stops, verifiers);
            let received = poll_lanes(alloc, &mut self.collector, self.lanes.as_mut_slice(), sinks);
            ended_lanes = ended_lanes.saturating_add(received.ended_lanes);
            backoff_unless(rt, &mut backoff, received.items > 0);
        }
        unreachable!()
    }

    /// Puts a Stop for each verifier, when no walker has put anything: each takes one, and its lane has
    /// room for what it then sends.
    pub(crate) fn stop_unfed<R: Wait>(&mut self, rt: &R, queue: &VisitQueue)
        requires { IsOfQueue queue.now self.old.stop.table }
        ensures { Stops self.old self.new }
    {
        let verifiers = self.verifiers.len();
        let mut backoff = Backoff::new();
        let mut stops = 0usize;
        for _ in rt.forever() {
            if stops >= verifiers {
                return;
            }
            stops = send_stops(rt, queue, &mut self.stop, stops, verifiers);
            backoff.snooze(rt);
        }
        unreachable!()
    }

    /// Joins the verifiers, and keeps what they give back.
    pub(crate) fn join<R: Threads>(&mut self, rt: &R, alloc: Global)
        requires { HasJoinRoom (vec_len self.old.verifiers) self.old }
        ensures { Joins C.checked self.old self.new }
    {
        for handle in mem::replace(&mut self.verifiers, Vec::new(alloc)) {
            let Verifier { seat, lane, check } = handle.join(rt);
            self.takers.push_reserved(seat);
            self.senders.push_reserved(lane);
            self.checks.push_reserved(check);
        }
    }

    /// Receives what is left in the lanes, whose senders are all back. Returns how the flow ended.
    pub(crate) fn drain<R: Wait, S: Sink, G>(
        self,
        rt: &R,
        alloc: Global,
        shared: &Shared<'_, '_, G>,
        sinks: &mut [S],
    ) -> Outcome<C>
        requires joined { HasJoined C.checked shared.now self }
        requires can { CanDrain S.calls (length (jobs_of shared.now)) self sinks.old }
        ensures { IsFlown S.calls S.guarantee C.checked shared.now.task.now
            sinks.old sinks.new result }
    {
        let Caller {
            mut lanes,
            mut collector,
            stop,
            takers,
            mut senders,
            checks,
            ends,
            ..
        } = self;
        settle(alloc, shared, stop, takers);
        let (senders, lanes) = (senders.as_mut_slice(), lanes.as_mut_slice());
        drain_all(rt, alloc, &mut collector, senders, lanes, sinks);
        let ends = collector.ends(ends);
        law::collected_is_exported::<S>();
        Outcome { checks, ends }
    }

    /// Closes every sink with Start, when no walker has put anything. Returns how the flow ended.
    pub(crate) fn close_unstarted<S: Sink, G>(
        self,
        alloc: Global,
        shared: &Shared<'_, '_, G>,
        sinks: &mut [S],
    ) -> Outcome<C>
        requires joined { HasJoined C.checked shared.now self }
        requires sinks { AreFreshSinks S.calls (length (jobs_of shared.now)) sinks.old }
        ensures closed { EachClosed S.calls Start result.ends.items sinks.new }
        ensures checks { AreVisitsOnce C.checked shared.now.task.now result.checks.items }
        ensures facts { EachKept S.guarantee sinks.old sinks.new }
    {
        let Caller {
            stop,
            takers,
            checks,
            ends,
            ..
        } = self;
        settle(alloc, shared, stop, takers);
        law::good_is_checked_once();
        let ends = close_all(sinks, End::Start, ends);
        Outcome { checks, ends }
    }
}
