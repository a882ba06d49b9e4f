//! What was received of one job, and how far its sink has come.

ghost use Rattle.std.specs.Prelude.{◌≡◌, ◌+◌, Some, false, IfOk, IsTrue, ◌↔◌, unwrap_or};
ghost use Rattle.ix_car.specs.declared.sink.End.TheVariants.{Memory};
ghost use Rattle.ix_pipeline.specs.declared.job_progress.Stage.TheVariants.{Delivering};
ghost use Rattle.ix_pipeline.specs.declared.job_progress.WalkEnd.{WalkEnd};
ghost use Rattle.ix_pipeline.specs.Numbered.{IsFree};
ghost use Rattle.ix_pipeline.specs.JobProgress.{IsArrival, IsCloseArrival, IsItem, IsNew, IsEnded, IsMisplaced, end_of};
ghost use Rattle.ix_pipeline.specs.JobProgress.{IsNear, IsItemNear, HasRoomFor};
ghost use Rattle.ix_pipeline.specs.Steps.{HasCome, HasDelivered, HasFinished, IsHandedOn, IsNoted};
ghost use Rattle.ix_pipeline.specs.Steps.{IsDeliveringTo, IsOpenFor, IsSafeFor, KeepsOpen, KeepsSafe};

use crate::Ring;
use ix_car::{Delivery, End, Sink, SinkFault};
use ix_stages::Verdicted;
use std::alloc::{AllocError, Global};

// How many numbers from the next one on a job has room for. It bounds the memory of the job's ring,
// which could place far more.
const WINDOW: u32 = 16_384;

/// What happens to the visits of a job that are next.
#[derive(Drop, Clone, Copy, PartialEq, Eq)]
pub(crate) enum Stage {
    /// They are delivered.
    Delivering,
    /// A write failed: nothing more is delivered.
    Failed,
    /// Memory ran out: nothing more is delivered.
    Stopped,
}

/// The close of a job's walk.
#[derive(Drop, Clone, Copy)]
pub(crate) struct WalkEnd {
    pub(crate) seq: u32,
    pub(crate) end: End,
}

/// What was received of one job, and how far its sink has come.
#[derive(Drop)]
pub(crate) struct JobProgress {
    // Visits with their verdicts, and visits whose check ran out of memory, until their turn comes.
    ring: Ring<Option<Delivery>>,
    // How many items came.
    arrived: u64,
    close: Option<WalkEnd>,
    // Whether memory ran out.
    out_of_memory: bool,
    stage: Stage,
    // How the sink was closed.
    end: Option<End>,
}

// Whether `arrived` items are all of a job whose walk was closed so.
fn is_all(arrived: u64, close: WalkEnd) -> bool
    ensures { IsTrue result ↔ (arrived ≡ close.seq + 1) }
{
    arrived == u64::from(close.seq) + 1
}

impl JobProgress {
    // Creates the progress of a job of which nothing was received.
    pub(crate) fn new(alloc: Global) -> Result<JobProgress, AllocError>
        ensures { IfOk result IsNew }
    {
        let ring = Ring::new(alloc)?;
        Ok(JobProgress {
            ring,
            arrived: 0,
            close: None,
            out_of_memory: false,
            stage: Stage::Delivering,
            end: None,
        })
    }

    // Whether the job has room for an item. A visit that is too far ahead has none, as long as visits
    // are delivered. A job that delivers nothing more leaves its ring where it is, while its items go
    // on arriving: they are only counted, so there is room for each.
    pub(crate) fn has_room(&self, item: &Verdicted) -> bool
        ensures { IsTrue result ↔ HasRoomFor self.now item.now }
    {
        if self.end.is_some() || self.stage != Stage::Delivering {
            return true;
        }
        let seq = match item {
            Verdicted::Checked { visit, .. } => visit.seq,
            Verdicted::Unchecked { seq, .. } => *seq,
            Verdicted::Close { .. } | Verdicted::Last => return true,
        };
        u64::from(seq) < self.ring.next() + u64::from(WINDOW)
    }

    // Accepts a visit: with its verdict, or without if its check ran out of memory. Returns false
    // if its number is unexpected.
    fn accept_visit(&mut self, seq: u32, delivery: Option<Delivery>) -> bool
        requires near { IsNear self.old seq }
        ensures misplaced { self.old.stage ≡ Delivering → (IsFree self.old.ring seq → ⊥) → result ≡ false }
        ensures taken { IsNoted (λ all over. IsArrival all seq delivery) self.old result self.new }
    {
        self.arrived = self.arrived.saturating_add(1);
        self.out_of_memory |= delivery.is_none();
        if self.stage != Stage::Delivering {
            return true;
        }
        let Err(fault) = self.ring.place(seq, delivery) else {
            return true;
        };
        if !fault.is_memory() {
            return false;
        }
        self.out_of_memory = true;
        self.stage = Stage::Stopped;
        true
    }

    // Accepts the close of the job's walk. Returns false if it is a second one.
    fn accept_close(&mut self, seq: u32, end: End) -> bool
        ensures second { (w : WalkEnd) → self.old.close ≡ Some w → result ≡ false }
        ensures noted { IsNoted (λ all over. IsCloseArrival all over seq end) self.old result self.new }
    {
        self.arrived = self.arrived.saturating_add(1);
        if self.close.is_some() {
            return false;
        }
        self.out_of_memory |= end == End::Memory;
        self.close = Some(WalkEnd { seq, end });
        true
    }

    // Delivers the visit that came out of the ring, or stops at one without a verdict.
    fn deliver_one<S: Sink>(&mut self, alloc: Global, delivery: Option<Delivery>, sink: &mut S)
        requires { IsDeliveringTo S.calls self.old sink.old }
        ensures ring { self.new.ring ≡ self.old.ring }
        ensures kept { KeepsOpen S.calls S.guarantee self.new sink.old sink.new }
        ensures handed { IsHandedOn S.calls delivery self.old sink.old self.new sink.new }
    {
        let Some(Delivery { visit, verdict }) = delivery else {
            self.stage = Stage::Stopped;
            return;
        };
        match sink.deliver(alloc, visit, verdict) {
            Ok(()) => {}
            Err(SinkFault::Write) => self.stage = Stage::Failed,
            Err(SinkFault::Memory) => {
                self.out_of_memory = true;
                self.stage = Stage::Stopped;
            }
        }
    }

    // Delivers what is next, as long as there is something.
    fn deliver<S: Sink>(&mut self, alloc: Global, sink: &mut S)
        requires open { IsOpenFor S.calls self.old sink.old }
        ensures kept { KeepsOpen S.calls S.guarantee self.new sink.old sink.new }
        ensures delivered { HasDelivered S.calls self.old sink.old self.new sink.new }
    {
        while self.stage == Stage::Delivering {
            let Some(delivery) = self.ring.pop() else {
                return;
            };
            self.deliver_one(alloc, delivery, sink);
        }
    }

    // Closes the sink, if all has arrived, and frees the ring's memory.
    fn finish<S: Sink>(&mut self, sink: &mut S)
        requires open { IsOpenFor S.calls self.old sink.old }
        ensures kept { KeepsSafe S.calls S.guarantee self.new sink.old sink.new }
        ensures finished { HasFinished S.calls self.old sink.old self.new sink.new }
    {
        let Some(close) = self.close else {
            return;
        };
        if !is_all(self.arrived, close) {
            return;
        }
        let end = self.end_at(close.end);
        sink.close(end);
        self.end = Some(end);
        self.ring.shrink_to_fit();
    }

    // Returns how a job ends whose walk ended with `end`.
    fn end_at(&self, end: End) -> End
        ensures { result ≡ end_of self.now.out_of_memory self.now.stage end }
    {
        if self.out_of_memory {
            return End::Memory;
        }
        match self.stage {
            Stage::Failed => End::Write,
            _ => end,
        }
    }

    // Whether the sink was closed.
    pub(crate) fn is_ended(&self) -> bool
        ensures { IsTrue result ↔ IsEnded self.now }
    {
        self.end.is_some()
    }

    // Returns how the sink was closed, or `Memory` if it wasn't.
    pub(crate) fn end(&self) -> End
        ensures { result ≡ unwrap_or self.now.end Memory }
    {
        self.end.unwrap_or(End::Memory)
    }

    // Receives an item of the job, for which there is room. Returns false if it is unexpected.
    pub(crate) fn receive<S: Sink>(&mut self, alloc: Global, item: Verdicted, sink: &mut S) -> bool
        requires safe { IsSafeFor S.calls self.old sink.old }
        requires room { HasRoomFor self.old item }
        ensures kept { KeepsSafe S.calls S.guarantee self.new sink.old sink.new }
        ensures ended { IsEnded self.old → IsEnded self.new }
        ensures late { IsEnded self.old → result ≡ false }
        ensures misplaced { IsMisplaced self.old item → result ≡ false }
        ensures refused { result ≡ false → sink.new ≡ sink.old }
        ensures received { HasCome S.calls item self.old sink.old result self.new sink.new }
    {
        if self.end.is_some() {
            return false;
        }
        if !self.accept(item) {
            return false;
        }
        self.deliver(alloc, sink);
        self.finish(sink);
        true
    }

    // Accepts an item, whether or not it is next. Returns false if it is unexpected.
    fn accept(&mut self, item: Verdicted) -> bool
        requires near { IsItemNear self.old item }
        ensures misplaced { IsMisplaced self.old item → result ≡ false }
        ensures noted { IsNoted (λ all over. IsItem all over item) self.old result self.new }
    {
        match item {
            Verdicted::Checked { visit, verdict } => {
                let seq = visit.seq;
                self.accept_visit(seq, Some(Delivery { visit, verdict }))
            }
            Verdicted::Unchecked { seq, .. } => self.accept_visit(seq, None),
            Verdicted::Close { seq, end, .. } => self.accept_close(seq, end),
            Verdicted::Last => false,
        }
    }
}
