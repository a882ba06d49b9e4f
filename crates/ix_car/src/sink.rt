//! Where visits with their verdicts go.

use crate::fault::SinkFault;
use ix_check::Verdict;
use ix_walk::Visit;
use std::alloc::Global;
use std::fmt;

/// How a job ended. A sink is closed with it before its bytes are flushed: in a run's report, an end
/// whose flush fails is `Write`.
#[derive(Debug, Drop, Clone, Copy, PartialEq, Eq)]
pub enum End {
    /// Every visit was delivered.
    Done,
    /// As many visits were delivered as the link budget allows, and there are more.
    Limit,
    /// Out of memory.
    Memory,
    /// A delivery was rejected since a write failed.
    Write,
    /// The job was never started.
    Start,
}

/// Writes the end as the report's word for it.
impl fmt::Display for End {
    ghost use Rattle.std.specs.Prelude.{Some};
    ghost use Rattle.ix_car.specs.EndWords.{end_word};

    ghost output = { λ e. Some (end_word e) };

    fn fmt<W: fmt::Write>(&self, f: &mut fmt::Formatter<W>) -> fmt::Result {
        match self {
            End::Done => f.write_str("done"),
            End::Limit => f.write_str("limit"),
            End::Memory => f.write_str("memory"),
            End::Write => f.write_str("write"),
            End::Start => f.write_str("start"),
        }
    }
}

/// A visit with its verdict.
#[derive(Debug, Drop)]
pub struct Delivery {
    pub visit: Visit,
    pub verdict: Verdict,
}

/// A sink: accepts the deliveries of one job in order, and then one close.
///
/// Contracts see what a sink was called with: a list of events, and the delivery that failed. A
/// delivery that is rejected is no event. If its write failed it is recorded as the one that failed,
/// and from then on only a close may come. The guarantee of a sink is what it guarantees of itself
/// for good, such as that an archive has written what it should: it is about what the sink was made
/// with, a store, a job and the bytes that its writer had at first, and no call breaks it.
pub trait Sink {
    ghost use Rattle.std.specs.Prelude.{◌≡◌, ◌++◌, ◌∷◌, [], OnOk, OnErr, IfErr, List, ℕ, Option, Err};
    ghost use Rattle.ix_store.specs.Store.{Blocks};
    ghost use Rattle.ix_walk.specs.JobMeaning.{JobMeaning};
    ghost use Rattle.ix_car.specs.declared.fault.SinkFault.TheVariants.{Memory};
    ghost use Rattle.ix_car.specs.Events.{Calls, delivered, with_verdict, close as closing, IsOpen, IsRefusal};
    ghost use Rattle.ix_car.specs.Headline.{Keeps};

    /// What a sink was called with: the deliveries that were accepted and the close, in order, and
    /// the deliveries at which a write failed.
    ghost calls: { Self → Calls };

    /// What a sink is made with, besides its store, its job and its writer.
    ghost About: { Type 0 };

    /// What a sink guarantees of itself for good, over what it was made with, a store, a job and the
    /// bytes that its writer had at first, if they are known.
    ghost guarantee: { Self → About → Blocks → JobMeaning → Option (List ℕ) → Type 0 };

    /// Accepts a visit with its verdict, which is then the last event. It may be called until the
    /// close and until a write fails. After an error the events are unchanged, and if memory ran
    /// out so is the whole sink.
    fn deliver(&mut self, alloc: Global, visit: Visit, verdict: Verdict) -> Result<(), SinkFault>
        requires open { IsOpen (calls self.old).events }
        requires unfailed { (calls self.old).failed ≡ [] }
        ensures ok { OnOk result ((calls self.new).events ≡ (calls self.old).events ++ delivered visit verdict ∷ []) }
        ensures ok_failed { OnOk result ((calls self.new).failed ≡ []) }
        ensures err { OnErr result ((calls self.new).events ≡ (calls self.old).events) }
        ensures refused { IfErr result (λ e. IsRefusal e (with_verdict visit verdict) (calls self.new).failed) }
        ensures memory { result ≡ Err Memory → self.new ≡ self.old }
        ensures kept { Keeps guarantee self.old self.new };

    /// Closes the sink with the job's end, which is the last event. It may be called once, also
    /// after a failed write.
    fn close(&mut self, end: End)
        requires { IsOpen (calls self.old).events }
        ensures closed { (calls self.new).events ≡ (calls self.old).events ++ closing end ∷ [] }
        ensures failed { (calls self.new).failed ≡ (calls self.old).failed }
        ensures kept { Keeps guarantee self.old self.new };
}
