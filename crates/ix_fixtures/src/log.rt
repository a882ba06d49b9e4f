//! A sink that records what it receives.

ghost use Rattle.std.specs.Prelude.{◌≡◌, ◌≤◌, ◌++◌, [], map, option_to_list, vec_capacity, IfOk};
ghost use Rattle.ix_car.specs.Events.{delivery, close as closing};

use ix_car::{Delivery, End, Sink, SinkFault};
use ix_check::Verdict;
use ix_walk::Visit;
use std::alloc::{AllocError, Global};

/// Records what it receives, for which room was allocated, and fails to write once it has so many deliveries.
#[derive(Drop)]
pub struct Log {
    room: usize,
    /// The deliveries, as they came.
    pub deliveries: Vec<Delivery>,
    /// The delivery that it failed to write.
    pub failed: Option<Delivery>,
    /// The end with which it was closed.
    pub closed: Option<End>,
    ghost reserved: { room ≤ vec_capacity deliveries },
}

impl Log {
    /// Makes a log that has received nothing, with room for so many deliveries.
    pub fn new(alloc: Global, room: usize) -> Result<Log, AllocError>
        ensures events { IfOk result (λ s. map delivery s.deliveries.items
            ++ map closing (option_to_list s.closed) ≡ []) }
        ensures failed { IfOk result (λ s. option_to_list s.failed ≡ []) }
    {
        Ok(Log {
            room,
            deliveries: Vec::with_capacity(alloc, room)?,
            failed: None,
            closed: None,
        })
    }
}

impl Sink for Log {
    ghost use Rattle.std.specs.Prelude.{◌++◌, map, option_to_list};
    ghost use Rattle.ix_car.specs.Events.{delivery, close as closing};

    ghost calls = { λ s. record {
      events = map delivery s.deliveries.items ++ map closing (option_to_list s.closed);
      failed = option_to_list s.failed;
    } };

    ghost About = { Unit {0} };

    ghost guarantee = { λ _ _ _ _ _. Unit {0} };

    fn deliver(&mut self, _alloc: Global, visit: Visit, verdict: Verdict) -> Result<(), SinkFault> {
        let delivery = Delivery { visit, verdict };
        if self.deliveries.len() < self.room {
            self.deliveries.push_reserved(delivery);
            return Ok(());
        }
        self.failed = Some(delivery);
        Err(SinkFault::Write)
    }

    fn close(&mut self, end: End) {
        self.closed = Some(end);
    }
}
