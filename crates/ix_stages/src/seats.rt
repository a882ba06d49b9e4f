//! The seats: a thread's handles for the queue, each a pass with what it may do.

ghost use Rattle.std.specs.Prelude.{◌≡◌};

use crate::item::Item;
use crate::pass_view::PassView;
use crossbeam_queue::Pass;
use std::marker::Model;

/// The producer's handle for one job: it alone puts the job's items.
#[derive(Drop)]
pub struct JobSeat {
    pub(crate) pass: Pass<Item, PassView>,
    pub(crate) job: u32,
    pub(crate) next: u32,
    pub(crate) closed: bool,
}

impl Model for JobSeat {
    ghost use Rattle.std.specs.Prelude.{◌≡◌, []};
    ghost use Rattle.ix_stages.specs.Seats.{JobView, IsJobPass};

    ghost Value = { JobView };

    ghost view = { λ s. record { table = s.pass.table_id; pass = s.pass.me.0.client; job = s.job; next = s.next; closed = s.closed } };

    ghost invariant = { λ s. (s.pass.me.1 ≡ []) × IsJobPass s.pass.me.0.client s.job s.next s.closed };
}

/// A consumer's handle for the queue.
#[derive(Drop)]
pub struct TakeSeat {
    pub(crate) pass: Pass<Item, PassView>,
}

impl Model for TakeSeat {
    ghost use Rattle.std.specs.Prelude.{◌≡◌, []};
    ghost use Rattle.ix_stages.specs.Seats.{SeatView, IsTakePass};

    ghost Value = { SeatView };

    ghost view = { λ s. record { table = s.pass.table_id; pass = s.pass.me.0.client } };

    ghost invariant = { λ s. (s.pass.me.1 ≡ []) × IsTakePass s.pass.me.0.client };
}

/// The stopper's handle: it puts Stops.
#[derive(Drop)]
pub struct StopSeat {
    pub(crate) pass: Pass<Item, PassView>,
}

impl Model for StopSeat {
    ghost use Rattle.std.specs.Prelude.{◌≡◌, []};
    ghost use Rattle.ix_stages.specs.Seats.{SeatView, IsStopPass};

    ghost Value = { SeatView };

    ghost view = { λ s. record { table = s.pass.table_id; pass = s.pass.me.0.client } };

    ghost invariant = { λ s. (s.pass.me.1 ≡ []) × IsStopPass s.pass.me.0.client };
}

/// The handle that remains when seats are joined: it takes what is left in the queue.
#[derive(Drop)]
pub struct Rest {
    pub(crate) pass: Pass<Item, PassView>,
}

impl Model for Rest {
    ghost use Rattle.std.specs.Prelude.{◌≡◌, []};
    ghost use Rattle.ix_stages.specs.Seats.{SeatView, IsRestPass};

    ghost Value = { SeatView };

    ghost view = { λ s. record { table = s.pass.table_id; pass = s.pass.me.0.client } };

    ghost invariant = { λ s. (s.pass.me.1 ≡ []) × IsRestPass s.pass.me.0.client };
}

impl JobSeat {
    /// The number of its job.
    pub fn job(&self) -> u32
        ensures { result ≡ self.now.job }
    {
        self.job
    }

    /// The number of the next item that it puts.
    pub fn next(&self) -> u32
        ensures { result ≡ self.now.next }
    {
        self.next
    }

    /// Whether it has put the close of its job.
    pub fn closed(&self) -> bool
        ensures { result ≡ self.now.closed }
    {
        self.closed
    }
}
