//! The queue: bounded, shared by all walkers and verifiers, with the invariant of
//! `specs/QueueState.antt`.

ghost use Rattle.std.specs.Prelude.{◌≡◌, OnOk, IfErr, IfSome, IfNone};
ghost use Rattle.std.specs.Bool.{OnTrue, OnFalse};
ghost use Rattle.ix_stages.specs.declared.item.Item.{Item};
ghost use Rattle.ix_stages.specs.PassViews.{after_put};
ghost use Rattle.ix_stages.specs.Seats.{IsSameSeat, HasPut, HasTaken, IsTake, closed_after};
ghost use Rattle.ix_stages.specs.Queue.{IsOfQueue, MayPut};

use crate::backoff::Backoff;
use crate::item::Item;
use crate::pass_view::PassView;
use crate::rule::{Puts, Takes, VisitRule};
use crate::seats::{JobSeat, StopSeat, TakeSeat};
use crossbeam_queue::RuledArrayQueue;
use std::sync::Wait;

pub(crate) type RuledQueue = RuledArrayQueue<Item, PassView, VisitRule>;

/// A bounded queue of visits, closes and Stops, from walkers to verifiers.
#[derive(Drop)]
pub struct VisitQueue {
    pub(crate) ruled: RuledQueue,
}

// Whether the item closes its job.
fn is_close(item: &Item) -> bool
    ensures { result ≡ closed_after item.now }
{
    match item {
        Item::Close { .. } => true,
        _ => false,
    }
}

impl VisitQueue {
    /// Puts the next item of the seat's job, or returns it if the queue was full.
    pub fn try_put<R: Wait>(&self, rt: &R, seat: &mut JobSeat, item: Item) -> Result<(), Item>
        requires { MayPut self.now seat.old item }
        ensures same { IsSameSeat seat.old seat.new }
        ensures put { OnOk result (HasPut seat.old item seat.new) }
        ensures full { IfErr result (λ back. (back ≡ item) × (seat.new ≡ seat.old)) }
    {
        let closes = is_close(&item);
        match self.ruled.push_as::<Puts, R>(rt, &mut seat.pass, item) {
            Ok(()) => {
                if closes {
                    seat.closed = true;
                } else {
                    seat.next += 1;
                }
                Ok(())
            }
            Err(back) => Err(back),
        }
    }

    /// Takes the item at the front, if there is one.
    pub fn try_take<R: Wait>(&self, rt: &R, taker: &mut TakeSeat) -> Option<Item>
        requires { IsOfQueue self.now taker.old.table }
        ensures same { taker.new.table ≡ taker.old.table }
        ensures taken { IfSome result (λ x. IsTake taker.old.pass x taker.new.pass) }
        ensures none { IfNone result (taker.new.pass ≡ taker.old.pass) }
    {
        self.ruled.pop_as::<Takes, R>(rt, &mut taker.pass)
    }
}

impl VisitQueue {
    /// Puts the item, and waits for room.
    pub fn put<R: Wait>(&self, rt: &R, seat: &mut JobSeat, item: Item)
        requires { MayPut self.now seat.old item }
        ensures same { IsSameSeat seat.old seat.new }
        ensures put { HasPut seat.old item seat.new }
    {
        let mut item = item;
        let mut backoff = Backoff::new();
        for _ in rt.forever() {
            match self.try_put(rt, seat, item) {
                Ok(()) => return,
                Err(back) => item = back,
            }
            backoff.snooze(rt);
        }
        unreachable!()
    }

    /// Takes an item, and waits for one.
    pub fn take<R: Wait>(&self, rt: &R, taker: &mut TakeSeat) -> Item
        requires { IsOfQueue self.now taker.old.table }
        ensures taken { HasTaken taker.old result taker.new }
    {
        let mut backoff = Backoff::new();
        for _ in rt.forever() {
            if let Some(item) = self.try_take(rt, taker) {
                return item;
            }
            backoff.snooze(rt);
        }
        unreachable!()
    }

    /// Puts one Stop. Returns false, and puts nothing, only if the queue was full.
    pub fn try_stop<R: Wait>(&self, rt: &R, stop: &mut StopSeat) -> bool
        requires { IsOfQueue self.now stop.old.table }
        ensures same { stop.new.table ≡ stop.old.table }
        ensures put { OnTrue result (stop.new.pass ≡ after_put stop.old.pass Item.Stop) }
        ensures full { OnFalse result (stop.new.pass ≡ stop.old.pass) }
    {
        self.ruled
            .push_as::<Puts, R>(rt, &mut stop.pass, Item::Stop)
            .is_ok()
    }
}
