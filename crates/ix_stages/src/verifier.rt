//! A verifier: takes visits, checks them and sends their verdicts.

ghost use Rattle.std.specs.Prelude.{◌≡◌, [], ◌∷◌, ◌++◌, IsTrue, ◌↔◌};
ghost use Rattle.ix_stages.specs.Course.{IsCourseOf};
ghost use Rattle.ix_stages.specs.Lanes.{sent_by, SameIn};
ghost use Rattle.ix_stages.specs.Queue.{IsOfQueue};
ghost use Rattle.ix_stages.specs.Received.{pairs_of};
ghost use Rattle.ix_stages.specs.Sent.{Answers};
ghost use Rattle.ix_stages.specs.Verified.{IsItemOf, IsStop, HasVerified};

use crate::{Backoff, Item, LaneIn, TakeSeat, Verdicted, VisitQueue};
use ix_check::Check;
use ix_store::Store;
use std::alloc::{AllocError, Global};
use std::sync::Wait;

// Returns the answer for the item. A visit is checked, once.
fn check_item<C: Check>(alloc: Global, store: &Store, check: &mut C, item: Item) -> Verdicted
    requires { IsItemOf store.now item }
    ensures answers { Answers store.now item result }
    ensures checked { C.checked check.new ≡ C.checked check.old ++ pairs_of (result ∷ []) }
{
    match item {
        Item::Visit(visit) => match check.check(alloc, store, &visit) {
            Ok(verdict) => Verdicted::Checked { visit, verdict },
            Err(AllocError) => Verdicted::Unchecked {
                job: visit.job,
                seq: visit.seq,
            },
        },
        Item::Close { job, seq, end } => Verdicted::Close { job, seq, end },
        Item::Stop => Verdicted::Last,
    }
}

// Sends the item, and waits for room in the lane.
fn send<R: Wait>(rt: &R, lane: &mut LaneIn, item: Verdicted)
    ensures same { SameIn lane.old lane.new }
    ensures sent { sent_by lane.new ≡ sent_by lane.old ++ item ∷ [] }
{
    let mut item = item;
    let mut backoff = Backoff::new();
    for _ in rt.forever() {
        match lane.try_send(item) {
            Ok(()) => return,
            Err(back) => item = back,
        }
        backoff.snooze(rt);
    }
    unreachable!()
}

// Whether the item ends the verifier.
fn is_stop(item: &Item) -> bool
    ensures { IsTrue result ↔ IsStop item.now }
{
    matches!(item, Item::Stop)
}

/// Takes items until it takes a Stop, and sends one answer for each: for a visit its verdict, for a
/// close the same close, for the Stop a `Last`. A visit whose check runs out of memory is sent
/// without a verdict.
pub fn verify<R: Wait, C: Check>(
    rt: &R,
    alloc: Global,
    store: &Store,
    queue: &VisitQueue,
    seat: &mut TakeSeat,
    lane: &mut LaneIn,
    check: &mut C,
)
    requires queue { IsOfQueue queue.now seat.old.table }
    requires course { IsCourseOf store.now seat.old.pass.course }
    ensures same { (seat.new.table ≡ seat.old.table) × SameIn lane.old lane.new }
    ensures verified { HasVerified C.checked store.now seat.old seat.new lane.old lane.new check.old check.new }
{
    for _ in rt.forever() {
        let item = queue.take(rt, seat);
        let stop = is_stop(&item);
        let verdict = check_item(alloc, store, check, item);
        send(rt, lane, verdict);
        if stop {
            return;
        }
    }
    unreachable!()
}
