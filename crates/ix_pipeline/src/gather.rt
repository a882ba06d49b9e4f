//! Receives from all lanes.

ghost use Rattle.std.specs.Prelude.{◌≡◌, cond, IfSome, IfNone};
ghost use Rattle.ix_stages.specs.Lanes.{sent_by, received_by, all_received, all_sent};
ghost use Rattle.ix_stages.specs.Lanes.{IsLane, IsSameLane, SameOut, EachSameOut, HasReceived};
ghost use Rattle.ix_pipeline.specs.Collected.{is_last, HasRoom, IsDone};
ghost use Rattle.ix_pipeline.specs.Received.{HasCounted, IsHeldBack};
ghost use Rattle.ix_pipeline.specs.Collecting.{CanCollect, CanFinish, CollectsAmong, CollectsAfter};

use crate::collector::Collector;
use ix_car::Sink;
use ix_stages::{LaneIn, LaneOut, Verdicted, lane_rest};
use std::alloc::Global;
use std::sync::Wait;

// Whether the item is a verifier's last.
fn is_last(item: &Verdicted) -> bool
    ensures { cond result 1 0 ≡ is_last item.now }
{
    matches!(item, Verdicted::Last)
}

/// What came from the lanes.
#[derive(Clone, Copy, Debug, PartialEq, Eq)]
pub struct Received {
    /// The number of items.
    pub items: usize,
    /// How many of them were a verifier's last.
    pub ended_lanes: usize,
}

// Receives the next item of a lane, if there is one and the collector has room for it. An item that is
// too far ahead waits in its lane, and so do those that its verifier sent after it.
//
// This never waits for ever. The visit queue is first in, first out, and a lane keeps the order in which
// its verifier took the items. So of all items that were taken and not yet received, the one that
// was taken first is at the front of its lane, or is still being checked. All earlier visits of its
// job were received, so if these are delivered, its number is the job's next, or before it: it
// isn't too far ahead.
fn recv_if_room(collector: &Collector, lane: &mut LaneOut) -> Option<Verdicted>
    ensures same { SameOut lane.old lane.new }
    ensures received { IfSome result (λ item. HasReceived lane.old item lane.new) }
    ensures room { IfSome result (λ item. HasRoom collector.now item) }
    ensures none { IfNone result (received_by lane.new ≡ received_by lane.old) }
    ensures waits { IfNone result (IsHeldBack collector.now lane.new) }
{
    if lane.is_empty() || !collector.has_room(lane.front()) {
        return None;
    }
    Some(lane.take_front())
}

/// Receives one item from each lane whose next item the collector has room for, and returns how many
/// came. What was received from elsewhere counts as received before what the lanes gave.
pub fn poll_lanes<S: Sink>(
    alloc: Global,
    collector: &mut Collector,
    lanes: &mut [LaneOut],
    sinks: &mut [S],
) -> Received
    requires { CanCollect S.calls collector.old sinks.old }
    ensures lanes { EachSameOut lanes.old lanes.new }
    ensures counted { HasCounted (all_received lanes.old) (all_received lanes.new) result }
    ensures collected { CollectsAfter S.calls S.guarantee
        (all_received lanes.old) (all_received lanes.new) collector.old collector.new
        sinks.old sinks.new }
{
    let mut items = 0;
    let mut ended_lanes = 0;
    for i in 0..lanes.len() {
        if let Some(item) = recv_if_room(collector, &mut lanes[i]) {
            items += 1;
            ended_lanes += usize::from(is_last(&item));
            collector.receive(alloc, item, sinks);
        }
    }
    Received { items, ended_lanes }
}

/// Receives what is left in a lane whose two ends are both here, once every sink was closed: then
/// there is room for all of it. What other lanes gave counts as received before and after it.
pub fn drain_lane<R: Wait, S: Sink>(
    rt: &R,
    alloc: Global,
    collector: &mut Collector,
    sender: &mut LaneIn,
    receiver: &mut LaneOut,
    sinks: &mut [S],
)
    requires lane { IsLane sender.old receiver.old }
    requires collector { CanCollect S.calls collector.old sinks.old }
    requires done { IsDone collector.old }
    ensures lane { IsSameLane sender.old sender.new receiver.old receiver.new }
    ensures collected { CollectsAmong S.calls S.guarantee
        (received_by receiver.old) (sent_by sender.old) collector.old collector.new
        sinks.old sinks.new }
{
    for _ in rt.forever() {
        match lane_rest(sender, receiver) {
            Some(item) => collector.receive(alloc, item, sinks),
            None => return,
        }
    }
    unreachable!()
}

/// Receives what is left in all lanes, whose ends are all here, once every sink was closed. All that
/// was sent has then been received. What was received from elsewhere counts as received before it.
pub fn drain_all<R: Wait, S: Sink>(
    rt: &R,
    alloc: Global,
    collector: &mut Collector,
    senders: &mut [LaneIn],
    receivers: &mut [LaneOut],
    sinks: &mut [S],
)
    requires { CanFinish S.calls senders.old receivers.old collector.old sinks.old }
    ensures sent { all_sent senders.new ≡ all_sent senders.old }
    ensures collected { CollectsAfter S.calls S.guarantee
        (all_received receivers.old) (all_sent senders.new) collector.old collector.new
        sinks.old sinks.new }
{
    for i in 0..senders.len() {
        drain_lane(
            rt,
            alloc,
            collector,
            &mut senders[i],
            &mut receivers[i],
            sinks,
        );
    }
}
