//! A lane: a bounded single-producer, single-consumer channel from one verifier to the collector.

ghost use Rattle.std.specs.Prelude.{◌≡◌, ◌≤◌, ◌<◌, ◌+◌, ◌↔◌, [], ◌∷◌, length, IsTrue, IfOk, IfErr, IfSome, IfNone, OnOk, OnErr};
ghost use mathlib.Core.List.{IsPrefix};
ghost use Rattle.ix_stages.specs.Lanes.{sent_by, received_by, room_in, seen_in};
ghost use Rattle.ix_stages.specs.Lanes.{IsLane, IsNewLane, IsSameLane, SameIn, SameOut};
ghost use Rattle.ix_stages.specs.Lanes.{HasSent, HasLooked, HasReceived, IsFront, IsSeen, IsEmptied};

use crate::verdicted::Verdicted;
use rtrb::{Consumer, PopError, Producer, PushError, RingBuffer};
use std::alloc::{AllocError, Global};

/// The sender of a lane, which a verifier owns.
#[derive(Drop)]
pub struct LaneIn {
    producer: Producer<Verdicted>,
}

/// The receiver of a lane, which the collector owns.
#[derive(Drop)]
pub struct LaneOut {
    consumer: Consumer<Verdicted>,
}

/// Creates a lane, a single-producer, single-consumer channel, with room for `capacity` items.
pub fn lane(alloc: Global, capacity: u32) -> Result<(LaneIn, LaneOut), AllocError>
    ensures { IfOk result (λ l. IsNewLane capacity l.0 l.1) }
{
    let (producer, consumer) = RingBuffer::new(alloc, capacity as usize)?;
    Ok((LaneIn { producer }, LaneOut { consumer }))
}

impl LaneIn {
    /// Sends an item, or returns it if the lane is full.
    pub fn try_send(&mut self, item: Verdicted) -> Result<(), Verdicted>
        ensures same { SameIn self.old self.new }
        ensures sent { OnOk result (HasSent self.old item self.new) }
        ensures room { OnOk result (room_in self.old ≤ room_in self.new + 1) }
        ensures back { IfErr result (λ back. (back ≡ item) × (sent_by self.new ≡ sent_by self.old)) }
        ensures full { OnErr result ((room_in self.old ≡ 0) × (room_in self.new ≡ 0)) }
    {
        match self.producer.push(item) {
            Ok(()) => Ok(()),
            Err(PushError::Full(back)) => Err(back),
        }
    }
}

impl LaneOut {
    /// Receives the next item, or `None` if the lane is empty.
    pub fn try_recv(&mut self) -> Option<Verdicted>
        ensures same { SameOut self.old self.new }
        ensures received { IfSome result (λ item. HasReceived self.old item self.new) }
        ensures seen { IfSome result (λ item. IsSeen self.old item self.new) }
        ensures none { IfNone result (received_by self.new ≡ received_by self.old) }
        ensures empty { IfNone result (seen_in self.old ≡ []) }
    {
        match self.consumer.pop() {
            Ok(item) => Some(item),
            Err(PopError::Empty) => None,
        }
    }

    /// Whether the lane is empty. The sender may send more at any time.
    pub fn is_empty(&mut self) -> bool
        ensures looked { HasLooked self.old self.new }
        ensures value { IsTrue result ↔ (length (seen_in self.new) ≡ 0) }
    {
        self.consumer.is_empty()
    }

    /// Returns the next item of a lane that isn't empty, and leaves it in the lane.
    pub fn front(&self) -> &Verdicted
        requires { 0 < length (seen_in self.now) }
        ensures { IsFront self.now result.now }
    {
        self.consumer.peek_known()
    }

    /// Receives the next item of a lane that isn't empty.
    pub fn take_front(&mut self) -> Verdicted
        requires { 0 < length (seen_in self.old) }
        ensures same { SameOut self.old self.new }
        ensures received { HasReceived self.old result self.new }
        ensures front { seen_in self.old ≡ result ∷ seen_in self.new }
    {
        self.consumer.pop_known()
    }
}

/// Receives the next item that is left in a lane whose two ends are both here. At `None` all that
/// was sent has been received.
pub fn lane_rest(sender: &mut LaneIn, receiver: &mut LaneOut) -> Option<Verdicted>
    requires { IsLane sender.old receiver.old }
    ensures same { IsSameLane sender.old sender.new receiver.old receiver.new }
    ensures order { IsPrefix (received_by receiver.new) (sent_by sender.new) }
    ensures some { IfSome result (λ item. HasReceived receiver.old item receiver.new) }
    ensures none { IfNone result (IsEmptied sender.new receiver.old receiver.new) }
{
    if receiver.consumer.slots_beside(&mut sender.producer) == 0 {
        None
    } else {
        Some(receiver.consumer.pop_known())
    }
}
