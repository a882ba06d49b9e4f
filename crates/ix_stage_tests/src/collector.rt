//! A collector that receives what verifiers send, in mixed order.

ghost use Rattle.std.specs.Prelude.{◌<◌, IfOk};
ghost use Rattle.ix_car.specs.Headline.{EachFresh};
ghost use Rattle.ix_stages.specs.Lanes.{IsLane};

use ix_car::{End, Sink};
use ix_check::Verdict;
use ix_fixtures::{ABC, Log, cid_of};
use ix_pipeline::{Collector, drain_all, drain_lane, law, poll_lanes};
use ix_stages::{LaneIn, LaneOut, Verdicted, lane};
use ix_walk::Visit;
use std::alloc::{AllocError, Global};
use std::marker::Model;
use std::ops::Range;
use std::process::Abort;
use std::sync::Wait;
use std::test::Fail;

// What is sent, of a job: a visit, with a verdict or without, or the close, each with its number.
#[derive(Drop)]
enum Sent {
    Checked(u32, u32),
    Unchecked(u32, u32),
    Closed(u32, u32, End),
    Last,
}

// How many numbers from the next one on a job has room for.
const WINDOW: u32 = 16_384;

// How many visits a job has that is longer than the window.
const LONG: u32 = 2 * WINDOW;

// How many items a lane has room for that is filled.
const LANE: u32 = 4;

// A number that is too far above that of any other visit here.
const FAR: u32 = 4_000_000_000;

// Job 0 is done, job 1 has a sink that fails at its second delivery, job 2 a visit that found no
// memory, and job 3 a walk that did.
const FOUR_JOBS: [Sent; 12] = [
    Sent::Checked(0, 2),
    Sent::Closed(0, 3, End::Done),
    Sent::Checked(1, 1),
    Sent::Checked(0, 0),
    Sent::Checked(1, 0),
    Sent::Checked(0, 1),
    Sent::Closed(1, 2, End::Limit),
    Sent::Closed(2, 2, End::Done),
    Sent::Unchecked(2, 0),
    Sent::Last,
    Sent::Checked(2, 1),
    Sent::Closed(3, 0, End::Memory),
];

fn item_of(alloc: Global, sent: &Sent) -> Result<Verdicted, Fail> {
    Ok(match sent {
        Sent::Checked(job, seq) => Verdicted::Checked {
            visit: Visit {
                job: *job,
                seq: *seq,
                depth: 0,
                cid: cid_of(alloc, ABC)?,
                block: None,
                malformed: false,
            },
            verdict: Verdict::Missing,
        },
        Sent::Unchecked(job, seq) => Verdicted::Unchecked {
            job: *job,
            seq: *seq,
        },
        Sent::Closed(job, seq, end) => Verdicted::Close {
            job: *job,
            seq: *seq,
            end: *end,
        },
        Sent::Last => Verdicted::Last,
    })
}

// A lane with room for so many items, into which these were sent.
fn lane_of(alloc: Global, capacity: u32, items: &[Sent]) -> Result<(LaneIn, LaneOut), Fail>
    ensures { IfOk result (λ l. IsLane l.0 l.1) }
{
    let (mut sender, receiver) = lane(alloc, capacity)?;
    for sent in items {
        if sender.try_send(item_of(alloc, sent)?).is_err() {
            return Err(Fail::from(AllocError));
        }
    }
    Ok((sender, receiver))
}

// A collector, and a log for each of its jobs, which may receive what comes next.
#[derive(Drop)]
struct Gathering<const N: usize> {
    collector: Collector,
    logs: [Log; N],
}

impl<const N: usize> Model for Gathering<N> {
    ghost use Rattle.std.specs.Prelude.{ℕ};
    ghost use Rattle.ix_pipeline.specs.Collected.{job_count};
    ghost use Rattle.ix_pipeline.specs.Collecting.{CanCollect};

    ghost Value = { ℕ };

    ghost view = { λ g. job_count g.collector };

    ghost invariant = { λ g. CanCollect ⟦<Log as Sink>⟧.calls g.collector g.logs };
}

impl<const N: usize> Gathering<N> {
    // Nothing was received so far.
    fn new(alloc: Global, logs: [Log; N]) -> Result<Gathering<N>, AllocError>
        requires count { N < 1000 }
        requires fresh { EachFresh ⟦<Log as Sink>⟧.calls logs }
    {
        let collector = Collector::new(alloc, N as u32)?;
        law::unused_has_collected_nothing::<Log>();
        Ok(Gathering { collector, logs })
    }

    // Whether there is room for the item.
    fn has_room(&self, alloc: Global, sent: &Sent) -> Result<bool, Fail> {
        let item = item_of(alloc, sent)?;
        Ok(self.collector.has_room(&item))
    }

    // Receives an item, for which there has to be room.
    fn receive(&mut self, alloc: Global, sent: &Sent) -> Result<(), Fail> {
        let item = item_of(alloc, sent)?;
        if !self.collector.has_room(&item) {
            return Err("there was no room".into());
        }
        self.collector.receive(alloc, item, &mut self.logs);
        Ok(())
    }

    fn receive_all(&mut self, alloc: Global, items: &[Sent]) -> Result<(), Fail> {
        for sent in items {
            self.receive(alloc, sent)?;
        }
        Ok(())
    }

    // How many items a round over the lanes gives, and how many of them are a verifier's last.
    fn round(&mut self, alloc: Global, lanes: &mut [LaneOut]) -> (usize, usize) {
        let received = poll_lanes(alloc, &mut self.collector, lanes, &mut self.logs);
        (received.items, received.ended_lanes)
    }

    // What three rounds over two lanes give, which have all items of a job between them.
    fn three_rounds(&mut self, alloc: Global) -> Result<[(usize, usize); 3], Fail> {
        let first = [Sent::Checked(0, 1), Sent::Last];
        let second = [
            Sent::Closed(0, 2, End::Done),
            Sent::Checked(0, 0),
            Sent::Last,
        ];
        let (_first_in, first_out) = lane_of(alloc, 2, &first)?;
        let (_second_in, second_out) = lane_of(alloc, 3, &second)?;
        let mut lanes = [first_out, second_out];
        Ok([
            self.round(alloc, &mut lanes),
            self.round(alloc, &mut lanes),
            self.round(alloc, &mut lanes),
        ])
    }

    // What four rounds over a lane give whose next item is too far ahead. Between the second and the
    // third, the job's first visit comes.
    fn rounds_with_one_too_far(&mut self, alloc: Global) -> Result<[(usize, usize); 4], Fail> {
        let (_sender, receiver) = lane_of(alloc, 2, &[Sent::Checked(0, WINDOW), Sent::Last])?;
        let mut lanes = [receiver];
        let before = [self.round(alloc, &mut lanes), self.round(alloc, &mut lanes)];
        self.receive(alloc, &Sent::Checked(0, 0))?;
        Ok([
            before[0],
            before[1],
            self.round(alloc, &mut lanes),
            self.round(alloc, &mut lanes),
        ])
    }

    // Sends visits one by one into the sender's lane, with a round over all lanes after each, until the
    // lane is full. The visits are those of so many jobs in turn: `numbers` counts them from the first
    // visit of the first job. Returns the number of the first visit that wasn't sent, and how many
    // items the rounds gave.
    fn receive_until_full(
        &mut self,
        alloc: Global,
        sender: &mut LaneIn,
        lanes: &mut [LaneOut],
        jobs: u32,
        numbers: Range<u32>,
    ) -> Result<(u32, usize), Fail>
        requires { 0 < jobs }
    {
        let end = numbers.end;
        let mut received = 0usize;
        for number in numbers {
            let item = item_of(alloc, &Sent::Checked(number % jobs, number / jobs))?;
            if sender.try_send(item).is_err() {
                return Ok((number, received));
            }
            let (items, _) = self.round(alloc, lanes);
            received = received.saturating_add(items);
        }
        Ok((end, received))
    }

    // Drains a lane, after every sink was closed.
    fn drain_one<R: Wait>(&mut self, rt: &R, alloc: Global) -> Result<(), Fail> {
        let (mut sender, mut receiver) = lane_of(alloc, 1, &[Sent::Last])?;
        let Gathering { collector, logs } = self;
        if !collector.is_done() {
            return Err("a sink is open".into());
        }
        drain_lane(rt, alloc, collector, &mut sender, &mut receiver, logs);
        Ok(())
    }

    // Drains two lanes, after every sink was closed.
    fn drain_two<R: Wait>(&mut self, rt: &R, alloc: Global) -> Result<(), Fail> {
        let (first_in, first_out) = lane_of(alloc, 1, &[Sent::Last])?;
        let (second_in, second_out) = lane_of(alloc, 2, &[Sent::Checked(0, FAR), Sent::Last])?;
        let mut senders = [first_in, second_in];
        let mut receivers = [first_out, second_out];
        let Gathering { collector, logs } = self;
        if !collector.is_done() {
            return Err("a sink is open".into());
        }
        drain_all(rt, alloc, collector, &mut senders, &mut receivers, logs);
        Ok(())
    }
}

// Whether the deliveries come in the order of their numbers.
fn is_in_order(log: &Log) -> bool {
    let mut numbered = log.deliveries.iter().enumerate();
    numbered.all(|(number, delivery)| delivery.visit.seq as usize == number)
}

// The log has so many deliveries, in the order of their numbers.
fn has_in_order(rt: &impl Abort, log: &Log, count: usize) {
    assert_eq!(rt; (log.deliveries.len(), is_in_order(log)), (count, true));
}

// Every sink was closed, and the jobs ended so.
fn has_ended<const N: usize>(
    rt: &impl Abort,
    alloc: Global,
    gathering: &Gathering<N>,
    wanted: &[End],
) -> Result<(), Fail> {
    let collector = &gathering.collector;
    assert!(rt; collector.is_done());
    let ends = collector.ends(Vec::with_capacity(alloc, N)?);
    assert!(rt; ends.as_slice() == wanted);
    Ok(())
}

// The collector isn't done before the last item of the four jobs.
fn receive_four_jobs(
    rt: &impl Abort,
    alloc: Global,
    gathering: &mut Gathering<4>,
) -> Result<(), Fail> {
    let (before, last) = FOUR_JOBS.split_at(11);
    gathering.receive_all(alloc, before)?;
    assert!(rt; !gathering.collector.is_done());
    gathering.receive_all(alloc, last)?;
    has_ended(
        rt,
        alloc,
        gathering,
        &[End::Done, End::Write, End::Memory, End::Memory],
    )
}

#[test]
fn ends_of_four_jobs(rt: HostRuntime) -> Result<(), Fail> {
    let alloc = rt.alloc();
    let logs = [
        Log::new(alloc, 9)?,
        Log::new(alloc, 1)?,
        Log::new(alloc, 9)?,
        Log::new(alloc, 9)?,
    ];
    let mut gathering = Gathering::new(alloc, logs)?;
    receive_four_jobs(&rt, alloc, &mut gathering)?;
    for (log, count) in gathering.logs.iter().zip([3, 1, 0, 0]) {
        has_in_order(&rt, log, count);
    }
    Ok(())
}

// Items of which the last can't come: a number that was passed, one that is taken, a second close, an
// item after the close of the sink, and one of a job that isn't there.
const STRAYS: [[Sent; 2]; 5] = [
    [Sent::Checked(0, 0), Sent::Checked(0, 0)],
    [Sent::Checked(0, 1), Sent::Unchecked(0, 1)],
    [Sent::Closed(0, 1, End::Done), Sent::Closed(0, 1, End::Done)],
    [Sent::Closed(0, 0, End::Done), Sent::Checked(0, FAR)],
    [Sent::Checked(0, 1), Sent::Checked(1, FAR)],
];

// Whether an unexpected item was noted, and what the only log received so far: how many deliveries, and the close.
fn accepted_and_reported(gathering: &Gathering<1>) -> (bool, (usize, Option<End>)) {
    let log = &gathering.logs[0];
    (
        gathering.collector.has_unexpected(),
        (log.deliveries.len(), log.closed),
    )
}

// A collector for one job notes the second of these items, and not the first, and its sink receives no
// more by it.
fn notes_the_second(rt: &impl Abort, alloc: Global, items: &[Sent; 2]) -> Result<(), Fail> {
    let mut gathering = Gathering::new(alloc, [Log::new(alloc, 9)?])?;
    gathering.receive(alloc, &items[0])?;
    let before = accepted_and_reported(&gathering);
    gathering.receive(alloc, &items[1])?;
    let after = accepted_and_reported(&gathering);
    assert_eq!(rt; (before.0, after), (false, (true, before.1)));
    Ok(())
}

#[test]
fn strays_are_noted(rt: HostRuntime) -> Result<(), Fail> {
    for items in &STRAYS {
        notes_the_second(&rt, rt.alloc(), items)?;
    }
    Ok(())
}

// Items that come before any other, and whether there is room for each.
const ROOM_AT_FIRST: [(Sent, bool); 8] = [
    (Sent::Checked(0, 0), true),
    (Sent::Checked(0, WINDOW - 1), true),
    (Sent::Unchecked(0, WINDOW - 1), true),
    (Sent::Checked(0, WINDOW), false),
    (Sent::Unchecked(0, WINDOW), false),
    (Sent::Checked(0, FAR), false),
    (Sent::Closed(0, FAR, End::Done), true),
    (Sent::Last, true),
];

// Items after the first visit of job 0, and whether there is room for each.
const ROOM_AFTER_ONE: [(Sent, bool); 4] = [
    (Sent::Checked(0, 0), true),
    (Sent::Checked(0, WINDOW), true),
    (Sent::Checked(0, WINDOW + 1), false),
    (Sent::Checked(1, FAR), true),
];

// There is room for each of these items where it is said.
fn has_room_where(
    rt: &impl Abort,
    alloc: Global,
    gathering: &Gathering<1>,
    items: &[(Sent, bool)],
) -> Result<(), Fail> {
    for (sent, wanted) in items {
        assert_eq!(rt; gathering.has_room(alloc, sent)?, *wanted);
    }
    Ok(())
}

#[test]
fn room_up_to_the_window(rt: HostRuntime) -> Result<(), Fail> {
    let alloc = rt.alloc();
    let mut gathering = Gathering::new(alloc, [Log::new(alloc, 9)?])?;
    has_room_where(&rt, alloc, &gathering, &ROOM_AT_FIRST)?;
    gathering.receive(alloc, &Sent::Checked(0, WINDOW - 1))?;
    has_room_where(&rt, alloc, &gathering, &ROOM_AT_FIRST)?;
    gathering.receive(alloc, &Sent::Checked(0, 0))?;
    has_room_where(&rt, alloc, &gathering, &ROOM_AFTER_ONE)
}

// After this item, which ends the deliveries to a log with so much room, there is room for every item.
fn has_room_after(rt: &impl Abort, alloc: Global, room: usize, last: &Sent) -> Result<(), Fail> {
    let mut gathering = Gathering::new(alloc, [Log::new(alloc, room)?])?;
    gathering.receive(alloc, last)?;
    for sent in &[
        Sent::Checked(0, WINDOW),
        Sent::Unchecked(0, FAR),
        Sent::Checked(0, FAR),
    ] {
        assert!(rt; gathering.has_room(alloc, sent)?);
    }
    Ok(())
}

#[test]
fn room_once_deliveries_have_ended(rt: HostRuntime) -> Result<(), Fail> {
    let alloc = rt.alloc();
    has_room_after(&rt, alloc, 0, &Sent::Checked(0, 0))?;
    has_room_after(&rt, alloc, 9, &Sent::Unchecked(0, 0))?;
    has_room_after(&rt, alloc, 9, &Sent::Closed(0, 0, End::Done))
}

#[test]
fn an_item_too_far_ahead_waits_in_its_lane(rt: HostRuntime) -> Result<(), Fail> {
    let alloc = rt.alloc();
    let mut gathering = Gathering::new(alloc, [Log::new(alloc, 9)?])?;
    let rounds = gathering.rounds_with_one_too_far(alloc)?;
    assert!(rt; rounds == [(0, 0), (0, 0), (1, 0), (1, 1)]);
    assert_eq!(rt; accepted_and_reported(&gathering), (false, (1, None)));
    Ok(())
}

// Sends one item into a lane, which has room for it.
fn send(alloc: Global, sender: &mut LaneIn, sent: &Sent) -> Result<(), Fail> {
    if sender.try_send(item_of(alloc, sent)?).is_err() {
        return Err("the lane was full".into());
    }
    Ok(())
}

// While its first visit is held, a job receives as many others as its window has room for. They are
// delivered once it comes, and so are all after them.
#[test]
fn a_held_visit_holds_the_window(rt: HostRuntime) -> Result<(), Fail> {
    let alloc = rt.alloc();
    let mut gathering = Gathering::new(alloc, [Log::new(alloc, LONG as usize)?])?;
    let (mut held, held_out) = lane(alloc, 1)?;
    let (mut sender, receiver) = lane(alloc, LANE)?;
    let mut lanes = [held_out, receiver];
    let first = gathering.receive_until_full(alloc, &mut sender, &mut lanes, 1, 1..LONG)?;
    assert_eq!(rt; first, (WINDOW + LANE, WINDOW as usize - 1));
    assert_eq!(rt; gathering.logs[0].deliveries.len(), 0);
    send(alloc, &mut held, &Sent::Checked(0, 0))?;
    assert_eq!(rt; gathering.round(alloc, &mut lanes), (2, 0));
    assert_eq!(rt; gathering.logs[0].deliveries.len(), WINDOW as usize + 1);
    let rest = WINDOW + LANE..LONG;
    let (next, _) = gathering.receive_until_full(alloc, &mut sender, &mut lanes, 1, rest)?;
    assert_eq!(rt; next, LONG);
    for _ in 0..LANE {
        gathering.round(alloc, &mut lanes);
    }
    gathering.receive(alloc, &Sent::Closed(0, LONG, End::Done))?;
    has_in_order(&rt, &gathering.logs[0], LONG as usize);
    has_ended(&rt, alloc, &gathering, &[End::Done])
}

// Two jobs whose first visits are held share the lane of the third verifier: what is too far ahead of
// one job holds the other back only until its own first visit has come.
#[test]
fn two_held_visits_hold_two_windows(rt: HostRuntime) -> Result<(), Fail> {
    let alloc = rt.alloc();
    let logs = [
        Log::new(alloc, LONG as usize)?,
        Log::new(alloc, LONG as usize)?,
    ];
    let mut gathering = Gathering::new(alloc, logs)?;
    let (mut first, first_out) = lane(alloc, 1)?;
    let (mut second, second_out) = lane(alloc, 1)?;
    let (mut sender, receiver) = lane(alloc, LANE)?;
    let mut lanes = [first_out, second_out, receiver];
    let sent = gathering.receive_until_full(alloc, &mut sender, &mut lanes, 2, 2..2 * LONG)?;
    assert_eq!(rt; sent, (2 * WINDOW + LANE, 2 * WINDOW as usize - 2));
    send(alloc, &mut second, &Sent::Checked(1, 0))?;
    assert_eq!(rt; gathering.round(alloc, &mut lanes), (1, 0));
    has_in_order(&rt, &gathering.logs[1], WINDOW as usize);
    send(alloc, &mut first, &Sent::Checked(0, 0))?;
    assert_eq!(rt; gathering.round(alloc, &mut lanes), (2, 0));
    has_in_order(&rt, &gathering.logs[0], WINDOW as usize + 1);
    let rest = 2 * WINDOW + LANE..2 * LONG;
    let (next, _) = gathering.receive_until_full(alloc, &mut sender, &mut lanes, 2, rest)?;
    assert_eq!(rt; next, 2 * LONG);
    Ok(())
}

// After this item, which ends the deliveries to a log with so much room, all other visits of a job leave their
// lane, though its ring moves no more, and the job ends so.
fn all_come_after(
    rt: &impl Abort,
    alloc: Global,
    room: usize,
    first: &Sent,
    end: End,
) -> Result<(), Fail> {
    let mut gathering = Gathering::new(alloc, [Log::new(alloc, room)?])?;
    gathering.receive(alloc, first)?;
    let (mut sender, receiver) = lane(alloc, LANE)?;
    let mut lanes = [receiver];
    let came = gathering.receive_until_full(alloc, &mut sender, &mut lanes, 1, 1..LONG)?;
    assert_eq!(rt; came, (LONG, LONG as usize - 1));
    gathering.receive(alloc, &Sent::Closed(0, LONG, End::Done))?;
    assert!(rt; !gathering.collector.has_unexpected());
    assert_eq!(rt; gathering.logs[0].deliveries.len(), 0);
    has_ended(rt, alloc, &gathering, &[end])
}

#[test]
fn a_job_that_stopped_holds_nothing(rt: HostRuntime) -> Result<(), Fail> {
    let alloc = rt.alloc();
    all_come_after(&rt, alloc, 0, &Sent::Checked(0, 0), End::Write)?;
    all_come_after(&rt, alloc, 9, &Sent::Unchecked(0, 0), End::Memory)
}

// Two lanes are read in rounds until the sink is closed, then one is drained, and then two.
fn receive_lanes<R: Abort + Wait>(
    rt: &R,
    alloc: Global,
    gathering: &mut Gathering<1>,
) -> Result<(), Fail> {
    let rounds = gathering.three_rounds(alloc)?;
    assert!(rt; rounds == [(2, 0), (2, 1), (1, 1)]);
    gathering.drain_one(rt, alloc)?;
    assert!(rt; !gathering.collector.has_unexpected());
    gathering.drain_two(rt, alloc)?;
    assert!(rt; gathering.collector.has_unexpected());
    has_ended(rt, alloc, gathering, &[End::Done])
}

#[test]
fn lanes_into_one_sink(rt: HostRuntime) -> Result<(), Fail> {
    let alloc = rt.alloc();
    let mut gathering = Gathering::new(alloc, [Log::new(alloc, 9)?])?;
    receive_lanes(&rt, alloc, &mut gathering)?;
    has_in_order(&rt, &gathering.logs[0], 2);
    Ok(())
}
