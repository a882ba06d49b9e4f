//! The visit queue and a verifier: a chain through both on one thread, and walks on three threads
//! through a queue with room for one.

ghost use Rattle.std.specs.Prelude.{◌≡◌, ◌<◌, None, Some, false, All, IfOk, IfSome, length, slice_get};
ghost use Rattle.ix_stages.specs.Course.{IsCourseOf, course_of};
ghost use Rattle.ix_stages.specs.Making.{IsNewQueue};
ghost use Rattle.ix_stages.specs.declared.item.Item.{Item};
ghost use Rattle.ix_stages.specs.Queue.{table_of};
ghost use Rattle.ix_stages.specs.Seats.{IsNext, closed_after, next_after};
ghost use Rattle.ix_stage_tests.specs.Walkers.{CanWalk, CanAllWalk, CanGoOn, CanClose, HasLeft, IsLeft};
ghost use Rattle.ix_stage_tests.specs.Walkers.{AreSmall, IsOneJob, IsSameTable, IsWalker, IsTaker, HasWalked};

use ix_car::End;
use ix_check::{ShaCheck, Verdict};
use ix_fixtures::{INNER_BLOCK, ONE_LINK, OUTER, TURNS, chain_of, jobs_of, store_of};
use ix_stages::{
    Course, Item, JobSeat, LaneOut, QueueParts, StopSeat, TakeSeat, Verdicted, VisitQueue, lane,
    law, verify,
};
use ix_store::Store;
use ix_walk::{Job, Walk, WalkStop};
use std::alloc::{AllocError, Global};
use std::marker::Model;
use std::process::Abort;
use std::sync::Wait;
use std::test::Fail;
use std::thread;
use std::thread::Threads;

// Names the course of jobs over a store.
#[derive(Drop)]
struct Walks<'a> {
    store: &'a Store,
    jobs: &'a [Job],
}

impl Course for Walks<'_> {
    ghost expected = { λ w. course_of w.store.now w.jobs.now };
}

// One job of everything below the chain, over its store.
#[derive(Drop)]
struct Chain {
    store: Store,
    jobs: Vec<Job>,
}

impl Model for Chain {
    ghost use Rattle.std.specs.Prelude.{ℕ, length};
    ghost use Rattle.ix_stage_tests.specs.Walkers.{IsOneJob};

    ghost Value = { ℕ };

    ghost view = { λ c. length c.jobs.items };

    ghost invariant = { λ c. IsOneJob c.jobs.items };
}

impl Chain {
    fn new(alloc: Global) -> Result<Chain, Fail> {
        let store = chain_of(alloc)?;
        let jobs = jobs_of(alloc, OUTER, 1, 100)?;
        Ok(Chain { store, jobs })
    }

    fn walks(&self) -> Walks<'_>
        ensures { IsOneJob result.jobs.now }
    {
        Walks {
            store: &self.store,
            jobs: self.jobs.as_slice(),
        }
    }
}

// The queue of these walks.
fn queue_of(
    alloc: Global,
    walks: &Walks<'_>,
    capacity: u32,
    takers: u32,
) -> Result<QueueParts, AllocError>
    requires jobs { AreSmall walks.now.jobs.now × (length walks.now.jobs.now < 1000) }
    requires room { (0 < capacity) × (takers < 1000) }
    ensures made { IfOk result (IsNewQueue
        (course_of walks.now.store.now walks.now.jobs.now) (length walks.now.jobs.now) takers) }
    ensures walkers { IfOk result (λ q. CanAllWalk q (course_of walks.now.store.now walks.now.jobs.now)) }
    ensures tables { IfOk result (λ q. All (IsTaker q.queue) q.takers.items) }
{
    law::course_of_jobs();
    let parts = VisitQueue::new(alloc, walks, capacity, walks.jobs.len() as u32, takers)?;
    Ok(parts)
}

// The seat's job.
fn job_of_seat<'a>(jobs: &'a [Job], seat: &JobSeat) -> Option<&'a Job>
    ensures { IfSome result (λ job. slice_get jobs.now seat.now.job ≡ Some job.now) }
{
    jobs.get(seat.job() as usize)
}

// The walk of the seat's job.
fn walk_of<'a>(alloc: Global, walks: &Walks<'a>, seat: &JobSeat) -> Result<Walk<'a>, AllocError>
    requires { (seat.now.pass.course ≡ course_of walks.now.store.now walks.now.jobs.now) × (seat.now.next ≡ 0) }
    ensures { IfOk result (IsLeft seat.now) }
{
    law::course_of_jobs();
    match job_of_seat(walks.jobs, seat) {
        Some(job) => Walk::new(alloc, walks.store, job, seat.job()),
        None => Err(AllocError),
    }
}

// The close of the seat's job, which ended so.
fn close_of(seat: &JobSeat, end: End) -> Item
    ensures { result ≡ Item.Close seat.now.job seat.now.next end }
{
    Item::Close {
        job: seat.job(),
        seq: seat.next(),
        end,
    }
}

// What the seat is to put next: the walk's next visit, or the close once it has ended.
fn next_item(seat: &JobSeat, walk: &mut Walk<'_>) -> Result<Item, AllocError>
    requires { IsLeft seat.now walk.old }
    ensures next { IfOk result (IsNext seat.now) }
    ensures left { IfOk result (λ x. closed_after x ≡ false
        → HasLeft seat.now.pass.course seat.now.job (next_after seat.now.next x) walk.new) }
{
    match walk.next() {
        Some(Ok(visit)) => Ok(Item::Visit(visit)),
        Some(Err(WalkStop::Limit)) => Ok(close_of(seat, End::Limit)),
        Some(Err(WalkStop::Memory)) => Err(AllocError),
        None => Ok(close_of(seat, End::Done)),
    }
}

// Whether it closes its job.
fn is_close(item: &Item) -> bool
    ensures { result ≡ closed_after item.now }
{
    matches!(item, Item::Close { .. })
}

// Puts the visits of the seat's job, and gives its close.
fn put_job<R: Wait>(
    rt: &R,
    alloc: Global,
    walks: &Walks<'_>,
    queue: &VisitQueue,
    seat: &mut JobSeat,
) -> Result<Item, AllocError>
    requires { CanWalk queue.now (course_of walks.now.store.now walks.now.jobs.now) seat.old }
    ensures table { IsSameTable seat.old.table seat.new.table }
    ensures close { IfOk result (CanClose queue.now seat.new) }
{
    let mut walk = walk_of(alloc, walks, seat)?;
    for _ in rt.forever() {
        let item = next_item(seat, &mut walk)?;
        if is_close(&item) {
            return Ok(item);
        }
        queue.put(rt, seat, item);
    }
    unreachable!()
}

// What a lane gives, without what a visit holds.
#[derive(Drop)]
enum Given {
    Sound(u32, u32),
    Closed(u32, u32, End),
    Last,
    Other,
}

fn given_of(item: &Verdicted) -> Given {
    match item {
        Verdicted::Checked {
            visit,
            verdict: Verdict::Sound,
        } => Given::Sound(visit.job, visit.seq),
        Verdicted::Close { job, seq, end } => Given::Closed(*job, *seq, *end),
        Verdicted::Last => Given::Last,
        _ => Given::Other,
    }
}

// What the lane gives next.
fn next_given(lane: &mut LaneOut) -> Option<Given> {
    lane.try_recv().as_ref().map(given_of)
}

// The lane gives these next: the visits of the chain, all Sound, their close and Last.
fn gives_chain(rt: &impl Abort, lane: &mut LaneOut) {
    for number in 0..4 {
        let is_sound = match next_given(lane) {
            Some(Given::Sound(job, seq)) => job == 0 && seq == number,
            _ => false,
        };
        assert!(rt; is_sound, "no Sound visit {number}");
    }
    let is_closed = matches!(next_given(lane), Some(Given::Closed(0, 4, End::Done)));
    assert!(rt; is_closed, "no close of four visits");
    assert!(rt; matches!(next_given(lane), Some(Given::Last)), "no Last");
    assert!(rt; next_given(lane).is_none());
}

// An item, without what a visit holds.
#[derive(Drop)]
enum Brief {
    Visit(u32, u32),
    Close(u32, u32),
    Stop,
}

fn brief_of(item: &Item) -> Brief {
    match item {
        Item::Visit(visit) => Brief::Visit(visit.job, visit.seq),
        Item::Close { job, seq, .. } => Brief::Close(*job, *seq),
        Item::Stop => Brief::Stop,
    }
}

// A queue, and a seat of it that takes.
#[derive(Drop)]
struct QueueOut<'a> {
    queue: &'a VisitQueue,
    seat: TakeSeat,
}

impl<'a> Model for QueueOut<'a> {
    ghost use Rattle.ix_stages.specs.Seats.{SeatView};
    ghost use Rattle.ix_stage_tests.specs.Walkers.{IsTaker};

    ghost Value = { SeatView };

    ghost view = { λ o. o.seat };

    ghost invariant = { λ o. IsTaker o.queue.now o.seat };
}

impl QueueOut<'_> {
    // Takes the item at the front, where there is one.
    fn try_take<R: Wait>(&mut self, rt: &R) -> Option<Brief> {
        self.queue
            .try_take(rt, &mut self.seat)
            .as_ref()
            .map(brief_of)
    }

    // Takes until the queue is empty, eight items at most, and counts them.
    fn count_left<R: Wait>(&mut self, rt: &R) -> u32 {
        for count in 0..8 {
            if self.try_take(rt).is_none() {
                return count;
            }
        }
        8
    }
}

// The queue, and the last of these seats.
fn out_of<'a>(queue: &'a VisitQueue, takers: Vec<TakeSeat>) -> Result<QueueOut<'a>, Fail>
    requires { All (IsTaker queue.now) takers.items }
{
    let mut takers = takers;
    match takers.pop() {
        Some(seat) => Ok(QueueOut { queue, seat }),
        None => Err("a taker was wanted".into()),
    }
}

// A walker for each seat, in a thread of its own: it puts the visits of the seat's job, and the close.
// The seat stays open if memory runs out.
fn walk_all<R: Threads + Wait + Sync>(
    rt: &R,
    alloc: Global,
    walks: &Walks<'_>,
    queue: &VisitQueue,
    seats: Vec<JobSeat>,
) -> Result<Vec<JobSeat>, AllocError>
    requires { All (CanWalk queue.now (course_of walks.now.store.now walks.now.jobs.now)) seats.items }
    ensures { IfOk result (λ all. All (IsWalker queue.now) all.items) }
{
    thread::map_vec(
        rt,
        seats,
        &|seat: JobSeat| -> JobSeat
            requires { CanWalk queue.now (course_of walks.now.store.now walks.now.jobs.now) seat }
            ensures { IsWalker queue.entry.now result }
        {
            let mut seat = seat;
            if let Ok(close) = put_job(rt, alloc, walks, queue, &mut seat) {
                queue.put(rt, &mut seat, close);
            }
            seat
        },
    )
}

// What a taker took: the job and number of each visit and each close.
#[derive(Drop)]
struct Taken {
    seat: TakeSeat,
    numbers: Vec<(u32, u32)>,
}

// Takes an item and notes its job and number. Returns false if it is a Stop, or if memory runs out.
fn take_number<R: Wait>(
    rt: &R,
    queue: &VisitQueue,
    seat: &mut TakeSeat,
    numbers: &mut Vec<(u32, u32)>,
) -> bool
    requires { IsTaker queue.now seat.old }
    ensures { IsSameTable seat.old.table seat.new.table }
{
    match brief_of(&queue.take(rt, seat)) {
        Brief::Visit(job, seq) | Brief::Close(job, seq) => numbers.push((job, seq)).is_ok(),
        Brief::Stop => false,
    }
}

// A taker: it takes until a Stop.
fn taker<R: Wait>(rt: &R, alloc: Global, queue: &VisitQueue, seat: TakeSeat) -> Taken
    requires { IsTaker queue.now seat }
    ensures { IsTaker queue.now result.seat }
{
    let mut seat = seat;
    let mut numbers = Vec::new(alloc);
    for _ in rt.forever() {
        if !take_number(rt, queue, &mut seat, &mut numbers) {
            break;
        }
    }
    Taken { seat, numbers }
}

// Puts a Stop, once there is room. False where there is none for long.
fn put_stop<R: Wait>(rt: &R, queue: &VisitQueue, stop: &mut StopSeat) -> bool
    requires { stop.old.table ≡ table_of queue.now }
    ensures { stop.new.table ≡ stop.old.table }
{
    for _ in 0..TURNS {
        if queue.try_stop(rt, stop) {
            return true;
        }
        thread::yield_now();
    }
    false
}

// What walkers come back as, with the seat for Stops, and whether two Stops were put.
#[derive(Drop)]
struct Walked {
    seats: Result<Vec<JobSeat>, AllocError>,
    stop: StopSeat,
    is_stopped: bool,
}

// The walkers, and then two Stops.
fn walk_and_stop<R: Threads + Wait + Sync>(
    rt: &R,
    alloc: Global,
    walks: &Walks<'_>,
    queue: &VisitQueue,
    seats: Vec<JobSeat>,
    stop: StopSeat,
) -> Walked
    requires seats { All (CanWalk queue.now (course_of walks.now.store.now walks.now.jobs.now)) seats.items }
    requires stop { stop.table ≡ table_of queue.now }
    ensures { HasWalked queue.now result.seats result.stop }
{
    let mut stop = stop;
    let seats = walk_all(rt, alloc, walks, queue, seats);
    let one = put_stop(rt, queue, &mut stop);
    let two = put_stop(rt, queue, &mut stop);
    Walked {
        seats,
        stop,
        is_stopped: one && two,
    }
}

// Two takers.
fn take_two<R: Threads + Wait + Sync>(
    rt: &R,
    alloc: Global,
    queue: &VisitQueue,
    first: TakeSeat,
    second: TakeSeat,
) -> (Taken, Taken)
    requires first { IsTaker queue.now first }
    requires second { IsTaker queue.now second }
    ensures first { IsTaker queue.now result.0.seat }
    ensures second { IsTaker queue.now result.1.seat }
{
    thread::join(
        rt,
        || taker(rt, alloc, queue, first),
        || taker(rt, alloc, queue, second),
    )
}

// The seats of walkers and of two takers, and the seat for Stops.
#[derive(Drop)]
struct Seats {
    walkers: Vec<JobSeat>,
    stop: StopSeat,
    first: TakeSeat,
    second: TakeSeat,
}

// The walkers beside the takers.
fn run_all<R: Threads + Wait + Sync>(
    rt: &R,
    alloc: Global,
    walks: &Walks<'_>,
    queue: &VisitQueue,
    seats: Seats,
) -> (Walked, (Taken, Taken))
    requires walkers { All (CanWalk queue.now (course_of walks.now.store.now walks.now.jobs.now)) seats.walkers.items }
    requires stop { seats.stop.table ≡ table_of queue.now }
    requires first { IsTaker queue.now seats.first }
    requires second { IsTaker queue.now seats.second }
    ensures walked { HasWalked queue.now result.0.seats result.0.stop }
    ensures first { IsTaker queue.now result.1.0.seat }
    ensures second { IsTaker queue.now result.1.1.seat }
{
    let Seats {
        walkers,
        stop,
        first,
        second,
    } = seats;
    let (store, jobs) = (walks.store, walks.jobs);
    thread::join(
        rt,
        || -> Walked
            requires walkers { All (CanWalk queue.now (course_of store.now jobs.now)) walkers.items }
            requires stop { stop.table ≡ table_of queue.now }
        { walk_and_stop(rt, alloc, &Walks { store, jobs }, queue, walkers, stop) },
        || -> (Taken, Taken)
            requires first { IsTaker queue.now first }
            requires second { IsTaker queue.now second }
        { take_two(rt, alloc, queue, first, second) },
    )
}

// Puts a close at a full queue, and once a visit was taken. Whether it came back, then the first
// visit was taken, and then there was room.
fn close_at_full<R: Wait>(
    rt: &R,
    queue: &VisitQueue,
    seat: &mut JobSeat,
    out: &mut QueueOut<'_>,
    close: Item,
) -> bool
    requires { CanClose queue.now seat.old close }
{
    let Err(back) = queue.try_put(rt, seat, close) else {
        return false;
    };
    let is_first = matches!(out.try_take(rt), Some(Brief::Visit(_, 0)));
    is_first && queue.try_put(rt, seat, back).is_ok()
}

// Whether the numbers of each of three jobs rise.
fn rise(numbers: &[(u32, u32)]) -> bool {
    let mut next = [0; 3];
    for (job, seq) in numbers {
        match next.get_mut(*job as usize) {
            Some(least) if *least <= *seq => *least = seq.saturating_add(1),
            _ => return false,
        }
    }
    true
}

// How often the number of the job was taken.
fn count_of(numbers: &[(u32, u32)], job: u32, seq: u32) -> usize {
    numbers.iter().filter(|n| **n == (job, seq)).count()
}

// Each number of each job was taken once, and each taker took those of a job in rising order.
fn each_once(rt: &impl Abort, first: &[(u32, u32)], second: &[(u32, u32)]) {
    assert!(rt;
        rise(first) && rise(second),
        "the numbers of a job don't rise"
    );
    assert_eq!(rt; first.len().saturating_add(second.len()), 303);
    for job in 0..3 {
        for seq in 0..101 {
            let count = count_of(first, job, seq).saturating_add(count_of(second, job, seq));
            assert_eq!(rt; count, 1, "job {job}, number {seq}");
        }
    }
}

// The lane to which a verifier sends what it takes gives the chain, and each visit was checked once.
fn verifies_chain<R: Abort + Wait>(
    rt: &R,
    alloc: Global,
    store: &Store,
    queue: &VisitQueue,
    taker: &mut TakeSeat,
) -> Result<(), AllocError>
    requires taker { IsTaker queue.now taker.old }
    requires course { IsCourseOf store.now taker.old.pass.course }
    ensures { IsSameTable taker.old.table taker.new.table }
{
    let (mut sender, mut receiver) = lane(alloc, 8)?;
    let mut check = ShaCheck::new(alloc);
    verify(rt, alloc, store, queue, taker, &mut sender, &mut check);
    gives_chain(rt, &mut receiver);
    assert_eq!(rt;
        check.receipts(),
        [(0, 0), (0, 1), (0, 2), (0, 3)].as_slice()
    );
    Ok(())
}

// The chain goes through a queue, and from there into a lane, and nothing is left in the queue.
fn puts_chain<R: Abort + Wait>(rt: &R, alloc: Global, chain: &Chain) -> Result<(), AllocError> {
    let walks = chain.walks();
    law::course_of_jobs();
    let QueueParts {
        queue,
        jobs: mut seats,
        mut takers,
        mut stop,
    } = queue_of(alloc, &walks, 8, 1)?;
    let close = put_job(rt, alloc, &walks, &queue, &mut seats[0])?;
    queue.put(rt, &mut seats[0], close);
    assert!(rt; seats[0].closed() && seats[0].next() == 4);
    assert!(rt; queue.try_stop(rt, &mut stop));
    verifies_chain(rt, alloc, walks.store, &queue, &mut takers[0])?;
    let mut rest = queue.settle(seats, stop, takers);
    assert!(rt; queue.take_rest(rt, &mut rest).is_none());
    Ok(())
}

#[test]
fn chain_through_queue_and_lane(rt: HostRuntime) -> Result<(), Fail> {
    let alloc = rt.alloc();
    puts_chain(&rt, alloc, &Chain::new(alloc)?)?;
    Ok(())
}

// Each number was taken once, and nothing is left in the queue.
fn settle<R: Abort + Wait>(
    rt: &R,
    alloc: Global,
    queue: &VisitQueue,
    walked: Walked,
    first: Taken,
    second: Taken,
) -> Result<(), AllocError>
    requires walked { HasWalked queue.now walked.seats walked.stop }
    requires first { IsTaker queue.now first.seat }
    requires second { IsTaker queue.now second.seat }
{
    assert!(rt; walked.is_stopped, "a full queue stayed full");
    each_once(rt, first.numbers.as_slice(), second.numbers.as_slice());
    let takers = vec![in alloc; first.seat, second.seat]?;
    let mut rest = queue.settle(walked.seats?, walked.stop, takers);
    assert!(rt; queue.take_rest(rt, &mut rest).is_none());
    Ok(())
}

// Walks go through a queue with room for one to two takers.
fn walks_to_two<R: Abort + Threads + Wait + Sync>(
    rt: &R,
    alloc: Global,
    walks: &Walks<'_>,
) -> Result<(), Fail>
    requires { AreSmall walks.now.jobs.now × (length walks.now.jobs.now ≡ 3) }
{
    let QueueParts {
        queue,
        jobs: walkers,
        mut takers,
        stop,
    } = queue_of(alloc, walks, 1, 2)?;
    let (Some(second), Some(first)) = (takers.pop(), takers.pop()) else {
        return Err("two takers were wanted".into());
    };
    let seats = Seats {
        walkers,
        stop,
        first,
        second,
    };
    let (walked, (first, second)) = run_all(rt, alloc, walks, &queue, seats);
    settle(rt, alloc, &queue, walked, first, second)?;
    Ok(())
}

#[test]
fn three_walks_through_room_for_one(rt: HostRuntime) -> Result<(), Fail> {
    let alloc = rt.alloc();
    // A block that links to itself, as far as its CID says.
    let store = store_of(alloc, [("4e", ONE_LINK, INNER_BLOCK)].as_slice())?;
    let jobs = jobs_of(alloc, ONE_LINK, 3, 100)?;
    let (store, jobs) = (&store, jobs.as_slice());
    walks_to_two(&rt, alloc, &Walks { store, jobs })
}

// Puts the walk's next item where there is room, and says what came back.
fn try_next<R: Wait>(
    rt: &R,
    queue: &VisitQueue,
    seat: &mut JobSeat,
    walk: &mut Walk<'_>,
) -> Result<Option<Brief>, AllocError>
    requires { CanGoOn queue.now seat.old walk.old }
    ensures { IfOk result (λ back. back ≡ None → seat.new.closed ≡ false
        → CanGoOn queue.now seat.new walk.new) }
{
    let item = next_item(seat, walk)?;
    match queue.try_put(rt, seat, item) {
        Ok(()) => Ok(None),
        Err(back) => Ok(Some(brief_of(&back))),
    }
}

// Whether the walk's first visit fills a queue with room for one, so that the second comes back,
// and then the first is taken and nothing after it.
fn fits_one<R: Wait>(
    rt: &R,
    queue: &VisitQueue,
    seat: &mut JobSeat,
    out: &mut QueueOut<'_>,
    walk: &mut Walk<'_>,
) -> Result<bool, AllocError>
    requires { CanGoOn queue.now seat.old walk.old }
{
    let first = try_next(rt, queue, seat, walk)?;
    if first.is_some() || seat.closed() {
        return Ok(false);
    }
    let second = try_next(rt, queue, seat, walk)?;
    let taken = out.try_take(rt);
    let is_empty = out.try_take(rt).is_none();
    Ok(
        is_empty
            && matches!(taken, Some(Brief::Visit(_, 0)))
            && matches!(second, Some(Brief::Visit(_, 1))),
    )
}

// The same of the seat's job.
fn has_room_for_one<R: Wait>(
    rt: &R,
    alloc: Global,
    walks: &Walks<'_>,
    queue: &VisitQueue,
    seat: &mut JobSeat,
    out: &mut QueueOut<'_>,
) -> Result<bool, AllocError>
    requires { CanWalk queue.now (course_of walks.now.store.now walks.now.jobs.now) seat.old }
{
    let mut walk = walk_of(alloc, walks, seat)?;
    fits_one(rt, queue, seat, out, &mut walk)
}

// A queue of one job has room for one.
fn makes_room_for_one<R: Abort + Wait>(rt: &R, alloc: Global, chain: &Chain) -> Result<(), Fail> {
    let walks = chain.walks();
    let QueueParts {
        queue,
        jobs: mut seats,
        takers,
        ..
    } = queue_of(alloc, &walks, 1, 1)?;
    let mut out = out_of(&queue, takers)?;
    let has_room = has_room_for_one(rt, alloc, &walks, &queue, &mut seats[0], &mut out)?;
    assert!(rt; has_room);
    Ok(())
}

// None of the contracts says when a queue is full or empty.
#[test]
fn queue(rt: HostRuntime) -> Result<(), Fail> {
    let alloc = rt.alloc();
    makes_room_for_one(&rt, alloc, &Chain::new(alloc)?)
}

// Four items are left in the queue, and a Stop finds room once they are taken.
fn stops_once_empty<R: Abort + Wait>(
    rt: &R,
    queue: &VisitQueue,
    out: &mut QueueOut<'_>,
    stop: &mut StopSeat,
)
    requires { stop.old.table ≡ table_of queue.now }
{
    assert_eq!(rt; out.count_left(rt), 4);
    assert!(rt; queue.try_stop(rt, stop), "no Stop in an empty queue");
    assert!(rt; matches!(out.try_take(rt), Some(Brief::Stop)));
}

// The visits of one job fill the queue.
fn fills_queue<R: Abort + Wait>(rt: &R, alloc: Global, chain: &Chain) -> Result<(), Fail> {
    let walks = chain.walks();
    let QueueParts {
        queue,
        jobs: mut seats,
        takers,
        mut stop,
    } = queue_of(alloc, &walks, 4, 1)?;
    let mut out = out_of(&queue, takers)?;
    let close = put_job(rt, alloc, &walks, &queue, &mut seats[0])?;
    assert!(rt; !queue.try_stop(rt, &mut stop), "a Stop in a full queue");
    assert!(rt; close_at_full(rt, &queue, &mut seats[0], &mut out, close));
    stops_once_empty(rt, &queue, &mut out, &mut stop);
    Ok(())
}

// The chain's four visits fill the queue, whose close and Stop find room once it is emptied.
#[test]
fn close_and_stop_at_a_full_queue(rt: HostRuntime) -> Result<(), Fail> {
    let alloc = rt.alloc();
    fills_queue(&rt, alloc, &Chain::new(alloc)?)
}
