//! Lanes and claims, in one thread and among several. What receives, sends or claims is passed no
//! runtime, or one that can't wait.

ghost use Rattle.std.specs.Prelude.{All, IfOk};
ghost use Rattle.ix_stages.specs.Claims.{IsOfClaims};
ghost use Rattle.ix_stages.specs.Lanes.{IsLane, IsSameLane, SameIn};

use ix_fixtures::{Awaited, TURNS};
use ix_stages::{ClaimSeat, Claims, LaneIn, LaneOut, Verdicted, lane_rest};
use std::alloc::{AllocError, Global};
use std::process::Abort;
use std::test::Fail;
use std::thread::{self, Threads};

// How many items go through a lane.
const ITEMS: u32 = 100_000;

fn item(seq: u32) -> Verdicted {
    Verdicted::Unchecked { job: 0, seq }
}

fn seq_of(item: &Verdicted) -> Option<u32> {
    match item {
        Verdicted::Unchecked { job: 0, seq } => Some(*seq),
        _ => None,
    }
}

// Sends an item, or returns the number of the one that comes back.
fn send_one(sender: &mut LaneIn, seq: u32) -> Result<(), Option<u32>>
    ensures { SameIn sender.old sender.new }
{
    sender.try_send(item(seq)).map_err(|back| seq_of(&back))
}

// Receives an item, and returns its number.
fn receive_one(receiver: &mut LaneOut) -> Option<Option<u32>> {
    receiver.try_recv().as_ref().map(seq_of)
}

// The same where both ends are here.
fn rest_one(sender: &mut LaneIn, receiver: &mut LaneOut) -> Option<Option<u32>>
    requires { IsLane sender.old receiver.old }
    ensures { IsSameLane sender.old sender.new receiver.old receiver.new }
{
    lane_rest(sender, receiver).as_ref().map(seq_of)
}

// Sends an item once there is room, and says whether there ever was.
fn send(sender: &mut LaneIn, seq: u32) -> bool {
    for _ in 0..TURNS {
        if send_one(sender, seq).is_ok() {
            return true;
        }
        thread::yield_now();
    }
    false
}

// Receives the next item once there is one, if there ever is.
fn receive(receiver: &mut LaneOut) -> Option<u32> {
    for _ in 0..TURNS {
        if let Some(next) = receive_one(receiver) {
            return next;
        }
        thread::yield_now();
    }
    None
}

fn send_all(sender: LaneIn) -> bool {
    let mut sender = sender;
    for seq in 0..ITEMS {
        if !send(&mut sender, seq) {
            return false;
        }
    }
    true
}

fn receive_all(receiver: LaneOut) -> bool {
    let mut receiver = receiver;
    for seq in 0..ITEMS {
        if receive(&mut receiver) != Some(seq) {
            return false;
        }
    }
    true
}

// Sends in one thread and receives in another, by a runtime that starts threads and can't wait.
fn pass_all<R: Threads>(rt: &R, sender: LaneIn, receiver: LaneOut) -> (bool, bool) {
    thread::join(rt, move || send_all(sender), move || receive_all(receiver))
}

#[test]
fn lane(rt: HostRuntime) -> Result<(), Fail> {
    let (mut sender, mut receiver) = ix_stages::lane(rt.alloc(), 1)?;
    let sent = [send_one(&mut sender, 0), send_one(&mut sender, 1)];
    let received = [receive_one(&mut receiver), receive_one(&mut receiver)];
    assert_eq!(rt;
        (sent, received),
        ([Ok(()), Err(Some(1))], [Some(Some(0)), None])
    );
    Ok(())
}

#[test]
fn rest_of_a_lane(rt: HostRuntime) -> Result<(), Fail> {
    let (mut sender, mut receiver) = ix_stages::lane(rt.alloc(), 2)?;
    let sent = [send_one(&mut sender, 0), send_one(&mut sender, 1)];
    let rest = [
        rest_one(&mut sender, &mut receiver),
        rest_one(&mut sender, &mut receiver),
        rest_one(&mut sender, &mut receiver),
    ];
    assert_eq!(rt;
        (sent, rest),
        ([Ok(()), Ok(())], [Some(Some(0)), Some(Some(1)), None])
    );
    Ok(())
}

#[test]
fn items_in_order_through_a_lane_of_one(rt: HostRuntime) -> Result<(), Fail> {
    let (sender, receiver) = ix_stages::lane(rt.alloc(), 1)?;
    let (sent, received) = pass_all(&rt, sender, receiver);
    assert!(rt; sent, "the lane stayed full");
    assert!(rt; received, "the lane stayed empty, or gave another item");
    Ok(())
}

// Claims four times through a seat.
fn claim_four(
    claims: &Claims<&'static str>,
    seat: &mut ClaimSeat<&'static str>,
) -> [Option<(u32, &'static str)>; 4]
    requires { IsOfClaims claims.now seat.old }
    ensures { IsOfClaims claims.now seat.new }
{
    [
        claims.claim(seat),
        claims.claim(seat),
        claims.claim(seat),
        claims.claim(seat),
    ]
}

// A seat claims "x" and "y" and then nothing, and two places are claimed when it is settled.
#[test]
fn claims(rt: HostRuntime) -> Result<(), Fail> {
    let alloc = rt.alloc();
    let values = Vec::from_array(alloc, ["x", "y"])?;
    let (claims, mut seats) = Claims::new(alloc, values, 1)?;
    assert_eq!(rt; seats.len(), 1);
    let found = claim_four(&claims, &mut seats[0]);
    let settled = claims.settle(seats);
    assert_eq!(rt;
        (found, settled),
        ([Some((0, "x")), Some((1, "y")), None, None], 2)
    );
    Ok(())
}

// A seat, and what was claimed through it.
#[derive(Drop)]
struct Claimed {
    seat: ClaimSeat<u32>,
    found: Vec<(u32, u32)>,
}

// Claims until all are claimed, once four threads have started.
fn claim_all(
    alloc: Global,
    claims: &Claims<u32>,
    start: &Awaited,
    seat: ClaimSeat<u32>,
) -> Result<Claimed, AllocError>
    requires { IsOfClaims claims.now seat }
    ensures { IfOk result (λ c. IsOfClaims claims.now c.seat) }
{
    let mut seat = seat;
    let mut found = Vec::new(alloc);
    start.signal();
    start.wait(TURNS);
    for _ in 0..1001 {
        let Some(next) = claims.claim(&mut seat) else {
            break;
        };
        found.push(next)?;
    }
    Ok(Claimed { seat, found })
}

// Claims through each seat in a thread of its own.
fn claim_in_threads<R: Threads + Sync>(
    rt: &R,
    alloc: Global,
    claims: &Claims<u32>,
    start: &Awaited,
    seats: Vec<ClaimSeat<u32>>,
) -> Result<Vec<Result<Claimed, AllocError>>, AllocError>
    requires { All (IsOfClaims claims.now) seats.items }
    ensures { IfOk result (λ all. All (λ c. IfOk c (λ d. IsOfClaims claims.now d.seat)) all.items) }
{
    thread::map_vec(
        rt,
        seats,
        &|seat: ClaimSeat<u32>| -> Result<Claimed, AllocError>
            requires { IsOfClaims claims.now seat }
            ensures { IfOk result (λ c. IsOfClaims claims.entry.now c.seat) }
        { claim_all(alloc, claims, start, seat) },
    )
}

// What all seats claimed together.
#[derive(Drop)]
struct Total {
    seats: usize,
    settled: u32,
    places: Vec<(u32, u32)>,
}

// Settles the seats, and sorts what was claimed through them.
fn settle_all(
    alloc: Global,
    claims: &Claims<u32>,
    all: Vec<Result<Claimed, AllocError>>,
) -> Result<Total, AllocError>
    requires { All (λ c. IfOk c (λ d. IsOfClaims claims.now d.seat)) all.items }
{
    let mut seats = Vec::new(alloc);
    let mut places = Vec::new(alloc);
    for claimed in all {
        let Claimed { seat, mut found } = claimed?;
        seats.push(seat)?;
        places.append(&mut found)?;
    }
    places.sort()?;
    Ok(Total {
        seats: seats.len(),
        settled: claims.settle(seats),
        places,
    })
}

// The values 5000, 4999 and so on, at the places 0 to 999.
fn values_of_places(alloc: Global) -> Result<Vec<u32>, AllocError> {
    let mut values = Vec::with_capacity(alloc, 1000)?;
    for n in 0..1000 {
        values.push(5000 - n)?;
    }
    Ok(values)
}

// Each of these places was claimed once, with its value.
fn are_each_once(rt: &impl Abort, places: &[(u32, u32)]) {
    assert_eq!(rt; places.len(), 1000);
    for (number, (place, value)) in places.iter().enumerate() {
        assert_eq!(rt; (*place as usize, *value), (number, 5000 - number as u32));
    }
}

#[test]
fn four_threads_claim_each_place_once(rt: HostRuntime) -> Result<(), Fail> {
    let alloc = rt.alloc();
    let values = values_of_places(alloc)?;
    assert_eq!(rt; values.len(), 1000);
    let (claims, seats) = Claims::new(alloc, values, 4)?;
    let start = Awaited::new(4);
    let all = claim_in_threads(&rt, alloc, &claims, &start, seats)?;
    assert!(rt; !start.is_missed(), "fewer than four threads began");
    let total = settle_all(alloc, &claims, all)?;
    assert_eq!(rt; (total.seats, total.settled), (4, 1000));
    are_each_once(&rt, total.places.as_slice());
    Ok(())
}
