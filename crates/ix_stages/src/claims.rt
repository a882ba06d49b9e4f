//! A ticket counter: hands out values, each once, to any of several threads.

ghost use Rattle.std.specs.Prelude.{◌≡◌, ◌<◌, ◌≤◌, All, length, map, replicate, true, IfOk, MatchOption};
ghost use Rattle.ix_stages.specs.ClaimRule.{spent, Draws, Tells};
ghost use Rattle.ix_stages.specs.ClaimsJoined.{with_seat, HasJoined, IsMakerOf, IsRowOf, seat_dealt};
ghost use Rattle.ix_stages.specs.Claims.{IsOfClaims, new_seat, at_end, all_places, some_ended};
ghost use Rattle.ix_stages.specs.Claims.{HasClaimed, EachAtMostOnceBelow, EachOnceBelow};

use crate::claim_rule::{Begin, Both, ClaimView, Draw, Key, Look, OneSeat, Row, Whole};
use atomic_table::{Seat, Table};
use std::alloc::{AllocError, Global};
use std::marker::Model;
use std::snapshot::Snapshot;

/// A ticket counter: values that are claimed in order, each once, through seats.
#[derive(Drop)]
pub struct Claims<T: Drop> {
    row: Row<T>,
    count: u32,
}

impl<T: Drop> Model for Claims<T> {
    ghost use Rattle.std.specs.Prelude.{◌≡◌, ◌≤◌, length};
    ghost use Rattle.ix_stages.specs.ClaimsJoined.{with_seat, HasJoined};
    ghost use Rattle.ix_stages.specs.Claims.{ClaimsMeaning};

    ghost Value = { ClaimsMeaning T };

    ghost view = { λ c. record { table = c.row.shared.table_id; values = c.row.shared.key.values.value.items; seats = c.row.shared.key.seats } };

    ghost invariant = { λ c. (c.row.shared.table_id.words ≡ 1) × (c.count ≡ length c.row.shared.key.values.value.items) × (1 ≤ c.row.shared.key.seats) };
}

/// A handle of one thread on the ticket counter, with which it claims. It may move to another
/// thread.
#[derive(Drop)]
pub struct ClaimSeat<T> {
    seat: Seat<Option<T>, ClaimView<T>>,
    ended: bool,
}

impl<T> Model for ClaimSeat<T> {
    ghost use Rattle.std.specs.Prelude.{◌≡◌, cond};
    ghost use Rattle.ix_stages.specs.Claims.{SeatMeaning};

    ghost Value = { SeatMeaning T };

    ghost view = { λ s. record { of = record { table = s.seat.table_id; values = s.seat.me.0.values; seats = s.seat.me.0.seats }; places = s.seat.me.0.places; ended = s.ended } };

    ghost invariant = { λ s. (s.seat.me.0.parts ≡ 1) × (s.seat.me.0.refusals ≡ cond s.ended 1 0) };
}

// Returns each value in a slot of its own.
fn slots_of<T: Drop>(alloc: Global, values: Vec<T>) -> Result<Vec<Option<T>>, AllocError>
    ensures { IfOk result (λ s. s.items ≡ map Some values.items) }
{
    let mut slots = Vec::with_capacity(alloc, values.len())?;
    for value in values {
        slots.push(Some(value))?;
    }
    Ok(slots)
}

// Splits a view into `seats` seats.
fn deal<T: Drop>(
    alloc: Global,
    row: &Row<T>,
    maker: &mut Seat<Option<T>, ClaimView<T>>,
    seats: u32,
) -> Result<Vec<ClaimSeat<T>>, AllocError>
    requires table { IsRowOf maker.old.table_id row.now.shared.table_id }
    requires view { IsMakerOf seats maker.old.me.0 }
    ensures { IfOk result (λ all.
        all.items ≡ replicate seats (seat_dealt row.now.shared.table_id maker.old.me.0)) }
{
    let mut all = Vec::with_capacity(alloc, seats as usize)?;
    for _ in 0..seats {
        let seat = row.shared.split_seat::<OneSeat>(maker);
        all.push(ClaimSeat { seat, ended: false })?;
    }
    Ok(all)
}

// Draws the next number.
fn draw<T: Drop>(row: &Row<T>, seat: &mut Seat<Option<T>, ClaimView<T>>) -> u64
    requires seat { IsRowOf seat.old.table_id row.now.shared.table_id }
    requires view { (0 < seat.old.me.0.parts) × (seat.old.me.0.refusals ≡ 0) }
    ensures same { (seat.new.table_id ≡ seat.old.table_id) × (seat.new.id ≡ seat.old.id) }
    ensures draws { Draws seat.old.me result seat.new.me }
{
    row.shared.fetch_add::<Draw>(seat, 0, 1)
}

// Returns how many numbers were drawn.
fn look<T: Drop>(row: &Row<T>, seat: &mut Seat<Option<T>, ClaimView<T>>) -> u64
    requires seat { IsRowOf seat.old.table_id row.now.shared.table_id }
    ensures { 0 < seat.old.me.0.parts → Tells seat.old.me.0 result }
{
    row.shared.load::<Look>(seat, 0)
}

impl<T: Drop> Claims<T> {
    /// Creates a ticket counter for at most 1,000 values, with 1 to 64 seats. An error drops the
    /// values.
    pub fn new(
        alloc: Global,
        values: Vec<T>,
        seats: u32,
    ) -> Result<(Claims<T>, Vec<ClaimSeat<T>>), AllocError>
        requires values { length values.items ≤ 1000 }
        requires seats { (1 ≤ seats) × (seats ≤ 64) }
        ensures claims { IfOk result (λ r. (r.0.values ≡ values.items) × (r.0.seats ≡ seats)) }
        ensures seats { IfOk result (λ r. r.1.items ≡ replicate seats (new_seat r.0)) }
    {
        let count = values.len() as u32;
        let key = Key {
            values: Snapshot::of(&values),
            seats,
        };
        let slots = slots_of(alloc, values)?;
        let Ok((row, mut maker)) = Table::new(alloc, &[0], slots, &key) else {
            return Err(AllocError);
        };
        let all = deal(alloc, &row, &mut maker, seats)?;
        Ok((Claims { row, count }, all))
    }

    /// Claims the next value, and returns it with its position; or `None`, once all are claimed. A
    /// seat that got `None` gets `None` ever after, with no further step. Never waits.
    pub fn claim(&self, seat: &mut ClaimSeat<T>) -> Option<(u32, T)>
        requires { IsOfClaims self.now seat.old }
        ensures { MatchOption result (seat.new ≡ at_end seat.old)
            (λ p. HasClaimed self.now seat.old p.0 p.1 seat.new) }
    {
        if seat.ended {
            return None;
        }
        let found = draw(&self.row, &mut seat.seat);
        if found >= u64::from(self.count) {
            seat.ended = true;
            return None;
        }
        match self
            .row
            .shared
            .exchange(&mut seat.seat, found as usize, None)
        {
            Some(value) => Some((found as u32, value)),
            None => unreachable!(),
        }
    }

    /// Takes seats back, and returns how many values are claimed by then. If these are all the
    /// seats, the positions claimed through them are the numbers below the result, each once.
    pub fn settle(&self, seats: Vec<ClaimSeat<T>>) -> u32
        requires { All (IsOfClaims self.now) seats.items }
        ensures within { result ≤ length self.now.values }
        ensures once { EachAtMostOnceBelow result (all_places seats.items) }
        ensures all { length seats.items ≡ self.now.seats → EachOnceBelow result (all_places seats.items) }
        ensures ended { some_ended seats.items ≡ true → result ≡ length self.now.values }
    {
        let (_, mut joined) = self.row.shared.load_new_seat::<Begin>(0);
        join_all(self, &mut joined, seats);
        let found = look(&self.row, &mut joined);
        found.min(u64::from(self.count)) as u32
    }
}

// Joins a seat into another. The slots that it holds are empty, and stay with it.
fn join<T: Drop>(claims: &Claims<T>, joined: &mut Seat<Option<T>, ClaimView<T>>, seat: ClaimSeat<T>)
    requires table { joined.old.table_id ≡ claims.now.table }
    requires seat { IsOfClaims claims.now seat }
    ensures table { joined.new.table_id ≡ joined.old.table_id }
    ensures view { joined.new.me.0 ≡ with_seat joined.old.me.0 seat }
{
    let ClaimSeat { mut seat, ended: _ } = seat;
    let whole = claims.row.shared.split_seat::<Whole>(&mut seat);
    claims.row.shared.join_seat::<Both>(joined, whole);
}

// Joins seats into one without knowledge.
fn join_all<T: Drop>(
    claims: &Claims<T>,
    joined: &mut Seat<Option<T>, ClaimView<T>>,
    seats: Vec<ClaimSeat<T>>,
)
    requires table { joined.old.table_id ≡ claims.now.table }
    requires seats { All (IsOfClaims claims.now) seats.items }
    requires view { joined.old.me.0 ≡ spent }
    ensures table { joined.new.table_id ≡ joined.old.table_id }
    ensures view { HasJoined claims.now seats.items joined.new.me.0 }
{
    for seat in seats {
        join(claims, joined, seat);
    }
}
