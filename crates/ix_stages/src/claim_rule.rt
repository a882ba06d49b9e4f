//! The protocol of claims: the invariant between any two steps, over the counter word, the slots
//! and what the seats know.

ghost use Rattle.std.specs.Prelude.{◌≡◌, ◌+◌, [], ◌++◌};
ghost use Rattle.ix_stages.specs.ClaimRule.{claimer, spent, one_less, one_seat, IsClaimed, Draws, Looks};

use atomic_table::{Join, Play, Split, Table, TableRule};
use std::alloc::Global;
use std::collections::LinkedList;
use std::snapshot::Snapshot;

/// What a seat knows. A ghost type: no value of it is made.
pub struct ClaimView<T> {
    /// How many seats are joined in it.
    pub parts: u64,
    /// How many seats there are.
    pub seats: u64,
    /// The values that can be claimed.
    pub values: LinkedList<T>,
    /// The positions that it claimed.
    pub places: LinkedList<u64>,
    /// How often it was answered that all are claimed.
    pub refusals: u64,
}

/// The constants of the table, set when it is made.
#[derive(Drop)]
pub struct Key<T> {
    pub values: Snapshot<Vec<T>>,
    pub seats: u32,
}

/// One word, which counts the draws, and one slot for each value.
pub struct ClaimRule;

impl<T> TableRule<Option<T>, ClaimView<T>, Key<T>> for ClaimRule {
    ghost holds = { λ k s. IsClaimed k.values.value.items k.seats s };

    ghost first = { λ k. claimer k.seats k.seats k.values.value.items [] 0 };
}

pub type Row<T> = Table<Option<T>, ClaimView<T>, Key<T>, ClaimRule, Global>;

/// A step that draws a number.
pub struct Draw;

impl<T> Play<Option<T>, ClaimView<T>> for Draw {
    ghost then = { λ step me n w. Draws me n w };
}

/// A step that reads the word.
pub struct Look;

impl<T> Play<Option<T>, ClaimView<T>> for Look {
    ghost then = { λ step me n w. Looks me n w };
}

/// A step that makes a seat without knowledge.
pub struct Begin;

impl<T> Play<Option<T>, ClaimView<T>> for Begin {
    ghost then = { λ step me n w. w ≡ (spent, []) };
}

/// A split that makes one seat.
pub struct OneSeat;

impl<T> Split<ClaimView<T>> for OneSeat {
    ghost left = { λ v. one_less v };

    ghost right = { λ v. one_seat v };
}

/// A split that moves the whole view to a new seat, which holds no slot.
pub struct Whole;

impl<T> Split<ClaimView<T>> for Whole {
    ghost left = { λ v. spent };

    ghost right = { λ v. v };
}

/// A join of two seats into one.
pub struct Both;

impl<T> Join<ClaimView<T>> for Both {
    ghost both = { λ v w. claimer (v.parts + w.parts) w.seats w.values (v.places ++ w.places) (v.refusals + w.refusals) };

    ghost spent = { spent };
}
