//! The protocol of the queue: its invariant, the steps of seats, and what each step proves.

ghost use Rattle.std.specs.Prelude.{◌≡◌, ◌+◌, ℕ, List, []};
ghost use Rattle.ix_stages.specs.Course.{IsWellTaken};
ghost use Rattle.ix_stages.specs.PassViews.{blank, spent, root, after_seat, job_pass, take_pass};
ghost use Rattle.ix_stages.specs.PassViews.{after_put, after_join, all_put, all_taken};
ghost use Rattle.ix_stages.specs.QueueState.{IsQueueState};
ghost use Rattle.ix_stages.specs.Seats.{IsTake};
ghost use Rattle.ix_stages.specs.declared.course.JobVisits.{JobVisits};
ghost use Rattle.ix_stages.specs.declared.item.Item.{Item};
ghost use Rattle.ix_stages.specs.Totals.{total};

use crate::item::Item;
use crate::pass_view::PassView;
use crossbeam_queue::protocol::{Join, Lesson, Outcome, Protocol, Split};
use std::marker::{Brand, PhantomData};

/// The invariant of a visit queue, for any number of seats.
pub struct VisitRule;

impl Protocol<Item, PassView> for VisitRule {
    ghost holds = { IsQueueState };

    ghost first = { blank };
}

/// A course and a number of seats, which the proof of a call picks.
pub trait Naming {
    ghost course: { List JobVisits };

    ghost seats: { ℕ };
}

impl Naming for Brand {
    ghost course = { [] };

    ghost seats = { 0 };
}

/// A split that names the course.
pub struct NameCourse<N> {
    of: PhantomData<N>,
}

impl<N: Naming> Split<PassView> for NameCourse<N> {
    ghost left = { λ v. root N.course N.seats };

    ghost right = { λ v. spent };
}

/// A split that makes the seat of the next job.
pub struct MakeProducer;

impl Split<PassView> for MakeProducer {
    ghost left = { after_seat };

    ghost right = { job_pass };
}

/// A split that makes a consumer's seat.
pub struct MakeConsumer;

impl Split<PassView> for MakeConsumer {
    ghost left = { after_seat };

    ghost right = { take_pass };
}

/// A join of a seat, which keeps its lists apart.
pub struct Joins;

impl Join<PassView> for Joins {
    ghost both = { after_join };

    ghost spent = { spent };
}

/// A step that puts an item.
pub struct Puts;

impl Outcome<Item, PassView> for Puts {
    ghost then = { λ v x w. w ≡ after_put v x };
}

impl Lesson<Item, PassView> for Puts {
    ghost fact = { λ v items. Unit {0} };
}

/// A step that takes an item. A pass with all seats joined in it knows what the queue holds.
pub struct Takes;

impl Outcome<Item, PassView> for Takes {
    ghost then = { IsTake };
}

impl Lesson<Item, PassView> for Takes {
    ghost fact = { λ v items. v.parts ≡ v.all → (h : Item → ℕ) → total h (all_put v) ≡ total h (all_taken v) + total h items };
}

/// What was taken, by this pass and the seats joined into it, fits the course and holds nothing
/// twice.
pub struct LearnTaken;

impl Lesson<Item, PassView> for LearnTaken {
    ghost fact = { λ v items. IsWellTaken v.course (all_taken v) };
}
