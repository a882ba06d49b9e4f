//! How seats are joined, and how the rest of the queue is taken.

ghost use Rattle.std.specs.Prelude.{◌≡◌, ◌++◌, [], All, map, IfSome, IfNone};
ghost use Rattle.ix_stages.specs.Course.{IsWellTaken};
ghost use Rattle.ix_stages.specs.PassViews.{all_put, all_taken};
ghost use Rattle.ix_stages.specs.Seats.{IsTake};
ghost use Rattle.ix_stages.specs.Making.{IsLivePass};
ghost use Rattle.ix_stages.specs.Settled.{Absorbs, AbsorbsAll, Settles, IsAllTaken};
ghost use Rattle.ix_stages.specs.Settled.{passes_of, put_by, taken_by};
ghost use Rattle.ix_stages.specs.Queue.{IsOfQueue};

use crate::item::Item;
use crate::pass_view::PassView;
use crate::queue::{RuledQueue, VisitQueue};
use crate::rule::{Joins, LearnTaken, Takes};
use crate::seats::{JobSeat, Rest, StopSeat, TakeSeat};
use crossbeam_queue::Pass;
use std::sync::Wait;

// Joins the producers' seats, which have taken nothing.
fn join_jobs(ruled: &RuledQueue, pass: &mut Pass<Item, PassView>, seats: Vec<JobSeat>)
    requires pass { IsLivePass ruled.now pass.old }
    requires seats { All (λ s. s.table ≡ ruled.now.table.shared.table_id) seats.items }
    ensures joined { AbsorbsAll pass.old (map (λ s. s.pass) seats.items) pass.new }
    ensures taken { All (λ s. s.pass.taken ≡ []) seats.items }
{
    for seat in seats {
        // Each field is named, with its type: a seat has no lock.
        let JobSeat {
            pass: other,
            job,
            next,
            closed,
        } = seat;
        let (_, _, _): (u32, u32, bool) = (job, next, closed);
        let other: Pass<Item, PassView> = other;
        ruled.absorb::<Joins>(pass, other);
    }
}

// Joins the consumers' seats, which have put nothing.
fn join_takers(ruled: &RuledQueue, pass: &mut Pass<Item, PassView>, seats: Vec<TakeSeat>)
    requires pass { IsLivePass ruled.now pass.old }
    requires seats { All (λ s. s.table ≡ ruled.now.table.shared.table_id) seats.items }
    ensures joined { AbsorbsAll pass.old (map (λ s. s.pass) seats.items) pass.new }
    ensures put { All (λ s. s.pass.put ≡ []) seats.items }
{
    for seat in seats {
        let TakeSeat { pass: other } = seat;
        let other: Pass<Item, PassView> = other;
        ruled.absorb::<Joins>(pass, other);
    }
}

impl VisitQueue {
    /// Joins seats, all or some. What they took was allowed by the course, with no visit and no
    /// close twice, and no item of a job with a number above its close's. Their lists are kept
    /// apart, and the `Rest` has taken nothing of its own.
    pub fn settle(&self, jobs: Vec<JobSeat>, stop: StopSeat, takers: Vec<TakeSeat>) -> Rest
        requires stop { IsOfQueue self.now stop.table }
        requires jobs { All (λ s. IsOfQueue self.now s.table) jobs.items }
        requires takers { All (λ s. IsOfQueue self.now s.table) takers.items }
        ensures table { IsOfQueue self.now result.table }
        ensures joined { Settles stop.pass (passes_of jobs.items takers.items) result.pass }
        ensures put { all_put result.pass ≡ stop.pass.put ++ put_by jobs.items }
        ensures taken { all_taken result.pass ≡ taken_by takers.items }
        ensures own { result.pass.taken ≡ [] }
        ensures good { IsWellTaken stop.pass.course (taken_by takers.items) }
    {
        let StopSeat { pass } = stop;
        let mut pass: Pass<Item, PassView> = pass;
        join_jobs(&self.ruled, &mut pass, jobs);
        join_takers(&self.ruled, &mut pass, takers);
        self.ruled.learn_as::<LearnTaken>(&mut pass);
        Rest { pass }
    }

    /// Takes the item at the front of the rest of the queue. At `None`, if all seats were joined,
    /// all that was put was taken, as often as it was put.
    pub fn take_rest<R: Wait>(&self, rt: &R, rest: &mut Rest) -> Option<Item>
        requires { IsOfQueue self.now rest.old.table }
        ensures table { rest.new.table ≡ rest.old.table }
        ensures some { IfSome result (λ x. IsTake rest.old.pass x rest.new.pass) }
        ensures none { IfNone result ((rest.new.pass ≡ rest.old.pass) × IsAllTaken rest.old.pass) }
    {
        // A queue is one ruled queue and nothing else, and a `Rest` is one pass.
        let VisitQueue { ruled } = self;
        let ruled: &RuledQueue = ruled;
        let Rest { pass } = rest;
        let pass: &mut Pass<Item, PassView> = pass;
        ruled.pop_as::<Takes, R>(rt, pass)
    }
}
