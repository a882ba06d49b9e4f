//! The walk.

ghost use Rattle.std.specs.Prelude.{◌≡◌, false, IfOk};
ghost use Rattle.ix_walk.specs.Visits.{whole_walk};

use crate::fault::WalkStop;
use crate::job::Job;
use crate::state::WalkState;
use crate::subtree::Frontier;
use crate::visit::Visit;
use crate::visited_set::VisitedSet;
use crate::visiting::next_visit;
use ix_selector::law;
use ix_store::Store;
use std::alloc::{AllocError, Global};
use std::marker::Model;

/// An iterator over the visits of a job, followed by `Limit` if there are more.
pub struct Walk<'a> {
    alloc: Global,
    store: &'a Store,
    job: &'a Job,
    number: u32,
    given: u32,
    state: WalkState<'a>,
    ended: bool,
}

// Written by hand: a derived drop is inlined in each function that drops one, at each of its exits.
impl<'a> Drop for Walk<'a> {
    fn drop(self) {
        let Walk {
            alloc: _,
            store: _,
            job: _,
            number: _,
            given: _,
            state,
            ended: _,
        } = self;
        drop(state);
    }
}

impl<'a> Model for Walk<'a> {
    ghost use Rattle.ix_walk.specs.WalkLeft.{WalkLeft};

    ghost Value = { WalkLeft };

    ghost use Rattle.ix_walk.specs.Arriving.{left_of_walk};
    ghost use Rattle.ix_walk.specs.Walking.{IsWalk};

    ghost view = { λ w. left_of_walk w.store.now w.number w.job.now w.given w.state w.ended };

    ghost invariant = { λ w. IsWalk w.job.now.limit w.given w.state.frontier };
}

impl<'a> Walk<'a> {
    ghost use Rattle.ix_walk.specs.Visits.{whole_walk};

    /// Returns the walk of the job with this number.
    pub fn new(
        alloc: Global,
        store: &'a Store,
        job: &'a Job,
        number: u32,
    ) -> Result<Walk<'a>, AllocError>
        ensures { IfOk result (λ w. w ≡ whole_walk store.now number job.now) }
    {
        let expanded = if job.visits_links_once() {
            Some(VisitedSet::new(alloc, job.selector())?)
        } else {
            None
        };
        law::residual_is_the_rest();
        law::selector_is_one(job.selector());
        Ok(Walk {
            alloc,
            store,
            job,
            number,
            given: 0,
            state: WalkState {
                expanded,
                frontier: Frontier::new(alloc),
                roots: job.roots(),
            },
            ended: false,
        })
    }
}

impl<'a> Iterator for Walk<'a> {
    type Item = Result<Visit, WalkStop>;

    ghost use Rattle.std.specs.Iterator.{at_most};
    ghost use Rattle.ix_walk.specs.WalkLeft.{GivesNext, items_left};

    ghost next_gives = { λ w r v. GivesNext w r v };

    ghost remaining = { λ w. at_most (items_left w) };

    fn next(&mut self) -> Option<Result<Visit, WalkStop>> {
        if self.ended {
            return None;
        }
        match next_visit(
            self.alloc,
            self.store,
            self.job,
            self.number,
            self.given,
            &mut self.state,
        ) {
            Ok(Some(visit)) => {
                self.given += 1;
                Some(Ok(visit))
            }
            Ok(None) => {
                self.state.frontier.clear();
                self.ended = true;
                None
            }
            Err(stop) => {
                self.state.frontier.clear();
                self.ended = true;
                Some(Err(stop))
            }
        }
    }
}
