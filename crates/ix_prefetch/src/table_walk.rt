//! The walk over a table.

ghost use Rattle.std.specs.Prelude.{◌≡◌, ◌<◌, IfOk, IfSome};
ghost use Rattle.ix_prefetch.specs.TableWalk.{TakesNext, IsWalking};

use crate::expansions::Expansions;
use crate::next_link::next_link;
use crate::state::{ListLeft, TableState};
use crate::visiting::Visiting;
use ix_selector::law;
use ix_walk::{Visit, VisitedSet, WalkStop};
use std::alloc::{AllocError, Global};
use std::marker::Model;

// Returns the next visit of a walk that has returned `seq` visits.
fn next_visit<'a>(
    visiting: &Visiting<'_, 'a>,
    state: &mut TableState<'a>,
) -> Result<Option<Visit>, WalkStop>
    requires { IsWalking visiting.now.table.now visiting.now.seq state.old }
    ensures takes { TakesNext visiting.now.table.now visiting.now.number visiting.now.seq state.old result state.new }
    ensures within { IfOk result (λ o. IfSome o (λ _. visiting.now.seq < 4294967295)) }
{
    let table = visiting.table;
    let Some(next) = next_link(table, state) else {
        return Ok(None);
    };
    if visiting.seq == table.job().limit() {
        return Err(WalkStop::Limit);
    }
    let visit = visiting.visit_next(next, state)?;
    Ok(Some(visit))
}

/// An iterator over the visits of a table's job, followed by `Limit` if there are more: the same as
/// `Walk`.
pub struct TableWalk<'t, 'a> {
    alloc: Global,
    table: &'t Expansions<'a>,
    number: u32,
    given: u32,
    state: TableState<'a>,
    ended: bool,
}

// Written by hand: a derived drop is inlined in each function that drops one, at each of its exits.
impl<'t, 'a> Drop for TableWalk<'t, 'a> {
    fn drop(self) {
        let TableWalk {
            alloc: _,
            table: _,
            number: _,
            given: _,
            state,
            ended: _,
        } = self;
        drop(state);
    }
}

impl<'t, 'a> Model for TableWalk<'t, 'a> {
    ghost use Rattle.ix_walk.specs.WalkLeft.{WalkLeft};

    ghost Value = { WalkLeft };

    ghost use Rattle.ix_prefetch.specs.TableWalk.{left_of_table_walk, IsWalking};

    ghost view = { λ w. left_of_table_walk w.table.now w.number w.given w.state w.ended };

    ghost invariant = { λ w. IsWalking w.table.now w.given w.state };
}

impl<'t, 'a> TableWalk<'t, 'a> {
    ghost use Rattle.ix_walk.specs.Visits.{whole_walk};

    /// Returns the walk of the job of a table, with this number.
    pub fn new(
        alloc: Global,
        table: &'t Expansions<'a>,
        number: u32,
    ) -> Result<TableWalk<'t, 'a>, AllocError>
        ensures { IfOk result (λ w. w ≡ whole_walk table.now.store number table.now.job) }
    {
        let job = table.job();
        let expanded = if job.visits_links_once() {
            Some(VisitedSet::new(alloc, job.selector())?)
        } else {
            None
        };
        law::selector_is_one(job.selector());
        Ok(TableWalk {
            alloc,
            table,
            number,
            given: 0,
            state: TableState {
                expanded,
                at: ListLeft {
                    from: 0,
                    to: 0,
                    depth: 0,
                },
                waiting: Vec::new(alloc),
                roots: job.roots(),
            },
            ended: false,
        })
    }
}

impl<'t, 'a> Iterator for TableWalk<'t, 'a> {
    type Item = Result<Visit, WalkStop>;

    ghost use Rattle.std.specs.Iterator.{at_most};
    ghost use Rattle.ix_walk.specs.WalkLeft.{GivesNext, items_left};

    ghost next_gives = { λ w r v. GivesNext w r v };

    ghost remaining = { λ w. at_most (items_left w) };

    fn next(&mut self) -> Option<Result<Visit, WalkStop>> {
        if self.ended {
            return None;
        }
        let visiting = Visiting {
            alloc: self.alloc,
            table: self.table,
            number: self.number,
            seq: self.given,
        };
        match next_visit(&visiting, &mut self.state) {
            Ok(Some(visit)) => {
                self.given += 1;
                Some(Ok(visit))
            }
            Ok(None) => {
                self.state.clear();
                self.ended = true;
                None
            }
            Err(stop) => {
                self.state.clear();
                self.ended = true;
                Some(Err(stop))
            }
        }
    }
}
