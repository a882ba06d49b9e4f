//! The walk of a job: by a table of expansions, or through the blocks.

use ix_prefetch::TableWalk;
use ix_walk::{Visit, Walk, WalkStop};
use std::marker::Model;

// The two ways of a walk, which have the same visits.
#[derive(Drop)]
pub(crate) enum WalkKind<'t, 'a> {
    // It reads each block that it expands.
    Blocks(Walk<'t>),
    // It takes the links of a block from a table, where the table has them.
    Table(TableWalk<'t, 'a>),
}

/// An iterator over the visits of a job, followed by `Limit` if there are more: the same as `Walk`.
pub struct JobWalk<'t, 'a> {
    pub(crate) kind: WalkKind<'t, 'a>,
}

// Written by hand: a derived drop is inlined in each function that drops one, at each of its exits.
impl<'t, 'a> Drop for JobWalk<'t, 'a> {
    fn drop(self) {
        let JobWalk { kind } = self;
        drop(kind);
    }
}

impl<'t, 'a> Model for JobWalk<'t, 'a> {
    ghost use Rattle.ix_walk.specs.WalkLeft.{WalkLeft};

    ghost Value = { WalkLeft };

    ghost use Rattle.ix_stages.specs.JobWalk.{left_of_kind};

    ghost view = { λ w. left_of_kind w.kind };
}

impl<'t, 'a> Iterator for JobWalk<'t, 'a> {
    type Item = Result<Visit, WalkStop>;

    ghost use Rattle.std.specs.Iterator.{at_most};
    ghost use Rattle.ix_walk.specs.WalkLeft.{GivesNext, items_left};

    ghost next_gives = { λ w r v. GivesNext w r v };

    ghost remaining = { λ w. at_most (items_left w) };

    fn next(&mut self) -> Option<Result<Visit, WalkStop>> {
        match &mut self.kind {
            WalkKind::Blocks(walk) => walk.next(),
            WalkKind::Table(walk) => walk.next(),
        }
    }
}
