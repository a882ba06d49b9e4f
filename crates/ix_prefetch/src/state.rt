//! What a walk over a table keeps.

ghost use Rattle.std.specs.Prelude.{◌≡◌, ◌<◌, []};
ghost use Rattle.ix_prefetch.specs.TableState.{rest_of};

use crate::link::LinkAt;
use ix_cid::Cid;
use ix_walk::{PendingLink, VisitedSet};

/// The links that are left of a list of the table, each at this depth.
#[derive(Clone, Copy)]
pub(crate) struct ListLeft {
    pub from: u32,
    pub to: u32,
    pub depth: u32,
}

/// What waits: a list of the table, or a link in a block of which the table has no expansion.
#[derive(Drop)]
pub(crate) enum Waits<'a> {
    List(ListLeft),
    Link(PendingLink<'a, 'a>),
}

/// The next link to visit.
#[derive(Drop)]
pub(crate) enum Next<'a> {
    // One of the table, at a depth.
    Listed { link: LinkAt<'a>, depth: u32 },
    Root(&'a Cid),
    Found(PendingLink<'a, 'a>),
}

/// What a walk over a table keeps: what it has expanded, and what it has still to visit.
#[derive(Drop)]
pub(crate) struct TableState<'a> {
    // What it has expanded, if it expands a CID once.
    pub expanded: Option<VisitedSet<'a>>,
    // The list that it is in.
    pub at: ListLeft,
    // What waits after it, the next last.
    pub waiting: Vec<Waits<'a>>,
    // The roots that it has not visited.
    pub roots: &'a [Cid],
}

impl ListLeft {
    /// The list without its first link.
    pub(crate) fn rest(self) -> ListLeft
        requires { self.from < self.to }
        ensures { result ≡ rest_of self }
    {
        ListLeft {
            from: self.from + 1,
            to: self.to,
            depth: self.depth,
        }
    }
}

impl TableState<'_> {
    /// Drops the links that wait.
    pub(crate) fn clear(&mut self)
        ensures list { self.new.at.to ≡ 0 }
        ensures waiting { self.new.waiting.items ≡ [] }
    {
        self.at = ListLeft {
            from: 0,
            to: 0,
            depth: 0,
        };
        self.waiting.clear();
    }
}
