//! Visiting a link, by a walk over a table.

ghost use Rattle.std.specs.Prelude.{◌≡◌, ◌+◌, ◌<◌, ◌^◌, true, false, is_some, IfOk, IfSome, OnOk, length};
ghost use Rattle.ix_store.specs.Store.{bytes_of, value_of};
ghost use Rattle.ix_walk.specs.Arriving.{IsPositionOf, IsValue};
ghost use Rattle.ix_walk.specs.Descent.{IsItem};
ghost use Rattle.ix_walk.specs.Walking.{waiting, is_barren};
ghost use Rattle.ix_prefetch.specs.Link.{cid_at, IsHashedAt};
ghost use Rattle.ix_prefetch.specs.Expansions.{residual_in};
ghost use Rattle.ix_prefetch.specs.TableState.{IsWithin, IsNext, next_pending, IsVisited};
ghost use Rattle.ix_walk.specs.Expansion.{IsBlock};
ghost use Rattle.ix_prefetch.specs.Visiting.{IsUsable, EntersList, IsVisitAt, PutsInside};

use crate::expansions::Expansions;
use crate::link::{LinkAt, Pair};
use crate::next_link::{put_links, put_list};
use crate::reading::read_stored;
use crate::state::{ListLeft, Next, TableState};
use ix_cid::{Cid, CidRef};
use ix_selector::Residual;
use ix_store::{Cursor, Store};
use ix_walk::{PendingLink, Visit, VisitedSet, bytes_to_expand, expand, read_block};
use std::alloc::{AllocError, Global};

/// A walk over a table: the table, the number of the job, and that of the visit.
#[derive(Clone, Copy)]
pub(crate) struct Visiting<'t, 'a> {
    pub alloc: Global,
    pub table: &'t Expansions<'a>,
    pub number: u32,
    pub seq: u32,
}

// Returns the pair of a block and a residual whose list a walk can take, if the table has it. A walk
// that expands a CID at every link to it takes no list of a pair below which nothing is visited once.
fn usable_pair(
    table: &Expansions<'_>,
    guess: u32,
    block: Option<usize>,
    residual: u16,
    once: bool,
) -> Option<Pair>
    ensures { IfSome result (IsUsable table.now block residual once) }
{
    let pair = table.pair(guess, block?, residual)?;
    if pair.barren && !once {
        return None;
    }
    Some(pair)
}

// Whether a walk visits the list of a pair, at a visit of its block. A walk that records what it
// expanded then records that it has.
fn enters_list<'a>(
    alloc: Global,
    store: &Store,
    expanded: &mut Option<VisitedSet<'a>>,
    visit: &Visit,
    residual: &Residual<'a>,
    pair: Pair,
) -> Result<bool, AllocError>
    requires block { IsPositionOf store.now visit.now.cid visit.now.block }
    requires barren { pair.barren ≡ true → is_barren store.now visit.now.cid ≡ true }
    requires usable { is_some expanded.old ≡ false → pair.barren ≡ false }
    ensures enters { IfOk result (EntersList store.now residual.now visit.now.cid expanded.old expanded.new) }
    ensures live { IfOk result (λ enters. enters ≡ true → pair.barren ≡ false) }
{
    if expanded.is_none() {
        return Ok(true);
    }
    if pair.barren {
        return Ok(false);
    }
    let (bytes, _) = read_block(store, &visit.cid.by_ref(), visit.block);
    let bytes = bytes_to_expand(alloc, store, expanded, visit, residual, bytes)?;
    Ok(bytes.is_some())
}

impl<'a> Visiting<'_, 'a> {
    // The visit of a CID.
    fn visit(&self, cid: Cid, block: Option<usize>, depth: u32, malformed: bool) -> Visit
        ensures { result ≡ record {
          job = self.now.number;
          seq = self.now.seq;
          depth = depth;
          cid = cid;
          block = block;
          malformed = malformed;
        } }
    {
        Visit {
            job: self.number,
            seq: self.seq,
            depth,
            cid,
            block,
            malformed,
        }
    }

    // Expands the block of a visit by the list of a pair.
    fn visit_pair(
        &self,
        visit: Visit,
        pair: Pair,
        state: &mut TableState<'a>,
    ) -> Result<Visit, AllocError>
        requires depth { visit.depth + 1 < 2 ^ 32 }
        requires visit { IsVisitAt self.now.table.now self.now.number self.now.seq visit }
        requires pair { IsUsable self.now.table.now visit.block pair.residual (is_some state.old.expanded) pair }
        requires within { IsWithin self.now.table.now state.old }
        ensures { IfOk result (λ v. IsVisited self.now.table.now self.now.number self.now.seq
            (waiting (residual_in self.now.table.now pair.residual) visit.depth visit.cid) state.old v state.new) }
    {
        let table = self.table;
        let residual = table.residual(pair.residual);
        let enters = enters_list(
            self.alloc,
            table.store(),
            &mut state.expanded,
            &visit,
            residual,
            pair,
        )?;
        if !enters {
            return Ok(visit);
        }
        put_list(state, pair.list(visit.depth + 1))?;
        Ok(visit)
    }

    // Expands a block, if there is one.
    fn put_block(
        &self,
        residual: &Residual<'a>,
        bytes: Option<Cursor<'a>>,
        depth: u32,
        state: &mut TableState<'a>,
    ) -> Result<(), AllocError>
        requires { IfSome bytes (λ b. IsBlock b) }
        ensures { OnOk result (PutsInside residual.now bytes.entry depth state.old state.new) }
    {
        let Some(bytes) = bytes else {
            return Ok(());
        };
        let residual = residual.try_clone(self.alloc)?;
        let links = expand(self.alloc, residual, bytes, depth)?;
        put_links(state, links)?;
        Ok(())
    }

    // Expands the block of a visit, of which these are the bytes that a walk expands.
    fn visit_bytes(
        &self,
        visit: Visit,
        residual: &Residual<'a>,
        bytes: Option<Cursor<'a>>,
        state: &mut TableState<'a>,
    ) -> Result<Visit, AllocError>
        requires depth { visit.depth + 1 < 2 ^ 32 }
        requires visit { IsVisitAt self.now.table.now self.now.number self.now.seq visit }
        requires bytes { IfSome bytes (λ b. bytes_of self.now.table.now.store visit.cid ≡ Some b) }
        requires value { IsValue (value_of self.now.table.now.store visit.cid) bytes }
        requires item { IfSome bytes (λ b. IsItem b) }
        requires within { IsWithin self.now.table.now state.old }
        ensures { IfOk result (λ v. IsVisited self.now.table.now self.now.number self.now.seq
            (waiting residual.now visit.depth visit.cid) state.old v state.new) }
    {
        let bytes = bytes_to_expand(
            self.alloc,
            self.table.store(),
            &mut state.expanded,
            &visit,
            residual,
            bytes,
        )?;
        self.put_block(residual, bytes, visit.depth + 1, state)?;
        Ok(visit)
    }

    // Visits a link to a block of the store.
    fn visit_stored(
        &self,
        residual: u16,
        place: u32,
        guess: u32,
        depth: u32,
        left: &mut TableState<'a>,
    ) -> Result<Visit, AllocError>
        requires depth { depth + 1 < 2 ^ 32 }
        requires residual { residual < length self.now.table.now.residuals }
        requires place { IsHashedAt self.now.table.now.store place }
        requires within { IsWithin self.now.table.now left.old }
        ensures { IfOk result (λ v. IsVisited self.now.table.now self.now.number self.now.seq
            (waiting (residual_in self.now.table.now residual) depth (cid_at self.now.table.now.store place))
            left.old v left.new) }
    {
        let table = self.table;
        let store = table.store();
        let cid = store.cid_at(place as usize)?;
        let block = store.find_near(Some(place as usize), &cid);
        let once = left.expanded.is_some();
        if let Some(pair) = usable_pair(table, guess, block, residual, once) {
            let visit = self.visit(cid, block, depth, pair.malformed);
            return self.visit_pair(visit, pair, left);
        }
        let (bytes, malformed) = read_stored(store, &cid, block);
        let visit = self.visit(cid, block, depth, malformed);
        self.visit_bytes(visit, table.residual(residual), bytes, left)
    }

    // Visits a link to any CID.
    fn visit_written(
        &self,
        residual: u16,
        at: CidRef<'a>,
        depth: u32,
        left: &mut TableState<'a>,
    ) -> Result<Visit, AllocError>
        requires depth { depth + 1 < 2 ^ 32 }
        requires residual { residual < length self.now.table.now.residuals }
        requires within { IsWithin self.now.table.now left.old }
        ensures { IfOk result (λ v. IsVisited self.now.table.now self.now.number self.now.seq
            (waiting (residual_in self.now.table.now residual) depth at.entry) left.old v left.new) }
    {
        let table = self.table;
        let store = table.store();
        let cid = at.to_cid(self.alloc)?;
        let block = store.find(&cid);
        let once = left.expanded.is_some();
        if let Some(pair) = usable_pair(table, 0, block, residual, once) {
            let visit = self.visit(cid, block, depth, pair.malformed);
            return self.visit_pair(visit, pair, left);
        }
        let (bytes, malformed) = read_block(store, &at, block);
        let visit = self.visit(cid, block, depth, malformed);
        self.visit_bytes(visit, table.residual(residual), bytes, left)
    }

    // Visits a link that was found in a block of which the table has no expansion.
    fn visit_found(
        &self,
        link: PendingLink<'a, 'a>,
        rest: &mut TableState<'a>,
    ) -> Result<Visit, AllocError>
        requires depth { link.depth + 1 < 2 ^ 32 }
        requires within { IsWithin self.now.table.now rest.old }
        ensures { IfOk result (λ v. IsVisited self.now.table.now self.now.number self.now.seq
            link.entry rest.old v rest.new) }
    {
        let PendingLink {
            residual,
            cid: at,
            depth,
        } = link;
        let store = self.table.store();
        let cid = at.to_cid(self.alloc)?;
        let block = store.find(&cid);
        let (bytes, malformed) = read_block(store, &at, block);
        let visit = self.visit(cid, block, depth, malformed);
        self.visit_bytes(visit, &residual, bytes, rest)
    }

    /// Returns the visit of a link, and puts the links below it before those that wait.
    pub(crate) fn visit_next(
        &self,
        next: Next<'a>,
        rest: &mut TableState<'a>,
    ) -> Result<Visit, AllocError>
        requires depth { (next_pending self.now.table.now next).depth + 1 < 2 ^ 32 }
        requires next { IsNext self.now.table.now next }
        requires within { IsWithin self.now.table.now rest.old }
        ensures { IfOk result (λ v. IsVisited self.now.table.now self.now.number self.now.seq
            (next_pending self.now.table.now next.entry) rest.old v rest.new) }
    {
        match next {
            Next::Listed { link, depth } => match link {
                LinkAt::Stored {
                    residual,
                    place,
                    pair,
                } => self.visit_stored(residual, place, pair, depth, rest),
                LinkAt::Written { residual, cid } => {
                    self.visit_written(residual, cid, depth, rest)
                }
            },
            Next::Root(root) => {
                let residual = self.table.root_number();
                self.visit_written(residual, root.by_ref(), 0, rest)
            }
            Next::Found(link) => self.visit_found(link, rest),
        }
    }
}
