//! A traversal by lists over sections that grow, whose state borrows the job alone.

ghost use Rattle.std.specs.Prelude.{◌≡◌, ◌+◌, ◌<◌, ◌^◌, map, option_map, IfOk, IfSome, OnOk};
ghost use Rattle.ix_receive.specs.Waiting.{IsPutBefore, IsNextLink};
ghost use Rattle.ix_receive.specs.Base.{HaveSound, store_of};
ghost use Rattle.ix_receive.specs.Traversal.{as_pending, Expands};

use crate::request::Request;
use crate::sections::Sections;
use ix_cid::Cid;
use ix_selector::Residual;
use ix_walk::{PendingLink, expand};
use std::alloc::{AllocError, Global};
use std::collections::BTreeSet;

// A link to visit.
#[derive(Drop)]
pub(crate) struct WaitingLink<'s> {
    // The residual of the selector there.
    pub residual: Residual<'s>,
    pub cid: Cid,
    // The number of links followed from the root, with this one.
    pub depth: u32,
}

// What a traversal keeps between visits.
#[derive(Drop)]
pub(crate) struct Traversal<'s> {
    // What it has expanded: CIDs, each with the residual there.
    pub expanded: BTreeSet<(Cid, Residual<'s>)>,
    // The links that wait, the next one last.
    pub links: Vec<WaitingLink<'s>>,
    // The roots that it has not visited.
    pub roots: &'s [Cid],
    // The number of visits.
    pub visits: u32,
    // What it has skipped.
    pub skips: Skips,
}

// The visits at which a traversal doesn't continue.
#[derive(Drop)]
pub(crate) struct Skips {
    // The CIDs that were visited while their blocks were missing.
    pub missing: BTreeSet<Cid>,
    // The number of visits of these.
    pub absent: u32,
    // The number of visits of CIDs that aren't read.
    pub unread: u32,
}

// Puts links before those that wait.
fn put_before<'s>(
    alloc: Global,
    waiting: &mut Vec<WaitingLink<'s>>,
    links: Vec<PendingLink<'_, 's>>,
) -> Result<(), AllocError>
    ensures { OnOk result (IsPutBefore links.entry.items
        (map as_pending waiting.old.items) (map as_pending waiting.new.items)) }
{
    let mut links = links;
    while let Some(link) = links.pop() {
        let PendingLink {
            residual,
            cid,
            depth,
        } = link;
        let cid = cid.to_cid(alloc)?;
        waiting.push(WaitingLink {
            residual,
            cid,
            depth,
        })?;
    }
    Ok(())
}

// Returns the next link that waits, or the next root if none does.
pub(crate) fn next_link<'s>(
    asked: &Request<'s>,
    links: &mut Vec<WaitingLink<'s>>,
    roots: &mut &'s [Cid],
) -> Result<Option<WaitingLink<'s>>, AllocError>
    ensures { IfOk result (λ o. IsNextLink asked.now.job.now.selector (map as_pending links.old.items) roots.old.now
        (option_map as_pending o) (map as_pending links.new.items) roots.new.now) }
{
    if let Some(link) = links.pop() {
        return Ok(Some(link));
    }
    let Some((root, rest)) = roots.split_first() else {
        return Ok(None);
    };
    let residual = Residual::start(asked.alloc, asked.job.selector())?;
    let cid = root.try_clone(asked.alloc)?;
    *roots = rest;
    Ok(Some(WaitingLink {
        residual,
        cid,
        depth: 0,
    }))
}

// Expands a link: puts the links in its block before those that wait, unless it has none or was
// expanded with this residual.
pub(crate) fn expand_link<'s>(
    alloc: Global,
    sections: &Sections<'_>,
    link: WaitingLink<'s>,
    expanded: &mut BTreeSet<(Cid, Residual<'s>)>,
    waiting: &mut Vec<WaitingLink<'s>>,
) -> Result<(), AllocError>
    requires depth { link.depth + 1 < 2 ^ 32 }
    requires sound { HaveSound sections.now }
    ensures { OnOk result (Expands (store_of sections.now) (as_pending link.entry) expanded.old
        (map as_pending waiting.old.items) expanded.new (map as_pending waiting.new.items)) }
{
    let WaitingLink {
        residual,
        cid,
        depth,
    } = link;
    let Some(bytes) = sections.read(&cid) else {
        return Ok(());
    };
    let pair = (cid.try_clone(alloc)?, residual.try_clone(alloc)?);
    let is_first = expanded.insert(pair)?;
    if !is_first {
        return Ok(());
    }
    let links = expand(alloc, residual, bytes, depth + 1)?;
    put_before(alloc, waiting, links)?;
    Ok(())
}
