//! The next link of a walk over a table.

ghost use Rattle.std.specs.Prelude.{◌≡◌, ◌<◌, ◌≤◌, length, OnOk};
ghost use Rattle.ix_prefetch.specs.TableState.{rest_of, IsWithin, IsNextLink, IsFirst, IsNextRoot, PutsAside, PutsList, PutsLinks};

use crate::expansions::Expansions;
use crate::state::{ListLeft, Next, TableState, Waits};
use ix_cid::Cid;
use ix_walk::PendingLink;
use std::alloc::AllocError;

// Takes the first link of a list.
fn take_first<'a>(table: &Expansions<'a>, list: &mut ListLeft) -> Next<'a>
    requires left { list.old.from < list.old.to }
    requires within { list.old.to ≤ length table.now.links }
    ensures first { IsFirst table.now list.old result }
    ensures rest { list.new ≡ rest_of list.old }
{
    let whole = *list;
    let link = table.link(whole.from);
    *list = whole.rest();
    Next::Listed {
        link,
        depth: whole.depth,
    }
}

// Takes the first root.
fn take_root<'a>(roots: &mut &'a [Cid]) -> Option<Next<'a>>
    ensures { IsNextRoot roots.old.now result roots.new.now }
{
    let Some((root, rest)) = roots.split_first() else {
        return None;
    };
    *roots = rest;
    Some(Next::Root(root))
}

/// Takes the next link of what waits, or the next root if nothing does.
pub(crate) fn next_link<'a>(table: &Expansions<'a>, state: &mut TableState<'a>) -> Option<Next<'a>>
    requires { IsWithin table.now state.old }
    ensures { IsNextLink table.now state.old result state.new }
{
    if state.at.from < state.at.to {
        return Some(take_first(table, &mut state.at));
    }
    match state.waiting.pop() {
        Some(Waits::List(list)) => {
            state.at = list;
            Some(take_first(table, &mut state.at))
        }
        Some(Waits::Link(link)) => Some(Next::Found(link)),
        None => take_root(&mut state.roots),
    }
}

// Puts what is left of a walk's list before what waits.
fn put_aside(state: &mut TableState<'_>) -> Result<(), AllocError>
    ensures { OnOk result (PutsAside state.old state.new) }
{
    if state.at.from < state.at.to {
        state.waiting.push(Waits::List(state.at))?;
        state.at.from = state.at.to;
    }
    Ok(())
}

/// Puts a list of the table before what waits.
pub(crate) fn put_list(state: &mut TableState<'_>, list: ListLeft) -> Result<(), AllocError>
    ensures { OnOk result (PutsList list state.old state.new) }
{
    if list.from == list.to {
        return Ok(());
    }
    put_aside(state)?;
    state.at = list;
    Ok(())
}

/// Puts links before what waits.
pub(crate) fn put_links<'a>(
    state: &mut TableState<'a>,
    links: Vec<PendingLink<'a, 'a>>,
) -> Result<(), AllocError>
    ensures { OnOk result (PutsLinks links.entry.items state.old state.new) }
{
    put_aside(state)?;
    let mut links = links;
    while let Some(link) = links.pop() {
        state.waiting.push(Waits::Link(link))?;
    }
    Ok(())
}
