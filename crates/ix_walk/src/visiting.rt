//! Visiting a link.

ghost use Rattle.std.specs.Prelude.{◌≡◌, ◌&&◌, ◌+◌, ◌<◌, ◌^◌, false, IfOk, IfSome, IfNone, OnOk, None, Some, option_map, is_none};
ghost use Rattle.ix_cbor.specs.Reading.{data_at};
ghost use Rattle.ix_verdict.specs.Verdict.{has_codec};
ghost use Rattle.ix_store.specs.Store.{bytes_of, value_of};
ghost use Rattle.ix_walk.specs.Once.{bytes_match};
ghost use Rattle.ix_walk.specs.Descent.{IsItem};
ghost use Rattle.ix_walk.specs.Arriving.{known_bytes, IsPositionOf, IsValue, IsReading, GoesInto, Roots, Arrives, FindsNext, TakesNext};
ghost use Rattle.ix_walk.specs.Walking.{has_tag, IsBehindFirst, IsStanding, IsWalk};

use crate::descent::{next_found, node_at};
use crate::fault::WalkStop;
use crate::job::Job;
use crate::state::WalkState;
use crate::subtree::{Child, Frontier, PendingLink};
use crate::visit::Visit;
use crate::visited_set::VisitedSet;
use ix_cid::code::DAG_CBOR;
use ix_cid::{Cid, CidRef};
use ix_selector::Residual;
use ix_store::{Cursor, Store, has_fault};
use ix_verdict::{Needed, bytes_needed};
use memchr::memchr;
use std::alloc::{AllocError, Global};

// Returns the bytes that a CID of a known codec names, if they are there, and whether they are not
// valid DAG-CBOR.
fn bytes_of<'a>(
    store: &'a Store,
    cid: &CidRef<'a>,
    block: Option<usize>,
) -> Option<(Cursor<'a>, bool)>
    requires { IsPositionOf store.now cid.now block }
    ensures bytes { option_map (λ b. b.0) result ≡ known_bytes store.now cid.now }
    ensures fault { IfSome result (λ b. b.1 ≡ is_none (data_at b.0)) }
{
    let parts = cid.parts();
    match bytes_needed(&parts) {
        Needed::Nothing(_) => None,
        Needed::Digest => {
            let digest = Cursor::of_digest(cid.as_bytes(), cid.shared(), parts.digest);
            Some((digest, has_fault(parts.digest)))
        }
        Needed::Block(_) => {
            let place = block?;
            Some((store.cursor(place), store.is_malformed(place)))
        }
    }
}

/// Returns the bytes that a walk expands, if there are any, and whether they should be DAG-CBOR and
/// are not.
pub fn read_block<'a>(
    store: &'a Store,
    cid: &CidRef<'a>,
    block: Option<usize>,
) -> (Option<Cursor<'a>>, bool)
    requires { IsPositionOf store.now cid.now block }
    ensures bytes { IfSome result.0 (λ b. bytes_of store.now cid.now ≡ Some b) }
    ensures reading { IsReading store.now cid.now result.0 result.1 }
    ensures item { IfSome result.0 (λ b. IsItem b) }
{
    if cid.parts().codec != DAG_CBOR {
        return (None, false);
    }
    match bytes_of(store, cid, block) {
        None => (None, false),
        Some((_, true)) => (None, true),
        Some((bytes, false)) => (Some(bytes), false),
    }
}

// Whether the CID of a visit is of a known codec and the bytes that it names match it: those inline
// in it (an identity CID), and those of a block whose hash matches.
fn bytes_match(store: &Store, visit: &Visit) -> bool
    requires { IsPositionOf store.now visit.now.cid visit.now.block }
    ensures { result ≡ (has_codec visit.now.cid && bytes_match store.now visit.now.cid) }
{
    match bytes_needed(&visit.cid.parts()) {
        Needed::Nothing(_) => false,
        Needed::Digest => true,
        Needed::Block(_) => match visit.block {
            None => false,
            Some(place) => store.hash_matches(place),
        },
    }
}

/// Whether the head of a link's tag, 42 (DAG-CBOR), is in the bytes of a block. Without it no link is
/// in the block.
pub fn has_tag(block: &[u8]) -> bool
    ensures { result ≡ has_tag block.now }
{
    let mut rest = block;
    while let Some(behind) = behind_first(rest) {
        if matches!(behind.first(), Some(0x2a)) {
            return true;
        }
        rest = behind;
    }
    false
}

// Returns the bytes after the first 0xd8, with which that head begins.
fn behind_first(bytes: &[u8]) -> Option<&[u8]>
    ensures found { IfSome result (λ behind. IsBehindFirst bytes.now behind.now) }
    ensures none { IfNone result (has_tag bytes.now ≡ false) }
{
    let place = memchr(0xd8, bytes)?;
    let (_, behind) = bytes.split_at(place + 1);
    Some(behind)
}

/// Returns the bytes that a walk expands at a visit, of those that its CID names. A walk that
/// records what it expanded returns them only at the first visit of a CID with a residual, which it
/// then records, and only if they match the CID and the head of a link's tag is in them; any other
/// returns them always. Bytes without that head are not hashed.
pub fn bytes_to_expand<'a, 's>(
    alloc: Global,
    store: &'a Store,
    expanded: &mut Option<VisitedSet<'s>>,
    visit: &Visit,
    residual: &Residual<'s>,
    bytes: Option<Cursor<'a>>,
) -> Result<Option<Cursor<'a>>, AllocError>
    requires block { IsPositionOf store.now visit.now.cid visit.now.block }
    requires bytes { IfSome bytes (λ b. bytes_of store.now visit.now.cid ≡ Some b) }
    requires value { IsValue (value_of store.now visit.now.cid) bytes }
    requires item { IfSome bytes (λ b. IsItem b) }
    ensures goes { IfOk result (λ b. GoesInto store.now residual.now visit.now.cid expanded.old b expanded.new) }
    ensures item { IfOk result (λ o. IfSome o (λ b. IsItem b)) }
{
    let Some(expanded) = expanded else {
        return Ok(bytes);
    };
    let Some(bytes) = bytes else {
        return Ok(None);
    };
    let is_first = expanded.insert(alloc, &visit.cid, visit.block, residual)?;
    if !is_first {
        return Ok(None);
    }
    if !has_tag(bytes.bytes()) {
        return Ok(None);
    }
    if !bytes_match(store, visit) {
        return Ok(None);
    }
    Ok(Some(bytes))
}

/// Enters a block, if there is one: up to its first child, or to the link that it is.
pub fn enter_block<'a, 's>(
    alloc: Global,
    frontier: &mut Frontier<'a, 's>,
    residual: Residual<'s>,
    block: Option<Cursor<'a>>,
    depth: u32,
) -> Result<(), AllocError>
    requires next { frontier.old.next ≡ None }
    requires block { IfSome block (λ b. IsItem b) }
    ensures { OnOk result (Roots residual.entry block.entry depth frontier.old frontier.new) }
{
    let Some(mut at) = block else {
        return Ok(());
    };
    match node_at(residual, &mut at, depth) {
        Some(Child::Link(found)) => frontier.next = Some(found),
        Some(Child::Open(mut root)) => {
            root.resume_at = Some(frontier.at.duplicate());
            frontier.stack.push(root)?;
            frontier.at = at;
        }
        None => {}
    }
    Ok(())
}

// Returns the visit of a link, and moves on to what is below it.
fn visit_link<'a>(
    alloc: Global,
    store: &'a Store,
    number: u32,
    seq: u32,
    found: PendingLink<'a, 'a>,
    state: &mut WalkState<'a>,
) -> Result<Visit, AllocError>
    requires depth { found.depth + 1 < 2 ^ 32 }
    requires next { state.old.frontier.next ≡ None }
    ensures arrives { IfOk result (λ v. Arrives store.now number seq found.entry v state.old state.new) }
    ensures roots { state.new.roots.now ≡ state.old.roots.now }
{
    let PendingLink {
        residual,
        cid: at,
        depth,
    } = found;
    let cid = at.to_cid(alloc)?;
    let block = store.find(&cid);
    let (bytes, malformed) = read_block(store, &at, block);
    let visit = Visit {
        job: number,
        seq,
        depth,
        cid,
        block,
        malformed,
    };
    let bytes = bytes_to_expand(alloc, store, &mut state.expanded, &visit, &residual, bytes)?;
    enter_block(alloc, &mut state.frontier, residual, bytes, depth + 1)?;
    Ok(visit)
}

// Returns the next link of what the walk has entered, or the next root if nothing is left of those
// before.
fn next_link<'a>(
    alloc: Global,
    job: &'a Job,
    frontier: &mut Frontier<'a, 'a>,
    roots: &mut &'a [Cid],
) -> Result<Option<PendingLink<'a, 'a>>, AllocError>
    requires { IsStanding frontier.old }
    ensures next { IfOk result (λ _. frontier.new.next ≡ None) }
    ensures found { IfOk result (λ o.
        FindsNext job.now.selector frontier.old roots.old.now o frontier.new roots.new.now) }
{
    if let Some(found) = next_found(alloc, frontier)? {
        return Ok(Some(found));
    }
    let Some((root, rest)) = roots.split_first() else {
        return Ok(None);
    };
    let residual = Residual::start(alloc, job.selector())?;
    *roots = rest;
    Ok(Some(PendingLink {
        residual,
        cid: root.by_ref(),
        depth: 0,
    }))
}

// Returns the next visit of a walk that has returned `given` visits.
pub(crate) fn next_visit<'a>(
    alloc: Global,
    store: &'a Store,
    job: &'a Job,
    number: u32,
    given: u32,
    state: &mut WalkState<'a>,
) -> Result<Option<Visit>, WalkStop>
    requires { IsWalk job.now.limit given state.old.frontier }
    ensures takes { TakesNext store.now job.now number given state.old result state.new }
    ensures within { IfOk result (λ o. IfSome o (λ _. given < 4294967295)) }
{
    let Some(found) = next_link(alloc, job, &mut state.frontier, &mut state.roots)? else {
        return Ok(None);
    };
    if given == job.limit() {
        return Err(WalkStop::Limit);
    }
    let visit = visit_link(alloc, store, number, given, found, state)?;
    Ok(Some(visit))
}
