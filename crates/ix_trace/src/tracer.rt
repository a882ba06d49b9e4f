//! Where a walk is.

ghost use Rattle.std.specs.Prelude.{◌≡◌, Option, Ok, IfOk, IfSome, string_bytes};
ghost use Rattle.std.specs.List.{Contains};
ghost use Rattle.ix_cbor.specs.Data.{Data};
ghost use Rattle.ix_cbor.specs.Reading.{decoded};
ghost use Rattle.ix_store.specs.Store.{Blocks};
ghost use Rattle.ix_walk.specs.Arriving.{IsValue};
ghost use Rattle.ix_trace.specs.Links.{AreLinksInside};
ghost use Rattle.ix_trace.specs.Trace.{IsPathTo, IsInside, IsKept, AreKept, GoesOn, GoesDown};

use crate::expansion::{Expansion, expand};
use crate::segments::push_segments;
use crate::text::path_text;
use ix_cid::{Cid, CidRef};
use ix_selector::Residual;
use ix_store::{Cursor, Store};
use ix_walk::{Job, read_block};
use std::alloc::{AllocError, Global};

// A link that was visited: its CID, and the residual of the selector there.
#[derive(Drop)]
pub(crate) struct Place<'a> {
    cid: CidRef<'a>,
    residual: Residual<'a>,
}

// What is in the block of a CID, if there is a block to expand.
#[derive(Drop)]
pub(crate) struct Inside<'a> {
    cid: CidRef<'a>,
    expansion: Expansion<'a, 'a>,
}

// A visit on the way to the one where the walk is.
#[derive(Drop)]
pub(crate) struct Level<'a> {
    // How many of the links in its block were visited.
    taken: usize,
    // What is in its block, once a path through it was asked for.
    inside: Option<Inside<'a>>,
}

impl<'a> Level<'a> {
    // After one more link.
    fn after_one(self) -> Level<'a>
        ensures { result.inside ≡ self.entry.inside }
    {
        let Level { taken, inside } = self;
        Level {
            taken: taken.saturating_add(1),
            inside,
        }
    }
}

// Where a walk is: how many roots it has visited, and the visits on the way from the last of them. It
// visits the links in a block in their order, so the depth of each visit says where it is.
#[derive(Drop)]
pub(crate) struct Tracer<'a> {
    roots: usize,
    levels: Vec<Level<'a>>,
}

impl<'a> Tracer<'a> {
    // Before the first visit.
    pub(crate) fn new(alloc: Global) -> Tracer<'a>
        ensures { (store : Blocks) → AreKept store result.levels.items }
    {
        Tracer {
            roots: 0,
            levels: Vec::new(alloc),
        }
    }

    // Goes on to the next visit, which has this depth.
    pub(crate) fn advance(&mut self, depth: u32) -> Result<(), AllocError>
        ensures { (store : Blocks) → AreKept store self.old.levels.items → AreKept store self.new.levels.items }
    {
        self.levels.truncate(depth as usize);
        match self.levels.pop() {
            Some(level) => self.levels.push(level.after_one())?,
            None => self.roots = self.roots.saturating_add(1),
        }
        self.levels.push(Level {
            taken: 0,
            inside: None,
        })?;
        Ok(())
    }

    // Returns the path of the last visit, if this is its CID.
    pub(crate) fn path(
        &mut self,
        alloc: Global,
        store: &'a Store,
        job: &'a Job,
        cid: &Cid,
    ) -> Result<Option<String>, AllocError>
        requires { AreKept store.now self.old.levels.items }
        ensures kept { AreKept store.now self.new.levels.items }
        ensures path { IfOk result (λ o. IfSome o (λ text.
            IsPathTo store.now job.now cid.now (string_bytes text))) }
    {
        let Some(root) = self.root(job) else {
            return Ok(None);
        };
        let mut segments = Vec::new(alloc);
        let start = Place {
            cid: root.by_ref(),
            residual: Residual::start(alloc, job.selector())?,
        };
        let Some(place) = descend(alloc, store, &mut self.levels, start, &mut segments)? else {
            return Ok(None);
        };
        if place.cid.as_bytes() != cid.as_bytes() {
            return Ok(None);
        }
        let text = path_text(alloc, root, segments.as_slice())?;
        Ok(Some(text))
    }

    // Returns the root that was visited last.
    fn root(&self, job: &'a Job) -> Option<&'a Cid>
        ensures { IfSome result (λ root. Contains job.now.roots root.now) }
    {
        job.roots().get(self.roots.checked_sub(1)?)
    }
}

// Goes down from the root to the last visit, and appends the segments on the way.
fn descend<'a>(
    alloc: Global,
    store: &'a Store,
    levels: &mut Vec<Level<'a>>,
    start: Place<'a>,
    segments: &mut Vec<Vec<u8>>,
) -> Result<Option<Place<'a>>, AllocError>
    requires { AreKept store.now levels.old.items }
    ensures kept { AreKept store.now levels.new.items }
    ensures leads { IfOk result (λ o. IfSome o (λ place.
        GoesDown store.now start.entry.cid place.cid segments.old segments.new)) }
{
    let above = levels.len().saturating_sub(1);
    let mut place = start;
    for level in 0..above {
        match step_at(alloc, store, levels, level, place, segments)? {
            Some(next) => place = next,
            None => return Ok(None),
        }
    }
    Ok(Some(place))
}

// Goes on from the visit of this number on the way.
fn step_at<'a>(
    alloc: Global,
    store: &'a Store,
    levels: &mut Vec<Level<'a>>,
    number: usize,
    place: Place<'a>,
    segments: &mut Vec<Vec<u8>>,
) -> Result<Option<Place<'a>>, AllocError>
    requires { AreKept store.now levels.old.items }
    ensures kept { AreKept store.now levels.new.items }
    ensures next { IfOk result (λ o. IfSome o (λ next.
        GoesOn store.now place.entry.cid next.cid segments.old segments.new)) }
{
    match levels.get_mut(number) {
        Some(level) => step_down(alloc, store, level, place, segments),
        None => Ok(None),
    }
}

// Goes on from a visit to the link in its block that was visited last, and appends the segments to it.
fn step_down<'a>(
    alloc: Global,
    store: &'a Store,
    level: &mut Level<'a>,
    place: Place<'a>,
    segments: &mut Vec<Vec<u8>>,
) -> Result<Option<Place<'a>>, AllocError>
    requires { IsKept store.now level.old }
    ensures kept { IsKept store.now level.new }
    ensures next { IfOk result (λ o. IfSome o (λ next.
        GoesOn store.now place.entry.cid next.cid segments.old segments.new)) }
{
    let Some(number) = level.taken.checked_sub(1) else {
        return Ok(None);
    };
    let inside = inside_at(alloc, store, level.inside.take(), place)?;
    let next = link_in(alloc, &inside, number, segments)?;
    level.inside = Some(inside);
    Ok(next)
}

// Returns what is in the block of a link: what was kept, if that is of this link.
fn inside_at<'a>(
    alloc: Global,
    store: &'a Store,
    kept: Option<Inside<'a>>,
    place: Place<'a>,
) -> Result<Inside<'a>, AllocError>
    requires { IfSome kept (IsInside store.now) }
    ensures inside { IfOk result (IsInside store.now) }
    ensures cid { IfOk result (λ inside. inside.cid ≡ place.entry.cid) }
{
    if let Some(inside) = kept
        && inside.cid.as_bytes() == place.cid.as_bytes()
    {
        return Ok(inside);
    }
    inside_of(alloc, store, place)
}

// Returns what is in the block of a link.
fn inside_of<'a>(
    alloc: Global,
    store: &'a Store,
    place: Place<'a>,
) -> Result<Inside<'a>, AllocError>
    ensures inside { IfOk result (IsInside store.now) }
    ensures cid { IfOk result (λ inside. inside.cid ≡ place.entry.cid) }
{
    let Place { cid, residual } = place;
    let block = store.find(&cid.to_cid(alloc)?);
    let (bytes, _) = read_block(store, &cid, block);
    let expansion = expansion_of(alloc, residual, bytes)?;
    Ok(Inside { cid, expansion })
}

// Returns the links in a block that a residual enters, if there is one.
fn expansion_of<'a>(
    alloc: Global,
    residual: Residual<'a>,
    block: Option<Cursor<'a>>,
) -> Result<Expansion<'a, 'a>, AllocError>
    requires { IfSome block (λ b. (d : Data) × (decoded b ≡ Ok d)) }
    ensures { IfOk result (λ found. (value : Option Data) → IsValue value block.entry
        → AreLinksInside value found.steps.items found.links.items) }
{
    match block {
        Some(block) => expand(alloc, residual, block.bytes()),
        None => Ok(Expansion::empty(alloc)),
    }
}

// Returns the link of this number, and appends the segments to it.
fn link_in<'a>(
    alloc: Global,
    inside: &Inside<'a>,
    number: usize,
    segments: &mut Vec<Vec<u8>>,
) -> Result<Option<Place<'a>>, AllocError>
    ensures { IfOk result (λ o. IfSome o (λ next. (store : Blocks) → IsInside store inside.now
        → GoesOn store inside.now.cid next.cid segments.old segments.new)) }
{
    let Some(link) = inside.expansion.links.get(number) else {
        return Ok(None);
    };
    let steps = inside.expansion.steps.as_slice();
    push_segments(alloc, segments, steps, link.node)?;
    Ok(Some(Place {
        cid: CidRef::of(link.cid.as_bytes()),
        residual: link.residual.try_clone(alloc)?,
    }))
}
