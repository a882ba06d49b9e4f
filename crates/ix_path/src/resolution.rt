//! Following a path through the blocks of a store.

ghost use Rattle.std.specs.Prelude.{◌≡◌, IfOk, Some, true};
ghost use Rattle.std.specs.Option.{ok_or};
ghost use Rattle.ix_cid.specs.Cid.{parts_of};
ghost use Rattle.ix_cid.specs.Parts.{parts_view};
ghost use Rattle.ix_store.specs.Store.{bytes_of};
ghost use Rattle.ix_verdict.specs.Needed.{NeedsBlock};
ghost use Rattle.ix_path.specs.declared.obstacle.Obstacle.TheVariants as obstacles;
ghost use Rattle.ix_path.specs.Causes.{goes_by_bytes};
ghost use Rattle.ix_path.specs.Resolution.{◌and_then◌, sound_node, entered, crossed, stepped, followed, resolution, Goes, GoesBy, IsRoute, segments_in};
ghost use Rattle.ix_store.specs.Verdict.{verdict_of};

use crate::child::child;
use crate::node::PathNode;
use crate::obstacle::Obstacle;
use crate::step::PathStep;
use ix_cid::code::DAG_CBOR;
use ix_cid::{Cid, CidRef, Parts};
use ix_store::{Store, has_fault, verdict_at};
use ix_verdict::{Needed, Verdict, bytes_needed};
use std::alloc::{AllocError, Global};

/// How many links are crossed one after another, if each leads to a block that is nothing but the
/// next. A link after so many isn't crossed.
pub const MOST_LINKS: u32 = 128;

/// Where a path ends: at a node, or at what is there instead.
pub type End<'a> = Result<PathNode<'a>, Obstacle<'a>>;

/// How far a path leads.
#[derive(Drop)]
pub struct Resolution<'a> {
    /// The CIDs of the blocks on the way, the root's first. The last one is that of the block in which
    /// the path ends, or leads no further.
    pub blocks: Vec<Cid>,
    /// The steps, one for each segment that is there.
    pub steps: Vec<PathStep>,
    /// The node at the end, or what there is instead of a child that the next segment names, or
    /// instead of a block.
    pub end: End<'a>,
}

/// Follows a path from a root (IPLD pathing). A segment names the value of a key of a map, or the
/// element of a list by its index in decimal without leading zeros. Each link on the way and at the
/// end is crossed, also into the digest of an identity CID, and no block is read that isn't sound. The
/// only error is out of memory.
pub fn resolve<'a>(
    alloc: Global,
    store: &'a Store,
    root: &'a Cid,
    segments: &'a [Vec<u8>],
) -> Result<Resolution<'a>, AllocError>
    ensures { IfOk result (λ r. IsRoute r (resolution store.now MOST_LINKS (segments_in segments.now) root.now)) }
{
    let mut blocks = Vec::new(alloc);
    let mut steps = Vec::new(alloc);
    let end = follow(alloc, store, root, segments, &mut blocks, &mut steps)?;
    Ok(Resolution { blocks, steps, end })
}

// Follows a path, and appends the blocks and the steps on the way.
fn follow<'a>(
    alloc: Global,
    store: &'a Store,
    root: &'a Cid,
    segments: &'a [Vec<u8>],
    blocks: &mut Vec<Cid>,
    steps: &mut Vec<PathStep>,
) -> Result<End<'a>, AllocError>
    ensures { IfOk result (λ end.
        GoesBy blocks.old.items blocks.new.items steps.old.items steps.new.items end
        (resolution store.now MOST_LINKS (segments_in segments.now) root.now)) }
{
    let mut node = match begin(alloc, store, root, blocks)? {
        Ok(node) => node,
        Err(obstacle) => return Ok(Err(obstacle)),
    };
    for segment in segments {
        node = match advance(alloc, store, node, segment.as_slice(), blocks, steps)? {
            Ok(next) => next,
            Err(obstacle) => return Ok(Err(obstacle)),
        };
    }
    Ok(Ok(node))
}

// Enters the block of a root, and crosses links.
fn begin<'a>(
    alloc: Global,
    store: &'a Store,
    root: &'a Cid,
    blocks: &mut Vec<Cid>,
) -> Result<End<'a>, AllocError>
    ensures { IfOk result (λ end. Goes blocks.old.items blocks.new.items end
        (entered store.now root.now and_then crossed store.now MOST_LINKS)) }
{
    match enter(alloc, store, &root.by_ref(), blocks)? {
        Ok(node) => cross(alloc, store, node, blocks),
        Err(obstacle) => Ok(Err(obstacle)),
    }
}

// Goes to the child that a segment names, and crosses links.
fn advance<'a>(
    alloc: Global,
    store: &'a Store,
    node: PathNode<'a>,
    segment: &'a [u8],
    blocks: &mut Vec<Cid>,
    steps: &mut Vec<PathStep>,
) -> Result<End<'a>, AllocError>
    ensures { IfOk result (λ end.
        GoesBy blocks.old.items blocks.new.items steps.old.items steps.new.items end
        (stepped segment.now node.entry and_then crossed store.now MOST_LINKS)) }
{
    match child(&node, segment) {
        Ok((step, next)) => {
            steps.push(step)?;
            cross(alloc, store, next, blocks)
        }
        Err(obstacle) => Ok(Err(obstacle)),
    }
}

// Crosses links, one after another.
fn cross<'a>(
    alloc: Global,
    store: &'a Store,
    node: PathNode<'a>,
    blocks: &mut Vec<Cid>,
) -> Result<End<'a>, AllocError>
    ensures { IfOk result (λ end. Goes blocks.old.items blocks.new.items end
        (crossed store.now MOST_LINKS node.entry)) }
{
    let mut node = node;
    for _ in 0..MOST_LINKS {
        let Some(name) = node.link() else {
            return Ok(Ok(node));
        };
        node = match enter(alloc, store, &name, blocks)? {
            Ok(next) => next,
            Err(obstacle) => return Ok(Err(obstacle)),
        };
    }
    Ok(Ok(node))
}

// Goes to the node that a CID names, and appends the CID.
fn enter<'a>(
    alloc: Global,
    store: &'a Store,
    name: &CidRef<'a>,
    blocks: &mut Vec<Cid>,
) -> Result<End<'a>, AllocError>
    ensures { IfOk result (λ end. Goes blocks.old.items blocks.new.items end
        (entered store.now name.now)) }
{
    let cid = name.to_cid(alloc)?;
    let end = node_under(store, &cid, &name.parts());
    blocks.push(cid)?;
    Ok(end)
}

// Returns the node that a CID with these parts names, if the verdict on the CID passes.
fn node_under<'a>(store: &'a Store, cid: &Cid, parts: &Parts<'a>) -> End<'a>
    requires { parts_view parts.now ≡ parts_of cid.now }
    ensures { result ≡ ok_or (sound_node store.now cid.now) (obstacles.Block (verdict_of store.now cid.now)) }
{
    let (verdict, bytes) = judged(store, cid, parts);
    if verdict.passes() {
        Ok(PathNode::of(parts.codec != DAG_CBOR, bytes))
    } else {
        Err(Obstacle::Block(verdict))
    }
}

// Returns the verdict on a CID with these parts, and the bytes by which it is, if it is by any.
pub(crate) fn judged<'a>(store: &'a Store, cid: &Cid, parts: &Parts<'a>) -> (Verdict, &'a [u8])
    requires { parts_view parts.now ≡ parts_of cid.now }
    ensures verdict { result.0 ≡ verdict_of store.now cid.now }
    ensures bytes { goes_by_bytes result.0 ≡ true → bytes_of store.now cid.now ≡ Some result.1.now }
{
    match bytes_needed(parts) {
        Needed::Nothing(verdict) => (verdict, parts.digest),
        Needed::Digest => {
            let malformed = parts.codec == DAG_CBOR && has_fault(parts.digest);
            (Verdict::of_inline(malformed), parts.digest)
        }
        Needed::Block(_) => block_under(store, cid),
    }
}

// Returns the verdict on a CID that needs a block, and the block, if it is there.
fn block_under<'a>(store: &'a Store, cid: &Cid) -> (Verdict, &'a [u8])
    requires needed { NeedsBlock cid.now }
    ensures verdict { result.0 ≡ verdict_of store.now cid.now }
    ensures bytes { goes_by_bytes result.0 ≡ true → bytes_of store.now cid.now ≡ Some result.1.now }
{
    let place = store.find(cid);
    let verdict = verdict_at(store, cid, place);
    match place {
        None => (verdict, &[]),
        Some(place) => (verdict, store.bytes(place)),
    }
}
