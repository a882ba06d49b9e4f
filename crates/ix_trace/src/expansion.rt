//! The links in a block, with the steps to each.

ghost use Rattle.std.specs.Prelude.{◌≡◌, ℕ, List, [], None, Ok, IfOk};
ghost use Rattle.ix_cbor.specs.Data.{Data, Items, Entries};
ghost use Rattle.ix_cbor.specs.Reading.{decoded, item_at, items_at, entries_at};
ghost use Rattle.ix_trace.specs.Links.{AreLinksOf, FindsBelow, FindsInElements, FindsInEntries, FindsInChild};

use crate::item::{front_at, key_at, may_hold_links, skipped};
use ix_cbor::Front;
use ix_cid::CidRef;
use ix_selector::{Residual, Step, Steps};
use std::alloc::{AllocError, Global};

// How deep lists and maps nest in DAG-CBOR.
const LEVELS: u32 = 512;

// A link in a block that the selector enters.
#[derive(Drop)]
pub(crate) struct Link<'a, 's> {
    // The residual of the selector there.
    pub residual: Residual<'s>,
    pub cid: CidRef<'a>,
    // The number of its node, as in `Expansion`.
    pub node: usize,
}

// The step to a node of a block, from the node that it is in.
#[derive(Drop, Clone, Copy)]
pub(crate) struct StepFrom<'a> {
    pub parent: usize,
    pub step: Step<'a>,
}

// The links in a block that a residual enters, in order, and the steps to them. The nodes that were
// entered have numbers: 0 is the block's root, and the step to any other is at its number less 1.
#[derive(Drop)]
pub(crate) struct Expansion<'a, 's> {
    pub links: Vec<Link<'a, 's>>,
    pub steps: Vec<StepFrom<'a>>,
}

impl<'a, 's> Expansion<'a, 's> {
    // Nothing: of a CID without a block to expand.
    pub(crate) fn empty(alloc: Global) -> Expansion<'a, 's>
        ensures links { result.links.items ≡ [] }
        ensures steps { result.steps.items ≡ [] }
    {
        Expansion {
            links: Vec::new(alloc),
            steps: Vec::new(alloc),
        }
    }
}

// Returns the links in a block that a residual enters.
pub(crate) fn expand<'a, 's>(
    alloc: Global,
    residual: Residual<'s>,
    block: &'a [u8],
) -> Result<Expansion<'a, 's>, AllocError>
    requires { (d : Data) × (decoded block.now ≡ Ok d) }
    ensures { IfOk result (λ found. (d : Data) → decoded block.now ≡ Ok d
        → AreLinksOf d found.steps.items found.links.items) }
{
    let mut found = Expansion::empty(alloc);
    push_item(alloc, &mut found, residual, block, 0, LEVELS)?;
    Ok(found)
}

// Appends the links in the item that begins here, the node of this number, in which lists and maps may
// nest so deep. Returns the bytes after it.
#[cycle(push_item)]
fn push_item<'a, 's>(
    alloc: Global,
    found: &mut Expansion<'a, 's>,
    residual: Residual<'s>,
    at: &'a [u8],
    node: usize,
    levels: u32,
) -> Result<&'a [u8], AllocError>
    requires { (x : Data × List ℕ) × (item_at 512 at.now ≡ Ok x) }
    ensures { IfOk result (λ rest. FindsBelow at.now node found.old found.new rest.now) }
{
    let (front, rest) = front_at(at);
    match front {
        Front::Link(cid) => {
            found.links.push(Link {
                residual,
                cid: CidRef::of(cid),
                node,
            })?;
            Ok(rest)
        }
        Front::List(count) => push_elements(alloc, found, residual, (rest, count), node, levels),
        Front::Map(count) => push_values(alloc, found, residual, (rest, count), node, levels),
        _ => Ok(rest),
    }
}

// Appends the links in the elements of a list: the bytes where they begin, and how many there are.
#[cycle(push_item)]
fn push_elements<'a, 's>(
    alloc: Global,
    found: &mut Expansion<'a, 's>,
    residual: Residual<'s>,
    elements: (&'a [u8], u64),
    node: usize,
    levels: u32,
) -> Result<&'a [u8], AllocError>
    requires { (x : Items × List ℕ) × (items_at (item_at 512) elements.1 elements.0.now ≡ Ok x) }
    ensures { IfOk result (λ rest.
        FindsInElements elements.entry.0.now elements.entry.1 node found.old found.new rest.now) }
{
    let (mut at, count) = elements;
    let mut residual = Steps::of(residual);
    for index in 0..count {
        let from = StepFrom {
            parent: node,
            step: Step::Pos(index),
        };
        at = push_child(alloc, found, &mut residual, from, at, levels)?;
    }
    Ok(at)
}

// Appends the links in the values of a map: the bytes where its entries begin, and how many there are.
#[cycle(push_item)]
fn push_values<'a, 's>(
    alloc: Global,
    found: &mut Expansion<'a, 's>,
    residual: Residual<'s>,
    entries: (&'a [u8], u64),
    node: usize,
    levels: u32,
) -> Result<&'a [u8], AllocError>
    requires { (x : Entries × List ℕ) × (entries_at (item_at 512) None entries.1 entries.0.now ≡ Ok x) }
    ensures { IfOk result (λ rest.
        FindsInEntries entries.entry.0.now entries.entry.1 node found.old found.new rest.now) }
{
    let (mut at, count) = entries;
    let mut residual = Steps::of(residual);
    for _ in 0..count {
        let (key, value) = key_at(at);
        let from = StepFrom {
            parent: node,
            step: Step::Key(key),
        };
        at = push_child(alloc, found, &mut residual, from, value, levels)?;
    }
    Ok(at)
}

// Appends the links in the child that begins here, if the selector enters it. Returns the bytes after it.
#[cycle(push_item)]
fn push_child<'a, 's>(
    alloc: Global,
    found: &mut Expansion<'a, 's>,
    residual: &mut Steps<'s>,
    from: StepFrom<'a>,
    at: &'a [u8],
    levels: u32,
) -> Result<&'a [u8], AllocError>
    requires { (x : Data × List ℕ) × (item_at 512 at.now ≡ Ok x) }
    ensures { IfOk result (λ rest. FindsInChild at.now from.entry found.old found.new rest.now) }
{
    let (front, _) = front_at(at);
    if levels > 0
        && may_hold_links(front)
        && let Some(residual) = residual.step(alloc, &from.step)?
    {
        found.steps.push(from)?;
        let node = found.steps.len();
        return push_item(alloc, found, residual, at, node, levels - 1);
    }
    Ok(skipped(at))
}
