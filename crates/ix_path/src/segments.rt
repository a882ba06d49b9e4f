//! The selector along segments before it is known what is there.

ghost use Rattle.std.specs.Prelude.{◌≡◌, IfOk, IfErr, Ok};
ghost use Rattle.ix_cbor.specs.Data.{data_of};
ghost use Rattle.ix_cbor.specs.Spelling.{IsSpellable, IsCanonical};
ghost use Rattle.ix_path.specs.Resolution.{segments_in};
ghost use Rattle.ix_selector.specs.Pattern.{Pattern};
ghost use Rattle.ix_path.specs.End.{selector_at_end, IsUnread};
ghost use Rattle.ix_path.specs.Segments.{IsSelectorBySegments, HasNoSelectorBySegments};
ghost use Rattle.ix_path.specs.Segments.{IsTreeOf, IsTooDeep, by_key_or_index, number_of};
ghost use Rattle.ix_path.specs.Segments.{union_data, data_by_key_or_index};

use crate::end::{PathEnd, end_node};
use crate::index_of;
use crate::selector::selector_tree;
use crate::selector_fault::PathSelectorFault;
use crate::selector_node::{one_key, step_node};
use ix_cbor::{Node, Tree, decode, encode};
use ix_selector::Step;
use std::alloc::{AllocError, Global};

/// Returns the selector that goes from a root along segments before it is known what is there, as DAG-CBOR:
/// at a segment that is a number the union of those along its key and along its index, at any other the one
/// along its key. `law::along_segments` states which places it enters. Each number doubles what is after it.
/// The errors are those of `selector_along`.
pub fn selector_by_segments(
    alloc: Global,
    segments: &[Vec<u8>],
    end: PathEnd,
) -> Result<Vec<u8>, PathSelectorFault>
    ensures selector { IfOk result (λ block.
        IsSelectorBySegments (segments_in segments.now) end block.items) }
    ensures refused { IfErr result (HasNoSelectorBySegments (segments_in segments.now) end) }
{
    let mut tree = end_tree(alloc, end)?;
    let mut left = segments;
    while let Some((segment, before)) = left.split_last() {
        tree = tree_before(alloc, segment.as_slice(), tree)?;
        left = before;
    }
    Ok(encode(alloc, &tree)?)
}

// Returns the tree of the selector at an end, or why there is none.
fn end_tree(alloc: Global, end: PathEnd) -> Result<Tree, PathSelectorFault>
    ensures tree { IfOk result (λ tree.
        (s : Pattern) × (selector_at_end end ≡ Ok s) × IsTreeOf s tree) }
    ensures refused { IfErr result (IsUnread (selector_at_end end)) }
{
    let node = end_node(alloc, end)?;
    selector_tree(alloc, node)
}

// Returns the tree of the selector that goes along a segment and then on by that of a tree, or that it nests
// too deep.
fn tree_before(alloc: Global, segment: &[u8], next: Tree) -> Result<Tree, PathSelectorFault>
    ensures tree { (s : Pattern) → IsTreeOf s next → IfOk result (λ tree.
        IsTreeOf (by_key_or_index segment.now (number_of segment.now) s) tree) }
    ensures refused { (s : Pattern) → IsTreeOf s next → IfErr result (λ fault.
        IsTooDeep (by_key_or_index segment.now (number_of segment.now) s) fault) }
{
    let node = node_before(alloc, segment, next)?;
    selector_tree(alloc, node)
}

// Puts the form of a segment around the node of the next selector: a field, or where it is a number the union
// of this and an index.
fn node_before(alloc: Global, segment: &[u8], next: Tree) -> Result<Node, AllocError>
    ensures exact { IfOk result (λ node.
        data_of node ≡ data_by_key_or_index segment.now (number_of segment.now) next) }
    ensures spellable { IfOk result (λ node. IsSpellable (data_of node)) }
{
    match index_of(segment) {
        Some(position) => {
            let again = copy_of(alloc, &next)?.into_root();
            let by_key = step_node(alloc, &Step::Key(segment), next.into_root())?;
            let by_index = step_node(alloc, &Step::Pos(position), again)?;
            union_node(alloc, by_key, by_index)
        }
        None => step_node(alloc, &Step::Key(segment), next.into_root()),
    }
}

// Makes the node of the union of two selectors.
fn union_node(alloc: Global, first: Node, second: Node) -> Result<Node, AllocError>
    ensures exact { IfOk result (λ node.
        data_of node ≡ union_data (data_of first) (data_of second)) }
    ensures spellable { IfOk result (λ node.
        IsSpellable (data_of first) → IsSpellable (data_of second) → IsSpellable (data_of node)) }
{
    let mut members = Vec::new(alloc);
    members.push(first)?;
    members.push(second)?;
    one_key(alloc, b"|", Node::List(members))
}

// Copies a tree. What it is encoded to decodes, unless memory runs out.
fn copy_of(alloc: Global, tree: &Tree) -> Result<Tree, AllocError>
    ensures { IsCanonical tree.now → IfOk result (λ copy. copy ≡ tree.now) }
{
    let block = encode(alloc, tree)?;
    match decode(alloc, block.as_slice()) {
        Ok(copy) => Ok(copy),
        Err(_) => Err(AllocError),
    }
}
