//! What is selected where a path ends.

ghost use Rattle.std.specs.Prelude.{◌≡◌, IfOk, IfErr};
ghost use Rattle.ix_cbor.specs.Data.{data_of, map, node_entries};
ghost use Rattle.ix_selector.specs.Reading.{selector_of, without_envelope};
ghost use Rattle.ix_selector.specs.Examples.{matcher_data, everything_data};
ghost use Rattle.ix_path.specs.End.{is_enveloped, read_at_end, selector_at_end, SpellsRead, IsUnread};

use crate::nothing::enters_its_place;
use crate::selector_fault::PathSelectorFault;
use crate::selector_node::{one_key, two_keys};
use ix_cbor::{Node, Tree};
use ix_selector::{SelFault, Selector};
use std::alloc::{AllocError, Global};

/// What is selected where a path ends.
#[derive(Drop)]
pub enum PathEnd {
    /// The node alone.
    Node,
    /// Everything below.
    Everything,
    /// What this selector selects from there. It may be in the envelope. The node alone counts in
    /// place of one that enters nothing, such as an empty union.
    Selector(Tree),
}

// Returns the node of the selector at an end, without an envelope, or why there is none.
pub(crate) fn end_node(alloc: Global, end: PathEnd) -> Result<Node, PathSelectorFault>
    ensures node { IfOk result (λ node. SpellsRead (selector_at_end end) (data_of node)) }
    ensures refused { IfErr result (IsUnread (selector_at_end end)) }
{
    match end {
        PathEnd::Node => Ok(matcher_node(alloc)?),
        PathEnd::Everything => Ok(everything_node(alloc)?),
        PathEnd::Selector(tree) => selector_node(alloc, tree),
    }
}

// Makes the node of a matcher.
fn matcher_node(alloc: Global) -> Result<Node, AllocError>
    ensures { IfOk result (λ node. data_of node ≡ matcher_data) }
{
    one_key(alloc, b".", Node::Map(Vec::new(alloc)))
}

// Makes the node of the selector of everything: a recursion without limit over all children.
fn everything_node(alloc: Global) -> Result<Node, AllocError>
    ensures { IfOk result (λ node. data_of node ≡ everything_data) }
{
    let edge = one_key(alloc, b"@", Node::Map(Vec::new(alloc)))?;
    let sequence = one_key(alloc, b"a", one_key(alloc, b">", edge)?)?;
    let limit = one_key(alloc, b"none", Node::Map(Vec::new(alloc)))?;
    let recursion = two_keys(alloc, b"l", limit, b":>", sequence)?;
    one_key(alloc, b"R", recursion)
}

// Returns the node of a selector without an envelope, or that of the matcher in place of one that
// enters nothing, or why the tree is no selector.
fn selector_node(alloc: Global, tree: Tree) -> Result<Node, PathSelectorFault>
    ensures node { IfOk result (λ node.
        SpellsRead (read_at_end (selector_of tree)) (data_of node)) }
    ensures refused { IfErr result (IsUnread (read_at_end (selector_of tree))) }
{
    match Selector::read(alloc, &tree) {
        Ok(selector) => {
            if enters_its_place(alloc, &selector)? {
                Ok(without_envelope(tree.into_root()))
            } else {
                Ok(matcher_node(alloc)?)
            }
        }
        Err(SelFault::Memory) => Err(PathSelectorFault::Memory),
        Err(fault) => Err(PathSelectorFault::End(fault)),
    }
}

// Returns what is in the envelope, or the node itself.
fn without_envelope(node: Node) -> Node
    ensures { data_of result ≡ without_envelope (data_of node) }
{
    match node {
        Node::Map(entries) => without_key(entries),
        other => other,
    }
}

// Returns the value of the one key of an envelope, or a map of all the entries.
fn without_key(mut entries: Vec<(Vec<u8>, Node)>) -> Node
    ensures { data_of result ≡ without_envelope (map (node_entries entries.items)) }
{
    if !are_envelope(entries.as_slice()) {
        return Node::Map(entries);
    }
    match entries.pop() {
        Some((_key, inner)) => inner,
        None => Node::Map(entries),
    }
}

// Whether the entries of a map are those of an envelope.
fn are_envelope(entries: &[(Vec<u8>, Node)]) -> bool
    ensures { result ≡ is_enveloped (map (node_entries entries.now)) }
{
    let [(key, _)] = entries else {
        return false;
    };
    key.as_slice() == b"selector".as_slice()
}
