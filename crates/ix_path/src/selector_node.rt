//! Nodes of maps, and of the steps of a selector.

ghost use Rattle.std.specs.Prelude.{◌≡◌, ◌<◌, ◌^◌, length, IfOk};
ghost use Rattle.ix_cbor.specs.Data.{data_of};
ghost use Rattle.ix_cbor.specs.Spelling.{IsSpellable};
ghost use Rattle.ix_selector.specs.Residual.{step_of};
ghost use Rattle.ix_selector.specs.Spelled.{one_key, two_keys};
ghost use Rattle.ix_path.specs.Along.{data_after, data_along, path_of};

use ix_cbor::Node;
use ix_selector::Step;
use std::alloc::{AllocError, Global};

// Makes a map with this key alone.
pub(crate) fn one_key(alloc: Global, key: &[u8], value: Node) -> Result<Node, AllocError>
    ensures exact { IfOk result (λ node. data_of node ≡ one_key key.now (data_of value)) }
    ensures fits { IfOk result (λ node. length key.now < 2 ^ 64) }
{
    let mut entries = Vec::new(alloc);
    entries.push((Vec::from_slice(alloc, key)?, value))?;
    Ok(Node::Map(entries))
}

// Makes a map with these two entries, in this order.
pub(crate) fn two_keys(
    alloc: Global,
    key: &[u8],
    value: Node,
    other_key: &[u8],
    other: Node,
) -> Result<Node, AllocError>
    ensures { IfOk result (λ node.
        data_of node ≡ two_keys key.now (data_of value) other_key.now (data_of other)) }
{
    let mut entries = Vec::new(alloc);
    entries.push((Vec::from_slice(alloc, key)?, value))?;
    entries.push((Vec::from_slice(alloc, other_key)?, other))?;
    Ok(Node::Map(entries))
}

// Puts the form of a step around the node of the next selector: a field or an index.
pub(crate) fn step_node(alloc: Global, step: &Step<'_>, next: Node) -> Result<Node, AllocError>
    ensures exact { IfOk result (λ node.
        data_of node ≡ data_after (step_of step.now) (data_of next)) }
    ensures spellable { IfOk result (λ node.
        IsSpellable (data_of next) → IsSpellable (data_of node)) }
{
    match step {
        Step::Key(key) => {
            let field = one_key(alloc, key, next)?;
            one_key(alloc, b"f", one_key(alloc, b"f>", field)?)
        }
        Step::Pos(position) => {
            let position = Node::Int(i128::from(*position));
            one_key(alloc, b"i", two_keys(alloc, b">", next, b"i", position)?)
        }
    }
}

// Puts the forms of steps around the node of the selector at their end.
pub(crate) fn node_along(alloc: Global, steps: &[Step<'_>], end: Node) -> Result<Node, AllocError>
    ensures exact { IfOk result (λ node.
        data_of node ≡ data_along (path_of steps.now) (data_of end)) }
    ensures spellable { IfOk result (λ node.
        IsSpellable (data_of end) → IsSpellable (data_of node)) }
{
    let mut node = end;
    let mut left = steps.len();
    while left > 0 {
        left -= 1;
        node = step_node(alloc, &steps[left], node)?;
    }
    Ok(node)
}
