//! The selector along a path.

ghost use Rattle.std.specs.Prelude.{◌≡◌, IfOk, IfErr};
ghost use Rattle.ix_cbor.specs.Data.{data_of};
ghost use Rattle.ix_cbor.specs.Spelling.{IsCanonical};
ghost use Rattle.ix_path.specs.Along.{path_of};
ghost use Rattle.ix_path.specs.Made.{IsSelectorAlong, HasNoSelectorAlong};
ghost use Rattle.ix_path.specs.Made.{IsRead, SpellsTooDeep};

use crate::end::{PathEnd, end_node};
use crate::selector_fault::PathSelectorFault;
use crate::selector_node::node_along;
use ix_cbor::{Node, Tree, encode};
use ix_selector::{SelFault, Selector, Step};
use std::alloc::Global;

/// Returns the selector that goes from a root along the steps of a path, as DAG-CBOR: at each step
/// a field or an index, and at the end what is selected there. `law::along_a_path` states which
/// places it enters: those on the path always, its end too. The errors are that what was given for
/// the end is no selector, that the whole nests more than 128 deep, and that memory ran out.
pub fn selector_along(
    alloc: Global,
    steps: &[Step<'_>],
    end: PathEnd,
) -> Result<Vec<u8>, PathSelectorFault>
    ensures selector { IfOk result (λ block. IsSelectorAlong (path_of steps.now) end block.items) }
    ensures refused { IfErr result (HasNoSelectorAlong (path_of steps.now) end) }
{
    let inner = end_node(alloc, end)?;
    let node = node_along(alloc, steps, inner)?;
    let tree = selector_tree(alloc, node)?;
    Ok(encode(alloc, &tree)?)
}

// Makes the tree of a node that spells a selector, or returns that it nests too deep.
pub(crate) fn selector_tree(alloc: Global, node: Node) -> Result<Tree, PathSelectorFault>
    ensures tree { IfOk result (λ tree. tree ≡ data_of node) }
    ensures canonical { IfOk result (λ tree. IsCanonical tree) }
    ensures read { IfOk result (λ tree. IsRead tree) }
    ensures refused { IfErr result (SpellsTooDeep (data_of node)) }
{
    match Tree::new(node) {
        Ok(tree) => read_tree(alloc, tree),
        Err(_node) => Err(PathSelectorFault::TooDeep),
    }
}

// Returns a tree that spells a selector, or that it nests too deep.
fn read_tree(alloc: Global, tree: Tree) -> Result<Tree, PathSelectorFault>
    ensures same { IfOk result (λ same. same ≡ tree) }
    ensures canonical { IfOk result (λ same. IsCanonical same) }
    ensures read { IfOk result (λ _. IsRead tree) }
    ensures refused { IfErr result (SpellsTooDeep tree) }
{
    match Selector::read(alloc, &tree) {
        Ok(_selector) => Ok(tree),
        Err(fault) => match fault {
            SelFault::Memory => Err(PathSelectorFault::Memory),
            _ => Err(PathSelectorFault::TooDeep),
        },
    }
}
