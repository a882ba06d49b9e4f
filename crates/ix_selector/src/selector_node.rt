//! The places of a selector: itself and the selectors inside it, by number.

ghost use Rattle.std.specs.Prelude.{◌≡◌, ◌+◌, ◌≤◌, map, length, IfOk};
ghost use Rattle.ix_selector.specs.Pattern as patterns;
ghost use Rattle.ix_selector.specs.Pattern.{pattern_of};
ghost use Rattle.ix_selector.specs.Views.{seen_fields, seen_members};
ghost use Rattle.ix_selector.specs.Places.{IsAtPlace, IsNodeOf, AreFieldsAt, AreMembersAt};
ghost use Rattle.ix_selector.specs.Grown.{CanPut};
ghost use Rattle.ix_selector.specs.Laid.{number_of, numbers_of, GrowsInOrder, GrowsBy, IsNumberAfter};

use crate::sel::Sel;
use std::alloc::{AllocError, Global};

/// A node of the table: a form, with the numbers of the places directly inside it.
#[derive(Debug, Drop)]
pub(crate) enum SelectorNode {
    Matcher,
    All(usize),
    // Ordered by name.
    Fields(Vec<(Vec<u8>, usize)>),
    Index(i128, usize),
    Range(i128, i128, usize),
    Recursive(Option<u32>, usize),
    Union(Vec<usize>),
    Edge,
}

/// Appends the places of a selector to the table, the inner ones first, and returns its own number.
#[cycle(nodes)]
pub(crate) fn push_nodes(
    alloc: Global,
    sel: &Sel,
    nodes: &mut Vec<SelectorNode>,
) -> Result<usize, AllocError>
    requires { CanPut nodes.old.items (pattern_of sel.now) }
    ensures grows { IfOk result (λ _. GrowsInOrder nodes.old.items nodes.new.items) }
    ensures place { IfOk result (IsAtPlace nodes.new.items (pattern_of sel.now)) }
    ensures last { IfOk result (λ n. n + 1 ≡ length nodes.new.items) }
    ensures behind { IfOk result (λ n. length nodes.old.items ≤ n) }
    ensures number { IfOk result (IsNumberAfter nodes.old.items (pattern_of sel.now)) }
{
    let node = node_of(alloc, sel, nodes)?;
    let number = nodes.len();
    nodes.push(node)?;
    Ok(number)
}

// Appends the places inside a selector, and returns the selector's own node.
#[cycle(nodes)]
fn node_of(
    alloc: Global,
    sel: &Sel,
    nodes: &mut Vec<SelectorNode>,
) -> Result<SelectorNode, AllocError>
    requires { CanPut nodes.old.items (pattern_of sel.now) }
    ensures node { IfOk result (IsNodeOf nodes.new.items (pattern_of sel.now)) }
    ensures grown { IfOk result (λ x. GrowsBy nodes.old nodes.new (numbers_of x)) }
{
    match sel {
        Sel::Matcher => Ok(SelectorNode::Matcher),
        Sel::All(next) => Ok(SelectorNode::All(push_nodes(alloc, next, nodes)?)),
        Sel::Fields(fields) => Ok(SelectorNode::Fields(push_fields(alloc, fields, nodes)?)),
        Sel::Index(at, next) => Ok(SelectorNode::Index(**at, push_nodes(alloc, next, nodes)?)),
        Sel::Range(ends, next) => {
            let (start, end) = **ends;
            Ok(SelectorNode::Range(start, end, push_nodes(alloc, next, nodes)?))
        }
        Sel::Recursive(limit, sequence) => {
            Ok(SelectorNode::Recursive(*limit, push_nodes(alloc, sequence, nodes)?))
        }
        Sel::Union(members) => Ok(SelectorNode::Union(push_members(alloc, members, nodes)?)),
        Sel::Edge => Ok(SelectorNode::Edge),
    }
}

// Returns the names of fields, with the numbers of their selectors.
#[cycle(nodes)]
fn push_fields(
    alloc: Global,
    fields: &[(Vec<u8>, Sel)],
    nodes: &mut Vec<SelectorNode>,
) -> Result<Vec<(Vec<u8>, usize)>, AllocError>
    requires { CanPut nodes.old.items (patterns.fields (seen_fields fields.now)) }
    ensures named { IfOk result (λ r. AreFieldsAt nodes.new.items fields.now r.items) }
    ensures grown { IfOk result (λ r. GrowsBy nodes.old nodes.new (map number_of r.items)) }
{
    let mut names = Vec::with_capacity(alloc, fields.len())?;
    for (name, sel) in fields {
        let number = push_nodes(alloc, sel, nodes)?;
        names.push((Vec::from_slice(alloc, name)?, number))?;
    }
    Ok(names)
}

// Returns the numbers of the members of a union.
#[cycle(nodes)]
fn push_members(
    alloc: Global,
    members: &[Sel],
    nodes: &mut Vec<SelectorNode>,
) -> Result<Vec<usize>, AllocError>
    requires { CanPut nodes.old.items (patterns.union (seen_members members.now)) }
    ensures members { IfOk result (λ r. AreMembersAt nodes.new.items members.now r.items) }
    ensures grown { IfOk result (λ r. GrowsBy nodes.old nodes.new r.items) }
{
    let mut numbers = Vec::with_capacity(alloc, members.len())?;
    for sel in members {
        numbers.push(push_nodes(alloc, sel, nodes)?)?;
    }
    Ok(numbers)
}
