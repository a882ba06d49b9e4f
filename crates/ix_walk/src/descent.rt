//! Traversing the bytes of a block, down to the next link.

ghost use Rattle.std.specs.Prelude.{◌≡◌, IfOk, Ok, None};
ghost use Rattle.ix_cbor.specs.Reading.{key_at};
ghost use Rattle.ix_cbor.specs.Fronts.{HasCid};
ghost use Rattle.ix_selector.specs.Residual.{step_of};
ghost use Rattle.ix_walk.specs.declared.subtree.Children.TheVariants as children;
ghost use Rattle.ix_walk.specs.Walking.{with_children, IsStanding};
ghost use Rattle.ix_walk.specs.Descent.{IsItem, HasFront, IsAfterItem, IsKey, IsPart, may_hold_links, entered_by, IsNode, IsChild, IsNextMember, IsNextValue, IsNextChild, Finds, Leaves};
ghost use Rattle.ix_store.specs.Cursor.{EndsWith, LinkBefore};

use crate::subtree::{Child, Children, Frontier, OpenNode, PendingLink};
use ix_cbor::{Front, read_front, read_key, skip_item};
use ix_selector::{Residual, Step, Steps};
use ix_store::Cursor;
use std::alloc::{AllocError, Global};

// Returns the front of the item at this position, and the bytes after it.
fn front_at(at: &[u8]) -> (Front<'_>, &[u8])
    requires { IsItem at.now }
    ensures { HasFront at.now result.0 result.1.now }
{
    match read_front(at) {
        Ok(read) => read,
        Err(_) => unreachable!(),
    }
}

// Returns the bytes after the item at this position.
fn skipped(at: &[u8]) -> &[u8]
    requires { IsItem at.now }
    ensures exact { IsAfterItem at.now result.now }
    ensures end { EndsWith at.now result.now }
{
    match skip_item(at) {
        Ok(rest) => rest,
        Err(_) => unreachable!(),
    }
}

// Returns where the item at this position ends, given its front and the bytes after that.
fn end_of<'a>(at: &'a [u8], front: Front<'_>, behind: &'a [u8]) -> &'a [u8]
    requires { HasFront at.now front behind.now }
    ensures exact { IsAfterItem at.now result.now }
    ensures end { EndsWith at.now result.now }
{
    match front {
        Front::List(_) | Front::Map(_) => skipped(at),
        _ => behind,
    }
}

// Returns what an item with this front is for the walk, which enters it, if it may contain a link.
fn entered_by<'a, 's>(
    at: &Cursor<'a>,
    front: Front<'a>,
    behind: &'a [u8],
    residual: Residual<'s>,
    depth: u32,
) -> Option<Child<'a, 's>>
    requires cid { HasCid front }
    requires link { LinkBefore at.now front behind.now }
    ensures { result ≡ entered_by residual.entry front.entry depth }
{
    let children = match front {
        Front::Link(cid) => {
            return Some(Child::Link(PendingLink {
                residual,
                cid: at.cid_before(cid, behind),
                depth,
            }));
        }
        Front::List(count) => Children::Members { count, left: count },
        Front::Map(left) => Children::Values { left },
        Front::Null
        | Front::Bool(_)
        | Front::Int(_)
        | Front::Bits64(_)
        | Front::Bytes(_)
        | Front::Text(_) => return None,
    };
    Some(Child::Open(OpenNode {
        residual: Steps::of(residual),
        children,
        depth,
        resume_at: None,
    }))
}

// Whether an item with this front may contain a link.
fn may_hold_links(front: Front<'_>) -> bool
    ensures { result ≡ may_hold_links front.entry }
{
    matches!(front, Front::Link(_) | Front::List(_) | Front::Map(_))
}

// Returns what the item at this position is, which is entered; the walk is then after its front.
pub(crate) fn node_at<'a, 's>(
    residual: Residual<'s>,
    at: &mut Cursor<'a>,
    depth: u32,
) -> Option<Child<'a, 's>>
    requires { IsItem at.old }
    ensures { IsNode residual.entry at.old depth result at.new }
{
    let (front, behind) = front_at(at.bytes());
    let entered = entered_by(at, front, behind, residual, depth);
    at.seek(behind);
    entered
}

// Returns what the child at this position is, of which the front and the bytes after it were read,
// if the selector enters it. The walk is then after its front, or after all of it if it isn't
// entered. It isn't inlined, so that children without links don't pay for its locals.
#[inline(never)]
fn step_into<'a, 's>(
    alloc: Global,
    residual: &mut Steps<'s>,
    step: &Step,
    at: &mut Cursor<'a>,
    read: (Front<'a>, &'a [u8]),
    depth: u32,
) -> Result<Option<Child<'a, 's>>, AllocError>
    requires { HasFront at.old read.0 read.1.now }
    ensures { IfOk result (λ o. IsChild residual.old (step_of step.now) at.old depth o at.new
        × (residual.new ≡ residual.old)) }
{
    let (front, behind) = read;
    match residual.step(alloc, step)? {
        Some(residual) => {
            let entered = entered_by(at, front, behind, residual, depth);
            at.seek(behind);
            Ok(entered)
        }
        None => {
            let end = end_of(at.bytes(), front, behind);
            at.seek(end);
            Ok(None)
        }
    }
}

// Returns what the child at this position is, if the selector enters it and it may contain a link.
// The walk is then after its front, or after all of it if it isn't entered.
fn child_at<'a, 's>(
    alloc: Global,
    residual: &mut Steps<'s>,
    step: &Step,
    at: &mut Cursor<'a>,
    depth: u32,
) -> Result<Option<Child<'a, 's>>, AllocError>
    requires { IsItem at.old }
    ensures { IfOk result (λ o. IsChild residual.old (step_of step.now) at.old depth o at.new
        × (residual.new ≡ residual.old)) }
{
    let read = front_at(at.bytes());
    if may_hold_links(read.0) {
        return step_into(alloc, residual, step, at, read, depth);
    }
    at.seek(read.1);
    Ok(None)
}

// Returns the next element of a list that is entered and may contain a link; how many are then
// left, and the walk's position.
fn next_member<'a, 's>(
    alloc: Global,
    residual: &mut Steps<'s>,
    depth: u32,
    count: u64,
    left: &mut u64,
    at: &mut Cursor<'a>,
) -> Result<Option<Child<'a, 's>>, AllocError>
    requires { IsPart (children.Members count left.old) at.old }
    ensures { IfOk result (λ o. IsNextMember residual.old depth count left.old at.old o left.new at.new
        × (residual.new ≡ residual.old)) }
{
    while *left > 0 {
        let place = Step::Pos(count - *left);
        let child = child_at(alloc, residual, &place, at, depth)?;
        *left -= 1;
        if child.is_some() {
            return Ok(child);
        }
    }
    Ok(None)
}

// Returns the key at this position, and the bytes after it.
fn key_at(at: &[u8]) -> (&[u8], &[u8])
    requires { IsKey at.now }
    ensures exact { key_at None at.now ≡ Ok (result.0.now, result.1.now) }
    ensures end { EndsWith at.now result.1.now }
{
    match read_key(None, at) {
        Ok(read) => read,
        Err(_) => unreachable!(),
    }
}

// Returns the next value of a map that is entered and may contain a link; how many are then left,
// and the walk's position.
fn next_value<'a, 's>(
    alloc: Global,
    residual: &mut Steps<'s>,
    depth: u32,
    left: &mut u64,
    at: &mut Cursor<'a>,
) -> Result<Option<Child<'a, 's>>, AllocError>
    requires { IsPart (children.Values left.old) at.old }
    ensures { IfOk result (λ o. IsNextValue residual.old depth left.old at.old o left.new at.new
        × (residual.new ≡ residual.old)) }
{
    while *left > 0 {
        let (key, value) = key_at(at.bytes());
        at.seek(value);
        let child = child_at(alloc, residual, &Step::Key(key), at, depth)?;
        *left -= 1;
        if child.is_some() {
            return Ok(child);
        }
    }
    Ok(None)
}

// Returns the next child of a list or map that is entered and may contain a link.
fn next_child<'a, 's>(
    alloc: Global,
    opened: &mut OpenNode<'a, 's>,
    at: &mut Cursor<'a>,
) -> Result<Option<Child<'a, 's>>, AllocError>
    requires { IsPart opened.old.children at.old }
    ensures next { IfOk result (λ o. IsNextChild opened.old at.old o opened.new at.new) }
    ensures same { IfOk result (λ _. opened.new ≡ with_children opened.old opened.new.children) }
{
    let OpenNode {
        residual,
        children,
        depth,
        ..
    } = opened;
    match children {
        Children::Members { count, left } => {
            next_member(alloc, residual, *depth, *count, left, at)
        }
        Children::Values { left } => next_value(alloc, residual, *depth, left, at),
    }
}

// Pops what has no child left, so that a chain of links each of which is last in its block takes no
// more of the stack the longer it is.
fn leave_spent(frontier: &mut Frontier<'_, '_>)
    requires { frontier.old.next ≡ None }
    ensures next { frontier.new.next ≡ None }
    ensures left { Leaves frontier.old frontier.new }
{
    while let Some(opened) = frontier.stack.last() {
        if !opened.children.is_spent() {
            return;
        }
        frontier.at.resume(&opened.resume_at);
        frontier.stack.pop();
    }
}

/// Returns the next link, in the order of the traversal: the pending one, or the first in the lists
/// and maps that are open.
pub fn next_found<'a, 's>(
    alloc: Global,
    frontier: &mut Frontier<'a, 's>,
) -> Result<Option<PendingLink<'a, 's>>, AllocError>
    requires { IsStanding frontier.old }
    ensures next { IfOk result (λ _. frontier.new.next ≡ None) }
    ensures found { IfOk result (λ o. Finds frontier.old o frontier.new) }
{
    if let Some(found) = frontier.next.take() {
        return Ok(Some(found));
    }
    while let Some(opened) = frontier.stack.last_mut() {
        match next_child(alloc, opened, &mut frontier.at)? {
            Some(Child::Link(found)) => {
                leave_spent(frontier);
                return Ok(Some(found));
            }
            Some(Child::Open(inner)) => {
                frontier.stack.push(inner)?;
            }
            None => {
                if let Some(ended) = frontier.stack.pop() {
                    frontier.at.resume(&ended.resume_at);
                }
            }
        }
    }
    Ok(None)
}
