//! What a walk keeps from one visit to the next.

use crate::subtree::Frontier;
use crate::visited_set::VisitedSet;
use ix_cid::Cid;

// What a walk has expanded, the frontier of its position, and the roots that are left.
#[derive(Drop)]
pub(crate) struct WalkState<'a> {
    // What it has expanded, if it expands a CID once.
    pub expanded: Option<VisitedSet<'a>>,
    pub frontier: Frontier<'a, 'a>,
    // The roots that the walk has not visited.
    pub roots: &'a [Cid],
}
