//! What a walk keeps of the blocks that it is in: positions in their bytes, and no node.
//!
//! The first lifetime is that of the bytes, the second that of the selector.

ghost use Rattle.std.specs.Prelude.{◌≡◌, None, []};
ghost use Rattle.ix_walk.specs.Walking.{is_spent};

use ix_cid::CidRef;
use ix_selector::{Residual, Steps};
use ix_store::Cursor;
use std::alloc::Global;

// The children that are left of a list or map.
#[derive(Clone, Copy)]
pub(crate) enum Children {
    // The last `left` elements of a list of `count`.
    Members { count: u64, left: u64 },
    // The last `left` entries of a map.
    Values { left: u64 },
}

// A list or map that is being traversed.
#[derive(Drop)]
pub(crate) struct OpenNode<'a, 's> {
    pub residual: Steps<'s>,
    pub children: Children,
    pub depth: u32,
    // Where the walk continues after it, if that isn't after its last child: in the block that the
    // walk came from.
    pub resume_at: Option<Cursor<'a>>,
}

/// A link to visit.
#[derive(Drop)]
pub struct PendingLink<'a, 's> {
    /// The residual of the selector there.
    pub residual: Residual<'s>,
    pub cid: CidRef<'a>,
    /// The number of links followed from the root, with this one.
    pub depth: u32,
}

// What the selector enters and may contain a link.
#[derive(Drop)]
pub(crate) enum Child<'a, 's> {
    Link(PendingLink<'a, 's>),
    Open(OpenNode<'a, 's>),
}

/// The position of a walk in the bytes of a block, and what is left to do: to visit a link, and
/// then to continue with the lists and maps that are open, the last one first.
#[derive(Drop)]
pub struct Frontier<'a, 's> {
    pub(crate) at: Cursor<'a>,
    pub(crate) next: Option<PendingLink<'a, 's>>,
    pub(crate) stack: Vec<OpenNode<'a, 's>>,
}

impl Children {
    // Whether no child is left.
    pub(crate) fn is_spent(self) -> bool
        ensures { result ≡ is_spent self }
    {
        match self {
            Children::Members { left, .. } | Children::Values { left } => left == 0,
        }
    }
}

impl<'a, 's> Frontier<'a, 's> {
    /// A frontier with nothing left to do.
    pub fn new(alloc: Global) -> Frontier<'a, 's>
        ensures next { result.next ≡ None }
        ensures stack { result.stack.items ≡ [] }
    {
        Frontier {
            at: Cursor::of(&[]),
            next: None,
            stack: Vec::new(alloc),
        }
    }

    // Drops all that is left.
    pub(crate) fn clear(&mut self)
        ensures next { self.new.next ≡ None }
        ensures stack { self.new.stack.items ≡ [] }
    {
        self.next = None;
        self.stack.clear();
    }
}
