//! Places of a selector, each in its innermost recursion.

ghost use Rattle.std.specs.Prelude.{◌≡◌, ◌≢◌, IfSome, IfNone};
ghost use Rattle.ix_selector.specs.States.{decremented, deeper, IsJoined, AgreesWith};

use smallvec::SmallVec;

/// The innermost recursion around a place: the place of its sequence, and the depth that is left of
/// its limit, if it has one.
#[derive(Clone, Copy, Default, PartialEq, Eq, PartialOrd, Ord)]
pub(crate) struct Recursion {
    pub sequence: usize,
    pub depth: Option<u32>,
}

/// A place, and the innermost recursion around it. The outer ones don't matter any more: an edge
/// belongs to the innermost one, and nothing leads back out of a sequence.
#[derive(Clone, Copy, Default, PartialEq, Eq, PartialOrd, Ord)]
pub(crate) struct State {
    pub place: usize,
    pub recursion: Option<Recursion>,
}

/// States, of which two take no allocation.
pub(crate) type States = SmallVec<State, 2>;

impl Recursion {
    /// Returns the recursion after one of its edges, if it may be entered again.
    pub(crate) fn decremented(self) -> Option<Recursion>
        ensures { result ≡ decremented self }
    {
        match self.depth {
            None => Some(self),
            Some(depth) if depth >= 2 => Some(Recursion {
                sequence: self.sequence,
                depth: Some(depth - 1),
            }),
            Some(_) => None,
        }
    }
}

// Returns the greater of two depths. `None`, no limit, is the greatest.
fn deeper(depth: Option<u32>, other: Option<u32>) -> Option<u32>
    ensures { result ≡ deeper depth other }
{
    match (depth, other) {
        (Some(depth), Some(other)) => Some(depth.max(other)),
        _ => None,
    }
}

impl State {
    /// Joins two states of a place in one recursion: the one with the greater depth enters what both
    /// enter.
    pub(crate) fn joined(self, other: State) -> Option<State>
        ensures some { IfSome result (IsJoined self other) }
        ensures none { IfNone result (AgreesWith self other → self.place ≢ other.place) }
    {
        if self.place != other.place {
            return None;
        }
        match (self.recursion, other.recursion) {
            (None, None) => Some(self),
            (Some(one), Some(two)) if one.sequence == two.sequence => Some(State {
                place: self.place,
                recursion: Some(Recursion {
                    sequence: one.sequence,
                    depth: deeper(one.depth, two.depth),
                }),
            }),
            _ => None,
        }
    }
}
