//! Steps from a map or a list to one child.

ghost use Rattle.std.specs.Prelude.{◌≡◌};
ghost use Rattle.ix_selector.specs.Steps.{is_at, is_within};
ghost use Rattle.ix_selector.specs.Residual.{step_of};

/// A step from a node to one of its children.
#[derive(Clone, Copy)]
pub enum Step<'a> {
    /// To the value of this key of a map.
    Key(&'a [u8]),
    /// To the element at this position of a list, counted from 0.
    Pos(u64),
}

impl Step<'_> {
    /// Whether the step is to this position.
    pub(crate) fn is_at(&self, position: i128) -> bool
        ensures { result ≡ is_at position (step_of self.now) }
    {
        match self {
            Step::Key(_) => false,
            Step::Pos(at) => position == i128::from(*at),
        }
    }

    /// Whether the step is to a position from `start`, included, to `end`, excluded.
    pub(crate) fn is_within(&self, start: i128, end: i128) -> bool
        ensures { result ≡ is_within start end (step_of self.now) }
    {
        match self {
            Step::Key(_) => false,
            Step::Pos(at) => start <= i128::from(*at) && i128::from(*at) < end,
        }
    }
}
