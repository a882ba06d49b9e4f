//! What remains of a selector at a place, without a borrow.

ghost use Rattle.std.specs.Prelude.{◌≡◌, [], IfOk, IfSome, IfNone};
ghost use Rattle.std.specs.Arc.{arc_value};
ghost use Rattle.ix_selector.specs.Residual.{ResidualEnters, EntersAs, IsTestedAs, EntersAfter, LeavesOut, step_of, IsAfter};
ghost use Rattle.ix_selector.specs.Kept.{kept_states};
ghost use Rattle.ix_selector.specs.States.{seen_states};
ghost use Rattle.ix_selector.specs.Reaching.{AreLeftIn};
ghost use Rattle.ix_selector.specs.Behind.{residual_of, IsLeftAfter, NothingIsLeftAfter, same_residual, residual_order};

use crate::kept::Kept;
use crate::residual::Residual;
use crate::selector::Selector;
use crate::selector_node::SelectorNode;
use crate::step::Step;
use std::alloc::{AllocError, Global};
use std::cmp::Ordering;
use std::marker::Model;
use std::sync::Arc;

/// A residual that owns a share of its selector's places, where a `Residual` borrows them. So it can
/// outlive the selector.
///
/// Each one is counted as an owner of the places, so a `Residual` costs less where the selector
/// lives long enough.
pub struct OwnedResidual {
    nodes: Arc<Vec<SelectorNode>>,
    states: Kept,
}

// Written by hand: a derived drop is inlined in each function that drops one, at each of its exits.
impl Drop for OwnedResidual {
    fn drop(self) {
        let OwnedResidual { nodes, states } = self;
        drop(nodes);
        drop(states);
    }
}

impl Model for OwnedResidual {
    ghost use Rattle.std.specs.Prelude.{List, map};
    ghost use Rattle.std.specs.Arc.{arc_value};
    ghost use Rattle.ix_selector.specs.States.{place_of};
    ghost use Rattle.ix_selector.specs.Residual.{Place, coded_places};
    ghost use Rattle.ix_selector.specs.Reaching.{AreLeftIn};
    ghost use Rattle.ix_selector.specs.Kept.{kept_states};

    ghost Value = { List Place };

    ghost coded = { coded_places };

    ghost view = { λ r. map (place_of (arc_value r.nodes).items) (kept_states r.states) };

    ghost invariant = { λ r. AreLeftIn (arc_value r.nodes).items (kept_states r.states) };
}

impl OwnedResidual {
    /// Makes a residual of these states, at these places.
    pub(crate) fn of(nodes: Arc<Vec<SelectorNode>>, states: Kept) -> OwnedResidual
        requires { AreLeftIn (arc_value nodes).items (kept_states states) }
        ensures { result ≡ seen_states (arc_value nodes).items (kept_states states) }
    {
        OwnedResidual { nodes, states }
    }

    /// Returns the residual at the root. Fails if memory runs out.
    pub fn start(alloc: Global, selector: &Selector) -> Result<OwnedResidual, AllocError>
        ensures entered { IfOk result (EntersAs selector.now) }
        ensures tested { IfOk result (IsTestedAs selector.now) }
        ensures exact { IfOk result (λ r. r ≡ residual_of selector.now) }
    {
        Residual::start(alloc, selector)?.into_owned()
    }

    /// Returns the same residual, which borrows the places from this one. Fails if memory runs out.
    pub fn borrowed(&self, alloc: Global) -> Result<Residual<'_>, AllocError>
        ensures same { IfOk result (λ r. r ≡ self.now) }
    {
        let states = self.states.try_clone(alloc)?;
        Ok(Residual::of(&self.nodes, states))
    }

    /// Returns the residual after a step, or `None` if the child isn't entered. Fails if memory
    /// runs out.
    pub fn step(&self, alloc: Global, step: &Step) -> Result<Option<OwnedResidual>, AllocError>
        ensures entered { IfOk result (λ o. IfSome o (λ r. ResidualEnters r [])) }
        ensures below { IfOk result (λ o. IfSome o (EntersAfter self.now (step_of step.now))) }
        ensures none { IfOk result (λ o. IfNone o (LeavesOut self.now (step_of step.now))) }
        ensures tested { IfOk result (IsAfter self.now (step_of step.now)) }
        ensures exact { IfOk result (λ o. IfSome o (IsLeftAfter self.now (step_of step.now))) }
        ensures stays_out { IfOk result (λ o. IfNone o (NothingIsLeftAfter self.now (step_of step.now))) }
    {
        let here = self.borrowed(alloc)?;
        match here.step(alloc, step)? {
            Some(next) => Ok(Some(next.into_owned()?)),
            None => Ok(None),
        }
    }

    /// Clones the residual. Fails if memory runs out.
    pub fn try_clone(&self, alloc: Global) -> Result<OwnedResidual, AllocError>
        ensures same { IfOk result (λ r. r ≡ self.now) }
    {
        self.borrowed(alloc)?.into_owned()
    }

    /// Whether the residuals are equal: the same places of the selector, in the same recursions
    /// with the same depths.
    pub fn is_same(&self, other: &OwnedResidual) -> bool
        ensures { result ≡ same_residual self.now other.now }
    {
        self.states.as_slice() == other.states.as_slice()
    }

    /// Compares residuals: by places, then by their recursions and depths. Returns `Equal` exactly
    /// if they are equal.
    pub fn compare(&self, other: &OwnedResidual) -> Ordering
        ensures { result ≡ residual_order self.now other.now }
    {
        self.states.as_slice().cmp(other.states.as_slice())
    }
}

impl PartialEq for OwnedResidual {
    ghost use Rattle.ix_selector.specs.Behind.{same_residual};
    ghost use Rattle.ix_selector.specs.Compared.{residual_partial};

    ghost eq = { same_residual };

    ghost laws = { residual_partial };

    fn eq(&self, other: &Self) -> bool {
        self.is_same(other)
    }
}

impl Eq for OwnedResidual {
    ghost use Rattle.ix_selector.specs.Compared.{residual_equivalence};

    ghost laws = { residual_equivalence };
}

impl PartialOrd for OwnedResidual {
    ghost use Rattle.std.specs.Ordering.{as_partial_cmp};
    ghost use Rattle.ix_selector.specs.Behind.{residual_order};
    ghost use Rattle.ix_selector.specs.Compared.{residual_partial_order};

    ghost partial_cmp = { as_partial_cmp residual_order };

    ghost laws = { residual_partial_order };

    fn partial_cmp(&self, other: &Self) -> Option<Ordering> {
        Some(self.compare(other))
    }
}

impl Ord for OwnedResidual {
    ghost use Rattle.std.specs.Prelude.{refl};
    ghost use Rattle.ix_selector.specs.Behind.{residual_order};
    ghost use Rattle.ix_selector.specs.Compared.{residual_total, residual_ties};

    ghost cmp = { residual_order };

    ghost total = { residual_total };

    ghost matches_partial_cmp = { λ x y. refl };

    ghost matches_eq = { residual_ties };

    fn cmp(&self, other: &Self) -> Ordering {
        self.compare(other)
    }
}
