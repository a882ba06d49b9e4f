//! What remains of a selector at a place.

ghost use Rattle.std.specs.Prelude.{◌≡◌, [], IfOk, IfSome, IfNone};
ghost use Rattle.ix_selector.specs.Residual.{ResidualEnters, EntersAs, IsTestedAs, EntersAfter, LeavesOut, step_of, IsAfter};
ghost use Rattle.std.specs.Arc.{arc_value};
ghost use Rattle.std.specs.Bool.{OnTrue};
ghost use Rattle.ix_selector.specs.Alike.{LookAtNoStep};
ghost use Rattle.ix_selector.specs.Kept.{kept_states};
ghost use Rattle.ix_selector.specs.States.{seen_states};
ghost use Rattle.ix_selector.specs.Reaching.{AreLeftIn};
ghost use Rattle.ix_selector.specs.Behind.{residual_of, IsLeftAfter, NothingIsLeftAfter, same_residual, residual_order};

use crate::kept::Kept;
use crate::merge::merge;
use crate::owned_residual::OwnedResidual;
use crate::reached::{Reached, close_over};
use crate::selector::Selector;
use crate::selector_node::SelectorNode;
use crate::state::State;
use crate::step::Step;
use crate::stepping::{derivative, look_at_no_step};
use std::alloc::{AllocError, Global};
use std::cmp::Ordering;
use std::marker::Model;
use std::sync::Arc;

/// The residual of a selector at a place, its derivative: a set of selectors inside recursions.
///
/// No two of them have one place of the selector, so there are at most as many as the selector has
/// places. A step that leaves the same shares them.
pub struct Residual<'s> {
    // Owns the nodes. An owned residual shares them.
    shared: &'s Arc<Vec<SelectorNode>>,
    nodes: &'s [SelectorNode],
    states: Kept,
}

// Written by hand: a derived drop is inlined in each function that drops one, at each of its exits.
impl<'s> Drop for Residual<'s> {
    fn drop(self) {
        let Residual {
            shared: _,
            nodes: _,
            states,
        } = self;
        drop(states);
    }
}

impl<'s> Model for Residual<'s> {
    ghost use Rattle.std.specs.Prelude.{List, map};
    ghost use Rattle.std.specs.Arc.{arc_value};
    ghost use Rattle.ix_selector.specs.States.{place_of};
    ghost use Rattle.ix_selector.specs.Residual.{Place, coded_places};
    ghost use Rattle.ix_selector.specs.Reaching.{AreLeftInShared};
    ghost use Rattle.ix_selector.specs.Kept.{kept_states};

    ghost Value = { List Place };

    ghost coded = { coded_places };

    ghost view = { λ r. map (place_of r.nodes.now) (kept_states r.states) };

    ghost invariant = { λ r. AreLeftInShared (arc_value r.shared.now).items r.nodes.now (kept_states r.states) };
}

impl<'s> Residual<'s> {
    /// Returns the residual at the root. Fails if memory runs out.
    pub fn start(alloc: Global, selector: &'s Selector) -> Result<Residual<'s>, AllocError>
        ensures entered { IfOk result (EntersAs selector.now) }
        ensures tested { IfOk result (IsTestedAs selector.now) }
        ensures exact { IfOk result (λ r. r ≡ residual_of selector.now) }
    {
        let (shared, nodes, place) = selector.places();
        let mut reached = Reached::new(alloc);
        let root = State {
            place,
            recursion: None,
        };
        close_over(nodes, root, &mut reached)?;
        merge(alloc, &mut reached.explore)?;
        let states = Kept::new(alloc, reached.explore)?;
        Ok(Residual {
            shared,
            nodes,
            states,
        })
    }

    /// Returns the residual after a step, or `None` if the child isn't entered. Fails if memory
    /// runs out.
    pub fn step(&self, alloc: Global, step: &Step) -> Result<Option<Residual<'s>>, AllocError>
        ensures entered { IfOk result (λ o. IfSome o (λ r. ResidualEnters r [])) }
        ensures below { IfOk result (λ o. IfSome o (EntersAfter self.now (step_of step.now))) }
        ensures none { IfOk result (λ o. IfNone o (LeavesOut self.now (step_of step.now))) }
        ensures tested { IfOk result (IsAfter self.now (step_of step.now)) }
        ensures exact { IfOk result (λ o. IfSome o (IsLeftAfter self.now (step_of step.now))) }
        ensures stays_out { IfOk result (λ o. IfNone o (NothingIsLeftAfter self.now (step_of step.now))) }
    {
        let nodes = self.nodes;
        let states = derivative(alloc, nodes, self.states.as_slice(), step)?;
        if states.is_empty() {
            return Ok(None);
        }
        let states = self.states.or_shared(alloc, states)?;
        Ok(Some(Residual {
            shared: self.shared,
            nodes,
            states,
        }))
    }

    /// Clones the residual. Fails if memory runs out.
    pub fn try_clone(&self, alloc: Global) -> Result<Residual<'s>, AllocError>
        ensures same { IfOk result (λ r. r ≡ self.now) }
    {
        let states = self.states.try_clone(alloc)?;
        Ok(Residual {
            shared: self.shared,
            nodes: self.nodes,
            states,
        })
    }

    /// Returns the same residual, which owns a share of the selector's places in place of a borrow.
    /// Fails if memory runs out, or the places have too many owners to count.
    pub fn into_owned(self) -> Result<OwnedResidual, AllocError>
        ensures same { IfOk result (λ r. r ≡ self.entry) }
    {
        let nodes = Arc::try_clone(self.shared)?;
        let Residual {
            shared: _,
            nodes: _,
            states,
        } = self;
        Ok(OwnedResidual::of(nodes, states))
    }

    /// Makes a residual of these states, at the places that the owner has.
    pub(crate) fn of(shared: &'s Arc<Vec<SelectorNode>>, states: Kept) -> Residual<'s>
        requires { AreLeftIn (arc_value shared.now).items (kept_states states) }
        ensures { result ≡ seen_states (arc_value shared.now).items (kept_states states) }
    {
        let nodes = shared.as_slice();
        Residual {
            shared,
            nodes,
            states,
        }
    }

    /// Whether its states can be shared.
    pub(crate) fn is_shared(&self) -> bool {
        self.states.is_shared()
    }

    /// Whether each step leaves the same, since no selector depends on the step.
    pub(crate) fn looks_at_no_step(&self) -> bool
        ensures { OnTrue result (LookAtNoStep self.now) }
    {
        look_at_no_step(self.nodes, self.states.as_slice())
    }

    /// Whether the residuals are equal: the same places of the selector, in the same recursions
    /// with the same depths.
    pub fn is_same(&self, other: &Residual) -> bool
        ensures { result ≡ same_residual self.now other.now }
    {
        self.states.as_slice() == other.states.as_slice()
    }

    /// Compares residuals: by places, then by their recursions and depths. Returns `Equal` exactly
    /// if they are equal.
    pub fn compare(&self, other: &Residual) -> Ordering
        ensures { result ≡ residual_order self.now other.now }
    {
        self.states.as_slice().cmp(other.states.as_slice())
    }
}

impl PartialEq for Residual<'_> {
    ghost use Rattle.ix_selector.specs.Behind.{same_residual};
    ghost use Rattle.ix_selector.specs.Compared.{residual_partial};

    ghost eq = { same_residual };

    ghost laws = { residual_partial };

    fn eq(&self, other: &Self) -> bool {
        self.is_same(other)
    }
}

impl Eq for Residual<'_> {
    ghost use Rattle.ix_selector.specs.Compared.{residual_equivalence};

    ghost laws = { residual_equivalence };
}

impl PartialOrd for Residual<'_> {
    ghost use Rattle.std.specs.Ordering.{as_partial_cmp};
    ghost use Rattle.ix_selector.specs.Behind.{residual_order};
    ghost use Rattle.ix_selector.specs.Compared.{residual_partial_order};

    ghost partial_cmp = { as_partial_cmp residual_order };

    ghost laws = { residual_partial_order };

    fn partial_cmp(&self, other: &Self) -> Option<Ordering> {
        Some(self.compare(other))
    }
}

impl Ord for Residual<'_> {
    ghost use Rattle.std.specs.Prelude.{refl};
    ghost use Rattle.ix_selector.specs.Behind.{residual_order};
    ghost use Rattle.ix_selector.specs.Compared.{residual_total, residual_ties};

    ghost cmp = { residual_order };

    ghost total = { residual_total };

    ghost matches_partial_cmp = { λ x y. refl };

    ghost matches_eq = { residual_ties };

    fn cmp(&self, other: &Self) -> Ordering {
        self.compare(other)
    }
}
