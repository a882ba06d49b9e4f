//! The states of a residual, shared by residuals with the same states.

ghost use Rattle.std.specs.Prelude.{◌≡◌, IfOk};
ghost use Rattle.ix_selector.specs.Kept.{kept_states};

use crate::state::{State, States};
use smallvec::SmallVec;
use std::alloc::{AllocError, Global};
use std::sync::Arc;

// How many states take no allocation.
const FEW: usize = 2;

/// States: a few in the value itself, and more in an allocation that can be shared.
///
/// Untrusted input decides how many places a selector has and how deep lists nest, and each list
/// that is open keeps its residual.
#[derive(Drop)]
pub(crate) enum Kept {
    Own(States),
    Shared(Arc<States>),
}

impl Kept {
    /// Stores these states.
    pub(crate) fn new(alloc: Global, states: States) -> Result<Kept, AllocError>
        ensures { IfOk result (λ k. kept_states k ≡ states.items) }
    {
        if states.len() <= FEW {
            return Ok(Kept::Own(states));
        }
        Ok(Kept::Shared(Arc::new(alloc, states)?))
    }

    /// Stores the states after a step: shares the states before it, if they are the same.
    pub(crate) fn or_shared(&self, alloc: Global, states: States) -> Result<Kept, AllocError>
        ensures { IfOk result (λ k. kept_states k ≡ states.items) }
    {
        if let Kept::Shared(shared) = self {
            let is_same = shared.as_slice() == states.as_slice();
            if is_same {
                return Ok(Kept::Shared(Arc::try_clone(shared)?));
            }
        }
        Kept::new(alloc, states)
    }

    /// All states.
    pub(crate) fn as_slice(&self) -> &[State]
        ensures { result.now ≡ kept_states self.now }
    {
        match self {
            Kept::Own(states) => states.as_slice(),
            Kept::Shared(states) => states.as_slice(),
        }
    }

    /// Clones the states; many are shared.
    pub(crate) fn try_clone(&self, alloc: Global) -> Result<Kept, AllocError>
        ensures { IfOk result (λ k. kept_states k ≡ kept_states self.now) }
    {
        match self {
            Kept::Own(states) => Ok(Kept::Own(SmallVec::from_slice(alloc, states.as_slice())?)),
            Kept::Shared(states) => Ok(Kept::Shared(Arc::try_clone(states)?)),
        }
    }

    /// Whether they are shared, as many states are.
    pub(crate) fn is_shared(&self) -> bool {
        matches!(self, Kept::Shared(_))
    }
}
