//! States of which no two have one place.

ghost use Rattle.std.specs.Prelude.{◌∷◌, [], ◌++◌, IfOk, OnOk};
ghost use Rattle.std.specs.List.{All};
ghost use Rattle.ix_selector.specs.States.{Agree, ArePlacesRising, IsUpTo, IsOf, EnterSame, EnterMore};
ghost use Rattle.ix_selector.specs.Merging.{AreMerged, ArePut};

use crate::state::{State, States};
use smallvec::SmallVec;
use std::alloc::{AllocError, Global};

/// Sorts the states by their places, and joins all states of a place in one.
pub(crate) fn merge(alloc: Global, states: &mut States) -> Result<(), AllocError>
    requires agree { Agree states.old.items }
    ensures enters { OnOk result (EnterSame states.new.items states.old.items) }
    ensures among { OnOk result (All (IsOf states.old.items) states.new.items) }
    ensures rising { OnOk result (ArePlacesRising states.new.items) }
    ensures exact { OnOk result (AreMerged states.new.items states.old.items) }
{
    if states.len() >= 2 {
        *states = joined_by_place(alloc, states)?;
    }
    Ok(())
}

// Joins all states of a place in one, in the order of the places. The states are sorted for it. It
// isn't inlined, so that a single state doesn't pay for its locals.
#[inline(never)]
fn joined_by_place(alloc: Global, states: &mut States) -> Result<States, AllocError>
    requires agree { Agree states.old.items }
    ensures enters { IfOk result (λ r. EnterSame r.items states.old.items) }
    ensures among { IfOk result (λ r. All (IsOf states.old.items) r.items) }
    ensures rising { IfOk result (λ r. ArePlacesRising r.items) }
    ensures exact { IfOk result (λ r. AreMerged r.items states.old.items) }
{
    states
        .as_mut_slice()
        .sort_unstable_by_key(|state| state.place);
    let mut merged = SmallVec::new(alloc);
    for state in states.as_slice() {
        push_merged(&mut merged, *state)?;
    }
    Ok(merged)
}

// Appends a state, or joins it with the last one.
fn push_merged(merged: &mut States, state: State) -> Result<(), AllocError>
    requires rising { ArePlacesRising merged.old.items }
    requires up_to { All (IsUpTo state) merged.old.items }
    ensures enters { OnOk result (EnterMore merged.new.items merged.old.items state) }
    ensures among { OnOk result (All (IsOf (merged.old.items ++ state ∷ [])) merged.new.items) }
    ensures rising { OnOk result (ArePlacesRising merged.new.items) }
    ensures exact { OnOk result (ArePut merged.new.items merged.old.items state) }
{
    let Some(last) = merged.pop() else {
        return Ok(merged.push(state)?);
    };
    match last.joined(state) {
        Some(both) => Ok(merged.push(both)?),
        None => {
            merged.push(last)?;
            Ok(merged.push(state)?)
        }
    }
}
