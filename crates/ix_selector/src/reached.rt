//! What is reached from a place without a step: the epsilon closure of a selector's states.

ghost use Rattle.std.specs.Prelude.{◌≡◌, [], OnOk};
ghost use Rattle.ix_selector.specs.Places.{AreBelow};
ghost use Rattle.ix_selector.specs.States.{IsState};
ghost use Rattle.ix_selector.specs.Reaching.{members_at, AreReached, EntersState, EntersEach, AddsState, AddsEach, StateKeeps, MembersKeep, EntersAgain};
ghost use Rattle.std.specs.List.{All};

use crate::selector_node::SelectorNode;
use crate::state::{Recursion, State, States};
use smallvec::SmallVec;
use std::alloc::{AllocError, Global};

/// The matchers and explorers that were reached, and the sequences that edges re-enter.
#[derive(Drop)]
pub(crate) struct Reached {
    pub explore: States,
    pub reentries: States,
}

impl Reached {
    /// Nothing reached.
    pub(crate) fn new(alloc: Global) -> Reached
        ensures { (result.explore.items ≡ []) × (result.reentries.items ≡ []) }
    {
        Reached {
            explore: SmallVec::new(alloc),
            reentries: SmallVec::new(alloc),
        }
    }
}

/// Adds what a state leads to: the matchers and explorers inside unions and recursions, and the
/// sequences that its edges re-enter.
#[cycle(close_over)]
pub(crate) fn close_over(
    nodes: &[SelectorNode],
    state: State,
    reached: &mut Reached,
) -> Result<(), AllocError>
    requires state { IsState nodes.now state }
    requires reached { AreReached nodes.now reached.old }
    ensures reached { OnOk result (AreReached nodes.now reached.new) }
    ensures enters { OnOk result (EntersState nodes.now state reached.old reached.new) }
    ensures exact { OnOk result (AddsState nodes.now state reached.old reached.new) }
    ensures reentries { OnOk result (StateKeeps nodes.now state reached.old reached.new) }
{
    match &nodes[state.place] {
        SelectorNode::Recursive(depth, sequence) => {
            let recursion = Some(Recursion {
                sequence: *sequence,
                depth: *depth,
            });
            let place = *sequence;
            close_over(nodes, State { place, recursion }, reached)
        }
        SelectorNode::Union(members) => close_over_each(nodes, members, state, reached),
        SelectorNode::Edge => reenter_edge(state, reached),
        _ => Ok(reached.explore.push(state)?),
    }
}

// Adds what the members of a union lead to. Their places are before the union's.
#[cycle(close_over)]
fn close_over_each(
    nodes: &[SelectorNode],
    members: &[usize],
    state: State,
    reached: &mut Reached,
) -> Result<(), AllocError>
    requires members { AreBelow state.place members.now }
    requires states { All (IsState nodes.now) (members_at state members.now) }
    requires reached { AreReached nodes.now reached.old }
    ensures reached { OnOk result (AreReached nodes.now reached.new) }
    ensures enters { OnOk result (EntersEach nodes.now state members.now reached.old reached.new) }
    ensures exact { OnOk result (AddsEach nodes.now state members.now reached.old reached.new) }
    ensures reentries { OnOk result (MembersKeep nodes.now state members.now reached.old reached.new) }
{
    for member in members {
        let place = *member;
        let recursion = state.recursion;
        close_over(nodes, State { place, recursion }, reached)?;
    }
    Ok(())
}

// Adds the sequence that an edge re-enters, if its recursion has depth left.
fn reenter_edge(state: State, reached: &mut Reached) -> Result<(), AllocError>
    ensures explore { reached.new.explore ≡ reached.old.explore }
    ensures reentries { OnOk result (EntersAgain state.recursion reached.old reached.new) }
{
    let Some(recursion) = state.recursion else {
        return Ok(());
    };
    let Some(lower) = recursion.decremented() else {
        return Ok(());
    };
    reached.reentries.push(State {
        place: lower.sequence,
        recursion: Some(lower),
    })?;
    Ok(())
}
