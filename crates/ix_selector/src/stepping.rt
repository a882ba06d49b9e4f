//! Steps from the places of a selector to the next ones.

ghost use Rattle.std.specs.Prelude.{◌<◌, ◌≤◌, length, IfOk, IfSome, IfNone};
ghost use Rattle.std.specs.Bool.{OnTrue, OnFalse};
ghost use Rattle.std.specs.List.{All};
ghost use Rattle.ix_selector.specs.Alike.{NodeLooksAtNoStep, StateLooksAtNoStep};
ghost use Rattle.ix_selector.specs.Places.{places_of, AreRising};
ghost use Rattle.ix_selector.specs.Standing.{IsBeside};
ghost use Rattle.ix_selector.specs.Named.{HasName, HasNoName};
ghost use Rattle.ix_selector.specs.States.{IsState, AreStandingStates};
ghost use Rattle.ix_selector.specs.Reaching.{AreReached, AreLeftIn, EnterAsReached, EnterAfter, AreLeft, AreLeftAfter, LeadsBeside, IsAtEnd, LeadsAs, LeadsToNone, EachStepLeavesState};
ghost use Rattle.ix_selector.specs.Laid.{IsTable};
ghost use Rattle.ix_selector.specs.Residual.{step_of};

use crate::merge::merge;
use crate::reached::{Reached, close_over};
use crate::reentry::reenter;
use crate::selector_node::SelectorNode;
use crate::state::{State, States};
use crate::step::Step;
use ix_cbor::compare_keys;
use smallvec::SmallVec;
use std::alloc::{AllocError, Global};

// Returns the number that belongs to the name of the step, by a binary search.
fn named(names: &[(Vec<u8>, usize)], step: &Step) -> Option<usize>
    requires { AreRising names.now }
    ensures some { IfSome result (HasName names.now (step_of step.now)) }
    ensures none { IfNone result (HasNoName names.now (step_of step.now)) }
{
    let Step::Key(key) = step else {
        return None;
    };
    match names.binary_search_by(|(name, _)| compare_keys(name, key)) {
        Ok(found) => Some(names[found].1),
        Err(_) => None,
    }
}

// Returns the place that a step from a place leads to, if any.
fn child_of(nodes: &[SelectorNode], place: usize, step: &Step) -> Option<usize>
    requires table { IsTable nodes.now }
    requires place { place < length nodes.now }
    ensures within { IfSome result (λ k. k < length nodes.now) }
    ensures beside { IfSome result (IsBeside nodes.now place) }
    ensures some { IfSome result (LeadsBeside (places_of nodes.now) place (step_of step.now)) }
    ensures none { IfNone result (IsAtEnd (places_of nodes.now) place (step_of step.now)) }
    ensures leads { IfSome result (LeadsAs (places_of nodes.now) place (step_of step.now)) }
    ensures nowhere { IfNone result (LeadsToNone (places_of nodes.now) place (step_of step.now)) }
{
    match &nodes[place] {
        SelectorNode::All(next) => Some(*next),
        SelectorNode::Fields(names) => named(names, step),
        SelectorNode::Index(position, next) => step.is_at(*position).then_some(*next),
        SelectorNode::Range(start, end, next) => step.is_within(*start, *end).then_some(*next),
        _ => None,
    }
}

// Returns the matchers and explorers, after those inside the re-entered sequences are reached too.
fn reenter_edges(
    alloc: Global,
    nodes: &[SelectorNode],
    mut reached: Reached,
) -> Result<States, AllocError>
    requires reached { AreReached nodes.now reached }
    ensures states { IfOk result (λ r. AreStandingStates nodes.now r.items) }
    ensures few { IfOk result (λ r. length r.items ≤ length nodes.now) }
    ensures enters { IfOk result (λ r. EnterAsReached nodes.now reached r.items) }
    ensures exact { IfOk result (λ r. AreLeft nodes.now reached r.items) }
{
    merge(alloc, &mut reached.reentries)?;
    while let Some(state) = reached.reentries.pop() {
        reenter(nodes, state, &mut reached)?;
    }
    merge(alloc, &mut reached.explore)?;
    Ok(reached.explore)
}

// Returns the state that each step leaves, if every child is an edge that re-enters the place
// itself.
fn self_loop(nodes: &[SelectorNode], state: State) -> Option<State>
    requires { IsTable nodes.now × IsState nodes.now state }
    ensures { IfSome result (EachStepLeavesState nodes.now state) }
{
    let SelectorNode::All(next) = &nodes[state.place] else {
        return None;
    };
    let SelectorNode::Edge = &nodes[*next] else {
        return None;
    };
    let lower = state.recursion?.decremented()?;
    if lower.sequence != state.place {
        return None;
    }
    Some(State {
        place: lower.sequence,
        recursion: Some(lower),
    })
}

/// Returns the states after a step.
pub(crate) fn derivative(
    alloc: Global,
    nodes: &[SelectorNode],
    states: &[State],
    step: &Step,
) -> Result<States, AllocError>
    requires table { IsTable nodes.now }
    requires states { AreStandingStates nodes.now states.now }
    ensures states { IfOk result (λ r. AreStandingStates nodes.now r.items) }
    ensures few { IfOk result (λ r. length r.items ≤ length nodes.now) }
    ensures enters { IfOk result (λ r. EnterAfter nodes.now states.now step.now r.items) }
    ensures exact { IfOk result (λ r. AreLeftAfter nodes.now states.now step.now r.items) }
{
    if states.len() == 1 {
        if let Some(same) = self_loop(nodes, states[0]) {
            let mut left = SmallVec::new(alloc);
            left.push(same)?;
            return Ok(left);
        }
    }
    let mut reached = Reached::new(alloc);
    for state in states {
        if let Some(place) = child_of(nodes, state.place, step) {
            let recursion = state.recursion;
            close_over(nodes, State { place, recursion }, &mut reached)?;
        }
    }
    reenter_edges(alloc, nodes, reached)
}

/// Whether none of the states depends on the step: each continues at all children alike, or at none.
pub(crate) fn look_at_no_step(nodes: &[SelectorNode], states: &[State]) -> bool
    requires { AreLeftIn nodes.now states.now }
    ensures { OnTrue result (All (StateLooksAtNoStep nodes.now) states.now) }
{
    for state in states {
        let looks = looks_at_a_step(&nodes[state.place]);
        if looks {
            return false;
        }
    }
    true
}

// Whether the form at a place depends on the step. False only if it continues at all children
// alike, or at none.
fn looks_at_a_step(node: &SelectorNode) -> bool
    ensures { OnFalse result (NodeLooksAtNoStep node.now) }
{
    match node {
        SelectorNode::All(_) | SelectorNode::Matcher => false,
        _ => true,
    }
}
