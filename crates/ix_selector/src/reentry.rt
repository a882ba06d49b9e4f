//! Sequences that edges re-enter, so that each of their places is reached once.
//!
//! What is inside several of them, nested with no step between, would be reached from each. So they
//! are entered from the outermost one inwards. If one leads to another that is still to be entered,
//! that one takes the greater depth and waits for its turn.

ghost use Rattle.std.specs.Prelude.{◌≡◌, OnOk};
ghost use Rattle.std.specs.Bool.{OnTrue, OnFalse};
ghost use Rattle.ix_selector.specs.Reentering.{CanReenter, CanReenterEach, ReentersState, ReentersEach, StartIsJoined};

use crate::reached::Reached;
use crate::selector_node::SelectorNode;
use crate::state::{Recursion, State, States};
use std::alloc::AllocError;

/// Adds what a state without an edge leads to: the matchers and explorers inside unions and
/// recursions, except those inside sequences that are still to be entered.
#[cycle(reenter)]
pub(crate) fn reenter(
    nodes: &[SelectorNode],
    state: State,
    reached: &mut Reached,
) -> Result<(), AllocError>
    requires { CanReenter nodes.now state reached.old }
    ensures { OnOk result (ReentersState nodes.now state reached.old reached.new) }
{
    match &nodes[state.place] {
        SelectorNode::Recursive(depth, sequence) => {
            let recursion = Some(Recursion {
                sequence: *sequence,
                depth: *depth,
            });
            let place = *sequence;
            let start = State { place, recursion };
            if join_start(&mut reached.reentries, start) {
                return Ok(());
            }
            reenter(nodes, start, reached)
        }
        SelectorNode::Union(members) => reenter_each(nodes, members, state, reached),
        SelectorNode::Edge => unreachable!(),
        _ => Ok(reached.explore.push(state)?),
    }
}

// Adds what the members of a union lead to. Their places are before the union's.
#[cycle(reenter)]
fn reenter_each(
    nodes: &[SelectorNode],
    members: &[usize],
    state: State,
    reached: &mut Reached,
) -> Result<(), AllocError>
    requires { CanReenterEach nodes.now state members.now reached.old }
    ensures { OnOk result (ReentersEach nodes.now state members.now reached.old reached.new) }
{
    for member in members {
        let place = *member;
        let recursion = state.recursion;
        reenter(nodes, State { place, recursion }, reached)?;
    }
    Ok(())
}

// Joins the start of a sequence with the same one among these, which are ordered by place. Returns
// whether it is among them.
fn join_start(reentries: &mut States, start: State) -> bool
    ensures joined { OnTrue result (StartIsJoined reentries.old.items reentries.new.items start) }
    ensures other { OnFalse result (reentries.new ≡ reentries.old) }
{
    let places = reentries.as_slice();
    let Ok(found) = places.binary_search_by_key(&start.place, |state| state.place) else {
        return false;
    };
    let Some(both) = places[found].joined(start) else {
        return false;
    };
    if let Some(state) = reentries.get_mut(found) {
        *state = both;
    }
    true
}
