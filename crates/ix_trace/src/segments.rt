//! The segments of steps.

ghost use Rattle.std.specs.Prelude.{◌≡◌, ◌++◌, ◌∷◌, [], ◌-◌, ◌≤◌, length, take, IfOk, OnOk, IfSome, IfNone};
ghost use Rattle.ix_selector.specs.Residual.{step_of};
ghost use Rattle.ix_path.specs.Path.{segments_view};
ghost use Rattle.ix_trace.specs.Links.{steps_to};
ghost use Rattle.ix_trace.specs.Segments.{segment_of, segments_of, StepsBack};

use crate::expansion::StepFrom;
use ix_selector::Step;
use std::alloc::{AllocError, Global};

// Appends the segments of the steps from a block's root to a node, in their order.
pub(crate) fn push_segments(
    alloc: Global,
    segments: &mut Vec<Vec<u8>>,
    steps: &[StepFrom<'_>],
    node: usize,
) -> Result<(), AllocError>
    ensures { OnOk result (segments_view segments.new
        ≡ segments_view segments.old ++ segments_of (steps_to steps.now node)) }
{
    let mut back = steps_back(alloc, steps, node)?;
    while let Some(step) = back.pop() {
        segments.push(segment_of(alloc, step)?)?;
    }
    Ok(())
}

// Returns the steps from a block's root to a node, the last one first.
fn steps_back<'a>(
    alloc: Global,
    steps: &[StepFrom<'a>],
    node: usize,
) -> Result<Vec<Step<'a>>, AllocError>
    ensures { IfOk result (λ back. StepsBack back.items (steps_to steps.now node)) }
{
    let mut back = Vec::new(alloc);
    let mut older = steps;
    let mut node = node;
    while let Some(from) = last_step(older, node) {
        back.push(from.step)?;
        older = &older[..node - 1];
        node = from.parent;
    }
    Ok(back)
}

// Returns the step to a node, if it isn't the block's root. The steps before it are found before it.
fn last_step<'a>(steps: &[StepFrom<'a>], node: usize) -> Option<StepFrom<'a>>
    ensures there { IfSome result (λ _. (1 ≤ node) × (node ≤ length steps.now)) }
    ensures last { IfSome result (λ from. steps_to steps.now node
        ≡ steps_to (take (node - 1) steps.now) from.parent ++ step_of from.step ∷ []) }
    ensures none { IfNone result (steps_to steps.now node ≡ []) }
{
    steps.get(node.checked_sub(1)?).copied()
}

// Returns the segment of a step: a key, or an index in decimal.
fn segment_of(alloc: Global, step: Step<'_>) -> Result<Vec<u8>, AllocError>
    ensures { IfOk result (λ segment. segment.items ≡ segment_of (step_of step.entry)) }
{
    match step {
        Step::Key(key) => Ok(Vec::from_slice(alloc, key)?),
        Step::Pos(index) => Ok(format!(in alloc; "{index}")?.into_bytes()),
    }
}
