//! The steps of a resolved path.

ghost use Rattle.std.specs.Prelude.{◌≡◌, IfOk};
ghost use Rattle.ix_path.specs.Resolution.{segments_in};
ghost use Rattle.ix_path.specs.Along.{path_of};
ghost use Rattle.ix_path.specs.Steps.{resolved_path};

use crate::PathStep;
use ix_selector::Step;
use std::alloc::{AllocError, Global};

/// Returns the steps of a path that was resolved: a key is its segment, and an index is the number
/// that its segment was resolved to. Segments after the last step are left out. The only error is
/// out of memory.
pub fn steps_along<'a>(
    alloc: Global,
    steps: &[PathStep],
    segments: &'a [Vec<u8>],
) -> Result<Vec<Step<'a>>, AllocError>
    ensures { IfOk result (λ path.
        path_of path.items ≡ resolved_path steps.now (segments_in segments.now)) }
{
    let mut path = Vec::new(alloc);
    let mut rest = segments;
    for step in steps {
        let Some((segment, more)) = rest.split_first() else {
            return Ok(path);
        };
        path.push(match step {
            PathStep::Key => Step::Key(segment.as_slice()),
            PathStep::Index(index) => Step::Pos(*index),
        })?;
        rest = more;
    }
    Ok(path)
}
