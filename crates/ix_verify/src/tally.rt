//! Counts of codes.

ghost use Rattle.std.specs.Prelude.{ℕ, List, [], ◌∷◌, ◌++◌, ◌<◌, ◌^◌, length, OnOk};
ghost use Rattle.ix_verify.specs.Tallied.{IsTallyOf};

use std::alloc::AllocError;
use std::collections::BTreeMap;

/// The count of each code, in the order of the codes.
pub type Tally = BTreeMap<u64, usize>;

// Counts one code more.
pub(crate) fn count_in(tally: &mut Tally, code: u64) -> Result<(), AllocError>
    requires few { (codes : List ℕ) × IsTallyOf codes tally.old × (length codes < 2 ^ 63) }
    ensures { OnOk result ((codes : List ℕ) → IsTallyOf codes tally.old
        → IsTallyOf (codes ++ code ∷ []) tally.new) }
{
    let had = tally.get(&code).copied().unwrap_or(0usize);
    tally.insert(code, had + 1)?;
    Ok(())
}
