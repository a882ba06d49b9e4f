//! The bounds of a part of a list.

ghost use Rattle.std.specs.Prelude.{◌≡◌, ◌-◌, ◌≤◌, ◌<◌, IfNone, IfSome};
ghost use Rattle.ix_jobs.specs.Parts.{cut};

use crate::part::Part;

// The most parts of a list.
const MOST_PARTS: u32 = 1_000_000;

impl Part {
    /// Makes the part with this number, from 1, of so many, at most 1,000,000.
    pub fn new(number: u32, of: u32) -> Option<Part>
        ensures part { IfSome result (λ part. (part.number ≡ number) × (part.of ≡ of)) }
        ensures none { IfNone result ((1 ≤ number) × (number ≤ of) × (of ≤ 1000000) → ⊥) }
    {
        if number == 0 || of < number || MOST_PARTS < of {
            return None;
        }
        Some(Part { number, of })
    }

    // Returns where the part begins in a list of this length.
    pub(crate) fn start(&self, len: usize) -> usize
        ensures { result ≡ cut (self.now.number - 1) self.now.of len }
    {
        end_of(self.number - 1, self.of, len)
    }

    // Returns where the part ends, which is where the next one begins.
    pub(crate) fn end(&self, len: usize) -> usize
        ensures { result ≡ cut self.now.number self.now.of len }
    {
        end_of(self.number, self.of, len)
    }
}

// Returns where the first parts of so many end in a list of this length.
fn end_of(parts: u32, of: u32, len: usize) -> usize
    requires some { 0 < of }
    requires there { parts ≤ of }
    ensures { result ≡ cut parts of len }
{
    let end = parts as u128 * len as u128 / of as u128;
    end as usize
}
