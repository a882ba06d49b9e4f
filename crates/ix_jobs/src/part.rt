//! Parts of a list.

ghost use Rattle.std.specs.Prelude.{◌≤◌};

/// One of so many parts of a list, counted from 1. Parts have equal lengths, or one element more, and
/// their concatenation is the list.
#[derive(Debug, Drop, Clone, Copy, PartialEq, Eq)]
pub struct Part {
    /// The number of the part, from 1.
    pub number: u32,
    /// The number of parts, at most 1,000,000.
    pub of: u32,
    ghost from_one: { 1 ≤ number },
    ghost there: { number ≤ of },
    ghost few: { of ≤ 1000000 },
}
