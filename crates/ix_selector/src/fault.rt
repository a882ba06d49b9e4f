//! Why a tree is not a selector.

use std::alloc::{AllocError, AllocFailed};

/// A selector form that is known but not supported.
#[derive(Debug, Drop, Clone, Copy, PartialEq, Eq)]
pub enum Form {
    /// A selector under a condition, by the key `&`.
    Conditional,
    /// A selector over another interpretation of the node, by the key `~`.
    InterpretAs,
    /// A recursion that stops at a condition, by its key `!`.
    StopAt,
    /// A matcher with a key other than `label`, such as `subset`.
    MatcherField,
}

/// The first error of a tree.
#[derive(Debug, Drop, Clone, Copy, PartialEq, Eq)]
pub enum SelFault {
    /// A selector isn't a map.
    NotMap,
    /// A selector or a limit hasn't exactly one key, or the body of a form hasn't exactly the keys
    /// of that form.
    Keys,
    /// The key of a selector names no form, or that of a limit is neither `none` nor `depth`.
    Unknown,
    /// The form is known but not supported.
    Unsupported(Form),
    /// A value inside a form has the wrong kind: a label that isn't a string, a number that isn't
    /// an integer, members that aren't a list, or something that should be a map and isn't.
    Kind,
    /// The depth of a limit is below 0, or not below 2 ^ 32.
    Depth,
    /// An edge outside any recursion.
    EdgeOutside,
    /// An edge in a recursion with no step between.
    EdgeUnguarded,
    /// A selector nested inside 128 others.
    Nesting,
    /// Out of memory.
    Memory,
}

impl From<AllocError> for SelFault {
    ghost use Rattle.std.specs.Prelude.{◌≡◌};
    ghost use Rattle.ix_selector.specs.declared.fault.SelFault.TheVariants.{Memory};

    ghost from_gives = { λ _ e. e ≡ Memory };

    fn from(_: AllocError) -> SelFault {
        SelFault::Memory
    }
}

impl<T: Drop> From<AllocFailed<T>> for SelFault {
    ghost use Rattle.std.specs.Prelude.{◌≡◌};
    ghost use Rattle.ix_selector.specs.declared.fault.SelFault.TheVariants.{Memory};

    ghost from_gives = { λ _ e. e ≡ Memory };

    fn from(_: AllocFailed<T>) -> SelFault {
        SelFault::Memory
    }
}
