//! Finds recursions of a selector without an edge.

use hex::FromHexError;
use ix_cbor::{CborKind, Node, Tree, decode};
use ix_jobs::{JobErrorKind, LineFault, SelectorWord, selector_hex};
use std::alloc::Global;

// The role of a part of a selector's data.
#[derive(Debug, Drop, Clone, Copy, PartialEq, Eq)]
enum SelectorPart {
    Selector,
    // After `a`, `i` and `r`: a map in which a selector is after `>`.
    Step,
    // After `f`: a map in which `f>` has the names.
    Fields,
    // A map of names, with a selector for each.
    Names,
    // After `R`: a map in which a selector is after `:>`.
    Recursion,
    // After `|`: a list of selectors.
    Members,
    Edge,
    // A part without a selector inside.
    Other,
}

// What a part of a selector has: an edge of the recursion around it, and a recursion without an edge.
#[derive(Debug, Drop, Clone, Copy)]
struct Seen {
    has_edge: bool,
    lacks_edge: bool,
}

/// Returns whether a recursion of the selector has no edge of its own, so it never recurs and enters no
/// more than its sequence does. A text that is not a selector is rejected.
pub fn lacks_an_edge(alloc: Global, selector: &SelectorWord<'_>) -> Result<bool, LineFault> {
    let line = selector_hex(alloc, selector)?;
    let tree = tree_of(alloc, line.as_str().trim_end())?;
    Ok(seen_in(tree.root(), SelectorPart::Selector).lacks_edge)
}

// Returns the tree of a block in hex.
fn tree_of(alloc: Global, text: &str) -> Result<Tree, LineFault> {
    let bytes = match hex::decode(alloc, text) {
        Ok(bytes) => bytes,
        Err(FromHexError::OutOfMemory) => return Err(LineFault::Field(JobErrorKind::Memory)),
        Err(_) => return Err(LineFault::Field(JobErrorKind::Hex)),
    };
    match decode(alloc, bytes.as_slice()) {
        Ok(tree) => Ok(tree),
        Err(fault) if fault.kind == CborKind::Memory => Err(LineFault::Field(JobErrorKind::Memory)),
        Err(_) => Err(LineFault::Field(JobErrorKind::Selector)),
    }
}

// Returns what the data of this role has.
fn seen_in(node: &Node, part: SelectorPart) -> Seen {
    let mut seen = Seen {
        has_edge: part == SelectorPart::Edge,
        lacks_edge: false,
    };
    match node {
        Node::Map(entries) => {
            for (key, value) in entries {
                seen = seen.and(seen_in(value, part.below(key.as_slice())));
            }
        }
        Node::List(members) => {
            for member in members {
                seen = seen.and(seen_in(member, part.of_members()));
            }
        }
        _ => {}
    }
    seen.from_outside(part)
}

impl SelectorPart {
    // Returns the role of the value of a key of this part, if it is a map.
    fn below(self, key: &[u8]) -> SelectorPart {
        match (self, key) {
            (SelectorPart::Selector, b"a" | b"i" | b"r") => SelectorPart::Step,
            (SelectorPart::Selector, b"f") => SelectorPart::Fields,
            (SelectorPart::Selector, b"R") => SelectorPart::Recursion,
            (SelectorPart::Selector, b"|") => SelectorPart::Members,
            (SelectorPart::Selector, b"@") => SelectorPart::Edge,
            (SelectorPart::Selector, b"selector") => SelectorPart::Selector,
            (SelectorPart::Step, b">")
            | (SelectorPart::Recursion, b":>")
            | (SelectorPart::Names, _) => SelectorPart::Selector,
            (SelectorPart::Fields, b"f>") => SelectorPart::Names,
            _ => SelectorPart::Other,
        }
    }

    // Returns the role of each element of this part, if it is a list.
    fn of_members(self) -> SelectorPart {
        match self {
            SelectorPart::Members => SelectorPart::Selector,
            _ => SelectorPart::Other,
        }
    }
}

impl Seen {
    // Combines what two parts have.
    fn and(self, other: Seen) -> Seen {
        Seen {
            has_edge: self.has_edge || other.has_edge,
            lacks_edge: self.lacks_edge || other.lacks_edge,
        }
    }

    // Returns what a part has, seen from outside: the edges inside a recursion are its own.
    fn from_outside(self, part: SelectorPart) -> Seen {
        match part {
            SelectorPart::Recursion => Seen {
                has_edge: false,
                lacks_edge: self.lacks_edge || !self.has_edge,
            },
            _ => self,
        }
    }
}
