//! The line of an error, with the part of the selector that is rejected.

ghost use Rattle.std.specs.Prelude.{IfOk, string_bytes};
ghost use Rattle.ix_selector_json.specs.FaultWords.{line_of, Continues};

use crate::fault::{NotationFault, fault_line};
use crate::place::first_fault;
use crate::read::tree_of;
use ix_cbor::{Tree, decode};
use std::alloc::{AllocError, Global};

/// Returns the line of `fault_line` for an error of this JSON text. If data is not a selector, the key
/// and the place of the part that is rejected follow: `selector: unknown key "x" at /f/f>/album`. A
/// place is a JSON Pointer (RFC 6901), and is left out for an error of the whole.
pub fn json_fault_line(
    alloc: Global,
    fault: &NotationFault,
    text: &[u8],
) -> Result<String, AllocError>
    ensures { IfOk result (λ line. Continues (line_of fault.now) (string_bytes line)) }
{
    let line = fault_line(alloc, fault)?;
    match (fault, tree_of(alloc, text)) {
        (NotationFault::Selector(_), Ok(tree)) => with_place(alloc, line, &tree),
        _ => Ok(line),
    }
}

/// Returns the same for an error of a text in hex.
pub fn hex_fault_line(
    alloc: Global,
    fault: &NotationFault,
    text: &str,
) -> Result<String, AllocError>
    ensures { IfOk result (λ line. Continues (line_of fault.now) (string_bytes line)) }
{
    let line = fault_line(alloc, fault)?;
    let (NotationFault::Selector(_), Ok(bytes)) = (fault, hex::decode(alloc, text)) else {
        return Ok(line);
    };
    match decode(alloc, bytes.as_slice()) {
        Ok(tree) => with_place(alloc, line, &tree),
        Err(_) => Ok(line),
    }
}

// Returns the line for the error of a tree, with the part that is rejected.
fn with_place(alloc: Global, line: String, tree: &Tree) -> Result<String, AllocError>
    ensures { IfOk result (λ said. Continues (string_bytes line) (string_bytes said)) }
{
    match first_fault(alloc, tree.root())? {
        Some(location) => location.describe(alloc, line.as_str()),
        None => Ok(line),
    }
}
