//! The command `selector`, from text to text.

ghost use Rattle.std.specs.Prelude.{Ok, IfOk, IfErr, string_bytes};
ghost use Rattle.ix_selector_json.specs.Notation.{IsSelectorHex, IsSelectorJson, IsSelectorOf, IsRefused, IsHexRefused, IsJsonRefused};

use crate::fault::NotationFault;
use crate::print::text_of;
use crate::read::tree_of;
use hex::FromHexError;
use ix_cbor::{CborKind, Tree, decode, encode};
use ix_selector::{SelFault, Selector};
use std::alloc::Global;

/// Returns the selector of a JSON text with the keys of the IPLD Selectors specification, as DAG-CBOR
/// in lower-case hex with a line end, whatever the order of the keys. It rejects a text that is not
/// UTF-8, or not a JSON value with arrays and objects at most 512 deep (`Json`); a value with an object
/// that has a key twice (`Repeated`); a value with a number that is not an integer in decimal digits
/// alone, or not one from -2^64 to 2^64 - 1 (`Number`); and data that is not a selector (`Selector`). A
/// value that is both of `Repeated` and `Number` is reported as one of them. The only other error is
/// out of memory.
pub fn hex_of_json(alloc: Global, text: &[u8]) -> Result<String, NotationFault>
    ensures selector { IfOk result (λ line. IsSelectorHex text.now (string_bytes line)) }
    ensures refused { IfErr result (IsJsonRefused text.now) }
{
    let tree = tree_of(alloc, text)?;
    let bytes = encode(alloc, &tree)?;
    check_owned(alloc, tree)?;
    let mut line = hex::encode(alloc, bytes.as_slice())?;
    line.push('\n')?;
    Ok(line)
}

/// Returns the selector of DAG-CBOR in hex as JSON with a line end. It rejects, in this order: a text
/// that is not hex (`Hex`); bytes that are not a block, with the first error of the block (`Block`);
/// data that is not a selector (`Selector`); and a selector in which a name or a label is not UTF-8
/// (`Name`). The only other error is out of memory.
pub fn json_of_hex(alloc: Global, text: &str) -> Result<String, NotationFault>
    ensures selector { IfOk result (λ line. IsSelectorJson text.now (string_bytes line)) }
    ensures refused { IfErr result (IsHexRefused text.now) }
{
    let bytes = match hex::decode(alloc, text.as_bytes()) {
        Ok(bytes) => bytes,
        Err(FromHexError::OutOfMemory) => return Err(NotationFault::Memory),
        Err(_) => return Err(NotationFault::Hex),
    };
    let tree = match decode(alloc, bytes.as_slice()) {
        Ok(tree) => tree,
        Err(fault) if fault.kind == CborKind::Memory => return Err(NotationFault::Memory),
        Err(fault) => return Err(NotationFault::Block(fault)),
    };
    check_selector(alloc, &tree)?;
    let Ok(mut line) = String::from_utf8(text_of(alloc, tree.root())?) else {
        return Err(NotationFault::Name);
    };
    line.push('\n')?;
    Ok(line)
}

// Returns whether a tree represents a selector.
fn check_selector(alloc: Global, tree: &Tree) -> Result<(), NotationFault>
    ensures selector { IfOk result (λ _. IsSelectorOf tree.now) }
    ensures refused { IfErr result (IsRefused tree.now) }
{
    match Selector::read(alloc, tree) {
        Ok(_) => Ok(()),
        Err(SelFault::Memory) => Err(NotationFault::Memory),
        Err(fault) => Err(NotationFault::Selector(fault)),
    }
}

// Does the same for a tree, which is dropped as soon as it is read.
fn check_owned(alloc: Global, tree: Tree) -> Result<(), NotationFault>
    ensures selector { IfOk result (λ _. IsSelectorOf tree) }
    ensures refused { IfErr result (IsRefused tree) }
{
    match Selector::read_owned(alloc, tree) {
        Ok(_) => Ok(()),
        Err(SelFault::Memory) => Err(NotationFault::Memory),
        Err(refusal) => Err(NotationFault::Selector(refusal)),
    }
}
