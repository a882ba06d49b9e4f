//! Decoding blocks to trees, and encoding trees.

ghost use Rattle.std.specs.Prelude.{◌≡◌, IfOk, IfErr, Ok};
ghost use Rattle.ix_cbor.specs.Data.{Data, data_of};
ghost use Rattle.ix_cbor.specs.Spelling.{Spells, spelling_of};
ghost use Rattle.ix_cbor.specs.Reading.{decoded};
ghost use Rattle.ix_cbor.specs.Gives.{Gives, IsFirstOf};
ghost use Rattle.ix_cbor.specs.Answered.{ReadsOrRunsOut, LiesWithin, placed};

use crate::canonical::LEVELS;
use crate::fault::{CborFault, CborKind};
use crate::node::Node;
use crate::read::{PlacedFault, item};
use crate::tree::Tree;
use crate::write::push_item;
use std::alloc::{AllocError, Global};

// Reads the item that is all of the bytes.
fn whole(alloc: Global, bytes: &[u8]) -> Result<Node, PlacedFault>
    ensures { ReadsOrRunsOut (λ n. data_of n) result (decoded bytes.now) }
{
    let (node, rest) = item(alloc, bytes, LEVELS)?;
    if !rest.is_empty() {
        return Err(PlacedFault::at(CborKind::Rest, rest));
    }
    Ok(node)
}

// Returns the error of a block of that length, its offset counted from the start.
fn fault_of(fault: PlacedFault, length: usize) -> CborFault
    requires { LiesWithin fault.kind fault.left length }
    ensures kind { result.kind ≡ fault.kind }
    ensures place { result.place ≡ placed fault.kind fault.left length }
{
    let place = match fault.kind {
        CborKind::Memory => 0,
        _ => length - fault.left,
    };
    CborFault {
        kind: fault.kind,
        place,
    }
}

/// Decodes a block to the tree that it spells (DAG-CBOR, RFC 8949), or returns its first error from
/// the left.
///
/// The offset of an error is that of the first byte of the item or key concerned; for `Truncated`
/// it is the length of the block, for `Rest` that of the first byte after the item, and for
/// `Memory` 0.
pub fn decode(alloc: Global, bytes: &[u8]) -> Result<Tree, CborFault>
    ensures found { IfOk result (λ t. Spells bytes.now t) }
    ensures only { (d : Data) → Spells bytes.now d → Gives (λ t. t) bytes.now result (Ok d) }
    ensures exact { Gives (λ t. t) bytes.now result (decoded bytes.now) }
    ensures fault { IfErr result (IsFirstOf bytes.now) }
{
    match whole(alloc, bytes) {
        Ok(node) => Ok(Tree::of_canonical(node)),
        Err(fault) => Err(fault_of(fault, bytes.len())),
    }
}

/// Encodes a tree in its only spelling. Fails if memory runs out.
pub fn encode(alloc: Global, tree: &Tree) -> Result<Vec<u8>, AllocError>
    ensures { IfOk result (λ v. v.items ≡ spelling_of tree.now) }
{
    let mut out = Vec::new(alloc);
    push_item(&mut out, tree.root())?;
    Ok(out)
}
