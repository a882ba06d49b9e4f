//! The DAG-JSON of a block, of an item, and of bytes.

ghost use Rattle.std.specs.Prelude.{◌≡◌, IfOk, IfErr, string_bytes};
ghost use Rattle.ix_cbor.specs.Data.{bytes as bytes_data};
ghost use Rattle.ix_dag_json.specs.Text.{IsBlock, IsTextOf, IsBlockText, IsBlockRefused};
ghost use Rattle.ix_dag_json.specs.Written.{text_in};

use crate::fault::DagJsonFault;
use crate::leaf::push_bytes;
use crate::output::{Layout, Output};
use crate::print::push_item;
use ix_cbor::{CborKind, check};
use std::alloc::{AllocError, Global};

// How deep lists and maps may nest.
const LEVELS: u32 = 512;

/// Returns the DAG-JSON of a block of DAG-CBOR, without a line end. It rejects bytes that are not valid
/// DAG-CBOR, with their first error, and data with a part that DAG-JSON can't express: text or a key that
/// is not UTF-8, or a map with the key `/`. Then the path leads to the first such part of the text.
pub fn text_of_block(alloc: Global, block: &[u8], layout: Layout) -> Result<String, DagJsonFault>
    ensures text { IfOk result (λ text. IsBlockText layout block.now (string_bytes text)) }
    ensures refused { IfErr result (IsBlockRefused block.now) }
{
    match check(block) {
        Ok(()) => text_of_checked(alloc, block, layout),
        Err(fault) if fault.kind == CborKind::Memory => Err(DagJsonFault::Memory),
        Err(fault) => Err(DagJsonFault::Block(fault)),
    }
}

/// Returns the DAG-JSON of bytes, as of a raw block, without a line end.
pub fn text_of_bytes(alloc: Global, bytes: &[u8], layout: Layout) -> Result<String, AllocError>
    ensures { IfOk result (λ text. IsTextOf layout (bytes_data bytes.now) (string_bytes text)) }
{
    let mut out = Output::new(alloc, layout);
    push_bytes(alloc, &mut out, bytes)?;
    string_of(out)
}

// Returns the DAG-JSON of a block that decodes.
fn text_of_checked(alloc: Global, block: &[u8], layout: Layout) -> Result<String, DagJsonFault>
    requires { IsBlock block.now }
    ensures text { IfOk result (λ text. IsBlockText layout block.now (string_bytes text)) }
    ensures refused { IfErr result (IsBlockRefused block.now) }
{
    let mut out = Output::new(alloc, layout);
    push_item(alloc, &mut out, block, LEVELS)?;
    Ok(string_of(out)?)
}

// Returns the text that was written, which is UTF-8.
fn string_of(out: Output) -> Result<String, AllocError>
    ensures { IfOk result (λ text. string_bytes text ≡ text_in out) }
{
    match String::from_utf8(out.into_text()) {
        Ok(text) => Ok(text),
        Err(_) => Err(AllocError),
    }
}
