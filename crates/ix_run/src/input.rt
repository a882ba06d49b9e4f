//! Standard input as bytes.

ghost use Rattle.std.specs.Prelude.{◌≡◌, Ok, Err, IfOk, IfErr};
ghost use Rattle.hex.specs.Hex.{decode_of};
ghost use Rattle.ix_run.specs.Input.{without_blanks, IsInputFault};

use crate::RunFault;
use hex::FromHexError;
use std::alloc::Global;

/// Decodes a text in hex, in either case (RFC 4648, section 8). Spaces, tabs and line ends are skipped
/// anywhere.
pub fn bytes_of_hex(alloc: Global, text: &[u8]) -> Result<Vec<u8>, RunFault>
    ensures bytes { IfOk result (λ bytes. decode_of (without_blanks text.now) ≡ Ok bytes.items) }
    ensures refused { IfErr result (IsInputFault text.now) }
{
    let digits: Vec<u8> = text
        .iter()
        .copied()
        .filter(|b| !matches!(*b, b' ' | b'\t' | b'\n' | b'\r'))
        .collect(alloc)?;
    match hex::decode(alloc, digits.as_slice()) {
        Ok(bytes) => Ok(bytes),
        Err(FromHexError::OutOfMemory) => Err(RunFault::Memory),
        Err(_) => Err(RunFault::Hex),
    }
}
