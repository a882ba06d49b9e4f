//! Hex, in lower case.

ghost use Rattle.std.specs.Prelude.{◌≡◌, ◌++◌, OnOk, string_bytes};
ghost use Rattle.ix_cid.specs.CidText.{hex_of};

use std::alloc::{AllocError, Global};

/// Appends the hex of some bytes.
pub fn append(alloc: Global, text: &mut String, bytes: &[u8]) -> Result<(), AllocError>
    ensures { OnOk result (string_bytes text.new ≡ string_bytes text.old ++ hex_of bytes.now) }
{
    let digits = hex::encode(alloc, bytes)?;
    text.push_str(&digits)
}
