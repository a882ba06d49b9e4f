//! The command `root`, from text to text.

ghost use Rattle.std.specs.Prelude.{◌≡◌, IfOk, IfErr, Ok, string_bytes};
ghost use Rattle.ix_cid.specs.CidText.{cid_of_text};
ghost use Rattle.ix_run.specs.Command.{IsTextRefusal, PrintsRoot, IsPrintRefusal};

use crate::RunFault;
use crate::input::bytes_of_hex;
use crate::root::export_root;
use ix_cid::Cid;
use std::alloc::Global;

/// Parses the text of a CIDv1.
pub fn root_of_text(alloc: Global, text: &str) -> Result<Cid, RunFault>
    ensures root { IfOk result (λ cid. cid_of_text text.now ≡ Ok cid) }
    ensures refused { IfErr result (λ fault. IsTextRefusal text.now fault) }
{
    Ok(Cid::from_text(alloc, text)?)
}

/// Returns what the command prints: the archive of the root, from a CARv1 file in hex, as lower-case
/// hex with a line end.
pub fn printed_root(alloc: Global, root: Cid, input: &[u8]) -> Result<String, RunFault>
    ensures prints { IfOk result (λ text. PrintsRoot input.now root (string_bytes text)) }
    ensures refused { IfErr result (λ fault. IsPrintRefusal input.now fault) }
{
    let car = bytes_of_hex(alloc, input)?;
    let archive = export_root(alloc, car.as_slice(), root)?;
    let mut text = hex::encode(alloc, archive.as_slice())?;
    text.push('\n')?;
    Ok(text)
}
