//! Prints links, bytes and numbers.

ghost use Rattle.std.specs.Prelude.{◌≡◌, OnOk, IfErr, IfOk, string_bytes};
ghost use Rattle.base64.specs.GeneralPurpose.{encode_of};
ghost use Rattle.ix_cid.specs.CidText.{text_of};
ghost use Rattle.ix_dag_json.specs.Shown.{Appends, ShowsInteger, ShowsFloat, ShowsBytes, ShowsLink, IsLinkText};
ghost use Rattle.ix_dag_json.specs.Lack.{IsUnfinite};
ghost use Rattle.ix_dag_json.specs.declared.fault.DagJsonFault.TheVariants.{Memory};

use crate::base58::base58_of;
use crate::fault::{DagJsonFault, Wrong};
use crate::output::Output;
use base64::engine::general_purpose::STANDARD_NO_PAD;
use ix_cid::{Cid, CidRef};
use json::Token;
use std::alloc::{AllocError, Global};
use std::num::f64_from_bits_with_nan;

// Appends an integer in decimal.
pub(crate) fn push_integer(alloc: Global, out: &mut Output, integer: i128) -> Result<(), AllocError>
    ensures { OnOk result (Appends (ShowsInteger integer) out.old out.new) }
{
    let digits = format!(in alloc; "{integer}")?;
    out.token(Token::Number(digits.as_str()))
}

// Appends a float as a number that reads as the same float.
pub(crate) fn push_float(alloc: Global, out: &mut Output, bits: u64) -> Result<(), DagJsonFault>
    ensures shown { OnOk result (Appends (ShowsFloat bits) out.old out.new) }
    ensures refused { IfErr result (IsUnfinite bits) }
{
    let float = f64_from_bits_with_nan(bits);
    if !float.is_finite() {
        return Err(DagJsonFault::here(alloc, Wrong::Float));
    }
    let mut buffer = ryu::Buffer::new();
    let digits = buffer.format_finite(float);
    Ok(out.token(Token::Number(digits))?)
}

// Appends bytes: `{"/":{"bytes":"BASE64"}}`, without padding.
pub(crate) fn push_bytes(alloc: Global, out: &mut Output, bytes: &[u8]) -> Result<(), AllocError>
    ensures { OnOk result (Appends (ShowsBytes bytes.now) out.old out.new) }
{
    let text = STANDARD_NO_PAD.encode(alloc, bytes)?;
    out.tokens(&[
        Token::BeginObject,
        Token::Key("/"),
        Token::BeginObject,
        Token::Key("bytes"),
        Token::String(text.as_str()),
        Token::EndObject,
        Token::EndObject,
    ])
}

// Appends a link: `{"/":"CID"}`.
pub(crate) fn push_link(alloc: Global, out: &mut Output, cid: CidRef<'_>) -> Result<(), AllocError>
    ensures { OnOk result (Appends (ShowsLink cid.entry) out.old out.new) }
{
    let text = link_text(alloc, &cid.to_cid(alloc)?)?;
    out.tokens(&[
        Token::BeginObject,
        Token::Key("/"),
        Token::String(text.as_str()),
        Token::EndObject,
    ])
}

// Returns the text of a CID in DAG-JSON: base32 of a CIDv1, base58 of a CIDv0.
fn link_text(alloc: Global, cid: &Cid) -> Result<String, AllocError>
    ensures { IfOk result (λ text. IsLinkText cid.now (string_bytes text)) }
{
    if cid.version() == 0 {
        base58_of(alloc, cid.as_bytes())
    } else {
        cid.text(alloc)
    }
}
