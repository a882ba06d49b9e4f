//! The CID of a text.

ghost use Rattle.std.specs.Prelude.{◌≡◌, ◌+◌, ◌<◌, ◌^◌, length};
ghost use Rattle.ix_cid_text.specs.Text.{is_usual, cid_of_text, cid_of_multibase, cid_of_digits, bytes_in, whole};
ghost use Rattle.ix_cid_text.specs.Gives.{Gives};

use crate::base::Base;
use crate::bits::bytes_of_bits;
use crate::fault::CidTextFault;
use crate::location::after_prefix;
use crate::number::bytes_of_number;
use ix_cid::{Cid, CidFault};
use std::alloc::Global;

/// The most digits in base36 and base58btc, since the time to read them grows with their square.
pub const MOST_DIGITS: usize = 1024;

// The length of the usual text of a CIDv0, and its length where it is `v0-` and hex.
const USUAL_LENGTH: usize = 46;

/// Parses the text of a CID: a CIDv1 after its multibase prefix `b`, `B`, `f`, `F`, `k`, `K`, `z`, `m` or
/// `u`, or a CIDv0 as 46 digits in base58btc that begin with `Qm`, or as `v0-` and hex.
pub fn parse(alloc: Global, text: &str) -> Result<Cid, CidTextFault>
    ensures exact { Gives (λ c. c) result (cid_of_text text.now) }
{
    if let Some(digits) = after_prefix(text, "v0-") {
        return cid_of_digits(alloc, Base::Base16, digits.as_bytes(), 3, 0);
    }
    if is_usual(text) {
        return cid_of_digits(alloc, Base::Base58Btc, text.as_bytes(), 0, 0);
    }
    cid_of_multibase(alloc, text.as_bytes())
}

// Whether a text is as that of a CIDv0 usually is.
fn is_usual(text: &str) -> bool
    ensures { result ≡ is_usual text.now }
{
    text.len() == USUAL_LENGTH && after_prefix(text, "Qm").is_some()
}

// Returns the CIDv1 of a multibase text.
fn cid_of_multibase(alloc: Global, text: &[u8]) -> Result<Cid, CidTextFault>
    ensures { Gives (λ c. c) result (cid_of_multibase text.now) }
{
    let Some((prefix, digits)) = text.split_first() else {
        return Err(CidTextFault::Multibase);
    };
    match Base::of(*prefix) {
        Some(base) => cid_of_digits(alloc, base, digits, 1, 1),
        None => Err(CidTextFault::Multibase),
    }
}

// Returns the CID of a version whose digits, in a base, are at a place in a text.
fn cid_of_digits(
    alloc: Global,
    base: Base,
    digits: &[u8],
    place: usize,
    version: u64,
) -> Result<Cid, CidTextFault>
    requires { place + length digits.now < 2 ^ 64 }
    ensures { Gives (λ c. c) result (cid_of_digits base place version digits.now) }
{
    let bytes = bytes_in(alloc, base, digits, place)?;
    whole(alloc, bytes.as_slice(), version)
}

// Returns the bytes of digits in a base, which are at a place in a text.
fn bytes_in(alloc: Global, base: Base, text: &[u8], place: usize) -> Result<Vec<u8>, CidTextFault>
    requires { place + length text.now < 2 ^ 64 }
    ensures { Gives (λ v. v.items) result (bytes_in base place text.now) }
{
    if matches!(base, Base::Base36 | Base::Base58Btc) && text.len() > MOST_DIGITS {
        return Err(CidTextFault::TooManyDigits(base));
    }
    let digits = base.digits(alloc, text, place)?;
    match base {
        Base::Base16 => bytes_of_bits(alloc, base, 4, digits.as_slice()),
        Base::Base32 => bytes_of_bits(alloc, base, 5, digits.as_slice()),
        Base::Base64 | Base::Base64Url => bytes_of_bits(alloc, base, 6, digits.as_slice()),
        Base::Base36 => bytes_of_number(alloc, 36, digits.as_slice()),
        Base::Base58Btc => bytes_of_number(alloc, 58, digits.as_slice()),
    }
}

// Returns the CID that bytes are, if it has this version.
fn whole(alloc: Global, bytes: &[u8], version: u64) -> Result<Cid, CidTextFault>
    ensures { Gives (λ c. c) result (whole version bytes.now) }
{
    let (cid, length) = match Cid::read(alloc, bytes) {
        Ok(read) => read,
        Err(CidFault::Memory) => return Err(CidTextFault::Memory),
        Err(fault) => return Err(CidTextFault::Cid(fault)),
    };
    if cid.version() != version {
        let number = if cid.version() == 0 { 18 } else { 1 };
        return Err(CidTextFault::Cid(CidFault::Version(number)));
    }
    if length < bytes.len() {
        return Err(CidTextFault::Cid(CidFault::Rest));
    }
    Ok(cid)
}
