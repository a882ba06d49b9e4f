//! Bytes in the bits of digits (RFC 4648).

ghost use Rattle.std.specs.Prelude.{◌≡◌, All, ◌≤◌, ◌<◌, ◌^◌};
ghost use Rattle.ix_cid_text.specs.Bytes.{bytes_of_bits};
ghost use Rattle.ix_cid_text.specs.Gives.{Gives};

use crate::base::Base;
use crate::fault::CidTextFault;
use std::alloc::Global;

/// Returns the bytes of digits of four to six bits each in this base. After the last whole byte come fewer
/// bits than a digit has, which are 0.
pub(crate) fn bytes_of_bits(
    alloc: Global,
    base: Base,
    width: u32,
    digits: &[u8],
) -> Result<Vec<u8>, CidTextFault>
    requires width { (4 ≤ width) × (width ≤ 6) }
    requires below { All (λ d. d < 2 ^ width) digits.now }
    ensures { Gives (λ v. v.items) result (bytes_of_bits base width digits.now) }
{
    let mut bytes = Vec::new(alloc);
    // The bits that are no byte yet, and how many.
    let mut bits = 0;
    let mut count = 0;
    for digit in digits {
        bits = bits * power(width) + u32::from(*digit);
        count += width;
        if count >= 8 {
            count -= 8;
            bytes.push((bits / power(count)) as u8)?;
            bits %= power(count);
        }
    }
    if count >= width || bits != 0 {
        return Err(CidTextFault::Bits(base));
    }
    Ok(bytes)
}

// Returns this power of two.
fn power(exponent: u32) -> u32
    requires { exponent < 32 }
    ensures { result ≡ 2 ^ exponent }
{
    1 << exponent
}
