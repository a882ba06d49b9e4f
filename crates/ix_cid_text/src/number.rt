//! Bytes as a number in another base.

ghost use Rattle.std.specs.Prelude.{◌≡◌, All, ◌+◌, ◌*◌, ◌^◌, ◌≤◌, ◌<◌, ◌++◌, length, OnOk, IfOk, IfErr};
ghost use Rattle.ix_cid_text.specs.Bytes.{zeros_of, bytes_of_number, low_value, IsShort};
ghost use Rattle.ix_cid_text.specs.declared.fault.CidTextFault.TheVariants.{Memory};

use crate::fault::CidTextFault;
use std::alloc::{AllocError, Global};

/// Returns the bytes of digits in a base: those of their number, and before them a zero byte for each zero
/// digit at the front. The time grows with the square of the digits.
pub(crate) fn bytes_of_number(
    alloc: Global,
    base: u32,
    digits: &[u8],
) -> Result<Vec<u8>, CidTextFault>
    requires base { (0 < base) × (base ≤ 256) }
    requires below { All (λ d. d < base) digits.now }
    ensures exact { IfOk result (λ v. v.items ≡ bytes_of_number base digits.now) }
    ensures memory { IfErr result (λ fault. fault ≡ Memory) }
{
    let mut bytes = Vec::new(alloc);
    for digit in digits {
        push_digit(&mut bytes, base, *digit)?;
    }
    push_zeros(&mut bytes, digits)?;
    bytes.reverse();
    Ok(bytes)
}

// Multiplies a number by the base and adds a digit. The number is in base 256, its lowest byte first.
fn push_digit(bytes: &mut Vec<u8>, base: u32, digit: u8) -> Result<(), AllocError>
    requires base { (0 < base) × (base ≤ 256) }
    requires digit { digit < base }
    requires short { IsShort bytes.now.items }
    ensures value { OnOk result (low_value bytes.new.items ≡ low_value bytes.old.items * base + digit) }
    ensures short { OnOk result (IsShort bytes.new.items) }
    ensures size { OnOk result (length bytes.new.items ≤ length bytes.old.items + 1) }
    ensures below { OnOk result (All (λ b. b < 2 ^ 8) bytes.new.items) }
{
    let mut carry = u32::from(digit);
    for byte in bytes.iter_mut() {
        carry += u32::from(*byte) * base;
        *byte = (carry % 256) as u8;
        carry /= 256;
    }
    if carry > 0 {
        bytes.push(carry as u8)?;
    }
    Ok(())
}

// Appends a zero for each zero at the front.
fn push_zeros(bytes: &mut Vec<u8>, digits: &[u8]) -> Result<(), AllocError>
    ensures { OnOk result (bytes.new.items ≡ bytes.old.items ++ zeros_of digits.now) }
{
    let mut rest = digits;
    while let [0, more @ ..] = rest {
        bytes.push(0)?;
        rest = more;
    }
    Ok(())
}
