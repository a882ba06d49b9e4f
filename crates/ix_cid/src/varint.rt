//! Unsigned varints, base 128, least significant group first.

ghost use Rattle.std.specs.Prelude.{◌≡◌, ◌<◌, ◌^◌, ◌++◌, OnOk, OnErr};
ghost use Rattle.ix_cid.specs.Varint.{varint_at, varint_of};

use crate::fault::VarintFault;
use std::alloc::AllocError;

// The greatest length of a varint, in bytes.
const LONGEST: usize = 9;

/// Reads the number at the front, and returns it with its length in bytes (multiformats
/// unsigned-varint). Fails with `Truncated` if the varint ends early, `TooLong` if it has more than
/// nine bytes, and `NotMinimal` if it has a shorter form.
pub fn read_varint(bytes: &[u8]) -> Result<(u64, usize), VarintFault>
    ensures exact { result ≡ varint_at bytes.now }
{
    let mut number: u64 = 0;
    for (index, byte) in bytes.iter().enumerate() {
        number += u64::from(*byte % 128) << (7 * index);
        if *byte < 128 {
            return if *byte == 0 && index > 0 {
                Err(VarintFault::NotMinimal)
            } else {
                Ok((number, index + 1))
            };
        }
        if index + 1 == LONGEST {
            return Err(VarintFault::TooLong);
        }
    }
    Err(VarintFault::Truncated)
}

/// Appends the varint of a number. An error changes nothing.
pub fn push_varint(out: &mut Vec<u8>, number: u64) -> Result<(), AllocError>
    requires { number < 2 ^ 63 }
    ensures ok { OnOk result (out.new.items ≡ out.old.items ++ varint_of number) }
    ensures err { OnErr result (out.new.items ≡ out.old.items) }
{
    let mut spelled = [0u8; LONGEST];
    let mut last = 0;
    let mut rest = number;
    while rest >= 128 {
        spelled[last] = (rest % 128) as u8 + 128;
        rest /= 128;
        last += 1;
    }
    spelled[last] = rest as u8;
    out.extend_from_slice(&spelled[..last + 1])
}
