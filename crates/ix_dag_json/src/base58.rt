//! Base58, the text of CIDv0s.

use std::alloc::{AllocError, Global};

// The digits of base58btc, in their order.
const ALPHABET: &[u8; 58] = b"123456789ABCDEFGHJKLMNPQRSTUVWXYZabcdefghijkmnopqrstuvwxyz";

// How many digits a CIDv0 has.
const DIGITS: usize = 46;

// Returns a CIDv0 in base58: its bytes as one number, in 46 digits.
pub(crate) fn base58_of(alloc: Global, cid: &[u8]) -> Result<String, AllocError> {
    let mut digits = [0u32; DIGITS];
    for byte in cid {
        let mut carry = u32::from(*byte);
        for digit in digits.iter_mut().rev() {
            let number = digit.wrapping_mul(256).wrapping_add(carry);
            *digit = number % 58;
            carry = number / 58;
        }
    }
    let mut text = String::new(alloc);
    for digit in digits {
        let letter = ALPHABET[(digit % 58) as usize];
        text.push(char::from(letter))?;
    }
    Ok(text)
}
