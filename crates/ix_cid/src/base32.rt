//! Base32 (RFC 4648, section 6), in lower case and without padding.

ghost use Rattle.std.specs.Prelude.{◌≡◌, ◌≤◌, ◌%◌, ◌++◌, length, take, All, OnOk, SomeIff, string_bytes};
ghost use Rattle.ix_cid.specs.CidText.{letter, bits_of_letter, bits_of_letters, number_in, digits_in, quantum, base32_of, bytes_of_base32, appended, IsLetter};
ghost use Rattle.ix_cid.specs.Gives.{Gives};

use crate::fault::CidFault;
use std::alloc::{AllocError, Global};

/// Appends the base32 of some bytes.
pub fn append(text: &mut String, bytes: &[u8]) -> Result<(), AllocError>
    ensures { OnOk result (string_bytes text.new ≡ string_bytes text.old ++ base32_of bytes.now) }
{
    let mut rest = bytes;
    while !rest.is_empty() {
        let (front, behind) = rest.split_at(rest.len().min(5));
        push_quantum(text, front)?;
        rest = behind;
    }
    Ok(())
}

/// Decodes base32 letters to bytes.
pub fn decode(alloc: Global, letters: &[u8]) -> Result<Vec<u8>, CidFault>
    ensures { Gives (λ v. v.items) result (bytes_of_base32 letters.now) }
{
    let mut bytes = Vec::new(alloc);
    let mut rest = letters;
    while !rest.is_empty() {
        let (front, behind) = rest.split_at(rest.len().min(8));
        push_bytes(&mut bytes, front)?;
        rest = behind;
    }
    Ok(bytes)
}

// Appends the letters of at most five bytes.
fn push_quantum(text: &mut String, bytes: &[u8]) -> Result<(), AllocError>
    requires { length bytes.now ≤ 5 }
    ensures { OnOk result (string_bytes text.new ≡ string_bytes text.old ++ quantum bytes.now) }
{
    let bits = number_of_bytes(bytes) << (8 * (5 - bytes.len()));
    for place in 0..(8 * bytes.len() + 4) / 5 {
        text.push(letter_of(bits >> (35 - 5 * place)))?;
    }
    Ok(())
}

// Appends the bytes whose base32 at most eight letters are.
fn push_bytes(bytes: &mut Vec<u8>, letters: &[u8]) -> Result<(), CidFault>
    requires { length letters.now ≤ 8 }
    ensures { Gives (λ _. bytes.new.items) result (appended bytes.old.items (bytes_of_base32 letters.now)) }
{
    let Some(number) = number_of_letters(letters) else {
        return Err(CidFault::Base32);
    };
    let left_over = 5 * letters.len() % 8;
    if matches!(letters.len(), 1 | 3 | 6) || number % (1 << left_over) != 0 {
        return Err(CidFault::Base32);
    }
    push_front(
        bytes,
        number << (5 * (8 - letters.len())),
        5 * letters.len() / 8,
    )?;
    Ok(())
}

// Appends so many bytes, at most five, from the front of 40 bits.
fn push_front(bytes: &mut Vec<u8>, bits: u64, count: usize) -> Result<(), AllocError>
    requires { count ≤ 5 }
    ensures { OnOk result (bytes.new.items ≡ bytes.old.items ++ take count (digits_in 256 5 bits)) }
{
    for place in 0..count {
        bytes.push(((bits >> (32 - 8 * place)) % 256) as u8)?;
    }
    Ok(())
}

// Returns the number that at most five bytes spell.
fn number_of_bytes(bytes: &[u8]) -> u64
    requires { length bytes.now ≤ 5 }
    ensures { result ≡ number_in 256 0 bytes.now }
{
    let mut number = 0;
    for byte in bytes {
        number = number * 256 + u64::from(*byte);
    }
    number
}

// Returns the number that at most eight letters spell, if each is in the alphabet.
fn number_of_letters(letters: &[u8]) -> Option<u64>
    requires { length letters.now ≤ 8 }
    ensures { SomeIff result (All IsLetter letters.now) (bits_of_letters letters.now) }
{
    let mut number = 0;
    for letter in letters {
        number = number * 32 + bits_of(*letter)?;
    }
    Some(number)
}

// Returns the letter of the last five bits.
fn letter_of(bits: u64) -> char
    ensures { result ≡ letter (bits % 32) }
{
    let last = (bits % 32) as u8;
    char::from(if last < 26 {
        b'a' + last
    } else {
        b'2' + (last - 26)
    })
}

// Returns the five bits of a letter of the alphabet.
fn bits_of(letter: u8) -> Option<u64>
    ensures { SomeIff result (IsLetter letter) (bits_of_letter letter) }
{
    match letter {
        b'a'..=b'z' => Some(u64::from(letter - b'a')),
        b'2'..=b'7' => Some(u64::from(letter - b'2') + 26),
        _ => None,
    }
}
