//! Heads and strings, read in place (RFC 8949 section 3).

ghost use Rattle.std.specs.Prelude.{◌≡◌, ◌++◌, OnOk, OnErr};
ghost use Rattle.ix_cbor.specs.Spelling.{head_of, key_cmp};
ghost use Rattle.ix_cbor.specs.Reading.{take_at, argument_at, string_at, rises, key_text_at, key_at};
ghost use Rattle.ix_cbor.specs.Majors.{number_of};
ghost use Rattle.ix_cbor.specs.Widths.{argument_in};
ghost use Rattle.ix_cbor.specs.Answered.{Reads};
ghost use Rattle.ix_cbor.specs.Views.{key_bytes, string_and_rest};

use crate::fault::CborKind;
use crate::information::{IN_1_BYTE, IN_2_BYTES, IN_4_BYTES, IN_8_BYTES, OPEN, information_of};
use crate::major::Major;
use crate::read::PlacedFault;
use crate::width::Width;
use std::alloc::AllocError;
use std::cmp::Ordering;

// Returns the argument in so many bytes. Fails if a shorter form would do.
fn wide<'a>(at: &'a [u8], width: Width, bytes: &'a [u8]) -> Result<(u64, &'a [u8]), PlacedFault>
    ensures { Reads (λ r. (r.0, r.1.now)) result (argument_in at.now width bytes.now) }
{
    if bytes.len() < width.len() {
        return Err(PlacedFault::at_end());
    }
    let (front, rest) = bytes.split_at(width.len());
    let number = width.number(front);
    if number < width.least() {
        return Err(PlacedFault::at(CborKind::NotShortest, at));
    }
    Ok((number, rest))
}

// Returns the argument of the head at a position, from the information in its first byte and the
// bytes after that.
pub(crate) fn argument<'a>(
    at: &'a [u8],
    information: u8,
    bytes: &'a [u8],
) -> Result<(u64, &'a [u8]), PlacedFault>
    ensures { Reads (λ r. (r.0, r.1.now)) result (argument_at at.now information bytes.now) }
{
    match information {
        0..=23 => Ok((u64::from(information), bytes)),
        IN_1_BYTE => wide(at, Width::One, bytes),
        IN_2_BYTES => wide(at, Width::Two, bytes),
        IN_4_BYTES => wide(at, Width::Four, bytes),
        IN_8_BYTES => wide(at, Width::Eight, bytes),
        OPEN => Err(PlacedFault::at(CborKind::Indefinite, at)),
        _ => Err(PlacedFault::at(CborKind::NotShortest, at)),
    }
}

// Returns `count` bytes, and those after them.
pub(crate) fn take(count: u64, bytes: &[u8]) -> Result<(&[u8], &[u8]), PlacedFault>
    ensures { Reads string_and_rest result (take_at count bytes.now) }
{
    if (bytes.len() as u64) < count {
        return Err(PlacedFault::at_end());
    }
    Ok(bytes.split_at(count as usize))
}

// Returns as many bytes as the argument says.
pub(crate) fn string<'a>(
    at: &'a [u8],
    information: u8,
    bytes: &'a [u8],
) -> Result<(&'a [u8], &'a [u8]), PlacedFault>
    ensures { Reads string_and_rest result (string_at at.now information bytes.now) }
{
    let (count, rest) = argument(at, information, bytes)?;
    take(count, rest)
}

// Returns the bytes of the text string that a key must be.
fn key_text(bytes: &[u8]) -> Result<(&[u8], &[u8]), PlacedFault>
    ensures { Reads string_and_rest result (key_text_at bytes.now) }
{
    match bytes {
        [] => Err(PlacedFault::at_end()),
        [head, rest @ ..] if Major::of(*head) == Major::Text => {
            string(bytes, information_of(*head), rest)
        }
        _ => Err(PlacedFault::at(CborKind::KeyKind, bytes)),
    }
}

/// Compares keys of a map (DAG-CBOR; RFC 8949 section 4.2.3): the shorter key first, keys of one
/// length by their bytes.
pub fn compare_keys(before: &[u8], key: &[u8]) -> Ordering
    ensures { result ≡ key_cmp before.now key.now }
{
    before.len().cmp(&key.len()).then_with(|| before.cmp(key))
}

// Whether a key is above the one before it.
fn is_above(before: Option<&[u8]>, key: &[u8]) -> bool
    ensures { result ≡ rises (key_bytes before.entry) key.now }
{
    match before {
        None => true,
        Some(last) => compare_keys(last, key).is_lt(),
    }
}

// Reads a key, which is above the one before it.
pub(crate) fn key<'a>(
    before: Option<&'a [u8]>,
    bytes: &'a [u8],
) -> Result<(&'a [u8], &'a [u8]), PlacedFault>
    ensures { Reads string_and_rest result (key_at (key_bytes before.entry) bytes.now) }
{
    let (text, rest) = key_text(bytes)?;
    if !is_above(before, text) {
        return Err(PlacedFault::at(CborKind::KeyOrder, bytes));
    }
    Ok((text, rest))
}

/// Appends a head: a major type, and an argument in its shortest form. An error changes nothing.
pub fn push_head(out: &mut Vec<u8>, major: Major, argument: u64) -> Result<(), AllocError>
    ensures ok { OnOk result (out.new.items ≡ out.old.items ++ head_of (number_of major) argument) }
    ensures err { OnErr result (out.new.items ≡ out.old.items) }
{
    match argument {
        0..=23 => out.extend_from_slice(&[major.with(argument as u8)]),
        24..=0xff => out.extend_from_slice(&[major.with(IN_1_BYTE), argument as u8]),
        0x100..=0xffff => {
            let [a, b] = (argument as u16).to_be_bytes();
            out.extend_from_slice(&[major.with(IN_2_BYTES), a, b])
        }
        0x1_0000..=0xffff_ffff => {
            let [a, b, c, d] = (argument as u32).to_be_bytes();
            out.extend_from_slice(&[major.with(IN_4_BYTES), a, b, c, d])
        }
        _ => {
            let [a, b, c, d, e, f, g, h] = argument.to_be_bytes();
            out.extend_from_slice(&[major.with(IN_8_BYTES), a, b, c, d, e, f, g, h])
        }
    }
}
