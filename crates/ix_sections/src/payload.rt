//! The part of a file that is a CARv1 file: the whole, or the payload of a CARv2 file.

ghost use Rattle.std.specs.Prelude.{◌≡◌, ◌≤◌, ◌+◌, length, true, false, IfOk};
ghost use Rattle.ix_sections.specs.Gives.{Gives};
ghost use Rattle.ix_sections.specs.Payload.{IsWithin, has_index, is_carv2, number_at, payload_in, payload_of};

use crate::fault::{CarFault, CarKind};

// What a CARv2 file begins with: the header of a CARv1 file of version 2, after its length.
const PRAGMA: [u8; 11] = *b"\x0a\xa1gversion\x02";

// Where its own header begins and ends: characteristics, then offset and size of the payload and offset
// of the index.
const HEADER: usize = PRAGMA.len();

const HEADER_END: usize = HEADER + 40;

/// Where the CARv1 file in a file begins and ends.
#[derive(Debug, Drop, Clone, Copy, PartialEq, Eq)]
pub struct Payload {
    /// The offset of its first byte.
    pub start: usize,
    /// The offset after its last byte.
    pub end: usize,
}

/// Returns whether a file is a CARv2 file: whether it begins with the pragma.
pub fn is_carv2(bytes: &[u8]) -> bool
    ensures { result ≡ is_carv2 bytes.now }
{
    bytes.starts_with(&PRAGMA)
}

/// Returns where the CARv1 file in a file begins and ends: of a CARv2 file its payload, else the whole.
///
/// A CARv2 file has a pragma of 11 bytes and a header of 40, with the offset and the size of the payload
/// at 27 and 35, in eight bytes each, the least significant first. The characteristics and the index are
/// ignored. The errors of the header, all at its offset, 11: the file ends in it, or before the end of the
/// payload: `Truncated`; the payload begins in it: `Header`.
pub fn payload_of(bytes: &[u8]) -> Result<Payload, CarFault>
    ensures gives { Gives (λ payload. (payload.start, payload.end)) bytes.now result (payload_of bytes.now) }
    ensures within { IfOk result (λ payload. IsWithin payload bytes.now) }
{
    if is_carv2(bytes) {
        payload_in(bytes)
    } else {
        Ok(Payload {
            start: 0,
            end: bytes.len(),
        })
    }
}

/// Returns whether a CARv2 file has an index. Its header is whole.
pub fn has_index(bytes: &[u8]) -> bool
    requires { 51 ≤ length bytes.now }
    ensures { result ≡ has_index bytes.now }
{
    number_at(bytes, 43) != 0
}

// Returns where the payload of a CARv2 file begins and ends.
fn payload_in(bytes: &[u8]) -> Result<Payload, CarFault>
    requires { 11 ≤ length bytes.now }
    ensures gives { Gives (λ payload. (payload.start, payload.end)) bytes.now result (payload_in bytes.now) }
    ensures within { IfOk result (λ payload. IsWithin payload bytes.now) }
{
    if bytes.len() < HEADER_END {
        return Err(in_header(CarKind::Truncated));
    }
    let start = number_at(bytes, 27);
    let size = number_at(bytes, 35);
    if start < HEADER_END as u64 {
        return Err(in_header(CarKind::Header));
    }
    match start.checked_add(size) {
        Some(end) if end <= bytes.len() as u64 => Ok(Payload {
            start: start as usize,
            end: end as usize,
        }),
        _ => Err(in_header(CarKind::Truncated)),
    }
}

// Returns the error of a CARv2 header.
fn in_header(kind: CarKind) -> CarFault
    ensures { result ≡ record { kind = kind; place = 11 } }
{
    CarFault {
        kind,
        place: HEADER,
    }
}

// Returns the number in the eight bytes at an offset, the least significant first.
fn number_at(bytes: &[u8], place: usize) -> u64
    requires { place + 8 ≤ length bytes.now }
    ensures { result ≡ number_at place bytes.now }
{
    let mut number = [0u8; 8];
    number.copy_from_slice(&bytes[place..place + 8]);
    u64::from_le_bytes(number)
}
