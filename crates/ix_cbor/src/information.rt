//! The additional information in a head's first byte (RFC 8949 section 3).

ghost use Rattle.std.specs.Prelude.{◌≡◌, ◌%◌};

// The argument is after the first byte, in so many bytes.
pub(crate) const IN_1_BYTE: u8 = 24;

pub(crate) const IN_2_BYTES: u8 = 25;

pub(crate) const IN_4_BYTES: u8 = 26;

pub(crate) const IN_8_BYTES: u8 = 27;

// An indefinite length (RFC 8949 section 3.2).
pub(crate) const OPEN: u8 = 31;

// In a head of major type 7 (RFC 8949 section 3.3): simple values, and floats of so many bits.
pub(crate) const FALSE: u8 = 20;

pub(crate) const TRUE: u8 = 21;

pub(crate) const NULL: u8 = 22;

pub(crate) const FLOAT_16: u8 = 25;

pub(crate) const FLOAT_32: u8 = 26;

pub(crate) const FLOAT_64: u8 = 27;

// The tag of a link (DAG-CBOR).
pub(crate) const LINK: u64 = 42;

// Returns the additional information of a head's first byte: its lower five bits.
pub(crate) fn information_of(head: u8) -> u8
    ensures { result ≡ head % 32 }
{
    head % 32
}
