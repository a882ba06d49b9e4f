//! The front of an item, read in place.

ghost use Rattle.std.specs.Prelude.{IfOk};
ghost use Rattle.ix_cbor.specs.Reading.{own_at, key_at};
ghost use Rattle.ix_cbor.specs.Fronts.{HasCid, Answers};
ghost use Rattle.ix_cbor.specs.Views.{front_and_rest, key_bytes, string_and_rest};

use crate::fault::CborFault;
use crate::head::key;
use crate::leaf::front_of_item;

/// The front of an item: what its own head and string say (RFC 8949 section 3), before any element
/// of it is read. Nothing is copied.
#[derive(Debug, Clone, Copy)]
pub enum Front<'a> {
    /// The null value.
    Null,
    /// A boolean.
    Bool(bool),
    /// An integer from -2^64 to 2^64 - 1.
    Int(i128),
    /// A finite float of 64 bits, as its bits.
    Bits64(u64),
    /// A byte string.
    Bytes(&'a [u8]),
    /// A text string as its bytes, which are not checked for UTF-8.
    Text(&'a [u8]),
    /// A link, as the bytes of its CID.
    Link(&'a [u8]),
    /// A list of so many elements, which follow.
    List(u64),
    /// A map of so many entries, which follow.
    Map(u64),
}

/// Reads the front of the item that begins here, and returns the bytes after it. The offset of an
/// error is counted from here, and is that of the item, or the length of the bytes for `Truncated`.
pub fn read_front(bytes: &[u8]) -> Result<(Front<'_>, &[u8]), CborFault>
    ensures exact { Answers front_and_rest bytes.now result (own_at bytes.now) }
    ensures cid { IfOk result (λ r. HasCid r.0) }
{
    match front_of_item(bytes) {
        Ok(read) => Ok(read),
        Err(fault) => Err(fault.within(bytes)),
    }
}

/// Reads the key of a map that begins here and is above the one before it; returns its bytes and
/// the bytes after it. The offset of an error is counted as in `read_front`.
pub fn read_key<'a>(
    before: Option<&'a [u8]>,
    bytes: &'a [u8],
) -> Result<(&'a [u8], &'a [u8]), CborFault>
    ensures { Answers string_and_rest bytes.now result (key_at (key_bytes before.entry) bytes.now) }
{
    match key(before, bytes) {
        Ok(read) => Ok(read),
        Err(fault) => Err(fault.within(bytes)),
    }
}
