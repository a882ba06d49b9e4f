//! What an item is by its own head.

ghost use Rattle.std.specs.Prelude.{◌≡◌, IfOk};
ghost use Rattle.ix_cbor.specs.Data.{float, link};
ghost use Rattle.ix_cbor.specs.Reading.{tag_content_at, float_at, is_cid, link_of, link_at, own_after, own_at};
ghost use Rattle.ix_cbor.specs.Majors.{number_of};
ghost use Rattle.ix_cbor.specs.Fronts.{HasCid};
ghost use Rattle.ix_cbor.specs.Answered.{Reads};
ghost use Rattle.ix_cbor.specs.Views.{front_and_rest, string_and_rest};

use crate::canonical::is_finite;
use crate::fault::CborKind;
use crate::front::Front;
use crate::head::{argument, string, take};
use crate::information::{
    FALSE, FLOAT_16, FLOAT_32, FLOAT_64, LINK, NULL, OPEN, TRUE, information_of,
};
use crate::major::Major;
use crate::read::PlacedFault;
use crate::width::u64_of;
use ix_cid::Cid;

// Returns the bits of a finite float.
fn float_bits<'a>(at: &'a [u8], bytes: &'a [u8]) -> Result<(u64, &'a [u8]), PlacedFault>
    ensures { Reads (λ r. (float r.0, r.1.now)) result (float_at at.now bytes.now) }
{
    if bytes.len() < 8 {
        return Err(PlacedFault::at_end());
    }
    let (front, rest) = bytes.split_at(8);
    let bits = u64_of(front);
    if !is_finite(bits) {
        return Err(PlacedFault::at(CborKind::Float, at));
    }
    Ok((bits, rest))
}

// Reads a boolean, null or a float, by the information in a head of major type 7.
fn simple<'a>(
    at: &'a [u8],
    information: u8,
    bytes: &'a [u8],
) -> Result<(Front<'a>, &'a [u8]), PlacedFault>
    ensures { Reads front_and_rest result (own_after at.now 7 information bytes.now) }
{
    match information {
        FALSE => Ok((Front::Bool(false), bytes)),
        TRUE => Ok((Front::Bool(true), bytes)),
        NULL => Ok((Front::Null, bytes)),
        FLOAT_16 | FLOAT_32 => Err(PlacedFault::at(CborKind::Float, at)),
        FLOAT_64 => {
            let (bits, rest) = float_bits(at, bytes)?;
            Ok((Front::Bits64(bits), rest))
        }
        OPEN => Err(PlacedFault::at(CborKind::Indefinite, at)),
        _ => Err(PlacedFault::at(CborKind::Simple, at)),
    }
}

// Returns the byte string in a tag.
fn tag_content<'a>(at: &'a [u8], bytes: &'a [u8]) -> Result<(&'a [u8], &'a [u8]), PlacedFault>
    ensures { Reads string_and_rest result (tag_content_at at.now bytes.now) }
{
    match bytes {
        [] => Err(PlacedFault::at_end()),
        [head, rest @ ..] if Major::of(*head) == Major::Bytes => {
            string(bytes, information_of(*head), rest)
        }
        _ => Err(PlacedFault::at(CborKind::Link, at)),
    }
}

// Whether bytes are one whole CID.
fn is_cid(bytes: &[u8]) -> bool
    ensures { result ≡ is_cid bytes.now }
{
    match Cid::length_at(bytes) {
        Ok(length) => length == bytes.len(),
        Err(_) => false,
    }
}

// Returns the bytes of the CID in a tag's content, after a `00`.
fn cid_in<'a>(
    at: &'a [u8],
    content: &'a [u8],
    rest: &'a [u8],
) -> Result<(&'a [u8], &'a [u8]), PlacedFault>
    ensures { Reads (λ r. (link r.0.now, r.1.now)) result (link_of at.now (content.now, rest.now)) }
{
    match content {
        [0, cid @ ..] if is_cid(cid) => Ok((cid, rest)),
        _ => Err(PlacedFault::at(CborKind::Link, at)),
    }
}

// Reads a link, by its tag.
fn tagged<'a>(at: &'a [u8], tag: u64, bytes: &'a [u8]) -> Result<(&'a [u8], &'a [u8]), PlacedFault>
    ensures { Reads (λ r. (link r.0.now, r.1.now)) result (link_at at.now tag bytes.now) }
{
    if tag != LINK {
        return Err(PlacedFault::at(CborKind::Tag, at));
    }
    let (content, rest) = tag_content(at, bytes)?;
    cid_in(at, content, rest)
}

// Returns what an item with this major type and information in its first byte is.
fn of_major<'a>(
    at: &'a [u8],
    major: Major,
    information: u8,
    bytes: &'a [u8],
) -> Result<(Front<'a>, &'a [u8]), PlacedFault>
    ensures { Reads front_and_rest result (own_after at.now (number_of major) information bytes.now) }
{
    if let Major::Simple = major {
        return simple(at, information, bytes);
    }
    let (argument, rest) = argument(at, information, bytes)?;
    match major {
        Major::Unsigned => Ok((Front::Int(i128::from(argument)), rest)),
        Major::Negative => Ok((Front::Int(-1 - i128::from(argument)), rest)),
        Major::Bytes => {
            let (string, rest) = take(argument, rest)?;
            Ok((Front::Bytes(string), rest))
        }
        Major::Text => {
            let (string, rest) = take(argument, rest)?;
            Ok((Front::Text(string), rest))
        }
        Major::List => Ok((Front::List(argument), rest)),
        Major::Map => Ok((Front::Map(argument), rest)),
        Major::Tag | Major::Simple => {
            let (cid, rest) = tagged(at, argument, rest)?;
            Ok((Front::Link(cid), rest))
        }
    }
}

// Runs the tests at one item, before any element of it is read.
pub(crate) fn front_of_item(bytes: &[u8]) -> Result<(Front<'_>, &[u8]), PlacedFault>
    ensures exact { Reads front_and_rest result (own_at bytes.now) }
    ensures cid { IfOk result (λ r. HasCid r.0) }
{
    match bytes {
        [] => Err(PlacedFault::at_end()),
        [head, rest @ ..] => of_major(bytes, Major::of(*head), information_of(*head), rest),
    }
}
