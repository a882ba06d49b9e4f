//! Varints and CIDs.

use crate::texts::{bytes_of_hex, hex_of, two_words};
use anyhow::{Error, Result, bail, ensure};
use ix_cid::{Cid, push_varint, read_varint};
use std::alloc::{AllocError, Global};
use std::cmp::Ordering;
use std::hash::{BuildHasher, BuildHasherDefault, FoldHasher};
use std::sync::Arc;

/// The CID that bytes in hex are.
pub fn cid_of(alloc: Global, text: &str) -> Result<Cid> {
    let bytes = bytes_of_hex(alloc, text)?;
    whole_cid(alloc, bytes.as_slice(), text)
}

// The CID that bytes are, which have this text.
fn whole_cid(alloc: Global, bytes: &[u8], text: &str) -> Result<Cid> {
    match Cid::read(alloc, bytes) {
        Ok((_, length)) if length < bytes.len() => bail!("bytes follow the CID {text}"),
        Ok((cid, _)) => Ok(cid),
        Err(fault) => bail!("{text} is no CID: {fault}"),
    }
}

/// The CIDs that bytes in hex are, with a comma between; `-` is none.
pub fn cids_of(alloc: Global, texts: &str) -> Result<Vec<Cid>> {
    let mut cids = Vec::new(alloc);
    if texts == "-" {
        return Ok(cids);
    }
    for text in texts.split(',') {
        cids.push(cid_of(alloc, text)?)?;
    }
    Ok(cids)
}

/// The texts of CIDs, with a comma between.
pub fn text_of_cids(alloc: Global, cids: &[Cid]) -> Result<String, AllocError> {
    let mut texts = Vec::new(alloc);
    for cid in cids {
        texts.push(cid.text(alloc)?)?;
    }
    texts.join(alloc, ",")
}

/// CIDs in hex, with a comma between.
pub fn hex_of_cids(alloc: Global, cids: &[Cid]) -> Result<String> {
    let mut texts = Vec::new(alloc);
    for cid in cids {
        texts.push(hex_of(alloc, cid.as_bytes())?)?;
    }
    texts.join(alloc, ",").map_err(Error::from)
}

/// `varint HEX = NUMBER LENGTH`
pub fn varint(alloc: Global, input: &str) -> Result<String> {
    let bytes = bytes_of_hex(alloc, input)?;
    match read_varint(bytes.as_slice()) {
        Ok((number, length)) => format!(in alloc; "{number} {length}").map_err(Error::from),
        Err(fault) => format!(in alloc; "{fault:?}").map_err(Error::from),
    }
}

/// `push_varint NUMBER NUMBER.. = HEX`
pub fn pushed_varints(alloc: Global, input: &str) -> Result<String> {
    let mut out = Vec::new(alloc);
    for number in input.split_whitespace() {
        let number = number.parse::<u64>()?;
        if number >= 1 << 63 {
            bail!("no varint has this number");
        }
        push_varint(&mut out, number)?;
    }
    hex_of(alloc, out.as_slice())
}

/// `cid HEX = VERSION CODEC HASH_CODE DIGEST LENGTH`
pub fn cid(alloc: Global, input: &str) -> Result<String> {
    let bytes = bytes_of_hex(alloc, input)?;
    match Cid::read(alloc, bytes.as_slice()) {
        Ok((cid, length)) => parts_of(alloc, bytes.as_slice(), &cid, length),
        Err(fault) => fault.to_string(alloc).map_err(Error::from),
    }
}

/// `cid_within START HEX = VERSION CODEC HASH_CODE DIGEST LENGTH`
pub fn cid_within(alloc: Global, input: &str) -> Result<String> {
    let (start, text) = two_words(input)?;
    let start = start.parse::<usize>()?;
    let bytes = Arc::new(alloc, bytes_of_hex(alloc, text)?)?;
    match Cid::read_within(alloc, &bytes, start) {
        Ok((cid, length)) => {
            let (_, behind) = bytes.split_at(start.min(bytes.len()));
            parts_of(alloc, behind, &cid, length)
        }
        Err(fault) => fault.to_string(alloc).map_err(Error::from),
    }
}

// The parts of a CID that was read, and its length.
fn parts_of(alloc: Global, bytes: &[u8], cid: &Cid, length: usize) -> Result<String> {
    ensure!(
        cid.as_bytes().len() == length && bytes.starts_with(cid.as_bytes()),
        "the bytes are others"
    );
    ensure!(is_copied(alloc, cid)?, "a copy is another");
    let version = cid.version();
    let codec = cid.codec();
    let hash_code = cid.hash_code();
    let digest = hex_of(alloc, cid.digest())?;
    format!(in alloc; "{version} {codec} {hash_code} {digest} {length}").map_err(Error::from)
}

// Whether a copy of a CID is equal to it.
fn is_copied(alloc: Global, cid: &Cid) -> Result<bool, AllocError> {
    let copy = cid.try_clone(alloc)?;
    Ok(copy == *cid)
}

/// `cids HEX HEX = less`, `equal` or `greater`, by each comparison and by the hashes
pub fn compared_cids(alloc: Global, input: &str) -> Result<String> {
    let (first, second) = two_words(input)?;
    let first = cid_of(alloc, first)?;
    let order = order_of_word(alloc, &first, second)?;
    String::from_str(alloc, word_of(order)).map_err(Error::from)
}

// The order of a CID and one in hex.
fn order_of_word(alloc: Global, first: &Cid, second: &str) -> Result<Option<Ordering>> {
    let second = cid_of(alloc, second)?;
    Ok(order_of(first, &second))
}

// The word of an order on which all comparisons agree.
fn word_of(order: Option<Ordering>) -> &'static str {
    match order {
        Some(Ordering::Less) => "less",
        Some(Ordering::Equal) => "equal",
        Some(Ordering::Greater) => "greater",
        None => "two comparisons differ",
    }
}

// The order of two CIDs, where all comparisons and the hashes agree.
fn order_of(first: &Cid, second: &Cid) -> Option<Ordering> {
    let order = first.cmp(second);
    let agrees = second.cmp(first) == order.reverse()
        && first.partial_cmp(second) == Some(order)
        && (*first < *second) == (order == Ordering::Less)
        && (*first == *second) == (order == Ordering::Equal)
        && have_one_hash(first, second) == (order == Ordering::Equal);
    if agrees { Some(order) } else { None }
}

// Whether the hashes of two CIDs are equal.
fn have_one_hash(first: &Cid, second: &Cid) -> bool {
    let hashing = BuildHasherDefault::<FoldHasher>::new();
    hashing.hash_one(first) == hashing.hash_one(second)
}

/// `text HEX = TEXT`
pub fn text(alloc: Global, input: &str) -> Result<String> {
    Ok(cid_of(alloc, input)?.text(alloc)?)
}

/// `from_text TEXT = HEX`
pub fn cid_of_text(alloc: Global, input: &str) -> Result<String> {
    match Cid::from_text(alloc, input) {
        Ok(cid) => hex_of(alloc, cid.as_bytes()),
        Err(fault) => fault.to_string(alloc).map_err(Error::from),
    }
}

/// `any_text TEXT = TEXT` in base32, or of a CIDv0 as reports print it, or the error
pub fn cid_of_any_text(alloc: Global, input: &str) -> Result<String> {
    match ix_cid_text::parse(alloc, input) {
        Ok(cid) => cid.text(alloc).map_err(Error::from),
        Err(fault) => fault.to_string(alloc).map_err(Error::from),
    }
}

/// `locate TEXT = CID PATH END`
pub fn located(alloc: Global, input: &str) -> Result<String> {
    let place = ix_cid_text::locate(input);
    format!(in alloc; "{} {} {}", place.cid, place.path, place.end).map_err(Error::from)
}
