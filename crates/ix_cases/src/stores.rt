//! The store of an example, and CARv1 files.

use crate::example::Example;
use anyhow::{Error, Result, bail};
use ix_case_formats::cids::cid_of;
use ix_case_formats::texts::{bytes_of_hex, hex_of, two_words};
use ix_sections::{CarFault, read_car};
use ix_store::Store;
use std::alloc::Global;

/// `add CID HEX = true` or `false`
pub fn add(alloc: Global, store: &mut Store, input: &str) -> Result<String> {
    let (cid, block) = two_words(input)?;
    let added = store.add(cid_of(alloc, cid)?, bytes_of_hex(alloc, block)?)?;
    added.to_string(alloc).map_err(Error::from)
}

/// `add_copy CID HEX = true` or `false`
pub fn add_copy(alloc: Global, store: &mut Store, input: &str) -> Result<String> {
    let (cid, block) = two_words(input)?;
    let block = bytes_of_hex(alloc, block)?;
    let added = store.add_copy(cid_of(alloc, cid)?, block.as_slice())?;
    added.to_string(alloc).map_err(Error::from)
}

/// `find CID = PLACE` or `none`, which a search near any place gives too
pub fn find(alloc: Global, store: &Store, input: &str) -> Result<String> {
    match found(alloc, store, input)? {
        Some(place) => place.to_string(alloc),
        None => String::from_str(alloc, "none"),
    }
    .map_err(Error::from)
}

// The place of a CID, which a search near any place has to give too.
fn found(alloc: Global, store: &Store, cid: &str) -> Result<Option<usize>> {
    let cid = cid_of(alloc, cid)?;
    let found = store.find(&cid);
    if store.find_near(None, &cid) != found || store.find_near(Some(0), &cid) != found {
        bail!("a search near a place differs");
    }
    Ok(found)
}

/// `bytes PLACE = HEX` or `none`
pub fn bytes(alloc: Global, store: &Store, input: &str) -> Result<String> {
    let place = input.parse::<usize>()?;
    if place < store.len() {
        hex_of(alloc, store.bytes(place))
    } else {
        String::from_str(alloc, "none").map_err(Error::from)
    }
}

/// `blocks = COUNT`, where no block is an empty store
pub fn blocks(alloc: Global, store: &Store) -> Result<String> {
    if store.is_empty() {
        String::from_str(alloc, "none")
    } else {
        store.len().to_string(alloc)
    }
    .map_err(Error::from)
}

/// `settle = COUNT` of blocks whose verdicts are cached from here on
pub fn settle(alloc: Global, store: &mut Store) -> Result<String> {
    store.enable_memo()?;
    store.len().to_string(alloc).map_err(Error::from)
}

/// `found PLACE = AGREES FAULTY`: whether the block's hash matches its CID, and whether it doesn't decode; or `none`
pub fn found_of_block(alloc: Global, store: &Store, input: &str) -> Result<String> {
    let place = input.parse::<usize>()?;
    if place >= store.len() {
        return String::from_str(alloc, "none").map_err(Error::from);
    }
    let agrees = store.hash_matches(place);
    let is_malformed = store.is_malformed(place);
    format!(in alloc; "{agrees} {is_malformed}").map_err(Error::from)
}

/// `car HEX = COUNT` of blocks, which are the store after it, or `KIND at PLACE`; `car = ..` reads
/// the example's own file
pub fn car(alloc: Global, example: &mut Example, input: &str) -> Result<String> {
    let bytes = car_bytes(alloc, example, input)?;
    match read_car(alloc, bytes.as_slice()) {
        Ok(read) => {
            let count = read.len();
            example.store = read;
            count.to_string(alloc).map_err(Error::from)
        }
        Err(fault) => text_of_fault(alloc, fault),
    }
}

// The bytes of a CARv1 file in hex, or of the example's own file.
fn car_bytes(alloc: Global, example: &Example, input: &str) -> Result<Vec<u8>> {
    if input.is_empty() {
        example.car()
    } else {
        bytes_of_hex(alloc, input)
    }
}

/// `KIND at PLACE`
pub fn text_of_fault(alloc: Global, fault: CarFault) -> Result<String> {
    let kind = fault.kind;
    let place = fault.place;
    format!(in alloc; "{kind} at {place}").map_err(Error::from)
}
