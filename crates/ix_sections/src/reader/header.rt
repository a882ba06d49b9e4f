//! Reading the header of a CARv1 file in place.
//!
//! A header is read without a tree of it: it is traversed once to check that it decodes, and then
//! its entries are passed over up to those that are wanted. So a key that is ignored takes no
//! memory, however long its value.

ghost use Rattle.std.specs.Prelude.{◌≡◌, ◌<◌, ◌≤◌, ◌++◌, length, option_map, Option, IfOk, IfErr, OnOk, Some};
ghost use Rattle.ix_cbor.specs.Data.{Data, Items, Entries, integer};
ghost use Rattle.ix_cbor.specs.Reading.{data_at};
ghost use Rattle.ix_cbor.specs.Fronts.{own_of_front, HasCid};
ghost use Rattle.ix_sections.specs.declared.fault.CarKind.TheVariants.{Memory};
ghost use Rattle.ix_sections.specs.Reading.{value_at, are_links, has_roots, version_fault, header_fault, header_at};
ghost use Rattle.ix_sections.specs.Reads.{ReadsFrom, IsEnd};
ghost use Rattle.ix_sections.specs.Sections.{links_in, links_of, roots_in, roots_of};
ghost use Rattle.ix_sections.specs.Standing.{StandsAt, EntriesAreAt, MembersAreAt, ValueIsAt, IsMapAt, IsListAt, integer_in, own_integer, own_map, own_list, own_is_link, own_links};

use crate::fault::CarKind;
use crate::reader::section::{FaultAt, text_at};
use ix_cbor::{Front, check, read_front, read_key, skip_item};
use ix_cid::{Cid, CidRef};
use std::alloc::{AllocError, Global};

// Returns the bytes after the header.
pub(super) fn header_at(bytes: &[u8]) -> Result<&[u8], FaultAt>
    ensures reads { ReadsFrom (λ rest. rest.now) header_at bytes.now result }
    ensures shorter { IfOk result (λ rest. length rest.now < length bytes.now) }
    ensures end { IfOk result (λ rest. IsEnd rest.now bytes.now) }
{
    let (text, rest) = text_at(bytes)?;
    match fault_of_header(text) {
        None => Ok(rest),
        Some(kind) => Err(FaultAt::at(kind, bytes)),
    }
}

// Returns what is wrong with a header, if anything.
fn fault_of_header(text: &[u8]) -> Option<CarKind>
    ensures { result ≡ header_fault (data_at text.now) }
{
    match check(text) {
        Ok(()) => fault_of_block(text),
        Err(_) => Some(CarKind::Header),
    }
}

// Does the same for a block that decodes.
fn fault_of_block(block: &[u8]) -> Option<CarKind>
    ensures { (d : Data) → StandsAt 512 block.now d → result ≡ header_fault (Some d) }
{
    let Some((count, entries)) = map_at(block) else {
        return Some(CarKind::Header);
    };
    let version = integer_at(value_at(b"version", count, entries));
    let has_roots = has_roots(value_at(b"roots", count, entries));
    fault_of_version(version, has_roots)
}

// Returns what is wrong with a header's version, or with its roots if the version is good.
fn fault_of_version(version: Option<i128>, has_roots: bool) -> Option<CarKind>
    ensures { result ≡ version_fault (option_map integer version) has_roots }
{
    let Some(version) = version else {
        return Some(CarKind::Header);
    };
    if version != 1 {
        Some(CarKind::Version(version))
    } else if has_roots {
        None
    } else {
        Some(CarKind::Header)
    }
}

// Returns how many entries a block that is a map has, and where the first begins.
fn map_at(block: &[u8]) -> Option<(u64, &[u8])>
    ensures { (d : Data) → StandsAt 512 block.now d → IsMapAt result d }
{
    let Ok((front, rest)) = read_front(block) else {
        return None;
    };
    match map_count(front) {
        Some(count) => Some((count, rest)),
        None => None,
    }
}

fn map_count(front: Front<'_>) -> Option<u64>
    ensures { result ≡ own_map (own_of_front front.entry) }
{
    match front {
        Front::Map(count) => Some(count),
        _ => None,
    }
}

// Returns where the value of a key begins, among `count` entries of a map.
fn value_at<'a>(key: &[u8], count: u64, entries: &'a [u8]) -> Option<&'a [u8]>
    ensures { (es : Entries) → EntriesAreAt count entries.now es
        → ValueIsAt result (value_at key.now es) }
{
    let mut rest = entries;
    let mut before = None;
    for _ in 0..count {
        let Ok((name, value)) = read_key(before, rest) else {
            return None;
        };
        if name == key {
            return Some(value);
        }
        let Ok(next) = skip_item(value) else {
            return None;
        };
        rest = next;
        before = Some(name);
    }
    None
}

// Returns the integer that a value is.
fn integer_at(value: Option<&[u8]>) -> Option<i128>
    ensures { (d : Option Data) → ValueIsAt value.entry d → result ≡ integer_in d }
{
    let Ok((front, _)) = read_front(value?) else {
        return None;
    };
    integer_of(front)
}

fn integer_of(front: Front<'_>) -> Option<i128>
    ensures { result ≡ own_integer (own_of_front front.entry) }
{
    match front {
        Front::Int(number) => Some(number),
        _ => None,
    }
}

// Whether a value is a list of links.
fn has_roots(value: Option<&[u8]>) -> bool
    ensures { (d : Option Data) → ValueIsAt value.entry d → result ≡ has_roots d }
{
    let Some(value) = value else {
        return false;
    };
    match list_at(value) {
        Some((count, members)) => are_links(count, members),
        None => false,
    }
}

// Returns how many elements a value that is a list has, and where the first begins.
fn list_at(value: &[u8]) -> Option<(u64, &[u8])>
    ensures { (d : Data) → StandsAt 511 value.now d → IsListAt result d }
{
    let Ok((front, rest)) = read_front(value) else {
        return None;
    };
    match list_count(front) {
        Some(count) => Some((count, rest)),
        None => None,
    }
}

fn list_count(front: Front<'_>) -> Option<u64>
    ensures { result ≡ own_list (own_of_front front.entry) }
{
    match front {
        Front::List(count) => Some(count),
        _ => None,
    }
}

// Whether each of `count` elements of a list is a link.
fn are_links(count: u64, members: &[u8]) -> bool
    ensures { (ds : Items) → MembersAreAt count members.now ds → result ≡ are_links ds }
{
    let mut rest = members;
    for _ in 0..count {
        let Ok((front, next)) = read_front(rest) else {
            return false;
        };
        if !is_link(front) {
            return false;
        }
        rest = next;
    }
    true
}

fn is_link(front: Front<'_>) -> bool
    ensures { result ≡ own_is_link (own_of_front front.entry) }
{
    matches!(front, Front::Link(_))
}

// Returns the roots of a file whose header is good.
pub(super) fn roots_at(alloc: Global, bytes: &[u8]) -> Result<Vec<Cid>, FaultAt>
    ensures roots { IfOk result (λ roots. roots.items ≡ roots_of bytes.now) }
    ensures memory { IfErr result (λ f. (f.kind ≡ Memory) × (f.left ≤ length bytes.now)) }
{
    let Ok((text, _)) = text_at(bytes) else {
        return Ok(Vec::new(alloc));
    };
    match roots_of_header(alloc, text) {
        Ok(roots) => Ok(roots),
        Err(_) => Err(FaultAt::at(CarKind::Memory, bytes)),
    }
}

// Returns the roots that a header names.
fn roots_of_header(alloc: Global, text: &[u8]) -> Result<Vec<Cid>, AllocError>
    ensures { IfOk result (λ roots. roots.items ≡ roots_in (data_at text.now)) }
{
    match check(text) {
        Ok(()) => roots_of_block(alloc, text),
        Err(_) => Ok(Vec::new(alloc)),
    }
}

// Does the same for a block that decodes.
fn roots_of_block(alloc: Global, block: &[u8]) -> Result<Vec<Cid>, AllocError>
    ensures { IfOk result
        (λ roots. (d : Data) → StandsAt 512 block.now d → roots.items ≡ roots_in (Some d)) }
{
    match map_at(block) {
        Some((count, entries)) => links_of(alloc, value_at(b"roots", count, entries)),
        None => Ok(Vec::new(alloc)),
    }
}

// Returns the CIDs of the links in a value that is a list.
fn links_of(alloc: Global, value: Option<&[u8]>) -> Result<Vec<Cid>, AllocError>
    ensures { IfOk result
        (λ links. (d : Option Data) → ValueIsAt value.entry d → links.items ≡ links_of d) }
{
    let Some(value) = value else {
        return Ok(Vec::new(alloc));
    };
    match list_at(value) {
        Some((count, members)) => links_in(alloc, count, members),
        None => Ok(Vec::new(alloc)),
    }
}

// Returns the CIDs of the links among `count` elements of a list.
fn links_in(alloc: Global, count: u64, members: &[u8]) -> Result<Vec<Cid>, AllocError>
    ensures { IfOk result
        (λ links. (ds : Items) → MembersAreAt count members.now ds → links.items ≡ links_in ds) }
{
    let mut links = Vec::new(alloc);
    let mut rest = members;
    for _ in 0..count {
        let Ok((front, _)) = read_front(rest) else {
            return Ok(links);
        };
        let Ok(next) = skip_item(rest) else {
            return Ok(links);
        };
        push_link(alloc, &mut links, front)?;
        rest = next;
    }
    Ok(links)
}

// Appends the CID of an item that is a link.
fn push_link(alloc: Global, links: &mut Vec<Cid>, front: Front<'_>) -> Result<(), AllocError>
    requires { HasCid front }
    ensures { OnOk result (links.new.items ≡ links.old.items ++ own_links (own_of_front front.entry)) }
{
    if let Front::Link(cid) = front {
        links.push(CidRef::of(cid).to_cid(alloc)?)?;
    }
    Ok(())
}
