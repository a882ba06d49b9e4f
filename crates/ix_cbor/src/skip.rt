//! Skipping items, without a tree.

ghost use Rattle.std.specs.Prelude.{None};
ghost use Rattle.ix_cbor.specs.Reading.{◌>>=◌ as ◌then◌, item_with, branch_at, members_at, fields_at};
ghost use Rattle.ix_cbor.specs.Fronts.{Answers, behind, after_item, judged};
ghost use Rattle.ix_cbor.specs.Answered.{Reads};

use crate::canonical::LEVELS;
use crate::fault::{CborFault, CborKind};
use crate::front::Front;
use crate::head::key;
use crate::leaf::front_of_item;
use crate::read::PlacedFault;

// Returns the bytes after one item where no list or map is allowed.
fn after_leaf(bytes: &[u8]) -> Result<&[u8], PlacedFault>
    ensures { Reads (λ r. r.now) result (item_with None bytes.now then behind) }
{
    let (front, rest) = front_of_item(bytes)?;
    match front {
        Front::List(_) | Front::Map(_) => Err(PlacedFault::at(CborKind::Nesting, bytes)),
        _ => Ok(rest),
    }
}

// Returns the bytes after one item where a list or map is allowed, in which others nest so deep.
#[cycle(after_item)]
fn after_branch(bytes: &[u8], levels: u32) -> Result<&[u8], PlacedFault>
    ensures { Reads (λ r. r.now) result (branch_at levels bytes.now then behind) }
{
    let (front, rest) = front_of_item(bytes)?;
    match front {
        Front::List(count) => after_items(rest, count, levels),
        Front::Map(count) => after_entries(rest, count, levels),
        _ => Ok(rest),
    }
}

// Returns the bytes after one item in which lists and maps may nest so deep.
#[cycle(after_item)]
fn after_item(bytes: &[u8], levels: u32) -> Result<&[u8], PlacedFault>
    ensures { Reads (λ r. r.now) result (after_item levels bytes.now) }
{
    if levels == 0 {
        after_leaf(bytes)
    } else {
        after_branch(bytes, levels - 1)
    }
}

// Returns the bytes after `count` elements of a list, in which lists and maps may nest so deep.
#[cycle(after_item)]
fn after_items(bytes: &[u8], count: u64, levels: u32) -> Result<&[u8], PlacedFault>
    ensures { Reads (λ r. r.now) result (members_at levels count bytes.now then behind) }
{
    let mut rest = bytes;
    for _ in 0..count {
        rest = after_item(rest, levels)?;
    }
    Ok(rest)
}

// Returns the bytes after `count` entries of a map, in which lists and maps may nest so deep.
#[cycle(after_item)]
fn after_entries(bytes: &[u8], count: u64, levels: u32) -> Result<&[u8], PlacedFault>
    ensures { Reads (λ r. r.now) result (fields_at levels count bytes.now then behind) }
{
    let mut rest = bytes;
    let mut before = None;
    for _ in 0..count {
        let (name, value) = key(before, rest)?;
        rest = after_item(value, levels)?;
        before = Some(name);
    }
    Ok(rest)
}

/// Returns the bytes after the item that begins here, in which lists and maps nest at most 512
/// deep. The offset of an error is counted from here, and means what that of `decode` does.
pub fn skip_item(bytes: &[u8]) -> Result<&[u8], CborFault>
    ensures { Answers (λ r. r.now) bytes.now result (after_item 512 bytes.now) }
{
    match after_item(bytes, LEVELS) {
        Ok(rest) => Ok(rest),
        Err(fault) => Err(fault.within(bytes)),
    }
}

/// Checks whether a block decodes (DAG-CBOR, RFC 8949). The errors are those of `decode`, except
/// for `Memory`: this allocates nothing.
pub fn check(bytes: &[u8]) -> Result<(), CborFault>
    ensures { Answers (λ _. tt) bytes.now result (judged bytes.now) }
{
    match after_item(bytes, LEVELS) {
        Ok([]) => Ok(()),
        Ok(rest) => Err(PlacedFault::at(CborKind::Rest, rest).within(bytes)),
        Err(fault) => Err(fault.within(bytes)),
    }
}
