//! The parts of `decode`.

ghost use Rattle.std.specs.Prelude.{◌≡◌, [], None, IfOk};
ghost use Rattle.ix_cid.specs.Cid.{IsCid};
ghost use Rattle.ix_cbor.specs.Data.{data_of, link};
ghost use Rattle.ix_cbor.specs.Reading.{own_at, item_with, item_at, branch_at, members_at, fields_at};
ghost use Rattle.ix_cbor.specs.Fronts.{own_of_front, HasCid};
ghost use Rattle.ix_cbor.specs.Answered.{ReadsOrRunsOut, own_of};
ghost use Rattle.ix_cbor.specs.Views.{entries_and_rest, members_and_rest, node_and_rest};

use crate::fault::{CborFault, CborKind};
use crate::front::Front;
use crate::head::key;
use crate::leaf::front_of_item;
use crate::node::Node;
use ix_cid::Cid;
use std::alloc::{AllocError, AllocFailed, Global};

// For how many elements memory is allocated before they are read.
const MOST_CLAIMED: u64 = 4;

// An error, and how many bytes there are from its offset to the end.
#[derive(Drop)]
pub(crate) struct PlacedFault {
    pub kind: CborKind,
    pub left: usize,
}

impl PlacedFault {
    ghost use Rattle.std.specs.Prelude.{◌≡◌, ◌≤◌, ◌-◌, length};
    ghost use Rattle.ix_cbor.specs.declared.fault.CborKind.TheVariants.{Truncated, Memory};

    // Returns an error at the front of these bytes.
    pub(crate) fn at(kind: CborKind, bytes: &[u8]) -> PlacedFault
        ensures { result ≡ record { kind = kind; left = length bytes.now } }
    {
        PlacedFault {
            kind,
            left: bytes.len(),
        }
    }

    // Returns the error of bytes that end too early.
    pub(crate) fn at_end() -> PlacedFault
        ensures { result ≡ record { kind = Truncated; left = 0 } }
    {
        PlacedFault {
            kind: CborKind::Truncated,
            left: 0,
        }
    }

    // Returns the same error, its offset counted from the start of these bytes.
    pub(crate) fn within(self, bytes: &[u8]) -> CborFault
        requires { self.left ≤ length bytes.now }
        ensures { result ≡ record { kind = self.kind; place = length bytes.now - self.left } }
    {
        CborFault {
            kind: self.kind,
            place: bytes.len() - self.left,
        }
    }

    // Returns the error of memory that ran out.
    pub(crate) fn memory() -> PlacedFault
        ensures { result ≡ record { kind = Memory; left = 0 } }
    {
        PlacedFault {
            kind: CborKind::Memory,
            left: 0,
        }
    }
}

impl From<AllocError> for PlacedFault {
    ghost use Rattle.std.specs.Prelude.{◌≡◌};
    ghost use Rattle.ix_cbor.specs.declared.fault.CborKind.TheVariants.{Memory};

    ghost from_gives = { λ _ e. e.kind ≡ Memory };

    fn from(_: AllocError) -> PlacedFault {
        PlacedFault::memory()
    }
}

impl<T: Drop> From<AllocFailed<T>> for PlacedFault {
    ghost use Rattle.std.specs.Prelude.{◌≡◌};
    ghost use Rattle.ix_cbor.specs.declared.fault.CborKind.TheVariants.{Memory};

    ghost from_gives = { λ _ e. e.kind ≡ Memory };

    fn from(_: AllocFailed<T>) -> PlacedFault {
        PlacedFault::memory()
    }
}

// What an item is by its own head.
#[derive(Drop)]
pub(crate) enum Own {
    Leaf(Node),
    ListOf(u64),
    MapOf(u64),
}

// Returns the node of a link.
fn link_node(alloc: Global, cid: &[u8]) -> Result<Node, AllocError>
    requires { IsCid cid.now }
    ensures { IfOk result (λ n. data_of n ≡ link cid.now) }
{
    match Cid::read(alloc, cid) {
        Ok((cid, _)) => Ok(Node::Link(cid)),
        Err(_) => Err(AllocError),
    }
}

// Returns what an item is, with its strings copied.
fn copied(alloc: Global, front: Front) -> Result<Own, AllocError>
    requires { HasCid front }
    ensures { IfOk result (λ o. own_of o ≡ own_of_front front.entry) }
{
    Ok(match front {
        Front::Null => Own::Leaf(Node::Null),
        Front::Bool(truth) => Own::Leaf(Node::Bool(truth)),
        Front::Int(number) => Own::Leaf(Node::Int(number)),
        Front::Bits64(bits) => Own::Leaf(Node::Bits64(bits)),
        Front::Bytes(bytes) => Own::Leaf(Node::Bytes(Vec::from_slice(alloc, bytes)?)),
        Front::Text(text) => Own::Leaf(Node::Text(Vec::from_slice(alloc, text)?)),
        Front::Link(cid) => Own::Leaf(link_node(alloc, cid)?),
        Front::List(count) => Own::ListOf(count),
        Front::Map(count) => Own::MapOf(count),
    })
}

// Runs the tests at one item, before any element of it is read.
fn head_of_item(alloc: Global, bytes: &[u8]) -> Result<(Own, &[u8]), PlacedFault>
    ensures { ReadsOrRunsOut (λ r. (own_of r.0, r.1.now)) result (own_at bytes.now) }
{
    let (front, rest) = front_of_item(bytes)?;
    Ok((copied(alloc, front)?, rest))
}

// Reads one item where no list or map is allowed.
fn leaf(alloc: Global, bytes: &[u8]) -> Result<(Node, &[u8]), PlacedFault>
    ensures { ReadsOrRunsOut node_and_rest result (item_with None bytes.now) }
{
    let (own, rest) = head_of_item(alloc, bytes)?;
    match own {
        Own::Leaf(node) => Ok((node, rest)),
        Own::ListOf(_) | Own::MapOf(_) => Err(PlacedFault::at(CborKind::Nesting, bytes)),
    }
}

// Reads one item where a list or map is allowed, in which others nest so deep.
#[cycle(item)]
fn branch(alloc: Global, bytes: &[u8], levels: u32) -> Result<(Node, &[u8]), PlacedFault>
    ensures { ReadsOrRunsOut node_and_rest result (branch_at levels bytes.now) }
{
    let (own, rest) = head_of_item(alloc, bytes)?;
    match own {
        Own::Leaf(node) => Ok((node, rest)),
        Own::ListOf(count) => {
            let (members, rest) = items(alloc, rest, count, levels)?;
            Ok((Node::List(members), rest))
        }
        Own::MapOf(count) => {
            let (members, rest) = entries(alloc, rest, count, levels)?;
            Ok((Node::Map(members), rest))
        }
    }
}

// Reads one item in which lists and maps may nest so deep.
#[cycle(item)]
pub(crate) fn item(alloc: Global, bytes: &[u8], levels: u32) -> Result<(Node, &[u8]), PlacedFault>
    ensures { ReadsOrRunsOut node_and_rest result (item_at levels bytes.now) }
{
    if levels == 0 {
        leaf(alloc, bytes)
    } else {
        branch(alloc, bytes, levels - 1)
    }
}

// Allocates room for `count` elements, and for four at most: the input claims the count, and nested
// claims would add up. A list of up to four elements takes no more room than they do.
fn room_for<T>(alloc: Global, count: u64) -> Result<Vec<T>, AllocError>
    ensures { IfOk result (λ v. v.items ≡ []) }
{
    Vec::with_capacity(alloc, count.min(MOST_CLAIMED) as usize)
}

// Reads `count` elements of a list, in which lists and maps may nest so deep.
#[cycle(item)]
fn items(
    alloc: Global,
    bytes: &[u8],
    count: u64,
    levels: u32,
) -> Result<(Vec<Node>, &[u8]), PlacedFault>
    ensures { ReadsOrRunsOut members_and_rest result (members_at levels count bytes.now) }
{
    let mut members = room_for(alloc, count)?;
    let mut rest = bytes;
    for _ in 0..count {
        let (node, next) = item(alloc, rest, levels)?;
        members.push(node)?;
        rest = next;
    }
    members.shrink_to_fit();
    Ok((members, rest))
}

// Reads `count` entries of a map, in which lists and maps may nest so deep.
#[cycle(item)]
fn entries(
    alloc: Global,
    bytes: &[u8],
    count: u64,
    levels: u32,
) -> Result<(Vec<(Vec<u8>, Node)>, &[u8]), PlacedFault>
    ensures { ReadsOrRunsOut entries_and_rest result (fields_at levels count bytes.now) }
{
    let mut members = room_for(alloc, count)?;
    let mut rest = bytes;
    let mut before = None;
    for _ in 0..count {
        let (name, value) = key(before, rest)?;
        let (node, next) = item(alloc, value, levels)?;
        members.push((Vec::from_slice(alloc, name)?, node))?;
        before = Some(name);
        rest = next;
    }
    members.shrink_to_fit();
    Ok((members, rest))
}
