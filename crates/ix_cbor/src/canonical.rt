//! Which nodes have a DAG-CBOR spelling.

ghost use Rattle.std.specs.Prelude.{◌≢◌, ◌↔◌, ◌+◌, ◌/◌, ◌%◌, ◌^◌, ◌<◌, IsTrue, None, length};
ghost use Rattle.ix_cbor.specs.Data.{data_of, integer, node_items, node_entries};
ghost use Rattle.ix_cbor.specs.Spelling.{IsCanonical, IsSpellable};
ghost use Rattle.ix_cbor.specs.Fits.{Fits, ItemsFit, EntriesFit};

use crate::head::compare_keys;
use crate::node::Node;

// How deep lists and maps may nest.
pub(crate) const LEVELS: u32 = 512;

// Whether the node has a spelling.
pub(crate) fn is_canonical(node: &Node) -> bool
    ensures { IsTrue result ↔ IsCanonical (data_of node.now) }
{
    fits(node, LEVELS)
}

// Whether it is an argument of 64 bits, or -1 minus one.
fn is_int(n: i128) -> bool
    ensures { IsTrue result ↔ IsSpellable (integer n) }
{
    n >= -(1 << 64) && n < 1 << 64
}

// Whether the float is finite: the eleven exponent bits aren't all ones.
pub(crate) fn is_finite(bits: u64) -> bool
    ensures { IsTrue result ↔ (bits / 2 ^ 52 % 2 ^ 11 ≢ 2047) }
{
    (bits >> 52) % (1 << 11) != 2047
}

// Whether the length of these bytes plus `more` is an argument of 64 bits.
fn has_room(bytes: &[u8], more: usize) -> bool
    ensures { IsTrue result ↔ (length bytes.now + more < 2 ^ 64) }
{
    bytes.len() <= usize::MAX - more
}

// Whether the node has a spelling, and lists and maps nest at most so many levels deep in it.
#[cycle(fits)]
fn fits(node: &Node, levels: u32) -> bool
    ensures { IsTrue result ↔ Fits levels (data_of node.now) }
{
    match node {
        Node::Null | Node::Bool(_) => true,
        Node::Int(n) => is_int(*n),
        Node::Bits64(bits) => is_finite(*bits),
        Node::Bytes(bytes) | Node::Text(bytes) => has_room(bytes.as_slice(), 0),
        Node::List(members) => levels != 0 && members_fit(members, levels - 1),
        Node::Map(entries) => levels != 0 && entries_fit(entries, levels - 1),
        Node::Link(cid) => has_room(cid.as_bytes(), 1),
    }
}

// Does the same for elements.
#[cycle(fits)]
fn members_fit(members: &[Node], levels: u32) -> bool
    ensures { IsTrue result ↔ ItemsFit levels (node_items members.now) }
{
    for member in members {
        if !fits(member, levels) {
            return false;
        }
    }
    true
}

// Does the same for entries, where each key is above the one before it.
#[cycle(fits)]
fn entries_fit(entries: &[(Vec<u8>, Node)], levels: u32) -> bool
    ensures { IsTrue result ↔ EntriesFit levels None (node_entries entries.now) }
{
    let mut before: Option<&[u8]> = None;
    for (key, value) in entries {
        let key = key.as_slice();
        if before.is_some_and(|before| compare_keys(before, key).is_ge()) {
            return false;
        }
        if !fits(value, levels) {
            return false;
        }
        before = Some(key);
    }
    true
}
