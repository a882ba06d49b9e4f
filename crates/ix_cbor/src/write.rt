//! The parts of `encode`.

ghost use Rattle.std.specs.Prelude.{◌≡◌, ℕ, List, ◌++◌, OnOk, OnErr};
ghost use Rattle.ix_cbor.specs.Data.{data_of, integer, float, node_items, node_entries};
ghost use Rattle.ix_cbor.specs.Majors.{number_of};
ghost use Rattle.ix_cbor.specs.Spelling.{string_spelling, link_spelling, spelling_of, items_spelling, entries_spelling, IsSpellable, AreSpellable, AreRising};

use crate::head::push_head;
use crate::information::{FALSE, FLOAT_64, LINK, NULL, TRUE};
use crate::major::Major;
use crate::node::Node;
use std::alloc::AllocError;

// Appends an integer: as -1 minus the argument if it is below 0.
fn push_int(out: &mut Vec<u8>, n: i128) -> Result<(), AllocError>
    requires { IsSpellable (integer n) }
    ensures ok { OnOk result (out.new.items ≡ out.old.items ++ spelling_of (integer n)) }
{
    if n >= 0 {
        push_head(out, Major::Unsigned, n as u64)
    } else {
        push_head(out, Major::Negative, (-1 - n) as u64)
    }
}

// Appends a float of 64 bits.
fn push_float(out: &mut Vec<u8>, bits: u64) -> Result<(), AllocError>
    ensures ok { OnOk result (out.new.items ≡ out.old.items ++ spelling_of (float bits)) }
{
    out.push(Major::Simple.with(FLOAT_64))?;
    out.extend_from_slice(&bits.to_be_bytes())
}

// Appends a string after the head with its length.
fn push_string(out: &mut Vec<u8>, major: Major, bytes: &[u8]) -> Result<(), AllocError>
    ensures ok { OnOk result (out.new.items ≡ out.old.items ++ string_spelling (number_of major) bytes.now) }
{
    push_head(out, major, bytes.len() as u64)?;
    out.extend_from_slice(bytes)
}

/// Appends a link: tag 42 over a byte string of `00` and the CID. An error leaves what was there as
/// a prefix.
pub fn push_link(out: &mut Vec<u8>, cid: &[u8]) -> Result<(), AllocError>
    ensures ok { OnOk result (out.new.items ≡ out.old.items ++ link_spelling cid.now) }
    ensures err { OnErr result ((part : List ℕ) × (out.new.items ≡ out.old.items ++ part)) }
{
    push_head(out, Major::Tag, LINK)?;
    push_head(out, Major::Bytes, cid.len() as u64 + 1)?;
    out.push(0)?;
    out.extend_from_slice(cid)
}

// Appends a node. It recurses as deep as the node nests: in a tree at most 512 levels.
#[cycle(push_item)]
pub(crate) fn push_item(out: &mut Vec<u8>, node: &Node) -> Result<(), AllocError>
    requires { IsSpellable (data_of node.now) }
    ensures ok { OnOk result (out.new.items ≡ out.old.items ++ spelling_of (data_of node.now)) }
{
    match node {
        Node::Null => push_head(out, Major::Simple, u64::from(NULL)),
        Node::Bool(false) => push_head(out, Major::Simple, u64::from(FALSE)),
        Node::Bool(true) => push_head(out, Major::Simple, u64::from(TRUE)),
        Node::Int(n) => push_int(out, *n),
        Node::Bits64(bits) => push_float(out, *bits),
        Node::Bytes(bytes) => push_string(out, Major::Bytes, bytes.as_slice()),
        Node::Text(text) => push_string(out, Major::Text, text.as_slice()),
        Node::List(members) => {
            push_head(out, Major::List, members.len() as u64)?;
            push_members(out, members)
        }
        Node::Map(entries) => {
            push_head(out, Major::Map, entries.len() as u64)?;
            push_entries(out, entries)
        }
        Node::Link(cid) => push_link(out, cid.as_bytes()),
    }
}

// Appends elements, one after the other.
#[cycle(push_item)]
fn push_members(out: &mut Vec<u8>, members: &[Node]) -> Result<(), AllocError>
    requires { AreSpellable (node_items members.now) }
    ensures ok { OnOk result (out.new.items ≡ out.old.items ++ items_spelling (node_items members.now)) }
{
    for member in members {
        push_item(out, member)?;
    }
    Ok(())
}

// Appends entries, each key before its value.
#[cycle(push_item)]
fn push_entries(out: &mut Vec<u8>, entries: &[(Vec<u8>, Node)]) -> Result<(), AllocError>
    requires { AreRising (node_entries entries.now) }
    ensures ok { OnOk result (out.new.items ≡ out.old.items ++ entries_spelling (node_entries entries.now)) }
{
    for (key, value) in entries {
        push_string(out, Major::Text, key.as_slice())?;
        push_item(out, value)?;
    }
    Ok(())
}
