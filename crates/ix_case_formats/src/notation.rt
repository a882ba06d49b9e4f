//! Nodes in diagnostic notation (RFC 8949, section 8), with a space at the inside of each bracket.
//!
//! `null`, `true`, `false`, integers in decimal, `float'3ff8000000000000'` with the bits of a float,
//! `h'00ff'`, `"text"` with each byte but the printable ones as `\x` and two digits, `[ 1, 2 ]`,
//! `{ "a": 1 }`, and a link as `42(h'00...')` with its CID after the `00`.

use ix_cbor::Node;
use std::alloc::{AllocError, Global};

/// A node in this notation.
pub fn written(alloc: Global, node: &Node) -> Result<String, AllocError> {
    let mut out = String::new(alloc);
    push_node(alloc, &mut out, node)?;
    Ok(out)
}

// Appends a node.
#[cycle(push_node)]
fn push_node(alloc: Global, out: &mut String, node: &Node) -> Result<(), AllocError> {
    match node {
        Node::Null => out.push_str("null"),
        Node::Bool(false) => out.push_str("false"),
        Node::Bool(true) => out.push_str("true"),
        Node::Int(number) => write!(out, "{number}"),
        Node::Bits64(bits) => write!(out, "float'{bits:016x}'"),
        Node::Bytes(bytes) => push_hex(alloc, out, "h'", bytes.as_slice(), "'"),
        Node::Text(text) => push_text(out, text.as_slice()),
        Node::List(members) => push_members(alloc, out, members),
        Node::Map(entries) => push_entries(alloc, out, entries),
        Node::Link(cid) => push_hex(alloc, out, "42(h'00", cid.as_bytes(), "')"),
    }
}

// Appends the members of a list between brackets.
#[cycle(push_node)]
fn push_members(alloc: Global, out: &mut String, members: &[Node]) -> Result<(), AllocError> {
    out.push('[')?;
    for (number, member) in members.iter().enumerate() {
        push_space(out, number)?;
        push_node(alloc, out, member)?;
    }
    out.push_str(" ]")
}

// Appends the keys and values of a map between braces.
#[cycle(push_node)]
fn push_entries(
    alloc: Global,
    out: &mut String,
    entries: &[(Vec<u8>, Node)],
) -> Result<(), AllocError> {
    out.push('{')?;
    for (number, (key, value)) in entries.iter().enumerate() {
        push_space(out, number)?;
        push_text(out, key.as_slice())?;
        out.push_str(": ")?;
        push_node(alloc, out, value)?;
    }
    out.push_str(" }")
}

// Appends what is before a part with this number: a space, and a comma before it but at the first.
fn push_space(out: &mut String, number: usize) -> Result<(), AllocError> {
    out.push_str(if number == 0 { " " } else { ", " })
}

// Appends bytes in hex between two texts.
fn push_hex(
    alloc: Global,
    out: &mut String,
    front: &str,
    bytes: &[u8],
    back: &str,
) -> Result<(), AllocError> {
    out.push_str(front)?;
    out.push_str(hex::encode(alloc, bytes)?.as_str())?;
    out.push_str(back)
}

// Appends a text between quotes.
fn push_text(out: &mut String, text: &[u8]) -> Result<(), AllocError> {
    out.push('"')?;
    for byte in text {
        match *byte {
            b'!' | b'#'..=b'[' | b']'..=b'~' => out.push(char::from(*byte))?,
            other => write!(out, "\\x{other:02x}")?,
        }
    }
    Ok(out.push('"')?)
}
