//! Blocks, trees and heads.

use crate::nodes::node_of;
use crate::notation::written;
use crate::texts::{bytes_of_hex, hex_of, two_words};
use anyhow::{Error, Result, bail, ensure};
use ix_cbor::{CborFault, Major, Node, Tree, push_head};
use std::alloc::{AllocError, Global};

/// `decode HEX = NODE` or `KIND at PLACE`; a block that is decoded is also spelled again
pub fn decode(alloc: Global, input: &str) -> Result<String> {
    let bytes = bytes_of_hex(alloc, input)?;
    match ix_cbor::decode(alloc, bytes.as_slice()) {
        Ok(tree) => text_of_tree(alloc, &tree, bytes.as_slice()),
        Err(fault) => text_of_fault(alloc, fault),
    }
}

// A tree that these bytes spell, in diagnostic notation.
fn text_of_tree(alloc: Global, tree: &Tree, bytes: &[u8]) -> Result<String> {
    ensure!(is_spelled(alloc, tree, bytes)?, "it is not spelled again");
    written(alloc, tree.root()).map_err(Error::from)
}

// Whether these bytes spell a tree.
fn is_spelled(alloc: Global, tree: &Tree, bytes: &[u8]) -> Result<bool, AllocError> {
    let spelled = ix_cbor::encode(alloc, tree)?;
    Ok(spelled.as_slice() == bytes)
}

// `KIND at PLACE`
fn text_of_fault(alloc: Global, fault: CborFault) -> Result<String> {
    let kind = fault.kind;
    let place = fault.place;
    format!(in alloc; "{kind:?} at {place}").map_err(Error::from)
}

/// `tree NODE = HEX` or `handed back`
pub fn tree(alloc: Global, input: &str) -> Result<String> {
    match Tree::new(node_of(alloc, input)?) {
        Ok(tree) => hex_of_tree(alloc, tree, input),
        Err(node) => handed_back(alloc, &node, input),
    }
}

// The block of a tree whose root is written as this text, in the tree and out of it.
fn hex_of_tree(alloc: Global, tree: Tree, text: &str) -> Result<String> {
    let hex = hex_of_root(alloc, &tree, text)?;
    ensure_written(alloc, &tree.into_root(), text)?;
    Ok(hex)
}

// The block of a tree whose root is written as this text.
fn hex_of_root(alloc: Global, tree: &Tree, text: &str) -> Result<String> {
    ensure_written(alloc, tree.root(), text)?;
    let spelled = ix_cbor::encode(alloc, tree)?;
    hex_of(alloc, spelled.as_slice())
}

// The answer for a node that is no tree and is written as this text.
fn handed_back(alloc: Global, node: &Node, text: &str) -> Result<String> {
    ensure_written(alloc, node, text)?;
    String::from_str(alloc, "handed back").map_err(Error::from)
}

// Fails where a node isn't written as this text.
fn ensure_written(alloc: Global, node: &Node, text: &str) -> Result<()> {
    ensure!(is_written(alloc, node, text)?, "the node is another");
    Ok(())
}

// Whether a node is written as this text.
fn is_written(alloc: Global, node: &Node, text: &str) -> Result<bool, AllocError> {
    let written = written(alloc, node)?;
    Ok(written.as_str() == text)
}

/// `head MAJOR ARGUMENT = HEX`
pub fn head(alloc: Global, input: &str) -> Result<String> {
    let (major, argument) = two_words(input)?;
    let argument = argument.parse::<u64>()?;
    let mut out = Vec::new(alloc);
    push_head(&mut out, major_of(major)?, argument)?;
    hex_of(alloc, out.as_slice())
}

// The major type with a name.
fn major_of(name: &str) -> Result<Major> {
    Ok(match name {
        "unsigned" => Major::Unsigned,
        "negative" => Major::Negative,
        "bytes" => Major::Bytes,
        "text" => Major::Text,
        "list" => Major::List,
        "map" => Major::Map,
        "tag" => Major::Tag,
        "simple" => Major::Simple,
        _ => bail!("no head has this major type"),
    })
}
