//! Nodes out of diagnostic notation, also those that no block spells.

use crate::cids::cid_of;
use crate::texts::{bytes_of_hex, unescaped};
use anyhow::{Context, Error, Result, bail};
use ix_cbor::Node;
use std::alloc::Global;

// A list or a map whose end is still to come. A map may have a key without a value.
#[derive(Drop)]
enum Open {
    List(Vec<Node>),
    Map(Vec<(Vec<u8>, Node)>, Option<Vec<u8>>),
}

impl Open {
    // Whether the next word is a key.
    fn wants_key(&self) -> bool {
        matches!(self, Open::Map(_, None))
    }

    // The list or the map.
    fn closed(self) -> Node {
        match self {
            Open::List(members) => Node::List(members),
            Open::Map(entries, _) => Node::Map(entries),
        }
    }

    // Takes the key of the next value.
    fn put_key(&mut self, key: Vec<u8>) -> Result<()> {
        match self {
            Open::Map(_, next) => *next = Some(key),
            Open::List(_) => bail!("a list has no keys"),
        }
        Ok(())
    }

    // Takes the next member or value.
    fn put(&mut self, node: Node) -> Result<()> {
        match self {
            Open::List(members) => members.push(node)?,
            Open::Map(entries, key) => {
                let key = key.take().context("a value has no key")?;
                entries.push((key, node))?;
            }
        }
        Ok(())
    }
}

/// The node that a text in the notation of `notation` has, with a space between what belongs apart.
pub fn node_of(alloc: Global, text: &str) -> Result<Node> {
    let mut open = Vec::new(alloc);
    let mut whole = None;
    for word in text.split_whitespace() {
        read_word(alloc, &mut open, &mut whole, without_mark(word))?;
    }
    whole.context("no node")
}

// Begins or ends a list or a map, or puts a word where it belongs.
fn read_word(
    alloc: Global,
    open: &mut Vec<Open>,
    whole: &mut Option<Node>,
    word: &str,
) -> Result<()> {
    match word {
        "[" => open.push(Open::List(Vec::new(alloc))).map_err(Error::from),
        "{" => open
            .push(Open::Map(Vec::new(alloc), None))
            .map_err(Error::from),
        "]" | "}" => close(open, whole),
        word => place_word(alloc, open, whole, word),
    }
}

// Ends the innermost list or map.
fn close(open: &mut Vec<Open>, whole: &mut Option<Node>) -> Result<()> {
    let innermost = open.pop().context("nothing is open")?;
    place(open, whole, innermost.closed())
}

// A word without the comma or colon after it.
fn without_mark(word: &str) -> &str {
    let word = word.strip_suffix(',').unwrap_or(word);
    word.strip_suffix(':').unwrap_or(word)
}

// Puts a word where it belongs: a key, or a node of its own.
fn place_word(
    alloc: Global,
    open: &mut Vec<Open>,
    whole: &mut Option<Node>,
    word: &str,
) -> Result<()> {
    if let Some(innermost) = open.last_mut() {
        if innermost.wants_key() {
            return innermost.put_key(text_of(alloc, word)?);
        }
    }
    place(open, whole, leaf_of(alloc, word)?)
}

// Puts a node into the innermost list or map; it is the whole where none is open.
fn place(open: &mut Vec<Open>, whole: &mut Option<Node>, node: Node) -> Result<()> {
    match open.last_mut() {
        Some(innermost) => innermost.put(node),
        None => {
            *whole = Some(node);
            Ok(())
        }
    }
}

// The node of a word that is neither a list nor a map.
fn leaf_of(alloc: Global, word: &str) -> Result<Node> {
    match word {
        "null" => Ok(Node::Null),
        "false" => Ok(Node::Bool(false)),
        "true" => Ok(Node::Bool(true)),
        _ if word.starts_with('"') => Ok(Node::Text(text_of(alloc, word)?)),
        _ if word.contains('\'') => marked_of(alloc, word),
        _ => Ok(Node::Int(word.parse::<i128>()?)),
    }
}

// The node of a word in which something says what stands between single quotes.
fn marked_of(alloc: Global, word: &str) -> Result<Node> {
    if let Some(digits) = inside(word, "h'", "'") {
        return Ok(Node::Bytes(bytes_of_hex(alloc, digits)?));
    }
    if let Some(digits) = inside(word, "42(h'00", "')") {
        return Ok(Node::Link(cid_of(alloc, digits)?));
    }
    match inside(word, "float'", "'") {
        Some(digits) => Ok(Node::Bits64(u64::from_str_radix(digits, 16)?)),
        None => bail!("no node: {word}"),
    }
}

// The bytes of a text between quotes.
fn text_of(alloc: Global, word: &str) -> Result<Vec<u8>> {
    match inside(word, "\"", "\"") {
        Some(text) => unescaped(alloc, text),
        None => bail!("a text between quotes is wanted: {word}"),
    }
}

// What stands between two texts.
fn inside<'a>(word: &'a str, front: &str, back: &str) -> Option<&'a str> {
    word.strip_prefix(front)?.strip_suffix(back)
}
