//! Reads data from the tokens of JSON, with no tree of JSON values between.
//!
//! An error that is found here need not be the first one of the text.

ghost use Rattle.std.specs.Prelude.{◌≡◌, ◌<◌, ◌++◌, ◌∷◌, [], length, map, option_map, Some, IfOk, OnOk};
ghost use Rattle.json.specs.Json.{read_key};
ghost use Rattle.ix_cbor.specs.Data.{data_of, entry_of};
ghost use Rattle.ix_selector_json.specs.Saying.{IsJsonOf};
ghost use Rattle.ix_selector_json.specs.Direct.{SaysNext, ItemsSayNext, EntriesSayNext};

use crate::fault::NotationFault;
use crate::read::{DEPTH, in_order};
use ix_cbor::{Node, Tree};
use json::{Reader, Scratch, Token};
use std::alloc::Global;

/// Returns the tree of a JSON text. It makes no tree of JSON values, which would take more memory than
/// the text and its data together.
pub(crate) fn direct_tree(alloc: Global, document: &str) -> Result<Tree, NotationFault>
    ensures { IfOk result (λ t. IsJsonOf document.now t) }
{
    let mut scratch = Scratch::new(alloc);
    let mut reader = Reader::new(document, &mut scratch)?;
    let node = next_node(alloc, &mut reader, DEPTH)?;
    if reader.next().is_some() {
        return Err(NotationFault::Json(reader.offset()));
    }
    match Tree::new(node) {
        Ok(tree) => Ok(tree),
        Err(_) => Err(NotationFault::Number),
    }
}

// Returns the node of the next value, in which arrays and objects nest at most `depth` deep.
#[cycle(next_node)]
fn next_node(alloc: Global, reader: &mut Reader<'_>, depth: usize) -> Result<Node, NotationFault>
    ensures says { IfOk result (λ n. SaysNext depth reader.old reader.new (data_of n)) }
    ensures shorter { OnOk result (length reader.new < length reader.old) }
{
    match reader.next() {
        Some(Token::Null) => Ok(Node::Null),
        Some(Token::Bool(truth)) => Ok(Node::Bool(truth)),
        Some(Token::Number(digits)) => match digits.parse::<i128>() {
            Ok(number) => Ok(Node::Int(number)),
            Err(_) => Err(NotationFault::Number),
        },
        Some(Token::String(text)) => Ok(Node::Text(Vec::from_slice(alloc, text.as_bytes())?)),
        Some(Token::BeginArray) if depth != 0 => {
            Ok(Node::List(next_members(alloc, reader, depth - 1)?))
        }
        Some(Token::BeginObject) if depth != 0 => {
            Ok(Node::Map(next_entries(alloc, reader, depth - 1)?))
        }
        _ => Err(NotationFault::Json(reader.offset())),
    }
}

// Returns the nodes of an array's elements, up to its end.
#[cycle(next_node)]
fn next_members(
    alloc: Global,
    reader: &mut Reader<'_>,
    depth: usize,
) -> Result<Vec<Node>, NotationFault>
    ensures says { IfOk result (λ v. ItemsSayNext depth reader.old reader.new (map data_of v.items)) }
    ensures shorter { OnOk result (length reader.new < length reader.old) }
{
    let mut members = Vec::new(alloc);
    while !reader.take_end_array() {
        let node = next_node(alloc, reader, depth)?;
        push_tight(&mut members, node)?;
    }
    members.shrink_to_fit();
    Ok(members)
}

// Returns the keys and nodes of an object's members, up to its end, in the order of keys in DAG-CBOR.
#[cycle(next_node)]
fn next_entries(
    alloc: Global,
    reader: &mut Reader<'_>,
    depth: usize,
) -> Result<Vec<(Vec<u8>, Node)>, NotationFault>
    ensures { IfOk result (λ v. EntriesSayNext depth reader.old reader.new (map entry_of v.items)) }
{
    let mut entries = Vec::new(alloc);
    while let Some(name) = next_name(reader)? {
        let name = Vec::from_slice(alloc, name.as_bytes())?;
        let node = next_node(alloc, reader, depth)?;
        push_tight(&mut entries, (name, node))?;
    }
    entries.shrink_to_fit();
    in_order(entries)
}

// Returns the key of the next member, or `None` at the end of the object.
fn next_name<'a>(reader: &mut Reader<'a>) -> Result<Option<&'a str>, NotationFault>
    ensures { IfOk result (λ k. read_key reader.old ≡ Some (option_map (λ s. s.now) k, reader.new)) }
{
    match reader.next_key() {
        Ok(name) => Ok(name),
        Err(_) => Err(NotationFault::Json(reader.offset())),
    }
}

// Appends an item; the first one allocates room for itself alone, since most maps of a selector have one
// key.
fn push_tight<T: Drop>(items: &mut Vec<T>, item: T) -> Result<(), NotationFault>
    ensures { OnOk result (items.new.items ≡ items.old.items ++ item ∷ []) }
{
    if items.is_empty() {
        items.reserve_exact(1)?;
    }
    items.push(item)?;
    Ok(())
}
