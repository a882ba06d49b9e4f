//! Reads data from JSON.

ghost use Rattle.std.specs.Prelude.{◌≡◌, IfOk, IfErr, map};
ghost use Rattle.std.specs.Ordering.{is_lt};
ghost use Rattle.json.specs.Strict.{AreDistinct};
ghost use Rattle.json.specs.Value.{value_view, items_view, members_view};
ghost use Rattle.ix_cbor.specs.Data.{data_of, entry_of, node_items, node_entries};
ghost use Rattle.ix_cbor.specs.Spelling.{key_cmp};
ghost use Rattle.ix_selector_json.specs.Saying.{Says, ItemsSay, EntriesSay, AreInOrder, key_of, ValueFits, ValuesFit, MembersFit, IsJsonOf, IsValueUnread, AreItemsUnread, AreMembersUnread};
ghost use Rattle.ix_selector_json.specs.Notation.{IsJsonRefused};
ghost use Rattle.ix_selector_json.specs.declared.fault.NotationFault.TheVariants.{Repeated};

use crate::direct::direct_tree;
use crate::fault::NotationFault;
use ix_cbor::{Node, Tree, compare_keys};
use json::{Error, Reader, Scratch, Value};
use std::alloc::Global;
use std::cmp::Ordering;

// The deepest nesting of arrays and objects, as of lists and maps of a block.
pub(crate) const DEPTH: usize = 512;

// Returns the tree of a JSON text: null, booleans, integers, strings, lists and maps are themselves,
// whatever the order of the keys. A text that has none is rejected as `Json`, `Repeated` or `Number`.
pub(crate) fn tree_of(alloc: Global, text: &[u8]) -> Result<Tree, NotationFault>
    ensures says { IfOk result (λ t. IsJsonOf text.now t) }
    ensures refused { IfErr result (IsJsonRefused text.now) }
{
    let text = match str::from_utf8(text) {
        Ok(text) => text,
        Err(error) => return Err(NotationFault::Json(error.valid_up_to())),
    };
    match direct_tree(alloc, text) {
        Ok(tree) => Ok(tree),
        Err(NotationFault::Memory) => Err(NotationFault::Memory),
        Err(_) => tree_of_value(alloc, text),
    }
}

// The same by way of a value, which is read as a whole first: a text that is no JSON is refused as that.
fn tree_of_value(alloc: Global, document: &str) -> Result<Tree, NotationFault>
    ensures says { IfOk result (λ t. IsJsonOf document.now t) }
    ensures refused { IfErr result (IsJsonRefused document.now) }
{
    let mut scratch = Scratch::new(alloc);
    let mut reader = Reader::new(document, &mut scratch)?;
    let value = match Value::read(alloc, &mut reader, DEPTH) {
        Ok(value) => value,
        Err(Error::OutOfMemory) => return Err(NotationFault::Memory),
        Err(_) => return Err(NotationFault::Json(reader.offset())),
    };
    if reader.next().is_some() {
        return Err(NotationFault::Json(reader.offset()));
    }
    // Keys are sorted and nesting is bounded, so only an integer can have no encoding.
    match Tree::new(node_of(alloc, &value)?) {
        Ok(tree) => Ok(tree),
        Err(_) => Err(NotationFault::Number),
    }
}

// Returns the node of a value, which has an encoding if each number is an integer that has one.
#[cycle(node_of)]
fn node_of(alloc: Global, value: &Value<'_>) -> Result<Node, NotationFault>
    ensures says { IfOk result (λ n. Says (value_view value.now) (data_of n)) }
    ensures fits { IfOk result (λ n. ValueFits (value_view value.now) (data_of n)) }
    ensures refused { IfErr result (IsValueUnread (value_view value.now)) }
{
    match value {
        Value::Null => Ok(Node::Null),
        Value::Bool(truth) => Ok(Node::Bool(*truth)),
        Value::Number(digits) => match digits.parse::<i128>() {
            Ok(number) => Ok(Node::Int(number)),
            Err(_) => Err(NotationFault::Number),
        },
        Value::String(text) => Ok(Node::Text(Vec::from_slice(alloc, text.as_bytes())?)),
        Value::Array(members) => Ok(Node::List(members_of(alloc, members)?)),
        Value::Object(members) => Ok(Node::Map(entries_of(alloc, members)?)),
    }
}

// Returns the nodes of an array's elements.
#[cycle(node_of)]
fn members_of(alloc: Global, values: &[Value<'_>]) -> Result<Vec<Node>, NotationFault>
    ensures says { IfOk result (λ v. ItemsSay (items_view values.now) (map data_of v.items)) }
    ensures fits { IfOk result (λ v. ValuesFit (items_view values.now) (node_items v.items)) }
    ensures refused { IfErr result (AreItemsUnread (items_view values.now)) }
{
    let mut members = Vec::with_capacity(alloc, values.len())?;
    for value in values {
        members.push(node_of(alloc, value)?)?;
    }
    Ok(members)
}

// Returns the keys and nodes of an object's members, in the order of the keys in data.
#[cycle(node_of)]
fn entries_of(
    alloc: Global,
    values: &[(&str, Value<'_>)],
) -> Result<Vec<(Vec<u8>, Node)>, NotationFault>
    ensures says { IfOk result (λ v. EntriesSay (members_view values.now) (map entry_of v.items)) }
    ensures fits { IfOk result (λ v. MembersFit (members_view values.now) (node_entries v.items)) }
    ensures refused { IfErr result (AreMembersUnread (members_view values.now)) }
{
    let mut entries = Vec::with_capacity(alloc, values.len())?;
    for (name, value) in values {
        let node = node_of(alloc, value)?;
        entries.push((Vec::from_slice(alloc, name.as_bytes())?, node))?;
    }
    in_order(entries)
}

// Returns the same entries in the order of their keys, unless two have the same key.
pub(crate) fn in_order(
    mut entries: Vec<(Vec<u8>, Node)>,
) -> Result<Vec<(Vec<u8>, Node)>, NotationFault>
    ensures sorted { IfOk result (λ v. AreInOrder entries.items v.items) }
    ensures refused { IfErr result (λ e. (e ≡ Repeated) × ¬ AreDistinct (map key_of entries.items)) }
{
    entries.sort_unstable_by(
        |one, other| -> Ordering
            ensures { result ≡ key_cmp one.now.0.items other.now.0.items }
        { compare_keys(one.0.as_slice(), other.0.as_slice()) },
    );
    let rise = entries.as_slice().is_sorted_by(
        |one, other| -> bool
            ensures { result ≡ is_lt (key_cmp one.now.0.items other.now.0.items) }
        { compare_keys(one.0.as_slice(), other.0.as_slice()).is_lt() },
    );
    if rise {
        Ok(entries)
    } else {
        Err(NotationFault::Repeated)
    }
}
