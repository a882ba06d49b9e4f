//! Prints data as JSON.

ghost use Rattle.std.specs.Prelude.{◌≡◌, IfOk, IfErr};
ghost use Rattle.std.specs.Str.{IsUtf8};
ghost use Rattle.json.specs.Print.{print};
ghost use Rattle.ix_cbor.specs.Data.{data_of, node_items, node_entries};
ghost use Rattle.ix_selector_json.specs.Notation.{integer_tokens, tokens_of, items_tokens, entries_tokens};
ghost use Rattle.ix_selector_json.specs.Printed.{Pushes, IsDataUnprinted, AreItemsUnprinted, AreEntriesUnprinted};

use crate::fault::NotationFault;
use ix_cbor::Node;
use ix_selector::SelFault;
use json::Writer;
use std::alloc::Global;

// Returns the JSON text of a selector's data, without blanks. No selector has a float, a byte string or
// a link.
pub(crate) fn text_of(alloc: Global, node: &Node) -> Result<Vec<u8>, NotationFault>
    ensures text { IfOk result (λ text. text.items ≡ print (tokens_of (data_of node.now))) }
    ensures utf8 { IfOk result (λ text. IsUtf8 text.items) }
    ensures refused { IfErr result (IsDataUnprinted (data_of node.now)) }
{
    let mut out = Writer::new(Vec::new(alloc));
    push_node(alloc, &mut out, node)?;
    Ok(out.into_inner())
}

// Appends the tokens of a node.
#[cycle(push_node)]
fn push_node(alloc: Global, out: &mut Writer, node: &Node) -> Result<(), NotationFault>
    ensures pushes { Pushes out.old out.new (tokens_of (data_of node.now)) result }
    ensures refused { IfErr result (IsDataUnprinted (data_of node.now)) }
{
    match node {
        Node::Null => Ok(out.null()?),
        Node::Bool(truth) => Ok(out.boolean(*truth)?),
        Node::Int(number) => push_integer(alloc, out, *number),
        Node::Text(text) => Ok(out.string(name_of(text.as_slice())?)?),
        Node::List(members) => {
            out.begin_array()?;
            push_members(alloc, out, members)
        }
        Node::Map(entries) => {
            out.begin_object()?;
            push_entries(alloc, out, entries)
        }
        Node::Bits64(_) | Node::Bytes(_) | Node::Link(_) => {
            Err(NotationFault::Selector(SelFault::Kind))
        }
    }
}

// Appends the elements of a list and the closing bracket.
#[cycle(push_node)]
fn push_members(alloc: Global, out: &mut Writer, members: &[Node]) -> Result<(), NotationFault>
    ensures pushes { Pushes out.old out.new (items_tokens (node_items members.now)) result }
    ensures refused { IfErr result (AreItemsUnprinted (node_items members.now)) }
{
    for member in members {
        push_node(alloc, out, member)?;
    }
    Ok(out.end_array()?)
}

// Appends the entries of a map and the closing brace.
#[cycle(push_node)]
fn push_entries(
    alloc: Global,
    out: &mut Writer,
    entries: &[(Vec<u8>, Node)],
) -> Result<(), NotationFault>
    ensures pushes { Pushes out.old out.new (entries_tokens (node_entries entries.now)) result }
    ensures refused { IfErr result (AreEntriesUnprinted (node_entries entries.now)) }
{
    for (key, value) in entries {
        out.key(name_of(key.as_slice())?)?;
        push_node(alloc, out, value)?;
    }
    Ok(out.end_object()?)
}

// Appends an integer in decimal.
fn push_integer(alloc: Global, out: &mut Writer, integer: i128) -> Result<(), NotationFault>
    ensures pushes { Pushes out.old out.new (integer_tokens integer) result }
    ensures refused { IfErr result (λ e. e ≡ NotationFault.Memory) }
{
    let digits = format!(in alloc; "{integer}")?;
    Ok(out.number(digits.as_str())?)
}

// Returns a name or a label as text.
fn name_of(bytes: &[u8]) -> Result<&str, NotationFault>
    ensures same { IfOk result (λ text. text.now ≡ bytes.now) }
    ensures refused { IfErr result (λ e. (e ≡ NotationFault.Name) × ¬ IsUtf8 bytes.now) }
{
    match str::from_utf8(bytes) {
        Ok(text) => Ok(text),
        Err(_) => Err(NotationFault::Name),
    }
}
