//! Prints items in place as DAG-JSON.

ghost use Rattle.std.specs.Prelude.{OnOk, IfOk, IfErr};
ghost use Rattle.ix_cbor.specs.Data.{text as text_data};
ghost use Rattle.ix_cbor.specs.Fronts.{HasCid};
ghost use Rattle.ix_dag_json.specs.Shown.{Appends, Shows, IsKeyText};
ghost use Rattle.ix_dag_json.specs.Lack.{IsLack, IsKeyLack, IsStepTo};
ghost use Rattle.ix_dag_json.specs.Place.{IsReadable, AreReadable, HasReadableEntries, HaveReadableValues, IsLeaf, leaf_data};
ghost use Rattle.ix_dag_json.specs.Place.{Prints, PrintsItems, PrintsEntries, PlacesShow};
ghost use Rattle.ix_dag_json.specs.Place.{ItemLacks, ItemsLack, EntriesLack, PlacesLack};

use crate::fault::{DagJsonFault, Step, Wrong};
use crate::item::front_at;
use crate::leaf::{push_bytes, push_float, push_integer, push_link};
use crate::order::{Entry, entries_at, sorted};
use crate::output::Output;
use ix_cbor::Front;
use ix_cid::CidRef;
use json::Token;
use std::alloc::{AllocError, Global};

// The key of links and bytes, which no map may have.
const RESERVED: &[u8] = b"/";

// Appends the tokens of the item that begins here, the entries of each map by the bytes of their keys, and
// returns the bytes after it. Lists and maps may nest so deep in it.
#[cycle(push_item)]
pub(crate) fn push_item<'a>(
    alloc: Global,
    out: &mut Output,
    at: &'a [u8],
    levels: u32,
) -> Result<&'a [u8], DagJsonFault>
    requires { IsReadable levels at.now }
    ensures shown { IfOk result (λ rest. Prints levels at.now out.old out.new rest.now) }
    ensures refused { IfErr result (ItemLacks levels at.now) }
{
    let (front, rest) = front_at(at);
    match front {
        Front::List(count) => {
            out.token(Token::BeginArray)?;
            push_items(alloc, out, rest, count, levels - 1)
        }
        Front::Map(count) => {
            out.token(Token::BeginObject)?;
            push_entries(alloc, out, rest, count, levels - 1)
        }
        _ => {
            push_leaf(alloc, out, front)?;
            Ok(rest)
        }
    }
}

// Appends so many elements of a list, which begin here, and the closing bracket, and returns the bytes
// after them.
#[cycle(push_item)]
fn push_items<'a>(
    alloc: Global,
    out: &mut Output,
    at: &'a [u8],
    count: u64,
    levels: u32,
) -> Result<&'a [u8], DagJsonFault>
    requires { AreReadable levels count at.now }
    ensures shown { IfOk result (λ rest. PrintsItems levels count at.now out.old out.new rest.now) }
    ensures refused { IfErr result (ItemsLack levels count at.now) }
{
    let mut rest = at;
    for index in 0..count {
        match push_item(alloc, out, rest, levels) {
            Ok(behind) => rest = behind,
            Err(fault) => return Err(fault.under(Ok(Step::Index(index as usize)))),
        }
    }
    out.token(Token::EndArray)?;
    Ok(rest)
}

// Appends so many entries of a map, which begin here, by the bytes of their keys, and the closing brace, and
// returns the bytes after them.
#[cycle(push_item)]
fn push_entries<'a>(
    alloc: Global,
    out: &mut Output,
    at: &'a [u8],
    count: u64,
    levels: u32,
) -> Result<&'a [u8], DagJsonFault>
    requires { HasReadableEntries levels count at.now }
    ensures shown { IfOk result (λ rest. PrintsEntries levels count at.now out.old out.new rest.now) }
    ensures refused { IfErr result (EntriesLack levels count at.now) }
{
    let (entries, rest) = entries_at(alloc, at, count, levels)?;
    push_places(alloc, out, sorted(entries).as_slice(), levels)?;
    Ok(rest)
}

// Appends entries in place, as they are given, and the closing brace.
#[cycle(push_item)]
fn push_places(
    alloc: Global,
    out: &mut Output,
    entries: &[Entry<'_>],
    levels: u32,
) -> Result<(), DagJsonFault>
    requires { HaveReadableValues levels entries.now }
    ensures shown { OnOk result (Appends (PlacesShow levels entries.now) out.old out.new) }
    ensures refused { IfErr result (PlacesLack levels entries.now) }
{
    for entry in entries {
        let name = key_text(alloc, entry.key)?;
        out.token(Token::Key(name))?;
        if let Err(fault) = push_item(alloc, out, entry.value, levels) {
            return Err(fault.under(step_of(alloc, entry.key)));
        }
    }
    Ok(out.token(Token::EndObject)?)
}

// Appends the token of an item that is neither a list nor a map.
fn push_leaf(alloc: Global, out: &mut Output, front: Front<'_>) -> Result<(), DagJsonFault>
    requires leaf { IsLeaf front }
    requires cid { HasCid front }
    ensures shown { OnOk result (Appends (Shows (leaf_data front.entry)) out.old out.new) }
    ensures refused { IfErr result (IsLack (leaf_data front.entry)) }
{
    match front {
        Front::Null => Ok(out.token(Token::Null)?),
        Front::Bool(truth) => Ok(out.token(Token::Bool(truth))?),
        Front::Int(number) => Ok(push_integer(alloc, out, number)?),
        Front::Bits64(bits) => push_float(alloc, out, bits),
        Front::Bytes(bytes) => Ok(push_bytes(alloc, out, bytes)?),
        Front::Text(text) => push_text(alloc, out, text),
        Front::Link(cid) => Ok(push_link(alloc, out, CidRef::of(cid))?),
        Front::List(_) | Front::Map(_) => unreachable!(),
    }
}

// Returns the step to the value of a key.
fn step_of(alloc: Global, key: &[u8]) -> Result<Step, AllocError>
    ensures { IfOk result (IsStepTo key.now) }
{
    Ok(Step::Key(Vec::from_slice(alloc, key)?))
}

// Returns a key as text.
fn key_text(alloc: Global, key: &[u8]) -> Result<&str, DagJsonFault>
    ensures text { IfOk result (λ text. IsKeyText key.now text.now) }
    ensures refused { IfErr result (IsKeyLack key.now) }
{
    if key == RESERVED {
        return Err(DagJsonFault::here(alloc, Wrong::Reserved));
    }
    match str::from_utf8(key) {
        Ok(text) => Ok(text),
        Err(_) => {
            let key = Vec::from_slice(alloc, key)?;
            Err(DagJsonFault::here(alloc, Wrong::Key(key)))
        }
    }
}

// Appends text.
fn push_text(alloc: Global, out: &mut Output, text: &[u8]) -> Result<(), DagJsonFault>
    ensures shown { OnOk result (Appends (Shows (text_data text.now)) out.old out.new) }
    ensures refused { IfErr result (IsLack (text_data text.now)) }
{
    match str::from_utf8(text) {
        Ok(text) => Ok(out.token(Token::String(text))?),
        Err(_) => Err(DagJsonFault::here(alloc, Wrong::Text)),
    }
}
