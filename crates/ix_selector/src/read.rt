//! The parts of reading a selector.

ghost use Rattle.std.specs.Prelude.{◌≡◌};
ghost use Rattle.ix_cid.specs.Results.{Reads};
ghost use Rattle.ix_cbor.specs.Data.{data_of};
ghost use Rattle.ix_selector.specs.Pattern.{pattern_of, after_step};
ghost use Rattle.ix_selector.specs.Reading.{integer_of, entries_of_map, one_of, two_of, has_key, limit_of, matcher_of, all_read, fields_form, index_form, range_form, recursive_form, union_form, edge_form, read_with, selector_at, without_envelope, selector_of};
ghost use Rattle.ix_selector.specs.Views.{seen_fields, seen_members};
ghost use Rattle.ix_selector.specs.Gives.{Gives};
ghost use Rattle.ix_selector.specs.Shapes.{around_of, form_named, two_nodes, three_nodes, entries_data, in_map, none_limit, depth_limit, range_parts, selector_in, selector_above, fields_at, members_at, inside, Forms, FormsIn};

use crate::fault::{Form, SelFault};
use crate::sel::Sel;
use ix_cbor::Node;
use std::alloc::Global;

// How deep a selector may nest, counting itself.
const LEVELS: u32 = 128;

// What surrounds a selector: no recursion, or the innermost one with or without a step between.
#[derive(Drop, Clone, Copy)]
enum Around {
    Outside,
    Unguarded,
    Guarded,
}

// A form with the nodes inside, which are still to be read.
#[derive(Drop, Clone, Copy)]
enum Shape<'t> {
    Matcher,
    All(&'t Node),
    Fields(&'t [(Vec<u8>, Node)]),
    Index(i128, &'t Node),
    Range(i128, i128, &'t Node),
    Recursive(Option<u32>, &'t Node),
    Union(&'t [Node]),
    Edge,
}

// Returns what surrounds a selector after one more step.
fn around_step(around: Around) -> Around
    ensures { around_of result ≡ after_step (around_of around) }
{
    match around {
        Around::Outside => Around::Outside,
        Around::Unguarded | Around::Guarded => Around::Guarded,
    }
}

fn integer(node: &Node) -> Result<i128, SelFault>
    ensures { Reads (λ n. n) result (integer_of (data_of node.now)) }
{
    match node {
        Node::Int(number) => Ok(*number),
        _ => Err(SelFault::Kind),
    }
}

fn map_entries(node: &Node) -> Result<&[(Vec<u8>, Node)], SelFault>
    ensures { Reads (λ es. entries_data es.now) result (entries_of_map (data_of node.now)) }
{
    match node {
        Node::Map(entries) => Ok(entries.as_slice()),
        _ => Err(SelFault::Kind),
    }
}

// Returns the value of the only key.
fn only<'t>(entries: &'t [(Vec<u8>, Node)], key: &[u8]) -> Result<&'t Node, SelFault>
    ensures { Reads (λ d. data_of d.now) result (one_of key.now (entries_data entries.now)) }
{
    let [(name, value)] = entries else {
        return Err(SelFault::Keys);
    };
    if name.as_slice() == key {
        Ok(value)
    } else {
        Err(SelFault::Keys)
    }
}

// Returns the values of two keys, in the order of DAG-CBOR.
fn both<'t>(
    entries: &'t [(Vec<u8>, Node)],
    first: &[u8],
    second: &[u8],
) -> Result<(&'t Node, &'t Node), SelFault>
    ensures { Reads two_nodes result (two_of first.now second.now (entries_data entries.now)) }
{
    let [(name, value), rest @ ..] = entries else {
        return Err(SelFault::Keys);
    };
    if name.as_slice() == first {
        Ok((value, only(rest, second)?))
    } else {
        Err(SelFault::Keys)
    }
}

// Returns the values of the three keys of a range.
fn range_parts(entries: &[(Vec<u8>, Node)]) -> Result<(&Node, &Node, &Node), SelFault>
    ensures { Reads three_nodes result (range_parts (entries_data entries.now)) }
{
    let [(name, value), rest @ ..] = entries else {
        return Err(SelFault::Keys);
    };
    if name.as_slice() == b"$".as_slice() {
        let (second, third) = both(rest, b">", b"^")?;
        Ok((value, second, third))
    } else {
        Err(SelFault::Keys)
    }
}

// Reads a matcher, which may have a label, a string.
fn matcher(body: &Node) -> Result<Shape<'_>, SelFault>
    ensures { Forms result (λ _ _. in_map matcher_of) (data_of body.now) }
{
    for (name, value) in map_entries(body)? {
        if name.as_slice() != b"label".as_slice() {
            return Err(SelFault::Unsupported(Form::MatcherField));
        }
        let Node::Text(_) = value else {
            return Err(SelFault::Kind);
        };
    }
    Ok(Shape::Matcher)
}

fn all(body: &Node) -> Result<Shape<'_>, SelFault>
    ensures { Forms result (λ read around. in_map (all_read read around)) (data_of body.now) }
{
    Ok(Shape::All(only(map_entries(body)?, b">")?))
}

fn fields(body: &Node) -> Result<Shape<'_>, SelFault>
    ensures { Forms result (λ read around. in_map (fields_form read around)) (data_of body.now) }
{
    let names = only(map_entries(body)?, b"f>")?;
    Ok(Shape::Fields(map_entries(names)?))
}

fn index(body: &Node) -> Result<Shape<'_>, SelFault>
    ensures { Forms result (λ read around. in_map (index_form read around)) (data_of body.now) }
{
    let (next, position) = both(map_entries(body)?, b">", b"i")?;
    Ok(Shape::Index(integer(position)?, next))
}

// Reads a range. Its start is tested before its end.
fn range(body: &Node) -> Result<Shape<'_>, SelFault>
    ensures { Forms result (λ read around. in_map (range_form read around)) (data_of body.now) }
{
    let (end, next, start) = range_parts(map_entries(body)?)?;
    let start = integer(start)?;
    let end = integer(end)?;
    Ok(Shape::Range(start, end, next))
}

fn union(body: &Node) -> Result<Shape<'_>, SelFault>
    ensures { Forms result union_form (data_of body.now) }
{
    match body {
        Node::List(members) => Ok(Shape::Union(members.as_slice())),
        _ => Err(SelFault::Kind),
    }
}

fn edge(body: &Node, around: Around) -> Result<Shape<'_>, SelFault>
    ensures { FormsIn around result (λ _ around. in_map (edge_form around)) (data_of body.now) }
{
    let [] = map_entries(body)? else {
        return Err(SelFault::Keys);
    };
    match around {
        Around::Outside => Err(SelFault::EdgeOutside),
        Around::Unguarded => Err(SelFault::EdgeUnguarded),
        Around::Guarded => Ok(Shape::Edge),
    }
}

// Reads a limit: `none` with an empty map, or `depth` with a number below 2 ^ 32.
fn limit(node: &Node) -> Result<Option<u32>, SelFault>
    ensures { Reads (λ l. l) result (limit_of (data_of node.now)) }
{
    let [(name, value)] = map_entries(node)? else {
        return Err(SelFault::Keys);
    };
    if name.as_slice() == b"none".as_slice() {
        no_limit(value)
    } else if name.as_slice() == b"depth".as_slice() {
        depth(value)
    } else {
        Err(SelFault::Unknown)
    }
}

fn no_limit(node: &Node) -> Result<Option<u32>, SelFault>
    ensures { Reads (λ l. l) result (none_limit (data_of node.now)) }
{
    match map_entries(node)? {
        [] => Ok(None),
        _ => Err(SelFault::Keys),
    }
}

fn depth(node: &Node) -> Result<Option<u32>, SelFault>
    ensures { Reads (λ l. l) result (depth_limit (data_of node.now)) }
{
    match u32::try_from(integer(node)?) {
        Ok(depth) => Ok(Some(depth)),
        Err(_) => Err(SelFault::Depth),
    }
}

fn has_key(entries: &[(Vec<u8>, Node)], key: &[u8]) -> bool
    ensures { result ≡ has_key key.now (entries_data entries.now) }
{
    entries.iter().any(|(name, _)| name.as_slice() == key)
}

fn recursive(body: &Node) -> Result<Shape<'_>, SelFault>
    ensures { Forms result (λ read _. in_map (recursive_form read)) (data_of body.now) }
{
    let entries = map_entries(body)?;
    if has_key(entries, b"!") {
        return Err(SelFault::Unsupported(Form::StopAt));
    }
    let (within, sequence) = both(entries, b"l", b":>")?;
    Ok(Shape::Recursive(limit(within)?, sequence))
}

// Reads the form that a key names, with its body.
fn shape_named<'t>(key: &[u8], body: &'t Node, around: Around) -> Result<Shape<'t>, SelFault>
    ensures { FormsIn around result (form_named key.now) (data_of body.now) }
{
    let [letter] = key else {
        return Err(SelFault::Unknown);
    };
    match letter {
        b'.' => matcher(body),
        b'a' => all(body),
        b'f' => fields(body),
        b'i' => index(body),
        b'r' => range(body),
        b'R' => recursive(body),
        b'|' => union(body),
        b'@' => edge(body, around),
        b'&' => Err(SelFault::Unsupported(Form::Conditional)),
        b'~' => Err(SelFault::Unsupported(Form::InterpretAs)),
        _ => Err(SelFault::Unknown),
    }
}

fn shape_of(node: &Node, around: Around) -> Result<Shape<'_>, SelFault>
    ensures { FormsIn around result read_with (data_of node.now) }
{
    let Node::Map(entries) = node else {
        return Err(SelFault::NotMap);
    };
    let [(key, body)] = entries.as_slice() else {
        return Err(SelFault::Keys);
    };
    shape_named(key.as_slice(), body, around)
}

// Reads a selector that nests at most `levels` deep, counting itself.
#[cycle(levels)]
fn selector_at(alloc: Global, node: &Node, around: Around, levels: u32) -> Result<Sel, SelFault>
    ensures { Gives pattern_of result (selector_in levels around node.now) }
{
    if levels == 0 {
        Err(SelFault::Nesting)
    } else {
        selector_with(alloc, node, around, levels - 1)
    }
}

#[cycle(levels)]
fn selector_with(alloc: Global, node: &Node, around: Around, levels: u32) -> Result<Sel, SelFault>
    ensures { Gives pattern_of result (selector_above levels around node.now) }
{
    let shape = shape_of(node, around)?;
    selector_inside(alloc, shape, around, levels)
}

#[cycle(levels)]
fn selector_inside(
    alloc: Global,
    shape: Shape<'_>,
    around: Around,
    levels: u32,
) -> Result<Sel, SelFault>
    ensures { Gives pattern_of result (inside (selector_at levels) (around_of around) shape.entry) }
{
    let behind = around_step(around);
    match shape {
        Shape::Matcher => Ok(Sel::Matcher),
        Shape::All(next) => Ok(Sel::All(boxed(alloc, next, behind, levels)?)),
        Shape::Fields(names) => Ok(Sel::Fields(fields_inside(alloc, names, behind, levels)?)),
        Shape::Index(position, next) => Ok(Sel::Index(
            Box::new(alloc, position)?,
            boxed(alloc, next, behind, levels)?,
        )),
        Shape::Range(start, end, next) => Ok(Sel::Range(
            Box::new(alloc, (start, end))?,
            boxed(alloc, next, behind, levels)?,
        )),
        Shape::Recursive(limit, sequence) => Ok(Sel::Recursive(
            limit,
            boxed(alloc, sequence, Around::Unguarded, levels)?,
        )),
        Shape::Union(members) => Ok(Sel::Union(members_inside(alloc, members, around, levels)?)),
        Shape::Edge => Ok(Sel::Edge),
    }
}

#[cycle(levels)]
fn boxed(alloc: Global, node: &Node, around: Around, levels: u32) -> Result<Box<Sel>, SelFault>
    ensures { Gives (λ b. pattern_of b.value) result (selector_in levels around node.now) }
{
    let sel = selector_at(alloc, node, around, levels)?;
    Ok(Box::new(alloc, sel)?)
}

#[cycle(levels)]
fn fields_inside(
    alloc: Global,
    names: &[(Vec<u8>, Node)],
    around: Around,
    levels: u32,
) -> Result<Vec<(Vec<u8>, Sel)>, SelFault>
    ensures { Gives (λ v. seen_fields v.items) result (fields_at levels around names.now) }
{
    let mut fields = Vec::with_capacity(alloc, names.len())?;
    for (name, node) in names {
        let sel = selector_at(alloc, node, around, levels)?;
        fields.push((Vec::from_slice(alloc, name)?, sel))?;
    }
    Ok(fields)
}

#[cycle(levels)]
fn members_inside(
    alloc: Global,
    nodes: &[Node],
    around: Around,
    levels: u32,
) -> Result<Vec<Sel>, SelFault>
    ensures { Gives (λ v. seen_members v.items) result (members_at levels around nodes.now) }
{
    let mut members = Vec::with_capacity(alloc, nodes.len())?;
    for node in nodes {
        let sel = selector_at(alloc, node, around, levels)?;
        members.push(sel)?;
    }
    Ok(members)
}

// Returns what is in the envelope, or the node itself.
fn without_envelope(node: &Node) -> &Node
    ensures { data_of result.now ≡ without_envelope (data_of node.now) }
{
    let Node::Map(entries) = node else {
        return node;
    };
    let [(key, inner)] = entries.as_slice() else {
        return node;
    };
    if key.as_slice() == b"selector".as_slice() {
        inner
    } else {
        node
    }
}

/// Reads the selector that a node spells, or returns the first error.
pub(crate) fn selector_of(alloc: Global, node: &Node) -> Result<Sel, SelFault>
    ensures { Gives pattern_of result (selector_of (data_of node.now)) }
{
    selector_at(alloc, without_envelope(node), Around::Outside, LEVELS)
}
