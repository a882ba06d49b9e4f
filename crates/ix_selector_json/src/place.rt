//! Finds the part of a selector that is rejected.
//!
//! `Selector::read` returns the first error without a place, since data has no places. This module visits
//! the data in the same order, up to the part that is rejected.

use crate::location::{Location, Wrong};
use ix_cbor::Node;
use std::alloc::{AllocError, Global};

// The deepest nesting of a selector, itself counted.
const LEVELS: u32 = 128;

// What is around a selector: no recursion, or the innermost one, with a step between or none.
#[derive(Drop, Clone, Copy)]
enum Around {
    Outside,
    Unguarded,
    Guarded,
}

// A form without an error of its own, with what is inside, or an error.
#[derive(Drop, Clone, Copy)]
enum Part<'t> {
    Leaf,
    // A selector after a path.
    Inside(&'static str, &'t Node, Around),
    Fields(&'t [(Vec<u8>, Node)]),
    Members(&'t [Node]),
    Faulty(&'static str, Wrong<'t>),
}

/// Returns the first part of data that is rejected as a selector, if there is one.
pub(crate) fn first_fault(alloc: Global, node: &Node) -> Result<Option<Location>, AllocError> {
    match only(node, b"selector") {
        Some(inner) => {
            let found = in_selector(alloc, inner, Around::Outside, LEVELS)?;
            below(alloc, "/selector", found)
        }
        None => in_selector(alloc, node, Around::Outside, LEVELS),
    }
}

// Returns the value of the only key.
fn only<'t>(node: &'t Node, key: &[u8]) -> Option<&'t Node> {
    let Node::Map(entries) = node else {
        return None;
    };
    match entries.as_slice() {
        [(name, value)] if name.as_slice() == key => Some(value),
        _ => None,
    }
}

// Returns the first error of a selector that nests at most so deep.
#[cycle(places)]
fn in_selector(
    alloc: Global,
    node: &Node,
    around: Around,
    levels: u32,
) -> Result<Option<Location>, AllocError> {
    if levels == 0 {
        return Ok(Some(Location::new(alloc, "", Wrong::Deep)?));
    }
    match part_of(node, around) {
        Part::Leaf => Ok(None),
        Part::Faulty(path, wrong) => Ok(Some(Location::new(alloc, path, wrong)?)),
        Part::Inside(path, inner, around) => {
            let found = in_selector(alloc, inner, around, levels - 1)?;
            below(alloc, path, found)
        }
        Part::Fields(names) => {
            let found = in_fields(alloc, names, around_step(around), levels - 1)?;
            below(alloc, "/f/f>", found)
        }
        Part::Members(members) => {
            let found = in_members(alloc, members, around, levels - 1)?;
            below(alloc, "/|", found)
        }
    }
}

// Returns the first error of the selectors of names.
#[cycle(places)]
fn in_fields(
    alloc: Global,
    names: &[(Vec<u8>, Node)],
    around: Around,
    levels: u32,
) -> Result<Option<Location>, AllocError> {
    for (name, node) in names {
        if let Some(location) = in_selector(alloc, node, around, levels)? {
            return Ok(Some(location.below_key(alloc, name.as_slice())?));
        }
    }
    Ok(None)
}

// Returns the first error of the members of a union.
#[cycle(places)]
fn in_members(
    alloc: Global,
    members: &[Node],
    around: Around,
    levels: u32,
) -> Result<Option<Location>, AllocError> {
    for (at, node) in members.iter().enumerate() {
        if let Some(location) = in_selector(alloc, node, around, levels)? {
            let path = format!(in alloc; "/{at}")?;
            return Ok(Some(location.below(alloc, path.as_str())?));
        }
    }
    Ok(None)
}

// Returns what was found, with a path before it.
fn below(
    alloc: Global,
    path: &str,
    found: Option<Location>,
) -> Result<Option<Location>, AllocError> {
    match found {
        Some(location) => Ok(Some(location.below(alloc, path)?)),
        None => Ok(None),
    }
}

// Returns what is around the selector after a step.
fn around_step(around: Around) -> Around {
    match around {
        Around::Outside => Around::Outside,
        Around::Unguarded | Around::Guarded => Around::Guarded,
    }
}

// Returns the form of a selector by its own key and the keys of its body.
fn part_of(node: &Node, around: Around) -> Part<'_> {
    let Node::Map(entries) = node else {
        return Part::Faulty("", Wrong::Value);
    };
    match entries.as_slice() {
        [(key, body)] => form_of(key.as_slice(), body, around),
        entries => Part::Faulty("", Wrong::of_one(entries)),
    }
}

fn form_of<'t>(key: &'t [u8], body: &'t Node, around: Around) -> Part<'t> {
    let step = around_step(around);
    match key {
        b"." => matcher(body),
        b"a" => with_keys(body, "/a", &[b">"], "/a/>", step),
        b"f" => fields(body),
        b"i" => with_keys(body, "/i", &[b">", b"i"], "/i/>", step),
        b"r" => with_keys(body, "/r", &[b"$", b">", b"^"], "/r/>", step),
        b"R" => recursive(body),
        b"|" => match body {
            Node::List(members) => Part::Members(members.as_slice()),
            _ => Part::Faulty("/|", Wrong::Value),
        },
        b"@" => edge(body, around),
        b"&" | b"~" => Part::Faulty("", Wrong::Value),
        _ => Part::Faulty("", Wrong::Unknown(key)),
    }
}

// Checks a form whose body has exactly these keys, of which `>` has the selector inside, and the others
// integers.
fn with_keys<'t>(
    body: &'t Node,
    at: &'static str,
    keys: &[&'static [u8]],
    inside: &'static str,
    step: Around,
) -> Part<'t> {
    let Node::Map(entries) = body else {
        return Part::Faulty(at, Wrong::Value);
    };
    if let Some(wrong) = Wrong::of_keys(entries, keys) {
        return Part::Faulty(at, wrong);
    }
    // The start of a range is checked before its end.
    for (key, path) in [(b"i", "/i/i"), (b"^", "/r/^"), (b"$", "/r/$")] {
        if let Some(value) = value_of(entries, key)
            && !is_integer(value)
        {
            return Part::Faulty(path, Wrong::Value);
        }
    }
    match value_of(entries, b">") {
        Some(next) => Part::Inside(inside, next, step),
        None => Part::Leaf,
    }
}

// Checks a matcher, which may have a label, a text.
fn matcher(body: &Node) -> Part<'_> {
    let Node::Map(entries) = body else {
        return Part::Faulty("/.", Wrong::Value);
    };
    for (key, value) in entries {
        if key.as_slice() != b"label".as_slice() {
            return Part::Faulty("/.", Wrong::Field(key.as_slice()));
        }
        let Node::Text(_) = value else {
            return Part::Faulty("/./label", Wrong::Value);
        };
    }
    Part::Leaf
}

fn fields(body: &Node) -> Part<'_> {
    let Node::Map(entries) = body else {
        return Part::Faulty("/f", Wrong::Value);
    };
    if let Some(wrong) = Wrong::of_keys(entries, &[b"f>"]) {
        return Part::Faulty("/f", wrong);
    }
    match value_of(entries, b"f>") {
        Some(Node::Map(names)) => Part::Fields(names.as_slice()),
        _ => Part::Faulty("/f/f>", Wrong::Value),
    }
}

// Checks a recursion: the limit before the sequence.
fn recursive(body: &Node) -> Part<'_> {
    let Node::Map(entries) = body else {
        return Part::Faulty("/R", Wrong::Value);
    };
    if value_of(entries, b"!").is_some() {
        return Part::Faulty("/R/!", Wrong::Value);
    }
    if let Some(wrong) = Wrong::of_keys(entries, &[b"l", b":>"]) {
        return Part::Faulty("/R", wrong);
    }
    match (value_of(entries, b"l"), value_of(entries, b":>")) {
        (Some(limit), Some(sequence)) => match limit_fault(limit) {
            Some((path, wrong)) => Part::Faulty(path, wrong),
            None => Part::Inside("/R/:>", sequence, Around::Unguarded),
        },
        _ => Part::Leaf,
    }
}

// Returns what is wrong with a limit, which is `none` with an empty map or `depth` with a number.
fn limit_fault(limit: &Node) -> Option<(&'static str, Wrong<'_>)> {
    let Node::Map(entries) = limit else {
        return Some(("/R/l", Wrong::Value));
    };
    let [(key, value)] = entries.as_slice() else {
        return Some(("/R/l", Wrong::of_one(entries)));
    };
    match key.as_slice() {
        b"none" => no_limit_fault(value),
        b"depth" => match value {
            Node::Int(0..=0xffff_ffff) => None,
            _ => Some(("/R/l/depth", Wrong::Value)),
        },
        key => Some(("/R/l", Wrong::Unknown(key))),
    }
}

// Returns what is wrong with the value of `none`, which is an empty map.
fn no_limit_fault(value: &Node) -> Option<(&'static str, Wrong<'_>)> {
    let Node::Map(entries) = value else {
        return Some(("/R/l/none", Wrong::Value));
    };
    match Wrong::of_keys(entries, &[]) {
        Some(wrong) => Some(("/R/l/none", wrong)),
        None => None,
    }
}

// Checks an edge, which has an empty body, and is after a step in a recursion.
fn edge(body: &Node, around: Around) -> Part<'_> {
    let Node::Map(entries) = body else {
        return Part::Faulty("/@", Wrong::Value);
    };
    if let Some(wrong) = Wrong::of_keys(entries, &[]) {
        return Part::Faulty("/@", wrong);
    }
    match around {
        Around::Guarded => Part::Leaf,
        Around::Outside | Around::Unguarded => Part::Faulty("", Wrong::Value),
    }
}

// Returns the value of a key.
fn value_of<'t>(entries: &'t [(Vec<u8>, Node)], key: &[u8]) -> Option<&'t Node> {
    for (name, value) in entries {
        if name.as_slice() == key {
            return Some(value);
        }
    }
    None
}

fn is_integer(node: &Node) -> bool {
    matches!(node, Node::Int(_))
}
