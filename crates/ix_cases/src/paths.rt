//! Paths, where they lead, and the selectors along them.

use anyhow::{Error, Result, bail};
use ix_case_formats::selectors::tree_of;
use ix_case_formats::texts::{hex_of, two_words};
use ix_path::{
    End, MOST_SEGMENTS, NodeBytes, Obstacle, PathEnd, PathStep, Resolution, RootPath, resolve,
    selector_along, steps_along,
};
use ix_store::Store;
use std::alloc::{AllocError, Global};

/// `path MOST TEXT = SEGMENT SEGMENT ..` of a path with at most so many segments, in hex, `none`, or the error
pub fn path(alloc: Global, input: &str) -> Result<String> {
    let (most, text) = two_words(input)?;
    match RootPath::parse(alloc, text, most.parse::<usize>()?) {
        Ok(path) => text_of_segments(alloc, path.segments.as_slice()),
        Err(error) => error.to_string(alloc).map_err(Error::from),
    }
}

// Segments in hex, with a space between.
fn text_of_segments(alloc: Global, segments: &[Vec<u8>]) -> Result<String> {
    if segments.is_empty() {
        return String::from_str(alloc, "none").map_err(Error::from);
    }
    let mut texts = Vec::new(alloc);
    for segment in segments {
        texts.push(hex_of(alloc, segment.as_slice())?)?;
    }
    texts.join(alloc, " ").map_err(Error::from)
}

/// `lead PATH = BLOCKS STEPS END`: how many blocks the path is through, `k` for each segment that is a key and the
/// number of each index, `-` for none, and the node at the end or what there is in its place
pub fn lead(alloc: Global, store: &Store, input: &str) -> Result<String> {
    match RootPath::parse(alloc, input, MOST_SEGMENTS) {
        Ok(path) => text_of_path(alloc, store, &path),
        Err(error) => bail!("no path: {error}"),
    }
}

// The same of a path that was read.
fn text_of_path(alloc: Global, store: &Store, path: &RootPath) -> Result<String> {
    let found = resolve(alloc, store, &path.root, path.segments.as_slice())?;
    text_of_resolution(alloc, &found)
}

// `BLOCKS STEPS END`
fn text_of_resolution(alloc: Global, found: &Resolution) -> Result<String> {
    let blocks = found.blocks.len();
    let steps = text_of_steps(alloc, found.steps.as_slice())?;
    let end = text_of_end(alloc, &found.end)?;
    format!(in alloc; "{blocks} {steps} {end}").map_err(Error::from)
}

// `k` for each key and the number of each index, `-` for none.
fn text_of_steps(alloc: Global, steps: &[PathStep]) -> Result<String, AllocError> {
    let mut text = String::new(alloc);
    for step in steps {
        match step {
            PathStep::Key => text.push('k')?,
            PathStep::Index(place) => write!(text, "{place}")?,
        }
    }
    if steps.is_empty() {
        text.push('-')?;
    }
    Ok(text)
}

// The node at the end in hex, after `raw` where it is a raw block, or what there is in its place.
fn text_of_end(alloc: Global, end: &End) -> Result<String> {
    match end {
        Ok(node) => text_of_node(alloc, node.bytes()),
        Err(obstacle) => text_of_obstacle(alloc, obstacle).map_err(Error::from),
    }
}

fn text_of_node(alloc: Global, bytes: NodeBytes<'_>) -> Result<String> {
    match bytes {
        NodeBytes::DagCbor(bytes) => hex_of(alloc, bytes),
        NodeBytes::Raw(bytes) => {
            let text = hex_of(alloc, bytes)?;
            format!(in alloc; "raw {text}").map_err(Error::from)
        }
    }
}

fn text_of_obstacle(alloc: Global, obstacle: &Obstacle) -> Result<String, AllocError> {
    match obstacle {
        Obstacle::Block(verdict) => verdict.to_string(alloc),
        Obstacle::Map(_) => String::from_str(alloc, "map"),
        Obstacle::List(count) => format!(in alloc; "list of {count}"),
        Obstacle::Scalar(kind) => kind.to_string(alloc),
    }
}

/// `along STEPS END = HEX` or the error: the steps have a `/` between, digits are an index and anything else a key, `-`
/// are none; the end is `node`, `everything` or a selector
pub fn along(alloc: Global, input: &str) -> Result<String> {
    let (steps, end) = two_words(input)?;
    let (resolved, segments) = steps_of(alloc, steps)?;
    let end = path_end_of(alloc, end)?;
    text_of_selector(alloc, resolved.as_slice(), segments.as_slice(), end)
}

// The steps of a text, and their segments.
fn steps_of(alloc: Global, text: &str) -> Result<(Vec<PathStep>, Vec<Vec<u8>>)> {
    let (mut steps, mut segments) = (Vec::new(alloc), Vec::new(alloc));
    if text == "-" {
        return Ok((steps, segments));
    }
    for name in text.split('/') {
        steps.push(step_of(name))?;
        segments.push(Vec::from_slice(alloc, name.as_bytes())?)?;
    }
    Ok((steps, segments))
}

fn step_of(name: &str) -> PathStep {
    match name.parse::<u64>() {
        Ok(place) => PathStep::Index(place),
        Err(_) => PathStep::Key,
    }
}

fn path_end_of(alloc: Global, text: &str) -> Result<PathEnd> {
    match text {
        "node" => Ok(PathEnd::Node),
        "everything" => Ok(PathEnd::Everything),
        _ => Ok(PathEnd::Selector(tree_of(alloc, text)?)),
    }
}

// The selector along steps in hex, or the error.
fn text_of_selector(
    alloc: Global,
    resolved: &[PathStep],
    segments: &[Vec<u8>],
    end: PathEnd,
) -> Result<String> {
    let steps = steps_along(alloc, resolved, segments)?;
    match selector_along(alloc, steps.as_slice(), end) {
        Ok(block) => hex_of(alloc, block.as_slice()),
        Err(fault) => format!(in alloc; "{fault:?}").map_err(Error::from),
    }
}
