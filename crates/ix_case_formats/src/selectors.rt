//! Selectors, and what they enter.

use crate::nodes::node_of;
use crate::texts::{bytes_of_hex, two_words};
use anyhow::{Error, Result, bail};
use ix_cbor::{Tree, decode};
use ix_selector::{Residual, SelFault, Selector, Step};
use ix_selector_json::{NotationFault, fault_line, hex_of_json, json_of_hex};
use std::alloc::{AllocError, Global};

/// The selector for which a block in hex, or a node in diagnostic notation, stands.
pub fn selector_of(alloc: Global, text: &str) -> Result<Selector> {
    let tree = tree_of(alloc, text)?;
    match Selector::read(alloc, &tree) {
        Ok(selector) => Ok(selector),
        Err(fault) => bail!("no selector: {fault:?}"),
    }
}

/// The tree of a block in hex, or of a node in diagnostic notation.
pub fn tree_of(alloc: Global, text: &str) -> Result<Tree> {
    if text.starts_with('{') || text.starts_with('[') {
        return match Tree::new(node_of(alloc, text)?) {
            Ok(tree) => Ok(tree),
            Err(_) => bail!("no tree: {text}"),
        };
    }
    let bytes = bytes_of_hex(alloc, text)?;
    match decode(alloc, bytes.as_slice()) {
        Ok(tree) => Ok(tree),
        Err(fault) => bail!("no tree: {fault:?}"),
    }
}

/// `selector SELECTOR = ok` or the fault
pub fn selector(alloc: Global, input: &str) -> Result<String> {
    let tree = tree_of(alloc, input)?;
    text_of_reading(alloc, &tree).map_err(Error::from)
}

// `ok` where a tree stands for a selector, else the fault
fn text_of_reading(alloc: Global, tree: &Tree) -> Result<String, AllocError> {
    match fault_of(alloc, tree) {
        None => String::from_str(alloc, "ok"),
        Some(fault) => format!(in alloc; "{fault:?}"),
    }
}

// Returns why a tree is not a selector.
fn fault_of(alloc: Global, tree: &Tree) -> Option<SelFault> {
    Selector::read(alloc, tree).err()
}

/// `notation JSON = HEX` or a line of `fault_line`
pub fn notation(alloc: Global, input: &str) -> Result<String> {
    line_of(alloc, hex_of_json(alloc, input.as_bytes()))
}

/// `notation_of HEX = JSON` or such a line
pub fn notation_of(alloc: Global, input: &str) -> Result<String> {
    line_of(alloc, json_of_hex(alloc, input))
}

// The line that was printed, without its end, or that of the error.
fn line_of(alloc: Global, printed: Result<String, NotationFault>) -> Result<String> {
    match printed {
        Ok(line) => match line.as_str().strip_suffix('\n') {
            Some(line) => String::from_str(alloc, line).map_err(Error::from),
            None => bail!("no line end"),
        },
        Err(fault) => fault_line(alloc, &fault).map_err(Error::from),
    }
}

/// `step STEP/STEP/.. SELECTOR = 1 1 0`: whether each step leads to a child that is entered, up to the
/// first that doesn't. A step of digits is a position, any other a key; quotes make digits a key.
pub fn steps(alloc: Global, input: &str) -> Result<String> {
    let (path, selector) = two_words(input)?;
    let selector = selector_of(alloc, selector)?;
    let mut answer = String::new(alloc);
    push_steps(alloc, &mut answer, &selector, path)?;
    answer
        .as_str()
        .trim_end()
        .to_string(alloc)
        .map_err(Error::from)
}

// Appends whether each step of a path is entered, up to the first that isn't, with a space after it.
fn push_steps(
    alloc: Global,
    answer: &mut String,
    selector: &Selector,
    path: &str,
) -> Result<(), AllocError> {
    let mut residual = Residual::start(alloc, selector)?;
    for name in path.split('/') {
        match residual.step(alloc, &step_of(name))? {
            Some(next) => {
                residual = next;
                answer.push_str("1 ")?;
            }
            None => return answer.push_str("0 "),
        }
    }
    Ok(())
}

// The step of a name.
fn step_of(name: &str) -> Step<'_> {
    match name.parse::<u64>() {
        Ok(position) => Step::Pos(position),
        Err(_) => {
            let key = name.strip_prefix('"').unwrap_or(name);
            Step::Key(key.strip_suffix('"').unwrap_or(key).as_bytes())
        }
    }
}
