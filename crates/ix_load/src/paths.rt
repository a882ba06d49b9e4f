//! Paths after the CIDs of roots: how they are given, where they lead, and the selector to there.

use crate::cause::{code_of_verdict, verdict_line};
use crate::roots::MATCHER;
use clap::error::ErrorKind;
use hex::FromHexError;
use ix_cbor::{CborKind, Front, Tree, decode, read_front, read_key, skip_item};
use ix_cid::Cid;
use ix_cli_io::{ErrorCode, Failure, Stop};
use ix_jobs::SelectorWord;
use ix_options::CommandSpec;
use ix_path::{
    NodeBytes, Obstacle, PathEnd, PathError, PathNode, PathSelectorFault, PathStep, Resolution,
    RootPath, index_of, resolve, selector_along, selector_by_segments, steps_along,
};
use ix_selector_json::{NotationFault, fault_line};
use ix_store::Store;
use ix_verdict::Verdict;
use std::alloc::{AllocError, Global};
use std::fmt::Write;
use std::str;

// How many keys of a map are named at most.
const MOST_KEYS: usize = 20;

// How many bytes of a segment or a key are shown at most.
const MOST_SHOWN: usize = 256;

// How many bytes the selector along a path that isn't resolved has at most, and about how many a step adds
// to its segment.
const MOST_SELECTOR: usize = 128 * 1024;

const STEP_SIZE: usize = 12;

/// Roots with a path, which is the same for all.
#[derive(Drop)]
pub struct RootPaths {
    paths: Vec<RootPath>,
}

/// Why there is no selector to where paths lead.
#[derive(Drop)]
pub enum Unresolved {
    /// There is something else instead, or the paths lead along different steps.
    Stopped(Stop),
    /// The path and the selector at its end nest more than 128 deep together.
    TooDeep,
    /// Memory ran out.
    Memory,
}

impl From<AllocError> for Unresolved {
    fn from(_error: AllocError) -> Unresolved {
        Unresolved::Memory
    }
}

impl RootPaths {
    /// Parses roots with commas between them, of which each may have a path of at most so many segments,
    /// and appends the segments that have an option of their own.
    pub fn given(
        alloc: Global,
        spec: &'static CommandSpec,
        option: &str,
        roots: &str,
        names: &[&str],
        most: usize,
    ) -> Result<RootPaths, Failure> {
        let mut paths = Vec::new(alloc);
        for root in roots.split(',') {
            match parsed(alloc, root, names, most) {
                Ok(path) => paths.push(path)?,
                Err(error) => {
                    let is_later = !paths.is_empty();
                    return Err(unread_root(alloc, spec, option, root, error, is_later)?);
                }
            }
        }
        let roots = RootPaths { paths };
        if !roots.are_alike() {
            let why = format!(in alloc;
                "roots have one path in common: give one `{}` per path",
                spec.name
            )?;
            return Err(Failure::from(refused_root(alloc, spec, option, why.as_str())?));
        }
        Ok(roots)
    }

    /// Makes those of one root with this path.
    pub fn of(alloc: Global, path: RootPath) -> Result<RootPaths, AllocError> {
        let mut paths = Vec::with_capacity(alloc, 1)?;
        paths.push(path)?;
        Ok(RootPaths { paths })
    }

    // Whether all roots have the same path.
    fn are_alike(&self) -> bool {
        let Some(first) = self.paths.first() else {
            return true;
        };
        self.paths
            .iter()
            .all(|path| path.segments == first.segments)
    }

    /// Whether there are segments, so that the path leads on from the block of a root.
    pub fn leads_on(&self) -> bool {
        self.paths.iter().any(|path| !path.segments.is_empty())
    }

    /// Returns the CIDs of the roots.
    pub fn cids(&self, alloc: Global) -> Result<Vec<Cid>, AllocError> {
        let mut cids = Vec::with_capacity(alloc, self.paths.len())?;
        for path in &self.paths {
            cids.push(path.root.try_clone(alloc)?)?;
        }
        Ok(cids)
    }

    /// Returns the selector, in hex, that goes from each root to where its path leads in the store, and
    /// there is that of a word, which has this hex. Without segments it is that one, whether the roots are
    /// there or not.
    pub fn selector_hex(
        &self,
        alloc: Global,
        store: &Store,
        word: &SelectorWord<'_>,
        inner: &str,
    ) -> Result<String, Unresolved> {
        if !self.leads_on() {
            return Ok(String::from_str(alloc, inner)?);
        }
        let Some(path) = self.paths.first() else {
            return Ok(String::from_str(alloc, inner)?);
        };
        let resolved = self.steps(alloc, store)?;
        let steps = steps_along(alloc, resolved.as_slice(), path.segments.as_slice())?;
        let end = path_end(alloc, word, inner)?;
        hex_of(alloc, selector_along(alloc, steps.as_slice(), end))
    }

    /// Returns the selector, in hex, that goes from each root along its path before its blocks are known,
    /// and there is that of a word, which has this hex. A segment that is a number is followed as a key and
    /// as an index, so it doubles the selector, which may not become too large.
    pub fn unresolved_hex(
        &self,
        alloc: Global,
        word: &SelectorWord<'_>,
        inner: &str,
    ) -> Result<String, Unresolved> {
        let Some(path) = self.paths.first() else {
            return Ok(String::from_str(alloc, inner)?);
        };
        let segments = path.segments.as_slice();
        let size = size_by_segments(segments, inner.len() / 2);
        if size > MOST_SELECTOR {
            let count = segments
                .iter()
                .filter(|segment| index_of(segment.as_slice()).is_some())
                .count();
            let line = format!(in alloc;
                "the selector of the path has over {MOST_SELECTOR} bytes, since each of its {count} numbers, a key or an index, doubles it"
            )?;
            return Err(Unresolved::Stopped(Stop::new(ErrorCode::Path, line)));
        }
        let end = path_end(alloc, word, inner)?;
        hex_of(alloc, selector_by_segments(alloc, segments, end))
    }

    /// Returns the roots with their paths.
    pub fn into_paths(self) -> Vec<RootPath> {
        self.paths
    }

    // Returns the steps from each root to where its path leads in the store, which are the same for all.
    fn steps(&self, alloc: Global, store: &Store) -> Result<Vec<PathStep>, Unresolved> {
        let mut steps = Vec::new(alloc);
        for path in &self.paths {
            let found = resolve(alloc, store, &path.root, path.segments.as_slice())?;
            if let Err(obstacle) = &found.end {
                return Err(Unresolved::Stopped(obstacle_stop(
                    alloc, store, path, &found, obstacle,
                )?));
            }
            if !steps.is_empty() && steps != found.steps {
                let line = String::from_str(
                    alloc,
                    "the path is by keys from one root and by indexes from another: give one `get` per root",
                )?;
                return Err(Unresolved::Stopped(Stop::new(ErrorCode::Path, line)));
            }
            steps = found.steps;
        }
        Ok(steps)
    }
}

/// Parses a root with a path of at most so many segments, and appends segments to it.
pub fn path_of(
    alloc: Global,
    spec: &'static CommandSpec,
    option: &str,
    text: &str,
    names: &[&str],
    most: usize,
) -> Result<RootPath, Failure> {
    match parsed(alloc, text, names, most) {
        Ok(path) => Ok(path),
        Err(error) => Err(unread_root(alloc, spec, option, text, error, false)?),
    }
}

// Parses a root with a path of at most so many segments, these among them.
fn parsed(alloc: Global, text: &str, names: &[&str], most: usize) -> Result<RootPath, PathError> {
    let mut path = RootPath::parse(alloc, text, most)?;
    for name in names {
        path.segments
            .push(Vec::from_slice(alloc, name.as_bytes())?)?;
    }
    if path.segments.len() > most {
        return Err(PathError::TooManySegments(most));
    }
    Ok(path)
}

// Makes the failure for a text that is no root with a path. What follows a comma may belong to the path
// before it.
fn unread_root(
    alloc: Global,
    spec: &'static CommandSpec,
    option: &str,
    text: &str,
    error: PathError,
    is_later: bool,
) -> Result<Failure, AllocError> {
    let why = match error {
        PathError::Memory => return Err(AllocError),
        PathError::Cid(_) if is_later => {
            format!(in alloc; "'{text}' after a comma: {error}; a comma in a path is %2C")?
        }
        _ => format!(in alloc; "'{text}': {error}")?,
    };
    Ok(Failure::from(refused_root(alloc, spec, option, why.as_str())?))
}

// Returns about how many bytes the selector along segments has, if the one at their end has so many.
fn size_by_segments(segments: &[Vec<u8>], end: usize) -> usize {
    let mut size = end;
    for segment in segments.iter().rev() {
        size = size.saturating_add(segment.len()).saturating_add(STEP_SIZE);
        if index_of(segment.as_slice()).is_some() {
            size = size.saturating_mul(2);
        }
    }
    size
}

// Returns a selector in hex, or why there is none.
fn hex_of(alloc: Global, made: Result<Vec<u8>, PathSelectorFault>) -> Result<String, Unresolved> {
    match made {
        Ok(block) => Ok(hex::encode(alloc, block.as_slice())?),
        Err(PathSelectorFault::TooDeep) => Err(Unresolved::TooDeep),
        Err(PathSelectorFault::Memory) => Err(Unresolved::Memory),
        Err(PathSelectorFault::End(fault)) => {
            Err(refused_selector(alloc, &NotationFault::Selector(fault))?)
        }
    }
}

// Makes the error for a root.
fn refused_root(
    alloc: Global,
    spec: &'static CommandSpec,
    option: &str,
    why: &str,
) -> Result<clap::Error, AllocError> {
    let message = format!(in alloc; "invalid value for '{option}': {why}")?;
    spec.refusal(alloc, ErrorKind::ValueValidation, message.as_str())
}

/// Returns what there is where a path leads no further: which segment isn't there, in which block, and what
/// is there instead.
pub fn obstacle_stop(
    alloc: Global,
    store: &Store,
    path: &RootPath,
    found: &Resolution<'_>,
    obstacle: &Obstacle<'_>,
) -> Result<Stop, AllocError> {
    let cid = match found.blocks.last() {
        Some(cid) => cid.text(alloc)?,
        None => path.root.text(alloc)?,
    };
    let mut stop = Stop::new(
        code_of(obstacle),
        obstacle_line(alloc, store, path, found, obstacle)?,
    );
    stop.cid = Some(cid);
    stop.path = Some(path_text(alloc, path)?);
    Ok(stop)
}

// Returns what an obstacle is in a word.
fn code_of(obstacle: &Obstacle<'_>) -> ErrorCode {
    match obstacle {
        Obstacle::Block(verdict) => code_of_verdict(*verdict),
        Obstacle::Map(_) => ErrorCode::NoKey,
        Obstacle::List(_) => ErrorCode::NoIndex,
        Obstacle::Scalar(_) => ErrorCode::NoChild,
    }
}

/// Returns the text of a path: its root, and its segments after it.
pub fn path_text(alloc: Global, path: &RootPath) -> Result<String, AllocError> {
    let mut text = path.root.text(alloc)?;
    for segment in &path.segments {
        write!(text, "/{}", segment_text(alloc, segment.as_slice())?)?;
    }
    Ok(text)
}

// Returns the line of what there is where a path leads no further.
fn obstacle_line(
    alloc: Global,
    store: &Store,
    path: &RootPath,
    found: &Resolution<'_>,
    obstacle: &Obstacle<'_>,
) -> Result<String, AllocError> {
    let cid = found.blocks.last().unwrap_or(&path.root);
    let block = cid.text(alloc)?;
    let segment = match path.segments.get(found.steps.len()) {
        Some(segment) => segment_text(alloc, segment.as_slice())?,
        None => String::new(alloc),
    };
    match obstacle {
        Obstacle::Block(verdict) => verdict_line(alloc, store, *verdict, cid),
        Obstacle::Map(map) => {
            let keys = keys_text(alloc, map)?;
            format!(in alloc; "no key `{segment}` in {block}: {keys}")
        }
        Obstacle::List(count) => {
            format!(in alloc; "no index `{segment}` in {block}: there is a list of {count}")
        }
        Obstacle::Scalar(kind) => {
            format!(in alloc; "nothing at `{segment}` in {block}: there is a value of kind {kind}")
        }
    }
}

// Returns which keys a map has, the first of them.
fn keys_text(alloc: Global, map: &PathNode<'_>) -> Result<String, AllocError> {
    let NodeBytes::DagCbor(bytes) = map.bytes() else {
        return Ok(String::new(alloc));
    };
    let Ok((Front::Map(count), mut rest)) = read_front(bytes) else {
        return Ok(String::new(alloc));
    };
    if count == 0 {
        return String::from_str(alloc, "there is an empty map");
    }
    let mut text = String::from_str(alloc, "it has ")?;
    let named = count.min(MOST_KEYS as u64);
    for number in 0..named {
        let Ok((key, value)) = read_key(None, rest) else {
            return Ok(text);
        };
        if number > 0 {
            text.push_str(", ")?;
        }
        write!(text, "`{}`", segment_text(alloc, key)?)?;
        match skip_item(value) {
            Ok(after) => rest = after,
            Err(_) => return Ok(text),
        }
    }
    if count > named {
        write!(text, " and {} more", count - named)?;
    }
    Ok(text)
}

// Returns a segment as it is typed in a path: what divides paths, blanks, and what a terminal doesn't show
// are percent-escaped. A long one is cut.
fn segment_text(alloc: Global, segment: &[u8]) -> Result<String, AllocError> {
    let mut text = String::new(alloc);
    let mut size: usize = 0;
    if let Ok(whole) = str::from_utf8(segment) {
        for character in whole.chars() {
            size = size.saturating_add(character.len_utf8());
            if size > MOST_SHOWN {
                text.push_str("..")?;
                return Ok(text);
            }
            if is_escaped(character) {
                push_escaped(alloc, &mut text, character)?;
            } else {
                text.push(character)?;
            }
        }
        return Ok(text);
    }
    for byte in segment {
        size = size.saturating_add(1);
        if size > MOST_SHOWN {
            text.push_str("..")?;
            return Ok(text);
        }
        if byte.is_ascii() && !is_escaped(char::from(*byte)) {
            text.push(char::from(*byte))?;
        } else {
            write!(text, "%{byte:02X}")?;
        }
    }
    Ok(text)
}

// Appends the bytes of a character in UTF-8, each percent-escaped.
fn push_escaped(alloc: Global, text: &mut String, character: char) -> Result<(), AllocError> {
    let mut spelled = String::new(alloc);
    spelled.push(character)?;
    for byte in spelled.as_bytes() {
        write!(text, "%{byte:02X}")?;
    }
    Ok(())
}

// Whether a character is escaped in the text of a segment: it divides paths, or is a blank or a control
// character, or hidden: the marks of bidirectional text, and what has no width.
fn is_escaped(character: char) -> bool {
    character.is_control()
        || matches!(
            character,
            ' ' | '%' | '/' | ',' | '?' | '#' | '`'
                | '\u{a0}'
                | '\u{ad}'
                | '\u{34f}'
                | '\u{61c}'
                | '\u{115f}'
                | '\u{1160}'
                | '\u{1680}'
                | '\u{17b4}'
                | '\u{17b5}'
                | '\u{180b}'..='\u{180f}'
                | '\u{2000}'..='\u{200f}'
                | '\u{2028}'..='\u{202f}'
                | '\u{205f}'..='\u{206f}'
                | '\u{3000}'
                | '\u{3164}'
                | '\u{fe00}'..='\u{fe0f}'
                | '\u{feff}'
                | '\u{ffa0}'
                | '\u{fff0}'..='\u{fffb}'
                | '\u{e0000}'..='\u{e0fff}'
        )
}

// Returns what is selected where a path ends: what a word selects, whose selector has this hex.
fn path_end(alloc: Global, word: &SelectorWord<'_>, hex: &str) -> Result<PathEnd, Unresolved> {
    match word {
        SelectorWord::Everything => Ok(PathEnd::Everything),
        SelectorWord::Hex(text) if *text == MATCHER => Ok(PathEnd::Node),
        _ => match selector_tree(alloc, hex) {
            Ok(tree) => Ok(PathEnd::Selector(tree)),
            Err(NotationFault::Memory) => Err(Unresolved::Memory),
            Err(fault) => Err(refused_selector(alloc, &fault)?),
        },
    }
}

// Returns the tree that hex spells in DAG-CBOR.
fn selector_tree(alloc: Global, text: &str) -> Result<Tree, NotationFault> {
    let bytes = match hex::decode(alloc, text.as_bytes()) {
        Ok(bytes) => bytes,
        Err(FromHexError::OutOfMemory) => return Err(NotationFault::Memory),
        Err(_) => return Err(NotationFault::Hex),
    };
    match decode(alloc, bytes.as_slice()) {
        Ok(tree) => Ok(tree),
        Err(fault) if fault.kind == CborKind::Memory => Err(NotationFault::Memory),
        Err(fault) => Err(NotationFault::Block(fault)),
    }
}

// Makes the error for what is no selector.
fn refused_selector(alloc: Global, fault: &NotationFault) -> Result<Unresolved, AllocError> {
    let line = fault_line(alloc, fault)?;
    Ok(Unresolved::Stopped(Stop::new(ErrorCode::Job, line)))
}
