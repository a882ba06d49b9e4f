//! The text of a path.

ghost use Rattle.std.specs.Prelude.{◌≤◌, length};
ghost use Rattle.ix_path.specs.Path.{root_of, segments_at, path_of, view_of, segments_view};
ghost use Rattle.ix_path.specs.Gives.{Gives};

use crate::error::PathError;
use crate::percent::unescape;
use ix_cid::Cid;
use ix_cid_text::{CidTextFault, locate, parse, split_piece};
use std::alloc::Global;

/// How many segments a path has at most, if everything below its end is selected: the selector of
/// that nests 128 deep.
pub const MOST_SEGMENTS: usize = 125;

/// How many segments a path has at most, if its end alone is selected.
pub const GREATEST_SEGMENTS: usize = 127;

/// A path: a root and the segments after it.
#[derive(Debug, Drop)]
pub struct RootPath {
    pub root: Cid,
    /// The segments in their order, as bytes, which may be no UTF-8.
    pub segments: Vec<Vec<u8>>,
}

impl RootPath {
    /// Parses a path of at most so many segments: `CID`, or `CID/` and segments with one `/` between, or a
    /// URL with these, as `ix_cid_text` reads them. One `/` at the end adds no segment. In a segment `%`
    /// and two hex digits are one byte, and every other byte is itself, `..` too, and outside of a URL
    /// `?` and `#`.
    pub fn parse(alloc: Global, text: &str, most: usize) -> Result<RootPath, PathError>
        ensures { Gives view_of result (path_of most text.now) }
    {
        let place = locate(text);
        let root = root_of(alloc, place.cid)?;
        let segments = segments_at(alloc, place.path, place.end)?;
        if segments.len() > most {
            return Err(PathError::TooManySegments(most));
        }
        Ok(RootPath { root, segments })
    }
}

// Returns the CID of a text.
fn root_of(alloc: Global, text: &str) -> Result<Cid, PathError>
    ensures { Gives (λ cid. cid) result (root_of text.now) }
{
    match parse(alloc, text) {
        Ok(cid) => Ok(cid),
        Err(CidTextFault::Memory) => Err(PathError::Memory),
        Err(fault) => Err(PathError::Cid(fault)),
    }
}

// Returns the segments of a text that ends at a place in the text of a path.
fn segments_at(alloc: Global, text: &str, end: usize) -> Result<Vec<Vec<u8>>, PathError>
    requires { length text.now ≤ end }
    ensures { Gives segments_view result (segments_at end text.now) }
{
    let mut segments = Vec::new(alloc);
    let mut rest = text;
    while !rest.is_empty() {
        let (piece, after) = split_piece(rest);
        let segment = unescape(alloc, piece.as_bytes(), end - rest.len())?;
        segments.push(segment)?;
        rest = after;
    }
    Ok(segments)
}
