//! The children of a node.

ghost use Rattle.std.specs.Prelude.{◌≡◌, ◌<◌, ◌^◌, Some, SomeIff, true};
ghost use Rattle.std.specs.Char.{is_ascii_digit};
ghost use Rattle.std.specs.List.{list_all};
ghost use Rattle.std.specs.Str.Parse.{digits_value};
ghost use Rattle.ix_cid.specs.Results.{Reads};
ghost use Rattle.ix_cbor.specs.Data.{Data, Items, Entries};
ghost use Rattle.ix_path.specs.Node.{IsItemAt, AreItemsAt, AreEntriesAt};
ghost use Rattle.ix_path.specs.Children.{is_index, nth_item, value_of_key, child_of};

use crate::item::{front_at, key_at, skipped};
use crate::node::{NodeBytes, PathNode};
use crate::obstacle::{Kind, Obstacle};
use crate::step::PathStep;
use ix_cbor::Front;
use std::str;

// Returns the child that a segment names and the step to it, or what there is instead.
pub(crate) fn child<'a>(
    node: &PathNode<'a>,
    segment: &[u8],
) -> Result<(PathStep, PathNode<'a>), Obstacle<'a>>
    ensures { Reads (λ r. (r.0, r.1)) result (child_of node.now segment.now) }
{
    let NodeBytes::DagCbor(bytes) = node.bytes() else {
        return Err(Obstacle::Scalar(Kind::Bytes));
    };
    let (front, rest) = front_at(bytes);
    match front {
        Front::List(count) => match index_below(segment, count) {
            Some(index) => Ok((PathStep::Index(index), element_at(rest, count, index))),
            None => Err(Obstacle::List(count)),
        },
        Front::Map(count) => match value_at(rest, count, segment) {
            Some(value) => Ok((PathStep::Key, value)),
            None => Err(Obstacle::Map(node.duplicate())),
        },
        Front::Null => Err(Obstacle::Scalar(Kind::Null)),
        Front::Bool(_) => Err(Obstacle::Scalar(Kind::Boolean)),
        Front::Int(_) => Err(Obstacle::Scalar(Kind::Integer)),
        Front::Bits64(_) => Err(Obstacle::Scalar(Kind::Float)),
        Front::Bytes(_) => Err(Obstacle::Scalar(Kind::Bytes)),
        Front::Text(_) => Err(Obstacle::Scalar(Kind::String)),
        Front::Link(_) => Err(Obstacle::Scalar(Kind::Link)),
    }
}

// Returns the node whose spelling begins here.
fn node_at(at: &[u8]) -> PathNode<'_>
    requires { (d : Data) × IsItemAt at.now d }
    ensures { (d : Data) → IsItemAt at.now d → result ≡ d }
{
    let rest = skipped(at);
    PathNode::of(false, &at[..at.len() - rest.len()])
}

// Returns the element with an index, of a list of so many elements that begin here.
fn element_at<'a>(at: &'a [u8], count: u64, index: u64) -> PathNode<'a>
    requires items { (ds : Items) × AreItemsAt count at.now ds }
    requires within { index < count }
    ensures { (ds : Items) → AreItemsAt count at.now ds → nth_item index ds ≡ Some result }
{
    let mut rest = at;
    for _ in 0..index {
        rest = skipped(rest);
    }
    node_at(rest)
}

// Returns the value of a key, of a map of so many entries that begin here.
fn value_at<'a>(at: &'a [u8], count: u64, key: &[u8]) -> Option<PathNode<'a>>
    requires { (es : Entries) × AreEntriesAt count at.now es }
    ensures { (es : Entries) → AreEntriesAt count at.now es → result ≡ value_of_key key.now es }
{
    let mut rest = at;
    for _ in 0..count {
        let (name, value) = key_at(rest);
        if name == key {
            return Some(node_at(value));
        }
        rest = skipped(value);
    }
    None
}

// Returns the index that a segment is, if it is below a count.
fn index_below(segment: &[u8], count: u64) -> Option<u64>
    ensures { SomeIff result ((is_index segment.now ≡ true) × (digits_value 10 segment.now < count))
        (digits_value 10 segment.now) }
{
    let index = index_of(segment)?;
    if index < count { Some(index) } else { None }
}

/// Returns the index that a segment is as a number: decimal digits without a leading zero, below 2^64.
pub fn index_of(segment: &[u8]) -> Option<u64>
    ensures { SomeIff result ((is_index segment.now ≡ true) × (digits_value 10 segment.now < 2 ^ 64))
        (digits_value 10 segment.now) }
{
    if !is_index(segment) {
        return None;
    }
    str::from_utf8(segment).ok()?.parse().ok()
}

// Whether a segment is an index.
fn is_index(segment: &[u8]) -> bool
    ensures { result ≡ is_index segment.now }
{
    if segment.is_empty() {
        return false;
    }
    let is_number = is_digits(segment);
    is_number && (segment[0] != b'0' || segment.len() == 1)
}

// Whether each byte is a decimal digit.
fn is_digits(text: &[u8]) -> bool
    ensures { result ≡ list_all is_ascii_digit text.now }
{
    text.iter().all(|byte| byte.is_ascii_digit())
}
