//! What a path meets where it leads no further.

use crate::node::PathNode;
use ix_verdict::Verdict;
use std::fmt;

/// What there is where a path leads no further.
#[derive(Debug, Drop)]
pub enum Obstacle<'a> {
    /// A link to a block that can't be read, by the verdict on its CID.
    Block(Verdict),
    /// A map that has no such key.
    Map(PathNode<'a>),
    /// A list of so many elements, of which the segment is no index.
    List(u64),
    /// A node of this kind, which has no children.
    Scalar(Kind),
}

/// The kind of a node that has no children (IPLD Data Model).
#[derive(Debug, Drop, Clone, Copy, PartialEq, Eq)]
pub enum Kind {
    Null,
    Boolean,
    Integer,
    Float,
    String,
    Bytes,
    /// A link that isn't crossed, since `MOST_LINKS` were crossed right before it.
    Link,
}

impl fmt::Display for Kind {
    ghost use Rattle.std.specs.Prelude.{Some};
    ghost use Rattle.ix_path.specs.Words.{kind_word};

    ghost output = { λ kind. Some (kind_word kind) };

    fn fmt<W: fmt::Write>(&self, f: &mut fmt::Formatter<W>) -> fmt::Result {
        match self {
            Kind::Null => f.write_str("null"),
            Kind::Boolean => f.write_str("boolean"),
            Kind::Integer => f.write_str("integer"),
            Kind::Float => f.write_str("float"),
            Kind::String => f.write_str("string"),
            Kind::Bytes => f.write_str("bytes"),
            Kind::Link => f.write_str("link"),
        }
    }
}
