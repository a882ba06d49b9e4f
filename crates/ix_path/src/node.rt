//! Nodes in place in their blocks.

use crate::item::front_at;
use ix_cbor::Front;
use ix_cid::CidRef;
use std::marker::Model;

/// The bytes of a node, in place in its block.
#[derive(Debug, Clone, Copy)]
pub enum NodeBytes<'a> {
    /// A raw block, which is a byte string.
    Raw(&'a [u8]),
    /// The DAG-CBOR spelling of the node.
    DagCbor(&'a [u8]),
}

/// A node in place in its block. Contracts see it as data.
#[derive(Debug, Drop)]
pub struct PathNode<'a> {
    is_raw: bool,
    bytes: &'a [u8],
}

impl<'a> Model for PathNode<'a> {
    ghost use Rattle.ix_cbor.specs.Data.{Data};
    ghost use Rattle.ix_cbor.specs.DataCode.{coded_data};
    ghost use Rattle.ix_path.specs.Node.{data_in, IsNode};

    ghost Value = { Data };

    ghost coded = { coded_data };

    ghost view = { λ n. data_in n.is_raw n.bytes.now };

    ghost invariant = { λ n. IsNode n.is_raw n.bytes.now };
}

impl<'a> PathNode<'a> {
    ghost use Rattle.std.specs.Prelude.{◌≡◌};
    ghost use Rattle.ix_path.specs.Node.{data_in, link_of, IsNode};
    ghost use Rattle.ix_path.specs.NodeBytes.{AreBytesOf};

    // The node of these bytes: raw, or a DAG-CBOR spelling.
    pub(crate) fn of(is_raw: bool, bytes: &'a [u8]) -> PathNode<'a>
        requires { IsNode is_raw bytes.now }
        ensures { result ≡ data_in is_raw bytes.now }
    {
        PathNode { is_raw, bytes }
    }

    /// The bytes of the node, in place in its block.
    pub fn bytes(&self) -> NodeBytes<'a>
        ensures { AreBytesOf result self.now }
    {
        if self.is_raw {
            NodeBytes::Raw(self.bytes)
        } else {
            NodeBytes::DagCbor(self.bytes)
        }
    }

    // The same node, in the same place.
    pub(crate) fn duplicate(&self) -> PathNode<'a>
        ensures { result ≡ self.now }
    {
        PathNode {
            is_raw: self.is_raw,
            bytes: self.bytes,
        }
    }

    // The CID of a link.
    pub(crate) fn link(&self) -> Option<CidRef<'a>>
        ensures { result ≡ link_of self.now }
    {
        if self.is_raw {
            return None;
        }
        let (front, _) = front_at(self.bytes);
        match front {
            Front::Link(cid) => Some(CidRef::of(cid)),
            _ => None,
        }
    }
}
