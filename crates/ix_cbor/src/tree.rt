//! Trees: nodes that have a spelling.

ghost use Rattle.std.specs.Prelude.{◌≡◌};

use crate::canonical::is_canonical;
use crate::node::Node;
use std::marker::Model;

/// A node that has a spelling. Contracts see it as data.
pub struct Tree {
    node: Node,
}

// Written by hand: a derived drop is inlined in each function that drops one, at each of its exits.
impl Drop for Tree {
    fn drop(self) {
        let Tree { node } = self;
        drop(node);
    }
}

impl Model for Tree {
    ghost use Rattle.ix_cbor.specs.Data.{Data, data_of};
    ghost use Rattle.ix_cbor.specs.Spelling.{IsCanonical};
    ghost use Rattle.ix_cbor.specs.DataCode.{coded_data};

    ghost Value = { Data };

    ghost coded = { coded_data };

    ghost view = { λ t. data_of t.node };

    ghost invariant = { λ t. IsCanonical (data_of t.node) };
}

impl Tree {
    ghost use Rattle.std.specs.Prelude.{IfOk, IfErr};
    ghost use Rattle.ix_cbor.specs.Data.{Data, data_of};
    ghost use Rattle.ix_cbor.specs.Spelling.{IsCanonical};

    /// Makes a tree of a node that has a spelling, or returns the node: one with an integer below
    /// -2^64 or above 2^64 - 1, with a float that is infinite or NaN, with a map whose keys don't
    /// rise (the shorter key comes first, keys of one length are ordered by their bytes, and no key
    /// occurs twice), or with lists and maps that nest more than 512 deep.
    pub fn new(node: Node) -> Result<Tree, Node>
        ensures ok { IfOk result (λ t. t ≡ data_of node) }
        ensures canonical { IfOk result (λ t. IsCanonical (data_of node)) }
        ensures err { IfErr result (λ n. n ≡ node) }
        ensures none { IfErr result (λ n. ¬ IsCanonical (data_of node)) }
    {
        if is_canonical(&node) {
            Ok(Tree { node })
        } else {
            Err(node)
        }
    }

    // Makes a tree of a node that has a spelling.
    pub(crate) fn of_canonical(node: Node) -> Tree
        requires { IsCanonical (data_of node) }
        ensures { result ≡ data_of node }
    {
        Tree { node }
    }

    /// The node.
    pub fn root(&self) -> &Node
        ensures root { data_of result.now ≡ self.now }
        ensures canonical { IsCanonical self.now }
    {
        &self.node
    }

    /// Returns the node.
    pub fn into_root(self) -> Node
        ensures root { data_of result ≡ self }
        ensures canonical { IsCanonical self }
    {
        let Tree { node: root } = self;
        root
    }
}
