//! Selectors that obey the rules on edges.

ghost use Rattle.std.specs.Prelude.{◌≡◌, IfOk};
ghost use Rattle.std.specs.Arc.{arc_value};
ghost use Rattle.ix_selector.specs.Pattern.{pattern_of, matcher, everything, IsSelector};
ghost use Rattle.ix_selector.specs.Reading.{selector_of};
ghost use Rattle.ix_selector.specs.Laid.{IsTable, IsRootOf, IsSound};
ghost use Rattle.ix_selector.specs.Behind.{inside_of};
ghost use Rattle.ix_selector.specs.Gives.{Gives};

use crate::fault::SelFault;
use crate::read;
use crate::sel::Sel;
use crate::selector_node::{SelectorNode, push_nodes};
use ix_cbor::Tree;
use std::alloc::{AllocError, Global};
use std::marker::Model;
use std::sync::Arc;

/// A selector in which every edge is in a recursion with a step between, and which nests at most
/// 128 deep.
#[derive(Debug)]
pub struct Selector {
    // Shared with the residuals that own them.
    nodes: Arc<Vec<SelectorNode>>,
    root: usize,
}

// Written by hand: a derived drop is inlined in each function that drops one, at each of its exits.
impl Drop for Selector {
    fn drop(self) {
        let Selector { nodes, root: _ } = self;
        drop(nodes);
    }
}

impl Model for Selector {
    ghost use Rattle.std.specs.Arc.{arc_value};
    ghost use Rattle.ix_selector.specs.Pattern.{Pattern};
    ghost use Rattle.ix_selector.specs.PatternCode.{coded_pattern};
    ghost use Rattle.ix_selector.specs.Places.{at, places_of};
    ghost use Rattle.ix_selector.specs.Laid.{IsTableOf};

    ghost Value = { Pattern };

    ghost coded = { coded_pattern };

    ghost view = { λ s. at (places_of (arc_value s.nodes).items) s.root };

    ghost invariant = { λ s. IsTableOf (arc_value s.nodes).items s.root };
}

// Reads the tree of a selector from data.
fn sel_of(alloc: Global, tree: &Tree) -> Result<Sel, SelFault>
    ensures exact { Gives pattern_of result (selector_of tree.now) }
    ensures sound { IfOk result (λ sel. IsSound (pattern_of sel)) }
{
    read::selector_of(alloc, tree.root())
}

// Does the same for a tree, which is dropped.
fn sel_of_owned(alloc: Global, tree: Tree) -> Result<Sel, SelFault>
    ensures exact { Gives pattern_of result (selector_of tree) }
    ensures sound { IfOk result (λ sel. IsSound (pattern_of sel)) }
{
    sel_of(alloc, &tree)
}

impl Selector {
    /// Reads the selector that a tree spells, or returns the first error.
    pub fn read(alloc: Global, tree: &Tree) -> Result<Selector, SelFault>
        ensures exact { Gives (λ s. s) result (selector_of tree.now) }
        ensures selector { IfOk result (λ s. IsSelector s) }
    {
        let sel = sel_of(alloc, tree)?;
        Ok(Selector::laid(alloc, &sel)?)
    }

    /// Does the same, and drops the tree as soon as it is read, so a large tree and what is made of
    /// it aren't in memory together.
    pub fn read_owned(alloc: Global, tree: Tree) -> Result<Selector, SelFault>
        ensures exact { Gives (λ s. s) result (selector_of tree) }
        ensures selector { IfOk result (λ s. IsSelector s) }
    {
        let sel = sel_of_owned(alloc, tree)?;
        Ok(Selector::laid(alloc, &sel)?)
    }

    /// Makes the matcher: it selects the root alone, and continues nowhere. As JSON it is `{".":{}}`, and as
    /// DAG-CBOR in hex `a1612ea0`. The only error is out of memory.
    pub fn matcher(alloc: Global) -> Result<Selector, AllocError>
        ensures { IfOk result (λ s. s ≡ matcher) }
    {
        Selector::laid(alloc, &Sel::Matcher)
    }

    /// Makes the selector of everything: a recursion with no limit, which continues at every child and so
    /// follows every link at any depth. As JSON it is `{"R":{"l":{"none":{}},":>":{"a":{">":{"@":{}}}}}}`, and
    /// as DAG-CBOR in hex `a16152a2616ca1646e6f6e65a0623a3ea16161a1613ea16140a0`. The only error is out of
    /// memory.
    pub fn everything(alloc: Global) -> Result<Selector, AllocError>
        ensures { IfOk result (λ s. s ≡ everything) }
    {
        let sequence = Sel::All(Box::new(alloc, Sel::Edge)?);
        let sel = Sel::Recursive(None, Box::new(alloc, sequence)?);
        Selector::laid(alloc, &sel)
    }

    // Builds the table of a selector.
    fn laid(alloc: Global, sel: &Sel) -> Result<Selector, AllocError>
        requires { IsSound (pattern_of sel.now) }
        ensures { IfOk result (λ s. s ≡ pattern_of sel.now) }
    {
        let mut nodes = Vec::new(alloc);
        let root = push_nodes(alloc, sel, &mut nodes)?;
        let nodes = Arc::new(alloc, nodes)?;
        Ok(Selector { nodes, root })
    }

    /// Its places, with their owner, and the number of its own.
    pub(crate) fn places(&self) -> (&Arc<Vec<SelectorNode>>, &[SelectorNode], usize)
        ensures shared { (arc_value result.0.now).items ≡ result.1.now }
        ensures table { IsTable result.1.now }
        ensures whole { result.2 ≡ inside_of self.now }
        ensures root { IsRootOf result.1.now self.now result.2 }
        ensures selector { IsSelector self.now }
    {
        (&self.nodes, self.nodes.as_slice(), self.root)
    }
}
