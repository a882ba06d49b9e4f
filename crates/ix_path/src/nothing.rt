//! Selectors that enter nothing.

ghost use Rattle.std.specs.Prelude.{◌≡◌, [], IfOk};
ghost use Rattle.ix_selector.specs.IsEntered.{is_entered};
ghost use Rattle.ix_selector.specs.Pattern.{union, no_members, IsSelector};

use crate::selector_node::one_key;
use ix_cbor::{Node, Tree};
use ix_selector::{Residual, SelFault, Selector};
use std::alloc::{AllocError, Global};

// Reads the union of no selectors, whose residual is empty.
fn empty_union(alloc: Global) -> Result<Selector, AllocError>
    ensures { IfOk result (λ s. s ≡ union no_members) }
{
    let node = one_key(alloc, b"|", Node::List(Vec::new(alloc)))?;
    let Ok(tree) = Tree::new(node) else {
        unreachable!();
    };
    match Selector::read(alloc, &tree) {
        Ok(selector) => Ok(selector),
        Err(fault) => match fault {
            SelFault::Memory => Err(AllocError),
            _ => unreachable!(),
        },
    }
}

// Whether a selector enters its own place. One that doesn't enters nothing, as the empty union.
pub(crate) fn enters_its_place(alloc: Global, selector: &Selector) -> Result<bool, AllocError>
    requires { IsSelector selector.now }
    ensures { IfOk result (λ enters. enters ≡ is_entered selector.now []) }
{
    let nothing = empty_union(alloc)?;
    let none = Residual::start(alloc, &nothing)?;
    let left = Residual::start(alloc, selector)?;
    Ok(!left.is_same(&none))
}
