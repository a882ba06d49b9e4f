//! The links in a block.

ghost use Rattle.std.specs.Prelude.{IfOk};
ghost use Rattle.ix_walk.specs.Expansion.{IsBlock, AreLinksIn};

use crate::{Frontier, PendingLink, enter_block, next_found};
use ix_selector::Residual;
use ix_store::Cursor;
use std::alloc::{AllocError, Global};

/// Returns the links in a block that a residual enters, in order, each at this depth.
pub fn expand<'a, 's>(
    alloc: Global,
    residual: Residual<'s>,
    block: Cursor<'a>,
    depth: u32,
) -> Result<Vec<PendingLink<'a, 's>>, AllocError>
    requires { IsBlock block }
    ensures { IfOk result (λ links. AreLinksIn block.entry residual.entry depth links.items) }
{
    let mut frontier = Frontier::new(alloc);
    let mut links = Vec::new(alloc);
    enter_block(alloc, &mut frontier, residual, Some(block), depth)?;
    while let Some(found) = next_found(alloc, &mut frontier)? {
        links.push(found)?;
    }
    Ok(links)
}
