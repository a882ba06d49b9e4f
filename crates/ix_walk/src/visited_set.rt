//! What a walk has expanded.

ghost use Rattle.std.specs.Prelude.{IfOk, ◌≡◌, false};
ghost use Rattle.ix_selector.specs.Behind.{same_residual};
ghost use Rattle.ix_walk.specs.VisitedSet.{HasExpandedNothing, IsNoted, IsNotedWhole, IsNotedBlock};

use ix_cid::Cid;
use ix_selector::{Residual, Selector};
use ix_store::PlaceSet;
use std::alloc::{AllocError, Global};
use std::collections::{BTreeMap, BTreeSet};

/// The CIDs that a walk has expanded or found nothing to expand in, each with the residual of the
/// selector there.
#[derive(Drop)]
pub struct VisitedSet<'a> {
    // The residual at a root. A selector of everything has it at every block.
    root_residual: Residual<'a>,
    // The positions of those with a block in the store, expanded with that residual.
    places: PlaceSet,
    // The positions of those with a block that were expanded with another residual, by the
    // residual.
    blocks: BTreeMap<Residual<'a>, BTreeSet<usize>>,
    // Those without a block in the store, such as identity CIDs.
    inline: BTreeSet<(Cid, Residual<'a>)>,
}

impl<'a> VisitedSet<'a> {
    /// Creates an empty set, for a walk by this selector.
    pub fn new(alloc: Global, selector: &'a Selector) -> Result<VisitedSet<'a>, AllocError>
        ensures { IfOk result (λ g. HasExpandedNothing g) }
    {
        Ok(VisitedSet {
            root_residual: Residual::start(alloc, selector)?,
            places: PlaceSet::new(alloc),
            blocks: BTreeMap::new(alloc),
            inline: BTreeSet::new(alloc),
        })
    }

    // Records a CID, whose block has this position. Returns whether it wasn't recorded with that
    // residual.
    pub(crate) fn insert(
        &mut self,
        alloc: Global,
        cid: &Cid,
        block: Option<usize>,
        residual: &Residual<'a>,
    ) -> Result<bool, AllocError>
        ensures { IfOk result (IsNoted self.old self.new block cid.now residual.now) }
    {
        match block {
            Some(place) if self.root_residual.is_same(residual) => self.insert_place(place),
            Some(place) => self.insert_block(alloc, place, residual),
            None => {
                let cid = cid.try_clone(alloc)?;
                let residual = residual.try_clone(alloc)?;
                Ok(self.inline.insert((cid, residual))?)
            }
        }
    }

    // Does the same for a block at a position, with the residual of a root.
    fn insert_place(&mut self, place: usize) -> Result<bool, AllocError>
        ensures { IsNotedWhole self.old self.new place result }
    {
        if self.places.contains(place) {
            return Ok(false);
        }
        self.places.insert(place)?;
        Ok(true)
    }

    // Does the same for a block at a position, with another residual.
    fn insert_block(
        &mut self,
        alloc: Global,
        place: usize,
        residual: &Residual<'a>,
    ) -> Result<bool, AllocError>
        requires { same_residual self.old.root_residual residual.now ≡ false }
        ensures { IsNotedBlock self.old self.new place residual.now result }
    {
        if let Some(places) = self.blocks.get_mut(residual) {
            return Ok(places.insert(place)?);
        }
        let mut places = BTreeSet::new(alloc);
        places.insert(place)?;
        self.blocks.insert(residual.try_clone(alloc)?, places)?;
        Ok(true)
    }
}
