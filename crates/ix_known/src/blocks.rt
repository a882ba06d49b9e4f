//! The known blocks of a store.

ghost use Rattle.std.specs.Prelude.{◌≡◌, [], MatchOption, true, false, ◌++◌};
ghost use Rattle.ix_store.specs.Store.{Blocks, has_cid, value_of};
ghost use Rattle.ix_known.specs.Known.{known_blocks, AreSound};

use crate::known::knows;
use ix_cid::Cid;
use ix_store::Store;
use std::marker::Model;

/// The known blocks of a store, those whose first copy is sound: a damaged copy is as if it were absent.
/// Or none.
#[derive(Drop)]
pub struct KnownBlocks<'s> {
    store: Option<&'s Store>,
}

impl<'s> Model for KnownBlocks<'s> {
    ghost use Rattle.std.specs.Prelude.{List, ℕ};
    ghost use Rattle.ix_known.specs.Known.{known_blocks_of};

    ghost Value = { List (List ℕ × List ℕ) };

    ghost view = { λ b. known_blocks_of b.store };
}

impl<'s> KnownBlocks<'s> {
    /// Returns no blocks.
    pub fn none() -> KnownBlocks<'s>
        ensures { result ≡ [] }
    {
        KnownBlocks { store: None }
    }

    /// Returns the known blocks of a store.
    pub fn of(store: &'s Store) -> KnownBlocks<'s>
        ensures { result ≡ known_blocks store.now }
    {
        KnownBlocks { store: Some(store) }
    }

    /// States that each block is sound.
    pub fn are_sound(&self)
        ensures { AreSound self.now }
    {
        let _store = self.store;
    }

    /// Returns the store that has the block of a CID, if the block is known.
    pub fn store_with(&self, cid: &Cid) -> Option<&'s Store>
        ensures { MatchOption result (has_cid self.now cid.now ≡ false)
            (λ store. (has_cid self.now cid.now ≡ true) × ((sections : Blocks)
            → value_of store.now cid.now ≡ value_of (self.now ++ sections) cid.now)) }
    {
        match self.store {
            Some(store) => { if knows(store, cid) { Some(store) } else { None } }
            None => None,
        }
    }
}
