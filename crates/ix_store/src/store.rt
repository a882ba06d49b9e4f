//! Blocks under their CIDs.

ghost use Rattle.std.specs.Prelude.{◌≡◌, ◌<◌, [], false, length, map, slice_get, Some, IfOk, ◌==◌};
ghost use Rattle.std.specs.Prelude.{get_or};
ghost use Rattle.ix_store.specs.Index.{IsIndexed};
ghost use Rattle.ix_store.specs.Memo.{hash_matches, is_malformed};
ghost use Rattle.ix_store.specs.Store.{Adds, IsPlaceIn, position_of};

use crate::cursor::Cursor;
use crate::digest::hash_matches;
use crate::index::{Index, holds, key_of};
use crate::judged::JudgedTable;
use crate::memo::Memo;
use crate::table::{BlockTable, has_fault};
use ix_cid::Cid;
use std::alloc::{AllocError, Global};
use std::marker::Model;

/// An in-memory blockstore: blocks under their CIDs, seen as the list of pairs in the order of
/// adding.
pub struct Store {
    alloc: Global,
    blocks: BlockTable,
    // The position of the block of each CID.
    index: Index,
    // The cached answers, once the store was settled and as long as no block is added.
    memo: Option<Memo>,
}

// Written by hand: a derived drop is inlined in each function that drops one, at each of its exits.
impl Drop for Store {
    fn drop(self) {
        let Store {
            alloc: _,
            blocks,
            index,
            memo,
        } = self;
        drop(blocks);
        drop(index);
        drop(memo);
    }
}

impl Model for Store {
    ghost use Rattle.std.specs.Prelude.{◌≡◌, List, ℕ, IfSome};
    ghost use Rattle.ix_store.specs.Index.{IsIndexed};

    ghost Value = { List (List ℕ × List ℕ) };

    ghost view = { λ s. s.blocks.pairs };

    ghost invariant = { λ s. IsIndexed s.index s.blocks.pairs × IfSome s.memo (λ m. m ≡ s.blocks.pairs) };
}

impl Store {
    /// Creates a store without blocks.
    pub fn new(alloc: Global) -> Store
        ensures { result ≡ [] }
    {
        Store {
            alloc,
            blocks: BlockTable::new(alloc),
            index: Index::new(alloc),
            memo: None,
        }
    }

    // Creates the store of these blocks, of which this is the index. It takes no more memory than it needs.
    pub(crate) fn of_blocks(alloc: Global, mut blocks: BlockTable, index: Index) -> Store
        requires { IsIndexed index blocks.pairs }
        ensures { result ≡ blocks.pairs }
    {
        blocks.shrink_to_fit();
        Store {
            alloc,
            blocks,
            index,
            memo: None,
        }
    }

    // Creates the settled store of judged blocks, of which this is the index. It has the verdicts cached.
    pub(crate) fn of_judged(
        alloc: Global,
        judged: JudgedTable,
        index: Index,
    ) -> Result<Store, AllocError>
        requires { IsIndexed index judged.pairs }
        ensures { IfOk result (λ store. store ≡ judged.pairs) }
    {
        let (blocks, verdicts) = judged.into_parts();
        let mut store = Store::of_blocks(alloc, blocks, index);
        let memo = Memo::of_verdicts(alloc, &store.blocks, verdicts.as_slice())?;
        store.memo = Some(memo);
        Ok(store)
    }

    /// Adds a copy of a block, unless its CID is there. Returns whether it was added.
    pub fn add(&mut self, cid: Cid, bytes: Vec<u8>) -> Result<bool, AllocError>
        ensures { Adds self.old self.new cid bytes.items result }
    {
        self.add_copy(cid, bytes.as_slice())
    }

    /// Adds a copy of a block, unless its CID is there: then nothing is copied.
    pub fn add_copy(&mut self, cid: Cid, block: &[u8]) -> Result<bool, AllocError>
        ensures { Adds self.old self.new cid block.now result }
    {
        if self.find(&cid).is_some() {
            return Ok(false);
        }
        let count = self.blocks.len();
        self.index.make_room(self.alloc, &self.blocks.entries(), count.saturating_add(1))?;
        let bytes = cid.as_bytes();
        self.blocks.push_copy(bytes, block)?;
        let before = self.blocks.entries().first(count);
        match self.index.enter(self.alloc, &before, bytes) {
            Ok(added) => {
                self.memo = None;
                Ok(added)
            }
            Err(error) => {
                self.blocks.truncate(count);
                Err(error)
            }
        }
    }

    /// Allocates the cache of answers, eight bytes for each block, which is used until a block is
    /// added. The blocks are the same, also if memory runs out.
    pub fn enable_memo(&mut self) -> Result<(), AllocError>
        ensures { self.new ≡ self.old }
    {
        let memo = Memo::new(self.alloc, &self.blocks)?;
        self.memo = Some(memo);
        Ok(())
    }

    /// Returns the position of the block of a CID.
    pub fn find(&self, cid: &Cid) -> Option<usize>
        ensures { result ≡ position_of self.now cid.now }
    {
        self.index.find(&self.blocks.entries(), cid)
    }

    /// Returns the position of the block of a CID. Looks at the guessed position first, so that a
    /// good guess saves the search.
    pub fn find_near(&self, guess: Option<usize>, cid: &Cid) -> Option<usize>
        ensures { result ≡ position_of self.now cid.now }
    {
        match guess {
            Some(place) if holds(&self.blocks.entries(), place, cid.as_bytes()) => Some(place),
            _ => self.find(cid),
        }
    }

    /// Returns the CID of the block at a position.
    pub fn cid_at(&self, place: usize) -> Result<Cid, AllocError>
        requires { place < length self.now }
        ensures { IfOk result (λ cid. slice_get (map (λ e. e.0) self.now) place ≡ Some cid) }
    {
        let (cid, _) = self.blocks.entries().at(place);
        key_of(self.alloc, cid)
    }

    /// Returns the block at a position.
    pub fn bytes(&self, place: usize) -> &[u8]
        requires { IsPlaceIn self.now place }
        ensures { slice_get (map (λ e. e.1) self.now) place ≡ Some result.now }
    {
        let (_, block) = self.blocks.entries().at(place);
        block
    }

    /// Returns a cursor over the block at a position, with its end in shared bytes.
    pub fn cursor(&self, place: usize) -> Cursor<'_>
        requires { IsPlaceIn self.now place }
        ensures { slice_get (map (λ e. e.1) self.now) place ≡ Some result }
    {
        match self.blocks.entries().cursor(place) {
            Some(cursor) => cursor,
            None => Cursor::of(&[]),
        }
    }

    /// Whether there is a block at this position whose hash matches its CID, by the CID's hash
    /// function: SHA-256 or SHA-512 (FIPS 180-4), or the block itself under identity, and never
    /// under another function. A settled store computes it once for all threads.
    pub fn hash_matches(&self, place: usize) -> bool
        ensures { result ≡ get_or (map hash_matches self.now) place false }
    {
        let Some((cid, block)) = self.blocks.entries().get(place) else {
            return false;
        };
        match &self.memo {
            Some(memo) => memo.hash_matches(place, cid, block),
            None => hash_matches(cid, block),
        }
    }

    /// Whether there is a block at this position that is not valid DAG-CBOR (RFC 8949). A settled
    /// store computes it once for all threads.
    pub fn is_malformed(&self, place: usize) -> bool
        ensures { result ≡ get_or (map is_malformed self.now) place false }
    {
        let Some((cid, block)) = self.blocks.entries().get(place) else {
            return false;
        };
        match &self.memo {
            Some(memo) => memo.is_malformed(place, cid, block),
            None => has_fault(block),
        }
    }

    /// The number of blocks.
    pub fn len(&self) -> usize
        ensures { result ≡ length self.now }
    {
        self.blocks.len()
    }

    /// Whether there is no block.
    pub fn is_empty(&self) -> bool
        ensures { result ≡ (length self.now == 0) }
    {
        self.len() == 0
    }
}
