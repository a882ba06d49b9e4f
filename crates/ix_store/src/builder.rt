//! A builder of a store.

ghost use Rattle.std.specs.Prelude.{◌≡◌, ◌≤◌, ◌+◌, [], ◌∷◌, ◌++◌, length, take, OnOk, OnErr, IfOk};
ghost use Rattle.std.specs.Arc.{arc_value};
ghost use Rattle.ix_store.specs.Table.{IsRange, section_in, with_file, pairs_counted};
ghost use Rattle.ix_store.specs.Index.{IsIndexed};
ghost use Rattle.ix_store.specs.Store.{with_block};

use crate::index::Index;
use crate::store::Store;
use crate::table::BlockTable;
use std::alloc::{AllocError, Global};
use std::marker::Model;
use std::mem;
use std::sync::Arc;
use std::thread::Threads;

// How many blocks must wait for several threads to index them; with fewer it doesn't pay.
pub(crate) const MANY: usize = 100_000;

/// A builder of a store from the sections of files, seen as the bytes of the files and the pairs that
/// the store will have: those of the sections that were added, of which the first of each CID counts.
///
/// A block that is added isn't indexed at once: once many wait, threads index all of them together.
/// No block is copied, since the store keeps a share of each file.
///
/// ```rust
/// let number = builder.take_file(&file)?;
/// builder.add_section(number, place, cid_size, size)?;
/// builder.index_due(rt, threads)?;
/// let store = builder.build(rt, threads)?;
/// ```
pub struct StoreBuilder {
    alloc: Global,
    blocks: BlockTable,
    // The index of the first blocks, those that are indexed. The CIDs of the others may occur twice.
    index: Index,
    indexed: usize,
}

// Written by hand: a derived drop is inlined in each function that drops one, at each of its exits.
impl Drop for StoreBuilder {
    fn drop(self) {
        let StoreBuilder {
            alloc: _,
            blocks,
            index,
            indexed: _,
        } = self;
        drop(blocks);
        drop(index);
    }
}

impl Model for StoreBuilder {
    ghost use Rattle.std.specs.Prelude.{◌≤◌, length, take};
    ghost use Rattle.ix_store.specs.Table.{TableMeaning, pairs_counted};
    ghost use Rattle.ix_store.specs.Index.{IsIndexed};

    ghost Value = { TableMeaning };

    ghost view = { λ b. record { files = b.blocks.files; pairs = pairs_counted b.indexed b.blocks.pairs } };

    ghost invariant = { λ b. (b.indexed ≤ length b.blocks.pairs) × IsIndexed b.index (take b.indexed b.blocks.pairs) };
}

impl StoreBuilder {
    /// Creates a builder without blocks.
    pub fn new(alloc: Global) -> StoreBuilder
        ensures { result.pairs ≡ [] }
    {
        StoreBuilder {
            alloc,
            blocks: BlockTable::new(alloc),
            index: Index::new(alloc),
            indexed: 0,
        }
    }

    /// Takes a share of a file, and returns its number.
    pub fn take_file(&mut self, bytes: &Arc<Vec<u8>>) -> Result<usize, AllocError>
        ensures taken { OnOk result (self.new ≡ with_file self.old (arc_value bytes.now).items) }
        ensures number { IfOk result (λ n. n ≡ length self.old.files) }
        ensures err { OnErr result (self.new ≡ self.old) }
    {
        self.blocks.take_file(bytes)
    }

    /// Adds the block of a section, unless its CID is there: in the file with this number the CID
    /// begins at an offset and has `cid_size` bytes, and the block is right after it and has `size`.
    pub fn add_section(
        &mut self,
        file: usize,
        place: usize,
        cid_size: usize,
        size: usize,
    ) -> Result<(), AllocError>
        requires { IsRange self.old.files file (place + cid_size + size) }
        ensures added { OnOk result
            (self.new.pairs ≡ with_block self.old.pairs (section_in self.old.files file place cid_size size)) }
        ensures files { self.new.files ≡ self.old.files }
    {
        self.blocks.push_section(file, place, cid_size, size)
    }

    /// Indexes the blocks that wait, by `threads` threads, if they are due: if 100,000 wait, and
    /// three times as many as are indexed.
    ///
    /// Those that wait may have one CID, so calling this at each block bounds the memory that they
    /// take. After an error no block is left.
    pub fn index_due<R: Threads + Sync>(&mut self, rt: &R, threads: usize) -> Result<(), AllocError>
        ensures same { OnOk result (self.new ≡ self.old) }
        ensures err { OnErr result (self.new.pairs ≡ []) }
    {
        if !self.is_due() {
            return Ok(());
        }
        let alloc = self.alloc;
        let (blocks, index, indexed) = self.take_all();
        let (blocks, index) = index_all(rt, alloc, blocks, index, indexed, threads)?;
        self.put_back(blocks, index);
        Ok(())
    }

    /// Does the same on one thread.
    pub fn index_due_in_turn(&mut self) -> Result<(), AllocError>
        ensures same { OnOk result (self.new ≡ self.old) }
        ensures err { OnErr result (self.new.pairs ≡ []) }
    {
        if !self.is_due() {
            return Ok(());
        }
        let alloc = self.alloc;
        let (blocks, index, indexed) = self.take_all();
        let (blocks, index) = index_in_turn(alloc, blocks, index, indexed)?;
        self.put_back(blocks, index);
        Ok(())
    }

    // Whether the blocks that wait are due.
    fn is_due(&self) -> bool {
        let waiting = self.blocks.len().saturating_sub(self.indexed);
        waiting >= self.indexed.saturating_mul(3).max(MANY)
    }

    // Takes all blocks out, with the index of the first ones and their number.
    fn take_all(&mut self) -> (BlockTable, Index, usize)
        ensures files { result.0.files ≡ self.old.files }
        ensures pairs { pairs_counted result.2 result.0.pairs ≡ self.old.pairs }
        ensures within { result.2 ≤ length result.0.pairs }
        ensures indexed { IsIndexed result.1 (take result.2 result.0.pairs) }
        ensures left { self.new.pairs ≡ [] }
    {
        let blocks = mem::replace(&mut self.blocks, BlockTable::new(self.alloc));
        let index = mem::replace(&mut self.index, Index::new(self.alloc));
        let indexed = mem::replace(&mut self.indexed, 0);
        (blocks, index, indexed)
    }

    // Puts blocks back that are all indexed.
    fn put_back(&mut self, blocks: BlockTable, index: Index)
        requires { IsIndexed index blocks.pairs }
        ensures { self.new ≡ blocks }
    {
        self.indexed = blocks.len();
        self.blocks = blocks;
        self.index = index;
    }

    /// Builds the store of these blocks. If they are many, `threads` threads index them.
    pub fn build<R: Threads + Sync>(self, rt: &R, threads: usize) -> Result<Store, AllocError>
        ensures { IfOk result (λ store. store ≡ self.pairs) }
    {
        let StoreBuilder {
            alloc,
            blocks,
            index,
            indexed,
        } = self;
        let (blocks, index) = index_all(rt, alloc, blocks, index, indexed, threads)?;
        Ok(Store::of_blocks(alloc, blocks, index))
    }

    /// Does the same on one thread.
    pub fn build_in_turn(self) -> Result<Store, AllocError>
        ensures { IfOk result (λ store. store ≡ self.pairs) }
    {
        let StoreBuilder {
            alloc,
            blocks,
            index,
            indexed,
        } = self;
        let (blocks, index) = index_in_turn(alloc, blocks, index, indexed)?;
        Ok(Store::of_blocks(alloc, blocks, index))
    }
}

// Returns the blocks that count and the index of all of them. The first ones are indexed already.
fn index_all<R: Threads + Sync>(
    rt: &R,
    alloc: Global,
    blocks: BlockTable,
    index: Index,
    indexed: usize,
    threads: usize,
) -> Result<(BlockTable, Index), AllocError>
    requires within { indexed ≤ length blocks.pairs }
    requires before { IsIndexed index (take indexed blocks.pairs) }
    ensures files { IfOk result (λ r. r.0.files ≡ blocks.files) }
    ensures kept { IfOk result (λ r. r.0.pairs ≡ pairs_counted indexed blocks.pairs) }
    ensures indexed { IfOk result (λ r. IsIndexed r.1 r.0.pairs) }
{
    if blocks.len() - indexed >= MANY {
        if let Some(made) = Index::by_threads(rt, alloc, &blocks.entries(), threads)? {
            return Ok((blocks, made));
        }
    }
    index_in_turn(alloc, blocks, index, indexed)
}

// Does the same on one thread, one block after the other. A block whose CID occurred before is
// dropped.
fn index_in_turn(
    alloc: Global,
    mut blocks: BlockTable,
    mut index: Index,
    indexed: usize,
) -> Result<(BlockTable, Index), AllocError>
    requires within { indexed ≤ length blocks.pairs }
    requires before { IsIndexed index (take indexed blocks.pairs) }
    ensures files { IfOk result (λ r. r.0.files ≡ blocks.files) }
    ensures kept { IfOk result (λ r. r.0.pairs ≡ pairs_counted indexed blocks.pairs) }
    ensures indexed { IfOk result (λ r. IsIndexed r.1 r.0.pairs) }
{
    make_room(alloc, &blocks, &mut index, indexed)?;
    let mut kept = indexed;
    for place in indexed..blocks.len() {
        let (cid, _) = blocks.entries().at(place);
        let before = blocks.entries().first(kept);
        if index.enter(alloc, &before, cid)? {
            blocks.swap(kept, place);
            kept += 1;
        }
    }
    blocks.truncate(kept);
    Ok((blocks, index))
}

// Makes room for all blocks in the index of the first ones.
fn make_room(
    alloc: Global,
    blocks: &BlockTable,
    index: &mut Index,
    indexed: usize,
) -> Result<(), AllocError>
    requires { IsIndexed index.old (take indexed blocks.now.pairs) }
    ensures { IsIndexed index.new (take indexed blocks.now.pairs) }
{
    let before = blocks.entries().first(indexed);
    index.make_room(alloc, &before, blocks.len())
}
