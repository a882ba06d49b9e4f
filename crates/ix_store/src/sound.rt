//! A builder of a store that prefers sound copies of blocks.

ghost use Rattle.std.specs.Prelude.{◌≡◌, [], IfOk};
ghost use Rattle.std.specs.Arc.{arc_value};
ghost use Rattle.ix_store.specs.Table.{section_in};
ghost use Rattle.ix_store.specs.Sound.{first_copies, sound_copies, unsound_count, later_count, TakesFile, IsSectionIn, AddsCopy, AreFirstIndexed};

use crate::builder::MANY;
use crate::index::Index;
use crate::judged::JudgedTable;
use crate::store::Store;
use crate::table::BlockTable;
use std::alloc::{AllocError, Global};
use std::marker::Model;
use std::sync::Arc;
use std::thread::Threads;

/// A store that was built with sound copies preferred.
#[derive(Drop)]
pub struct SoundStore {
    /// The settled store: of each CID the first copy that is sound, or the first if none is.
    pub store: Store,
    /// How many blocks are a later copy, since the first isn't sound.
    pub later_count: usize,
}

/// A builder of a store that prefers sound copies, from the sections of files. It is seen as the bytes
/// of the files and the pairs of all sections that were added, in their order.
///
/// A copy is sound if a traversal continues below it: its verdict is `Sound` or, for an identity CID,
/// `Inline`. No block is copied, since the store keeps a share of each file.
///
/// ```rust
/// let number = builder.take_file(&file)?;
/// builder.add_section(number, place, cid_size, size)?;
/// let built = builder.build(rt, threads)?;
/// println!(rt; "{} blocks from a later copy", built.later_count)?;
/// ```
pub struct SoundBuilder {
    alloc: Global,
    blocks: BlockTable,
}

// Written by hand: a derived drop is inlined in each function that drops one, at each of its exits.
impl Drop for SoundBuilder {
    fn drop(self) {
        let SoundBuilder { alloc: _, blocks } = self;
        drop(blocks);
    }
}

impl Model for SoundBuilder {
    ghost use Rattle.ix_store.specs.Table.{TableMeaning};

    ghost Value = { TableMeaning };

    ghost view = { λ b. b.blocks };
}

impl SoundBuilder {
    /// Creates a builder without blocks.
    pub fn new(alloc: Global) -> SoundBuilder
        ensures { result.pairs ≡ [] }
    {
        SoundBuilder {
            alloc,
            blocks: BlockTable::new(alloc),
        }
    }

    /// Takes a share of a file, and returns its number.
    pub fn take_file(&mut self, bytes: &Arc<Vec<u8>>) -> Result<usize, AllocError>
        ensures { TakesFile self.old self.new (arc_value bytes.now).items result }
    {
        self.blocks.take_file(bytes)
    }

    /// Adds the block of a section, also if its CID is there: in the file with this number the CID
    /// begins at an offset and has `cid_size` bytes, and the block is right after it and has `size`.
    pub fn add_section(
        &mut self,
        file: usize,
        place: usize,
        cid_size: usize,
        size: usize,
    ) -> Result<(), AllocError>
        requires { IsSectionIn self.old.files file place cid_size size }
        ensures { AddsCopy self.old self.new (section_in self.old.files file place cid_size size) result }
    {
        self.blocks.push_section(file, place, cid_size, size)
    }

    /// Builds the settled store of these blocks. `threads` threads hash each block, and index the
    /// blocks if they are many. The store caches what was found, so that nothing is hashed twice.
    pub fn build<R: Threads + Sync>(self, rt: &R, threads: usize) -> Result<SoundStore, AllocError>
        ensures store { IfOk result (λ built. built.store ≡ sound_copies self.pairs) }
        ensures later { IfOk result (λ built. built.later_count ≡ later_count self.pairs) }
    {
        let SoundBuilder { alloc, blocks } = self;
        let blocks = JudgedTable::judge(rt, alloc, blocks, threads)?;
        let unsound = unsound_first_copies(rt, alloc, &blocks, threads)?;
        let blocks = blocks.sound_first(alloc)?;
        let (blocks, index) = index_judged(rt, alloc, blocks, threads)?;
        let later_count = unsound.saturating_sub(blocks.unsound_count());
        let store = Store::of_judged(alloc, blocks, index)?;
        Ok(SoundStore { store, later_count })
    }
}

// Returns how many CIDs have a first copy that isn't sound.
fn unsound_first_copies<R: Threads + Sync>(
    rt: &R,
    alloc: Global,
    blocks: &JudgedTable,
    threads: usize,
) -> Result<usize, AllocError>
    ensures { IfOk result (λ count. count ≡ unsound_count (first_copies blocks.now.pairs)) }
{
    if blocks.unsound_count() == 0 {
        return Ok(0);
    }
    let (firsts, _) = index_judged(rt, alloc, blocks.try_clone(alloc)?, threads)?;
    Ok(firsts.unsound_count())
}

// Returns the first block of each CID and the index of these.
fn index_judged<R: Threads + Sync>(
    rt: &R,
    alloc: Global,
    blocks: JudgedTable,
    threads: usize,
) -> Result<(JudgedTable, Index), AllocError>
    ensures { IfOk result (λ r. AreFirstIndexed blocks.pairs r.0.pairs r.1) }
{
    if blocks.len() >= MANY {
        if let Some(made) = Index::by_threads(rt, alloc, &blocks.entries(), threads)? {
            return Ok((blocks, made));
        }
    }
    index_judged_in_turn(alloc, blocks)
}

// Does the same on one thread, one block after the other. A block whose CID occurred before is
// dropped.
fn index_judged_in_turn(
    alloc: Global,
    mut blocks: JudgedTable,
) -> Result<(JudgedTable, Index), AllocError>
    ensures { IfOk result (λ r. AreFirstIndexed blocks.pairs r.0.pairs r.1) }
{
    let mut index = Index::with_room(alloc, blocks.len())?;
    let mut kept = 0;
    for place in 0..blocks.len() {
        let (cid, _) = blocks.entries().at(place);
        let before = blocks.entries().first(kept);
        if index.enter(alloc, &before, cid)? {
            blocks.swap(kept, place);
            kept += 1;
        }
    }
    blocks.truncate(kept);
    Ok((blocks, index))
}
