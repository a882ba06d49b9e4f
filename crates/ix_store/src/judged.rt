//! A table of blocks with the verdict on each.

ghost use Rattle.std.specs.Prelude.{◌≡◌, ◌<◌, length, take, map, swap, IfOk};
ghost use Rattle.ix_store.specs.Sound.{verdict_of_copy, sound_first, unsound_count, fails};
ghost use Rattle.std.specs.List.{filter};

use crate::judge::verdicts_on;
use crate::table::{BlockTable, Entries, passing_first};
use ix_verdict::Verdict;
use std::alloc::{AllocError, Global};
use std::marker::Model;
use std::thread::Threads;

/// A table of blocks with the verdict on each. Contracts see the table.
pub(crate) struct JudgedTable {
    blocks: BlockTable,
    verdicts: Vec<Verdict>,
}

// Written by hand: a derived drop is inlined in each function that drops one, at each of its exits.
impl Drop for JudgedTable {
    fn drop(self) {
        let JudgedTable { blocks, verdicts } = self;
        drop(blocks);
        drop(verdicts);
    }
}

impl Model for JudgedTable {
    ghost use Rattle.std.specs.Prelude.{◌≡◌, map};
    ghost use Rattle.ix_store.specs.Table.{TableMeaning};
    ghost use Rattle.ix_store.specs.Sound.{verdict_of_copy};

    ghost Value = { TableMeaning };

    ghost view = { λ t. t.blocks };

    ghost invariant = { λ t. t.verdicts.items ≡ map verdict_of_copy t.blocks.pairs };
}

impl JudgedTable {
    /// Finds the verdict on each block of a table, by `threads` threads.
    pub(crate) fn judge<R: Threads + Sync>(
        rt: &R,
        alloc: Global,
        blocks: BlockTable,
        threads: usize,
    ) -> Result<JudgedTable, AllocError>
        ensures { IfOk result (λ judged. judged ≡ blocks) }
    {
        let verdicts = verdicts_on(rt, alloc, &blocks.entries(), threads)?;
        Ok(JudgedTable { blocks, verdicts })
    }

    /// Returns the entries.
    pub(crate) fn entries(&self) -> Entries<'_>
        ensures { result ≡ self.now.pairs }
    {
        self.blocks.entries()
    }

    /// The number of blocks.
    pub(crate) fn len(&self) -> usize
        ensures { result ≡ length self.now.pairs }
    {
        self.blocks.len()
    }

    /// The number of blocks that aren't sound.
    pub(crate) fn unsound_count(&self) -> usize
        ensures { result ≡ unsound_count self.now.pairs }
    {
        failing(self.verdicts.as_slice())
    }

    /// Returns a copy, which shares the files' bytes.
    pub(crate) fn try_clone(&self, alloc: Global) -> Result<JudgedTable, AllocError>
        ensures { IfOk result (λ copy. copy ≡ self.now) }
    {
        let blocks = self.blocks.try_clone()?;
        let verdicts = Vec::from_slice(alloc, self.verdicts.as_slice())?;
        Ok(JudgedTable { blocks, verdicts })
    }

    /// Sorts the blocks: the sound ones come first, and after them the others, each in their order.
    pub(crate) fn sound_first(self, alloc: Global) -> Result<JudgedTable, AllocError>
        ensures { IfOk result (λ sorted. sorted.pairs ≡ sound_first self.pairs) }
    {
        let JudgedTable {
            mut blocks,
            verdicts,
        } = self;
        blocks.sort_passing_first(verdicts.as_slice())?;
        let verdicts = passing_first(alloc, verdicts.as_slice(), verdicts.as_slice())?;
        Ok(JudgedTable { blocks, verdicts })
    }

    /// Swaps two blocks.
    pub(crate) fn swap(&mut self, first: usize, second: usize)
        requires first { first < length self.old.pairs }
        requires second { second < length self.old.pairs }
        ensures { self.new ≡ record { files = self.old.files; pairs = swap self.old.pairs first second } }
    {
        self.blocks.swap(first, second);
        self.verdicts.swap(first, second);
    }

    /// Drops the blocks after the first ones, so many.
    pub(crate) fn truncate(&mut self, count: usize)
        ensures { self.new ≡ record { files = self.old.files; pairs = take count self.old.pairs } }
    {
        self.blocks.truncate(count);
        self.verdicts.truncate(count);
    }

    /// Returns the table and the verdicts.
    pub(crate) fn into_parts(self) -> (BlockTable, Vec<Verdict>)
        ensures blocks { result.0 ≡ self }
        ensures verdicts { result.1.items ≡ map verdict_of_copy self.pairs }
    {
        let JudgedTable { blocks, verdicts } = self;
        (blocks, verdicts)
    }
}

// Returns how many of these verdicts don't pass.
fn failing(verdicts: &[Verdict]) -> usize
    ensures { result ≡ length (filter fails verdicts.now) }
{
    let mut count = 0;
    for verdict in verdicts.iter() {
        if !verdict.passes() {
            count += 1;
        }
    }
    count
}
