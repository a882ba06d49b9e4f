//! The summary of a file.

ghost use Rattle.std.specs.Prelude.{◌≡◌, ◌-◌, ◌/◌, ◌≤◌, ◌<◌, ◌^◌, ℕ, List, [], ◌∷◌, ◌++◌, length, drop, slice_get, IfOk, IfErr, OnOk};
ghost use Rattle.std.specs.Arc.{arc_value};
ghost use Rattle.ix_sections.specs.Gives.{IsFaultOf};
ghost use Rattle.ix_sections.specs.Sections.{SectionMeaning, section_list};
ghost use Rattle.ix_sections.specs.SectionView.{section_of};
ghost use Rattle.ix_verify.specs.Tallied.{IsTallied, Summarizes, HasTallied};

use crate::repeats::distinct_in;
use crate::tally::{Tally, count_in};
use ix_sections::{CarFault, Section, read_header, read_section};
use std::alloc::{AllocError, Global};
use std::collections::BTreeMap;
use std::sync::Arc;
use std::thread::Threads;

/// The summary of a file's sections.
#[derive(Drop)]
pub struct Summary {
    pub sections: usize,
    /// The number of sections whose CID occurred before.
    pub repeated: usize,
    /// The number of sections of each codec, and of each hash function, by their codes.
    pub codecs: Tally,
    pub hashes: Tally,
    /// The sizes of the blocks, from the smallest to the greatest.
    pub sizes: Vec<usize>,
}

impl Summary {
    /// Returns the size of the smallest block.
    pub fn smallest(&self) -> Option<usize>
        ensures { result ≡ slice_get self.now.sizes.items 0 }
    {
        self.sizes.first().copied()
    }

    /// Returns the median size; of two in the middle, the lesser.
    pub fn median(&self) -> Option<usize>
        ensures { result ≡ slice_get self.now.sizes.items ((length self.now.sizes.items - 1) / 2) }
    {
        let middle = self.sizes.len().saturating_sub(1) / 2;
        self.sizes.get(middle).copied()
    }

    /// Returns the size of the greatest block.
    pub fn greatest(&self) -> Option<usize>
        ensures { result ≡ slice_get self.now.sizes.items (length self.now.sizes.items - 1) }
    {
        self.sizes.last().copied()
    }

    // Returns the summary of no section.
    fn empty(alloc: Global) -> Summary
        ensures { IsTallied [] result }
    {
        Summary {
            sections: 0,
            repeated: 0,
            codecs: BTreeMap::new(alloc),
            hashes: BTreeMap::new(alloc),
            sizes: Vec::new(alloc),
        }
    }

    // Counts one section more, apart from whether its CID occurred before. The sizes stay in the order of the sections.
    fn add(&mut self, section: &Section<'_>) -> Result<(), AllocError>
        requires few { (done : List SectionMeaning) × IsTallied done self.old × (length done < 2 ^ 63) }
        ensures { OnOk result ((done : List SectionMeaning) → IsTallied done self.old
            → IsTallied (done ++ section_of section.now ∷ []) self.new) }
    {
        let parts = section.cid.parts();
        count_in(&mut self.codecs, parts.codec)?;
        count_in(&mut self.hashes, parts.hash_code)?;
        self.sizes.push(section.block.len())?;
        self.sections += 1;
        Ok(())
    }
}

/// Summarizes the sections of a CARv1 file, or returns its first error, whose offset is counted from the start of that
/// file. It is the end of shared bytes from an offset on. Nothing is hashed.
///
/// So many threads look up the CIDs, which takes as much memory as reading the file's blocks. Then the sections are read
/// once more, one after the other, and of each only its size is kept.
///
/// ```rust
/// let summary = summary_of(rt, alloc, &file, 0, threads)?;
/// ```
pub fn summary_of<R: Threads + Sync>(
    rt: &R,
    alloc: Global,
    file: &Arc<Vec<u8>>,
    start: usize,
    threads: usize,
) -> Result<Summary, CarFault>
    requires { start ≤ length (arc_value file.now).items }
    ensures { Summarizes (drop start (arc_value file.now).items) result }
{
    let distinct = distinct_in(rt, alloc, file, start, threads)?;
    let mut summary = tallied(alloc, &file.as_slice()[start..])?;
    summary.repeated = summary.sections - distinct;
    match summary.sizes.sort() {
        Ok(()) => Ok(summary),
        Err(_) => Err(CarFault::no_memory(0)),
    }
}

// Counts the sections of a CARv1 file, apart from whether their CIDs occurred before, or returns its first error.
fn tallied(alloc: Global, bytes: &[u8]) -> Result<Summary, CarFault>
    ensures tallied { IfOk result (HasTallied (section_list bytes.now)) }
    ensures refused { IfErr result (λ fault. IsFaultOf bytes.now fault (section_list bytes.now)) }
{
    let (_, sections) = read_header(alloc, bytes)?;
    let mut rest = sections;
    let mut summary = Summary::empty(alloc);
    while !rest.is_empty() {
        let (section, after) = read_section(bytes.len(), rest)?;
        let Ok(()) = summary.add(&section) else {
            return Err(CarFault::no_memory(section.place));
        };
        rest = after;
    }
    Ok(summary)
}
