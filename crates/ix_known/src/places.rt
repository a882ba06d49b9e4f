//! The positions in a store that the sections of a base decide.

ghost use Rattle.std.specs.Prelude.{◌≤◌, [], length, map, Some, IfErr, OnOk};
ghost use Rattle.ix_known.specs.Known.{IsPutIf};
ghost use Rattle.ix_known.specs.Places.{ArePlacesOf, AddsBlocks, IsDecided};
ghost use Rattle.ix_known.specs.Findings.{pair_of, TakesIn, HasAllOf};
ghost use Rattle.ix_known.specs.Batches.{AddsSections, IsFaultIn};

use crate::finding::{Finding, Lookup, findings_of};
use ix_sections::{CarFault, Section, read_batch};
use ix_store::{PlaceSet, Store};
use std::alloc::{AllocError, Global};
use std::thread::Threads;

/// The positions in a store of the blocks of which a base has a copy.
#[derive(Drop)]
pub(crate) struct Places {
    // Those whose first copy is sound.
    pub(crate) known: PlaceSet,
    // All of them.
    pub(crate) decided: PlaceSet,
}

impl Places {
    /// Those of a base without blocks.
    pub(crate) fn new(alloc: Global) -> Places
        ensures { (store : _) → ArePlacesOf store [] result }
    {
        Places {
            known: PlaceSet::new(alloc),
            decided: PlaceSet::new(alloc),
        }
    }

    /// Adds what the sections say that end a file of `size` bytes, a batch at a time, by so many threads.
    pub(crate) fn add_sections<R: Threads + Sync>(
        &mut self,
        rt: &R,
        alloc: Global,
        store: &Store,
        size: usize,
        sections: &[u8],
        threads: usize,
    ) -> Result<(), CarFault>
        requires { length sections.now ≤ size }
        ensures added { OnOk result (AddsSections store.now self.old self.new sections.now) }
        ensures refused { IfErr result (IsFaultIn size sections.now) }
    {
        let mut spare = Vec::new(alloc);
        let mut rest = sections;
        let mut guess = 0;
        while !rest.is_empty() {
            let (batch, after) = read_batch(spare, size, rest)?;
            let added = self.add_batch(rt, alloc, store, guess, batch.as_slice(), threads);
            let Ok(next) = added else {
                return Err(CarFault::no_memory(size - rest.len()));
            };
            guess = next;
            spare = batch;
            rest = after;
        }
        Ok(())
    }

    // Adds what some sections say. The block of the first may be at `guess` in the store, and the answer is
    // where that of the section after them may be.
    fn add_batch<R: Threads + Sync>(
        &mut self,
        rt: &R,
        alloc: Global,
        store: &Store,
        guess: usize,
        sections: &[Section<'_>],
        threads: usize,
    ) -> Result<usize, AllocError>
        ensures { OnOk result (AddsBlocks store.now self.old self.new (map pair_of sections.now)) }
    {
        let lookup = Lookup {
            store,
            decided: &self.decided,
            guess,
        };
        let findings = findings_of(rt, alloc, &lookup, sections, threads)?;
        for finding in &findings {
            self.take_in(*finding)?;
        }
        Ok(guess_after(guess, findings.as_slice()))
    }

    // Takes in what was found of one section more.
    fn take_in(&mut self, finding: Finding) -> Result<(), AllocError>
        ensures taken { OnOk result (TakesIn self.old self.new finding) }
        ensures kept { OnOk result (HasAllOf self.new.decided self.old.decided) }
    {
        match finding {
            Finding::Nothing => Ok(()),
            Finding::CopyOf { place, is_sound } => self.decide(place, is_sound),
            Finding::NoMemory => Err(AllocError),
        }
    }

    // Takes in a copy of the block at a position. The first one decides.
    fn decide(&mut self, place: usize, is_sound: bool) -> Result<(), AllocError>
        ensures { OnOk result (IsDecided self.old self.new place is_sound) }
    {
        if self.decided.contains(place) {
            return Ok(());
        }
        put_if(&mut self.known, place, is_sound)?;
        self.decided.insert(place)
    }
}

// Returns where the block of the section after these may be in the store: after that of the last one that
// was found.
fn guess_after(guess: usize, findings: &[Finding]) -> usize {
    let mut next = guess;
    for finding in findings {
        next = match finding {
            Finding::CopyOf { place, is_sound: _ } => place.saturating_add(1),
            Finding::Nothing | Finding::NoMemory => next.saturating_add(1),
        };
    }
    next
}

// Inserts a position if it is to be in a set.
fn put_if(set: &mut PlaceSet, place: usize, is_in: bool) -> Result<(), AllocError>
    ensures { OnOk result (IsPutIf (Some is_in) set.old set.new place) }
{
    if is_in { set.insert(place) } else { Ok(()) }
}
