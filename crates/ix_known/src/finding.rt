//! What the sections of a base say of the blocks of a store.

ghost use Rattle.std.specs.Prelude.{◌≡◌, ◌<◌, ℕ, Some, length, map, slice_index_or, IfOk};
ghost use Rattle.ix_store.specs.Store.{position_of};
ghost use Rattle.ix_store.specs.Sound.{verdict_of_copy};
ghost use Rattle.ix_verdict.specs.Verdict.{is_sound};
ghost use Rattle.ix_known.specs.Findings.{pair_of, IsFinding, IsFindingAt};

use ix_cid::Cid;
use ix_sections::Section;
use ix_store::{PlaceSet, Store, map_interleaved, verdict_at, verdict_on};
use std::alloc::{AllocError, Global};
use std::thread::Threads;

/// What a section of a base says of the blocks of a store.
#[derive(Clone, Copy)]
pub(crate) enum Finding {
    /// Nothing: the store has no block under its CID, or an earlier section decided of that block.
    Nothing,
    /// Its block is a copy of the one at this position, and is what its CID names, or isn't.
    CopyOf { place: usize, is_sound: bool },
    /// Memory ran out.
    NoMemory,
}

/// What sections of a base are looked up in.
#[derive(Clone, Copy)]
pub(crate) struct Lookup<'a> {
    pub(crate) store: &'a Store,
    /// The positions in the store that earlier sections decided. They aren't looked at again.
    pub(crate) decided: &'a PlaceSet,
    /// Where the block of the first section may be in the store; those of the next ones may follow it. They
    /// do where the base has the store's blocks in the store's order.
    pub(crate) guess: usize,
}

/// Returns what sections say, in order, with at most so many threads.
pub(crate) fn findings_of<R: Threads + Sync>(
    rt: &R,
    alloc: Global,
    lookup: &Lookup<'_>,
    sections: &[Section<'_>],
    threads: usize,
) -> Result<Vec<Finding>, AllocError>
    ensures len { IfOk result (λ findings. length findings.items ≡ length sections.now) }
    ensures each { IfOk result (λ findings. (i : ℕ) (d : _) → i < length sections.now
        → IsFindingAt lookup.now.store.now lookup.now.decided.now (map pair_of sections.now) i
        (slice_index_or findings.items i d)) }
{
    map_interleaved(
        rt,
        alloc,
        sections.len(),
        threads,
        &|number| finding_at(alloc, lookup, sections, number),
    )
}

// Returns what the section with this number says.
fn finding_at(
    alloc: Global,
    lookup: &Lookup<'_>,
    sections: &[Section<'_>],
    number: usize,
) -> Finding
    requires { number < length sections.now }
    ensures { IsFindingAt lookup.now.store.now lookup.now.decided.now (map pair_of sections.now) number result }
{
    let guess = lookup.guess.saturating_add(number);
    finding_of(alloc, lookup, guess, &sections[number])
}

// Returns what a section says, whose block may be at this position of the store. Its block is hashed only
// if it decides.
fn finding_of(alloc: Global, lookup: &Lookup<'_>, guess: usize, section: &Section<'_>) -> Finding
    ensures { IsFinding lookup.now.store.now lookup.now.decided.now (pair_of section.now) result }
{
    let Lookup { store, decided, .. } = *lookup;
    let Ok(cid) = section.cid.to_cid(alloc) else {
        return Finding::NoMemory;
    };
    let Some(place) = store.find_near(Some(guess), &cid) else {
        return Finding::Nothing;
    };
    if decided.contains(place) {
        return Finding::Nothing;
    }
    Finding::CopyOf {
        place,
        is_sound: is_sound_copy(store, place, &cid, section.block),
    }
}

// Whether a copy of the block of a CID, which is at this position of a store, is what the CID names. If it
// is the very block of the store, the store hashes it, once for all, and caches what it finds.
fn is_sound_copy(store: &Store, place: usize, cid: &Cid, block: &[u8]) -> bool
    requires { position_of store.now cid.now ≡ Some place }
    ensures { result ≡ is_sound (verdict_of_copy (cid.now, block.now)) }
{
    if store.bytes(place) == block {
        return verdict_at(store, cid, Some(place)).is_sound();
    }
    verdict_on(cid.as_bytes(), block).is_sound()
}
