//! The slots of a table for many entries at once, which several threads fill.
//!
//! Each thread has a part of the table, and goes over the numbers of all entries for those whose
//! look-up begins in it. The position of an entry goes to the first free slot of its look-up, and
//! nowhere if none is free. A look-up that crosses the end of a part comes last, when the threads
//! have ended. Nothing is promised here of what a slot has: `Index` has each entry looked up before
//! anything depends on it (`verify.rt`).

use crate::index::{MOST_PLACES, PROBES, Slot, key_hash, starts_for};
use crate::table::Entries;
use std::alloc::{AllocError, Global};
use std::thread::{Threads, for_each_chunk_mut, map_indices};

// The numbers of a share of the entries.
type Share = Result<Vec<u64>, AllocError>;

// Returns the slots of a table for these entries, which several threads fill.
pub(crate) fn filled<R: Threads + Sync>(
    rt: &R,
    alloc: Global,
    entries: &Entries<'_>,
    threads: usize,
) -> Result<Vec<Slot>, AllocError> {
    let threads = threads.max(1);
    let share = entries.len().div_ceil(threads).max(1);
    let hashes = map_indices(
        rt,
        alloc,
        threads,
        &|number| hashes_of(alloc, entries, share, number),
    )?;
    let hashes = hashes.as_slice();
    let starts = starts_for(entries.len());
    let last = starts - 1;
    let length = last.saturating_add(PROBES);
    let mut slots = vec![in alloc; Slot::FREE; length]?;
    let part = starts
        .div_ceil(threads)
        .checked_next_power_of_two()
        .unwrap_or(starts);
    let (parts, _) = slots.as_mut_slice().split_at_mut(starts.min(length));
    for_each_chunk_mut(
        rt,
        parts,
        part,
        &|from, slots| {
            fill_part(slots, from, last, hashes);
        },
    );
    fill_boundaries(slots.as_mut_slice(), part, last, hashes);
    Ok(slots)
}

// Returns the numbers of the share with this number, of `share` entries.
fn hashes_of(alloc: Global, entries: &Entries<'_>, share: usize, number: usize) -> Share {
    let from = number.saturating_mul(share).min(entries.len());
    let to = from.saturating_add(share).min(entries.len());
    let mut hashes = Vec::with_capacity(alloc, to - from)?;
    for place in from..to {
        let (cid, _) = entries.at(place);
        hashes.push(key_hash(cid))?;
    }
    Ok(hashes)
}

// Fills the part of a table that begins at a slot. Of the numbers, those count whose look-up is in
// it; `last` is the last slot at which one may begin.
fn fill_part(slots: &mut [Slot], from: usize, last: usize, hashes: &[Share]) {
    let mut place = 0;
    for share in hashes {
        let Ok(share) = share else {
            return;
        };
        for hash in share {
            let first = *hash as usize & last;
            if first >= from && first - from < slots.len() {
                put(slots, first - from, *hash, place);
            }
            place = place.saturating_add(1);
        }
    }
}

// Fills what remains after parts of this size, a power of two: the numbers whose look-up crosses
// the end of one.
fn fill_boundaries(slots: &mut [Slot], part: usize, last: usize, hashes: &[Share]) {
    let mut place = 0;
    for share in hashes {
        let Ok(share) = share else {
            return;
        };
        for hash in share {
            let first = *hash as usize & last;
            if (first & part.saturating_sub(1)).saturating_add(PROBES) > part {
                put(slots, first, *hash, place);
            }
            place = place.saturating_add(1);
        }
    }
}

// Stores the position of a number in the first free one of these slots, from the one at which its
// look-up begins, unless an earlier slot has it.
fn put(slots: &mut [Slot], first: usize, hash: u64, place: usize) {
    if place >= MOST_PLACES {
        return;
    }
    for slot in slots.iter_mut().skip(first).take(PROBES) {
        match slot.place() {
            Some(other) if other == place => return,
            Some(_) => {}
            None => {
                *slot = Slot::taken(hash, place);
                return;
            }
        }
    }
}
