//! The index of a store: a hash table from CIDs to positions of entries.
//!
//! A CID has a number, its last eight bytes as a little-endian integer. In an honest file these are
//! bytes of a digest, so the look-ups of different CIDs hardly meet. The low bits of the number say
//! at which slot its look-up begins, and its highest byte is the fingerprint that distinguishes most
//! CIDs of one slot: the CID itself is compared only if it matches. An attacker can choose CIDs
//! with one number, or with numbers that come to one slot. So a look-up visits a bounded number of
//! slots, and a CID that finds none of them free goes to a tree over whole CIDs.

ghost use Rattle.std.specs.Prelude.{◌≡◌, ◌↔◌, List, [], ◌-◌, ◌*◌, ◌^◌, ◌<◌, Option, length, replicate, Some, None, true, false, not, IsTrue, IfOk, OnOk, OnErr, ℕ, ◌≤◌};
ghost use Rattle.std.specs.Option.{unwrap_or};
ghost use Rattle.ix_store.specs.Store.{has_cid, position_of, HasDistinctCids};
ghost use Rattle.ix_store.specs.Index.{key_hash, fingerprint, first_of, window_of, end_of, Has, HasPlace, place_after, ComesOnlyAfter, SameAfter, PutsAfter, AreLedTo, IsIndexed, IsIndexedWith, MayIndex, StaysTrueAfter, AllSeen, HasAllOf, AreAfter, FindsFree, HasTruePlaces, IsLookup, is_cid_at, probe_in};
ghost use Rattle.ix_store.specs.Room.{taken_in, slot_for, HasCrowded};

use crate::fill::filled;
use crate::table::Entries;
use crate::verify::{Seen, check_shares};
use ix_cid::Cid;
use std::alloc::{AllocError, Global};
use std::collections::BTreeMap;
use std::thread::Threads;

// How many slots a look-up visits at most. Where half of the slots are taken, one honest CID in two
// hundred finds none of so many free. A CID that was chosen to have the fingerprints of all of them is
// compared with as many.
pub(crate) const PROBES: usize = 8;

// At how many slots a look-up may begin in the smallest table: a power of two, as in each larger
// one, so that masking a number reaches each of them.
const LEAST_STARTS: usize = 64;

// How many positions slots can have. Those from there on go to the tree.
pub(crate) const MOST_PLACES: usize = 0xffff_ffff;

// A slot of the table: free, or the fingerprint of a CID and the position of its entry. It is made of
// bytes, so that it takes five and not eight.
#[derive(Clone, Copy)]
pub(crate) struct Slot {
    tag: u8,
    // The position of the entry plus 1, or 0 if the slot is free, with the lowest byte first.
    end: [u8; 4],
}

impl Slot {
    pub(crate) const FREE: Slot = Slot {
        tag: 0,
        end: [0; 4],
    };

    // Returns the slot of a position under a number.
    pub(crate) fn taken(hash: u64, place: usize) -> Slot
        requires { place < 2 ^ 32 - 1 }
        ensures { Has result (fingerprint hash) place }
    {
        Slot {
            tag: fingerprint(hash),
            end: (place as u32 + 1).to_le_bytes(),
        }
    }

    // Returns the position in a slot, unless the slot is free.
    pub(crate) fn place(self) -> Option<usize>
        ensures { HasPlace self result }
    {
        match u32::from_le_bytes(self.end) {
            0 => None,
            end => Some(end as usize - 1),
        }
    }
}

// Where the table has the entry of a CID, or the free slot for its position, or that it goes to the
// tree.
#[derive(Clone, Copy)]
pub(crate) enum Lookup {
    Present(usize),
    Vacant(usize),
    Overflow,
}

// The result of a look-up of a CID in its slots: the position of an entry with this CID, a free
// slot before one, or neither.
#[derive(Clone, Copy)]
pub(crate) enum Probe {
    At(usize),
    Free,
    Full,
}

// A table of slots, and an overflow tree for the CIDs that found no free slot, or whose position no
// slot can have. What was once in the tree stays there.
#[derive(Drop)]
pub(crate) struct Index {
    slots: Vec<Slot>,
    overflow: BTreeMap<Cid, usize>,
}

impl Index {
    // Creates the index of no entries, without slots.
    pub(crate) fn new(alloc: Global) -> Index
        ensures { IsIndexed result [] }
    {
        Index {
            slots: Vec::new(alloc),
            overflow: BTreeMap::new(alloc),
        }
    }

    // Creates the index of no entries, with room for so many.
    pub(crate) fn with_room(alloc: Global, count: usize) -> Result<Index, AllocError>
        ensures { IfOk result (λ index. IsIndexed index []) }
    {
        let starts = starts_for(count);
        let slots = vec![in alloc; Slot::FREE; starts.saturating_add(PROBES - 1)]?;
        Ok(Index {
            slots,
            overflow: BTreeMap::new(alloc),
        })
    }

    // Builds the index of these entries: several threads fill its slots, and then check that the
    // look-up of each entry comes to its position. What finds none of its slots free goes to the
    // tree. Returns `None` if two entries have one CID, or if more than a few find no free slot: no
    // thread fills the tree.
    pub(crate) fn by_threads<R: Threads + Sync>(
        rt: &R,
        alloc: Global,
        entries: &Entries<'_>,
        threads: usize,
    ) -> Result<Option<Index>, AllocError>
        ensures { MayIndex entries.now result }
    {
        let slots = filled(rt, alloc, entries, threads)?;
        let index = Index {
            slots,
            overflow: BTreeMap::new(alloc),
        };
        let threads = threads.max(1);
        let share = entries.len().div_ceil(threads);
        let shares = check_shares(rt, alloc, index.slots.as_slice(), entries, share, threads)?;
        index.accept_shares(alloc, entries, share, shares.as_slice())
    }

    // Returns the same index, after threads checked the shares of the entries.
    fn accept_shares(
        mut self,
        alloc: Global,
        entries: &Entries<'_>,
        share: usize,
        shares: &[Seen],
    ) -> Result<Option<Index>, AllocError>
        requires empty { (c : List ℕ) → place_after self c ≡ None }
        requires seen { AllSeen self.slots.items entries.now share shares.now }
        requires whole { length entries.now ≤ length shares.now * share }
        ensures { MayIndex entries.now result }
    {
        for places in shares.iter() {
            match places {
                Err(_) => return Err(AllocError),
                Ok(None) => return Ok(None),
                Ok(Some(places)) => {
                    if !self.insert_all_overflow(alloc, entries, places.as_slice())? {
                        return Ok(None);
                    }
                }
            }
        }
        Ok(Some(self))
    }

    // Inserts these positions into the tree, each for the CID of its entry. Returns whether it has
    // each of them.
    fn insert_all_overflow(
        &mut self,
        alloc: Global,
        entries: &Entries<'_>,
        places: &[usize],
    ) -> Result<bool, AllocError>
        ensures slots { self.new.slots ≡ self.old.slots }
        ensures kept { HasAllOf self.new self.old }
        ensures overflow { StaysTrueAfter self.old self.new entries.now }
        ensures put { IfOk result (λ all. IsTrue all → AreAfter self.new entries.now places.now) }
    {
        for place in places.iter() {
            let place = *place;
            let Some((cid, _)) = entries.get(place) else {
                return Ok(false);
            };
            let existing = self.insert_overflow(alloc, cid, place)?;
            if existing != place {
                return Ok(false);
            }
        }
        Ok(true)
    }

    // Makes room for so many entries: if they may take more than half of the slots, the table grows.
    // It grows in place, since the larger one beside it would take half as much memory again. So it is
    // found out first which slots the entries will take, and what will find none goes to the tree,
    // unless it is in it: once the slots are freed, nothing can fail.
    pub(crate) fn make_room(
        &mut self,
        alloc: Global,
        entries: &Entries<'_>,
        count: usize,
    ) -> Result<(), AllocError>
        requires { IsIndexed self.old entries.now }
        ensures { IsIndexed self.new entries.now }
    {
        let starts = self.slots.len().saturating_sub(PROBES - 1);
        if count <= starts / 2 {
            return Ok(());
        }
        let size = starts_for(count).saturating_add(PROBES - 1);
        let mut taken = vec![in alloc; false; size]?;
        for place in 0..entries.len() {
            let (cid, _) = entries.at(place);
            let hash = key_hash(cid);
            match slot_for(taken.as_slice(), hash, place) {
                Some(slot) => taken[slot] = true,
                None if self.has_place(hash, place) => {
                    self.insert_overflow(alloc, cid, place)?;
                }
                None => {}
            }
        }
        drop(taken);
        self.free_slots(size)?;
        self.fill_slots(entries);
        Ok(())
    }

    // Makes the table one of so many free slots. Fails, with the table as it was, if memory runs out.
    fn free_slots(&mut self, size: usize) -> Result<(), AllocError>
        ensures overflow { self.new.overflow ≡ self.old.overflow }
        ensures len { OnOk result (length self.new.slots.items ≡ size) }
        ensures free { OnOk result (taken_in self.new.slots.items ≡ replicate size false) }
        ensures err { OnErr result (self.new.slots.items ≡ self.old.slots.items) }
    {
        let more = size.saturating_sub(self.slots.len());
        self.slots.reserve(more)?;
        self.slots.clear();
        // There is room for them, so this can't fail.
        self.slots.resize(size, Slot::FREE)?;
        Ok(())
    }

    // Fills a table of free slots with the positions of the entries. What finds none is in the tree.
    fn fill_slots(&mut self, entries: &Entries<'_>)
        requires distinct { HasDistinctCids entries.now }
        requires overflow { HasTruePlaces self.old entries.now }
        requires free { taken_in self.old.slots.items ≡ replicate (length self.old.slots.items) false }
        requires crowded { HasCrowded self.old entries.now (length self.old.slots.items) }
        ensures { IsIndexed self.new entries.now }
    {
        for place in 0..entries.len() {
            let (cid, _) = entries.at(place);
            let hash = key_hash(cid);
            if let Some(slot) = free_slot(self.slots.as_slice(), hash, place) {
                self.slots[slot] = Slot::taken(hash, place);
            }
        }
    }

    // Whether the look-up of a number visits a slot with this position. If it doesn't, only the
    // tree can lead to it.
    fn has_place(&self, hash: u64, place: usize) -> bool
        ensures { result ≡ false → ComesOnlyAfter self.now.slots.items hash place }
    {
        let (_, window) = window(self.slots.as_slice(), hash);
        for slot in window {
            if let Some(other) = slot.place() {
                if other == place {
                    return true;
                }
            }
        }
        false
    }

    // Returns the position that the tree has for a CID. If it has none, it is given this one.
    fn insert_overflow(
        &mut self,
        alloc: Global,
        cid: &[u8],
        place: usize,
    ) -> Result<usize, AllocError>
        ensures slots { self.new.slots ≡ self.old.slots }
        ensures existing { IfOk result (λ p. p ≡ unwrap_or (place_after self.old cid.now) place) }
        ensures put { IfOk result (λ existing. PutsAfter self.old self.new cid.now existing) }
        ensures err { OnErr result (SameAfter self.old self.new) }
    {
        let key = key_of(alloc, cid)?;
        match self.overflow.entry(key) {
            Ok(entry) => Ok(*entry.or_insert(place)),
            Err(_) => Err(AllocError),
        }
    }

    // Returns where the table has the entry of a CID, or where its position goes.
    fn lookup(&self, entries: &Entries<'_>, cid: &[u8]) -> Lookup
        requires { IsIndexed self.now entries.now }
        ensures { IsLookup self.now entries.now cid.now result }
    {
        let hash = key_hash(cid);
        let tag = fingerprint(hash);
        let (first, window) = window(self.slots.as_slice(), hash);
        for (step, slot) in window.iter().enumerate() {
            let Some(place) = slot.place() else {
                if entries.len() < MOST_PLACES {
                    return Lookup::Vacant(first + step);
                }
                return Lookup::Overflow;
            };
            if slot.tag == tag && holds(entries, place, cid) {
                return Lookup::Present(place);
            }
        }
        Lookup::Overflow
    }

    // Returns the position of the entry of a CID.
    pub(crate) fn find(&self, entries: &Entries<'_>, cid: &Cid) -> Option<usize>
        requires { IsIndexed self.now entries.now }
        ensures { result ≡ position_of entries.now cid.now }
    {
        match self.lookup(entries, cid.as_bytes()) {
            Lookup::Present(place) => Some(place),
            Lookup::Vacant(_) => None,
            Lookup::Overflow => self.overflow.get(cid).copied(),
        }
    }

    // Inserts the position after the last entry for a CID, unless its entry is there. Returns
    // whether it did.
    pub(crate) fn enter(
        &mut self,
        alloc: Global,
        entries: &Entries<'_>,
        cid: &[u8],
    ) -> Result<bool, AllocError>
        requires { IsIndexed self.old entries.now }
        ensures answer { IfOk result (λ b. b ≡ not (has_cid entries.now cid.now)) }
        ensures entered { IfOk result (λ b. IsTrue b → IsIndexedWith self.new entries.now cid.now) }
        ensures held { IfOk result (λ b. b ≡ false → IsIndexed self.new entries.now) }
        ensures err { OnErr result (IsIndexed self.new entries.now) }
    {
        let place = entries.len();
        match self.lookup(entries, cid) {
            Lookup::Present(_) => Ok(false),
            Lookup::Vacant(slot) => {
                self.slots[slot] = Slot::taken(key_hash(cid), place);
                Ok(true)
            }
            Lookup::Overflow => {
                let existing = self.insert_overflow(alloc, cid, place)?;
                Ok(existing == place)
            }
        }
    }
}

// Returns the CID with these bytes. Fails if memory runs out, or if they aren't a CID's.
pub(crate) fn key_of(alloc: Global, cid: &[u8]) -> Result<Cid, AllocError>
    ensures { IfOk result (λ key. key ≡ cid.now) }
{
    match Cid::read(alloc, cid) {
        Ok((key, _)) if key.as_bytes() == cid => Ok(key),
        _ => Err(AllocError),
    }
}

// Returns the slot at which the look-up of a number begins, and the slots that it visits.
fn window<T>(slots: &[T], hash: u64) -> (usize, &[T])
    ensures first { result.0 ≡ first_of slots.now hash }
    ensures slots { result.1.now ≡ window_of slots.now hash }
{
    if slots.len() < PROBES {
        return (0, &[]);
    }
    let first = hash as usize & (slots.len() - PROBES);
    (first, &slots[first..first + PROBES])
}

// Returns the slot for the position of a number: the first free one of its look-up. Returns `None`
// if none of them is free, or if no slot can have the position, which then goes to the tree.
fn free_slot(slots: &[Slot], hash: u64, place: usize) -> Option<usize>
    ensures { FindsFree slots.now hash place result }
{
    if place >= MOST_PLACES {
        return None;
    }
    let (first, window) = window(slots, hash);
    for (step, slot) in window.iter().enumerate() {
        if slot.place().is_none() {
            return Some(first + step);
        }
    }
    None
}

// Does the same of which it is said only which slots are taken.
fn slot_for(taken: &[bool], hash: u64, place: usize) -> Option<usize>
    ensures { result ≡ slot_for taken.now hash place }
{
    if place >= MOST_PLACES {
        return None;
    }
    let (first, window) = window(taken, hash);
    for (step, is_taken) in window.iter().enumerate() {
        if !*is_taken {
            return Some(first + step);
        }
    }
    None
}

// Returns what the look-up of a CID finds in a table.
pub(crate) fn look(slots: &[Slot], entries: &Entries<'_>, cid: &[u8]) -> Probe
    ensures { result ≡ probe_in slots.now entries.now cid.now }
{
    let hash = key_hash(cid);
    let tag = fingerprint(hash);
    let (_, window) = window(slots, hash);
    for slot in window {
        let Some(place) = slot.place() else {
            return Probe::Free;
        };
        if slot.tag == tag && is_cid_at(entries, place, cid) {
            return Probe::At(place);
        }
    }
    Probe::Full
}

// Whether the entry at a position has this CID.
fn is_cid_at(entries: &Entries<'_>, place: usize, cid: &[u8]) -> bool
    ensures { result ≡ is_cid_at entries.now place cid.now }
{
    match entries.get(place) {
        Some((other, _)) => other == cid,
        None => false,
    }
}

// Returns at how many slots a look-up may begin in a table for `count` entries: at twice as many, or
// more.
pub(crate) fn starts_for(count: usize) -> usize
    ensures { 64 ≤ result }
{
    count
        .saturating_mul(2)
        .max(LEAST_STARTS)
        .checked_next_power_of_two()
        .unwrap_or(LEAST_STARTS)
}

// Returns the fingerprint of a number: its highest byte.
fn fingerprint(hash: u64) -> u8
    ensures { result ≡ fingerprint hash }
{
    (hash >> 56) as u8
}

// Returns the number of a CID.
pub(crate) fn key_hash(cid: &[u8]) -> u64
    ensures { result ≡ key_hash cid.now }
{
    match cid.split_last_chunk() {
        Some((_, hash)) => u64::from_le_bytes(*hash),
        None => 0,
    }
}

// Whether the entry of a CID is at a position.
pub(crate) fn holds(entries: &Entries<'_>, place: usize, cid: &[u8]) -> bool
    requires { HasDistinctCids entries.now }
    ensures { IsTrue result ↔ (position_of entries.now cid.now ≡ Some place) }
{
    match entries.get(place) {
        Some((held, _)) => held == cid,
        None => false,
    }
}
