//! Archives (CARv1): a header with the roots of a job, and a section for each sound block at its
//! first visit.

ghost use Rattle.std.specs.Prelude.{◌≡◌, ◌+◌, true, false, None, Some, [], IfOk, IfErr, option_map};
ghost use Rattle.ix_check.specs.Verdict.{passes};
ghost use Rattle.ix_car.specs.Archive.{is_known, is_known_place, known_at};
ghost use Rattle.ix_verdict.specs.Verdict.{is_sound};
ghost use Rattle.ix_car.specs.ArchiveMeaning.{HasArchived, IsBegun, borrowed, known_in};
ghost use Rattle.ix_car.specs.Archiving.{is_cut_off, section_due, counts_in, IsAdded, IsDelivered, IsDeliveredDue, KeepsAt};
ghost use Rattle.ix_car.specs.Report.{at_most, skips_of};
ghost use Rattle.ix_car.specs.ArchiveNew.{IsNoArchive};

use crate::fault::{ArchiveNew, SinkFault};
use crate::sink::{Delivery, End, Sink};
use ix_check::{History, Verdict};
use ix_cid::Cid;
use ix_sections::{header_of, set_section_head, write_section, write_text};
use ix_store::{PlaceSet, Store};
use ix_walk::{Job, Visit};
use std::alloc::Global;
use std::io::Write;
use std::marker::Model;
use std::snapshot::Snapshot;

// How many bytes of the header's buffer an archive keeps at most.
const MOST_SCRATCH: usize = 4096;

/// A visit that was kept and isn't good.
#[derive(Debug, Drop)]
pub struct Skip {
    pub seq: u32,
    pub cid: Cid,
    pub verdict: Verdict,
}

/// Counts of deliveries, sections and bytes. Each saturates.
#[derive(Debug, Drop, Clone, Copy, PartialEq, Eq)]
pub struct Counts {
    /// Deliveries that were accepted.
    pub visits: u32,
    /// Deliveries that weren't cut off.
    pub kept: u32,
    /// Whole sections.
    pub sections: u32,
    /// Bytes that the writer took, with the header.
    pub bytes: u64,
    /// Sound blocks that have no section since the receiver has them, if that was asked for.
    pub known: Option<u32>,
}

/// The sink that writes the CARv1 archive of a job, given its deliveries in preorder.
///
/// A delivery is good if its verdict is Sound or Inline. After one that isn't, the deliveries at a
/// greater depth, up to the next at that depth or less, are cut off: nothing is written or reported
/// of them. The others are kept. A kept delivery that isn't good is a skip, each time that it
/// comes. A kept sound one whose CID has no section yet writes one: the length of CID and block
/// together as a varint, the CID, and the block as the archive's own store has it. If the store has
/// none, nothing is written, and that is no section. An inline block (identity CID) is good and has
/// no section, also if the store has a block under its CID.
///
/// An archive that was made with known blocks leaves their sections out, and counts each once. All else
/// is as without them.
#[derive(Drop)]
pub struct Archive<'a, W: Write> {
    store: &'a Store,
    // The job and what was delivered, for contracts only.
    job: Snapshot<Job>,
    deliveries: History<Delivery>,
    // The positions in the store of the blocks that the receiver has.
    known: Option<&'a PlaceSet>,
    failed: Option<Delivery>,
    closed: Option<End>,
    // The depth of the delivery below which the list is cut off.
    pruned_below: Option<u32>,
    counts: Counts,
    // The positions in the store of the blocks that were written; emptied when the archive is
    // closed.
    written: PlaceSet,
    skips: Vec<Skip>,
    // The bytes before a section's block. The buffer is kept from one section to the next.
    scratch: Vec<u8>,
    writer: W,
}

impl<'a, W: Write> Model for Archive<'a, W> {
    ghost use Rattle.std.specs.Prelude.{option_to_list};
    ghost use Rattle.ix_car.specs.Archive.{known_at};
    ghost use Rattle.ix_car.specs.ArchiveMeaning.{ArchiveMeaning, borrowed};
    ghost use Rattle.ix_car.specs.Archiving.{IsTally};

    ghost Value = { ArchiveMeaning W };

    ghost view = { λ a. record { store = a.store.now; roots = a.job.value.roots; known = borrowed a.known; deliveries = a.deliveries; failed = option_to_list a.failed; closed = option_to_list a.closed; taken = a.counts.bytes; writer = a.writer } };

    ghost invariant = { λ a. IsTally (known_at a.store.now (borrowed a.known)) a.store.now a.deliveries (option_to_list a.failed) (option_to_list a.closed) a.pruned_below a.counts a.written a.skips.items };
}

impl<'a, W: Write> Archive<'a, W> {
    /// Creates the archive of a job over a store and writes its header: the length of a DAG-CBOR
    /// map as a varint and the map, with `roots`, a list of a link to each root, and `version` 1.
    /// An error returns the writer.
    pub fn new(
        alloc: Global,
        store: &'a Store,
        job: &Job,
        writer: W,
    ) -> Result<Archive<'a, W>, ArchiveNew<W>>
        ensures begun { IfOk result (λ a. IsBegun a store.now job.now.roots) }
        ensures guarantee { IfOk result (λ a.
            HasArchived W.contents a None store.now job.now (W.contents writer)) }
        ensures refused { IfErr result (λ e. IsNoArchive W.contents writer job.now.roots e) }
    {
        Archive::without(alloc, store, None, job, writer)
    }

    /// Creates the archive of a job over a store, as `new` does, which leaves out the sections of the
    /// blocks at known positions in the store, if they are given: those that the receiver has.
    pub fn without(
        alloc: Global,
        store: &'a Store,
        known: Option<&'a PlaceSet>,
        job: &Job,
        mut writer: W,
    ) -> Result<Archive<'a, W>, ArchiveNew<W>>
        ensures begun { IfOk result (λ a. IsBegun a store.now job.now.roots) }
        ensures guarantee { IfOk result (λ a.
            HasArchived W.contents a (known_at store.now (borrowed known.entry))
            store.now job.now (W.contents writer)) }
        ensures refused { IfErr result (λ e. IsNoArchive W.contents writer job.now.roots e) }
    {
        let Ok(header) = header_of(alloc, job.roots()) else {
            return Err(ArchiveNew::Memory(writer));
        };
        let taken = write_text(&mut writer, header.as_slice());
        if taken < header.len() {
            return Err(ArchiveNew::Write(writer));
        }
        Ok(Archive {
            store,
            job: Snapshot::of(job),
            deliveries: History::new(),
            known,
            failed: None,
            closed: None,
            pruned_below: None,
            counts: Counts {
                visits: 0,
                kept: 0,
                sections: 0,
                bytes: taken as u64,
                known: none_counted(known),
            },
            written: PlaceSet::new(alloc),
            skips: Vec::new(alloc),
            scratch: scratch_of(alloc, header),
            writer,
        })
    }

    /// The visits that were kept and aren't good, in order.
    pub fn skips(&self) -> &[Skip]
        ensures { result.now ≡ skips_of self.now.deliveries }
    {
        self.skips.as_slice()
    }

    /// The counts so far.
    pub fn counts(&self) -> Counts
        ensures { result ≡ counts_in self.now }
    {
        self.counts
    }

    /// Returns the writer, the skips and the counts.
    pub fn into_parts(self) -> (W, Vec<Skip>, Counts)
        ensures writer { result.0 ≡ self.entry.writer }
        ensures skips { result.1.items ≡ skips_of self.entry.deliveries }
        ensures counts { result.2 ≡ counts_in self.entry }
    {
        (self.writer, self.skips, self.counts)
    }

    // Accepts a delivery: cut off, a skip, a section, or just counted.
    fn take(&mut self, delivery: Delivery) -> Result<(), SinkFault>
        requires unfailed { self.old.failed ≡ [] }
        requires unclosed { self.old.closed ≡ [] }
        ensures { IsDeliveredDue W.contents delivery self.old result self.new }
    {
        if self.is_cut_off(delivery.visit.depth) {
            self.add_cut_off(&delivery);
            return Ok(());
        }
        if !delivery.verdict.passes() {
            return self.add_skip(delivery);
        }
        match self.unwritten_block(&delivery) {
            Some(place) if self.is_known(place) => self.add_known(delivery, place),
            Some(place) => self.add_section(delivery, place),
            None => {
                self.add_without_section(&delivery);
                Ok(())
            }
        }
    }

    // Whether a delivery at this depth is cut off.
    fn is_cut_off(&self, depth: u32) -> bool
        ensures { result ≡ is_cut_off self.now.deliveries depth }
    {
        match self.pruned_below {
            None => false,
            Some(cut) => cut < depth,
        }
    }

    // Returns the position of the block of the section that a kept delivery writes: `None` for a
    // CID that has its section, has no block, or is inline.
    fn unwritten_block(&self, delivery: &Delivery) -> Option<usize>
        requires unfailed { self.now.failed ≡ [] }
        requires unclosed { self.now.closed ≡ [] }
        ensures { result ≡ section_due self.now delivery.now }
    {
        if !delivery.verdict.is_sound() {
            return None;
        }
        let visit = &delivery.visit;
        match self.store.find_near(visit.block, &visit.cid) {
            Some(place) if !self.written.contains(place) => Some(place),
            _ => None,
        }
    }

    // Whether the receiver has the block at a position.
    fn is_known(&self, place: usize) -> bool
        ensures { result ≡ is_known_place self.now.known (Some place) }
    {
        match self.known {
            Some(known) => known.contains(place),
            None => false,
        }
    }

    // Adds a delivery that is cut off.
    fn add_cut_off(&mut self, delivery: &Delivery)
        requires unfailed { self.old.failed ≡ [] }
        requires cut_off { is_cut_off self.old.deliveries delivery.now.visit.depth ≡ true }
        ensures { IsAdded W.contents delivery.now [] self.old self.new }
    {
        self.deliveries.push(delivery);
        self.counts.visits = saturating_inc(self.counts.visits);
    }

    // Adds a kept delivery that isn't good.
    fn add_skip(&mut self, delivery: Delivery) -> Result<(), SinkFault>
        requires kept { KeepsAt self.old delivery.visit.depth }
        requires refused { passes delivery.verdict ≡ false }
        ensures { IsDelivered W.contents delivery [] self.old result self.new }
    {
        if self.skips.reserve(1).is_err() {
            return Err(SinkFault::Memory);
        }
        self.deliveries.push(&delivery);
        self.pruned_below = Some(delivery.visit.depth);
        self.counts.visits = saturating_inc(self.counts.visits);
        self.counts.kept = saturating_inc(self.counts.kept);
        self.skips.push_reserved(Skip {
            seq: delivery.visit.seq,
            cid: delivery.visit.cid,
            verdict: delivery.verdict,
        });
        Ok(())
    }

    // Adds a kept delivery that is good and writes no section.
    fn add_without_section(&mut self, delivery: &Delivery)
        requires kept { KeepsAt self.old delivery.now.visit.depth }
        requires passing { passes delivery.now.verdict ≡ true }
        requires none_due { section_due self.old delivery.now ≡ None }
        ensures { IsAdded W.contents delivery.now [] self.old self.new }
    {
        self.deliveries.push(delivery);
        self.pruned_below = None;
        self.counts.visits = saturating_inc(self.counts.visits);
        self.counts.kept = saturating_inc(self.counts.kept);
    }

    // Adds a kept delivery whose block, at this position, the receiver has. It is counted, and no
    // section of it is written.
    fn add_known(&mut self, delivery: Delivery, place: usize) -> Result<(), SinkFault>
        requires kept { (self.old.failed ≡ [])
            × (is_cut_off self.old.deliveries delivery.visit.depth ≡ false) }
        requires due { section_due self.old delivery ≡ Some place }
        requires known { is_known (known_in self.old) delivery.visit.cid ≡ true }
        ensures { IsDelivered W.contents delivery [] self.old result self.new }
    {
        if self.written.insert(place).is_err() {
            return Err(SinkFault::Memory);
        }
        self.deliveries.push(&delivery);
        self.pruned_below = None;
        self.counts.visits = saturating_inc(self.counts.visits);
        self.counts.kept = saturating_inc(self.counts.kept);
        self.counts.known = counted_more(self.counts.known);
        Ok(())
    }

    // Adds a kept delivery with its section, whose block is at this position.
    fn add_section(&mut self, delivery: Delivery, place: usize) -> Result<(), SinkFault>
        requires kept { KeepsAt self.old delivery.visit.depth }
        requires due { section_due self.old delivery ≡ Some place }
        requires new { is_known (known_in self.old) delivery.visit.cid ≡ false }
        ensures { IsDeliveredDue W.contents delivery self.old result self.new }
    {
        let store = self.store;
        let block = store.bytes(place);
        if set_section_head(&mut self.scratch, &delivery.visit.cid, block).is_err() {
            return Err(SinkFault::Memory);
        }
        if self.written.insert(place).is_err() {
            return Err(SinkFault::Memory);
        }
        let head = self.scratch.as_slice();
        let length = head.len() + block.len();
        let taken = write_section(&mut self.writer, head, block);
        self.counts.bytes = self.counts.bytes.saturating_add(taken as u64);
        if taken < length {
            self.failed = Some(delivery);
            return Err(SinkFault::Write);
        }
        self.deliveries.push(&delivery);
        self.pruned_below = None;
        self.counts.visits = saturating_inc(self.counts.visits);
        self.counts.kept = saturating_inc(self.counts.kept);
        self.counts.sections = saturating_inc(self.counts.sections);
        Ok(())
    }
}

impl<'a, W: Write> Sink for Archive<'a, W> {
    ghost use Rattle.ix_car.specs.Archive.{Known};
    ghost use Rattle.ix_car.specs.ArchiveMeaning.{calls_of, HasArchived};

    ghost calls = { calls_of };

    // The CIDs whose sections are left out.
    ghost About = { Known };

    ghost guarantee = { HasArchived W.contents };

    fn deliver(&mut self, _alloc: Global, visit: Visit, verdict: Verdict) -> Result<(), SinkFault> {
        self.take(Delivery { visit, verdict })
    }

    fn close(&mut self, end: End) {
        self.closed = Some(end);
        self.written.clear();
    }
}

// Returns the scratch buffer of an archive whose header was written: the header's, unless many
// roots made it long.
fn scratch_of(alloc: Global, header: Vec<u8>) -> Vec<u8> {
    if header.capacity() > MOST_SCRATCH {
        Vec::new(alloc)
    } else {
        header
    }
}

// Returns a count plus one; it saturates.
fn saturating_inc(count: u32) -> u32
    ensures { result ≡ at_most 32 (count + 1) }
{
    count.saturating_add(1)
}

// Returns the count of no known block, if known blocks are given.
fn none_counted(known: Option<&PlaceSet>) -> Option<u32>
    ensures { result ≡ option_map (λ places. 0) known.entry }
{
    match known {
        Some(_) => Some(0),
        None => None,
    }
}

// Returns a count plus one, if there is one; it saturates.
fn counted_more(count: Option<u32>) -> Option<u32>
    ensures { result ≡ option_map (λ n. at_most 32 (n + 1)) count }
{
    match count {
        Some(count) => Some(saturating_inc(count)),
        None => None,
    }
}
