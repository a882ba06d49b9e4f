//! The table of expansions.

ghost use Rattle.std.specs.Prelude.{◌≡◌, ◌<◌, [], ◌∷◌, IfOk, IfSome, OnOk, OnErr, length, map, slice_range, All};
ghost use Rattle.std.specs.Bool.{OnTrue};
ghost use Rattle.ix_selector.specs.Behind.{residual_of};
ghost use Rattle.ix_walk.specs.Walking.{waiting};
ghost use Rattle.ix_prefetch.specs.Link.{cid_at, IsHashedAt};
ghost use Rattle.ix_prefetch.specs.Expansions.{IsMet, residual_in, HasNumber, IsLinkAt, IsPair, IsPairOf, IsTableOf, link_at};
ghost use Rattle.ix_prefetch.specs.Growing.{Adds, AddsSome, AddsOrSome, AddsBlockOrSome, AddsPair, IsTaskBlock, IsTaskRead, IsPairBeside, at_depth};

use crate::link::{Link, LinkAt, Pair};
use crate::pair_index::{NO_PAIR, NextLevel, PairIndex, Task};
use crate::reading::{Block, Read, read_at, stored_at};
use crate::stop::TableStop;
use ix_cid::CidRef;
use ix_selector::{Residual, law};
use ix_store::Store;
use ix_walk::{Job, PendingLink, expand, has_tag};
use std::alloc::{AllocError, Global};
use std::collections::BTreeMap;
use std::marker::Model;

// How many residuals have a number.
const MOST_RESIDUALS: usize = u16::MAX as usize;

// About how many bytes a link, a pair, a CID and a residual take.
const LINK_BYTES: usize = 12;

const PAIR_BYTES: usize = 16;

const CID_BYTES: usize = 32;

const RESIDUAL_BYTES: usize = 256;

/// Expansions of one job over one store, as many as were made.
pub struct Expansions<'a> {
    store: &'a Store,
    job: &'a Job,
    // The residuals by number. That of a root has the number 0.
    residuals: Vec<Residual<'a>>,
    // The number that a residual may have.
    numbers: BTreeMap<Residual<'a>, u16>,
    // The CIDs of links that are not stored as places.
    cids: Vec<CidRef<'a>>,
    // The lists, one after another.
    links: Vec<Link>,
    pairs: Vec<Pair>,
    index: PairIndex,
}

// Written by hand: a derived drop is inlined in each function that drops one, at each of its exits.
impl<'a> Drop for Expansions<'a> {
    fn drop(self) {
        let Expansions {
            store: _,
            job: _,
            residuals,
            numbers,
            cids,
            links,
            pairs,
            index,
        } = self;
        drop(residuals);
        drop(numbers);
        drop(cids);
        drop(links);
        drop(pairs);
        drop(index);
    }
}

impl<'a> Model for Expansions<'a> {
    ghost use Rattle.ix_prefetch.specs.Expansions.{ExpansionTable, coded_table, table_of, AreExpansions};

    ghost Value = { ExpansionTable };

    ghost coded = { coded_table };

    ghost view = { λ t. table_of t.store.now t.job.now t.residuals.items t.cids.items t.links.items };

    ghost invariant = { λ t. AreExpansions t.store.now t.job.now t.residuals.items t.cids.items t.links.items t.pairs.items };
}

impl<'a> Expansions<'a> {
    /// Creates a table with no expansion.
    pub fn new(alloc: Global, store: &'a Store, job: &'a Job) -> Result<Expansions<'a>, AllocError>
        ensures store { IfOk result (λ t. t.store ≡ store.now) }
        ensures job { IfOk result (λ t. t.job ≡ job.now) }
    {
        law::selector_is_one(job.selector());
        let mut residuals = Vec::new(alloc);
        residuals.push(Residual::start(alloc, job.selector())?)?;
        Ok(Expansions {
            store,
            job,
            residuals,
            numbers: BTreeMap::new(alloc),
            cids: Vec::new(alloc),
            links: Vec::new(alloc),
            pairs: Vec::new(alloc),
            index: PairIndex::new(alloc),
        })
    }

    /// Returns how many expansions it has, each of a block and a residual. If it has none, a walk is faster
    /// without it.
    pub fn len(&self) -> usize {
        self.pairs.len()
    }

    /// The store.
    pub(crate) fn store(&self) -> &'a Store
        ensures { result.now ≡ self.now.store }
    {
        self.store
    }

    /// The job.
    pub(crate) fn job(&self) -> &'a Job
        ensures { result.now ≡ self.now.job }
    {
        self.job
    }

    // ---- residuals

    /// The residual of this number.
    pub(crate) fn residual(&self, number: u16) -> &Residual<'a>
        requires { number < length self.now.residuals }
        ensures value { result.now ≡ residual_in self.now number }
        ensures met { IsMet self.now.job.selector result.now }
    {
        &self.residuals[number as usize]
    }

    /// Returns the residual of this number, if there is one.
    pub(crate) fn residual_at(&self, number: u16) -> Option<&Residual<'a>>
        ensures { IfSome result (λ r. IsMet self.now.job.selector r.now) }
    {
        if number as usize >= self.residuals.len() {
            return None;
        }
        Some(&self.residuals[number as usize])
    }

    /// The number of the residual of a root.
    pub(crate) fn root_number(&self) -> u16
        ensures { HasNumber self.now (residual_of self.now.job.selector) result }
    {
        let _ = &self.residuals;
        0
    }

    // Whether a residual has this number.
    fn is_numbered(&self, number: u16, residual: &Residual<'a>) -> bool
        requires { IsMet self.now.job.selector residual.now }
        ensures { OnTrue result (HasNumber self.now residual.now number) }
    {
        if number as usize >= self.residuals.len() {
            return false;
        }
        self.residuals[number as usize].is_same(residual)
    }

    // Returns the number of a residual, if it has one.
    fn known_number(&self, residual: &Residual<'a>) -> Option<u16>
        requires { IsMet self.now.job.selector residual.now }
        ensures { IfSome result (HasNumber self.now residual.now) }
    {
        if self.is_numbered(0, residual) {
            return Some(0);
        }
        let number = self.numbers.get(residual).copied()?;
        if self.is_numbered(number, residual) {
            Some(number)
        } else {
            None
        }
    }

    // Adds a residual, and returns its number.
    fn add_residual(&mut self, alloc: Global, residual: &Residual<'a>) -> Result<u16, TableStop>
        requires { IsMet self.old.job.selector residual.now }
        ensures adds { Adds self.old self.new [] }
        ensures number { IfOk result (HasNumber self.new residual.now) }
    {
        let number = self.residuals.len();
        if number >= MOST_RESIDUALS {
            return Err(TableStop::Full);
        }
        let number = number as u16;
        self.numbers.insert(residual.try_clone(alloc)?, number)?;
        self.residuals.push(residual.try_clone(alloc)?)?;
        Ok(number)
    }

    /// Returns the number of a residual, which is added unless it is there.
    pub(crate) fn number_of(
        &mut self,
        alloc: Global,
        residual: &Residual<'a>,
    ) -> Result<u16, TableStop>
        requires { IsMet self.old.job.selector residual.now }
        ensures adds { Adds self.old self.new [] }
        ensures number { IfOk result (HasNumber self.new residual.now) }
    {
        match self.known_number(residual) {
            Some(number) => Ok(number),
            None => self.add_residual(alloc, residual),
        }
    }

    // ---- links

    // Appends a link to a block of the store, whose pair may have this number.
    fn push_stored(&mut self, residual: u16, place: u32, pair: u32) -> Result<(), TableStop>
        requires residual { residual < length self.old.residuals }
        requires place { IsHashedAt self.old.store place }
        ensures added { OnOk result (Adds self.old self.new
            (waiting (residual_in self.old residual) 0 (cid_at self.old.store place) ∷ [])) }
        ensures err { OnErr result (self.new ≡ self.old) }
    {
        self.links.push(Link::Stored {
            residual,
            place,
            pair,
        })?;
        Ok(())
    }

    // Appends a link to any CID.
    fn push_written(&mut self, residual: u16, cid: CidRef<'a>) -> Result<(), TableStop>
        requires { residual < length self.old.residuals }
        ensures added { OnOk result (Adds self.old self.new
            (waiting (residual_in self.old residual) 0 cid.entry ∷ [])) }
        ensures err { OnErr result (self.new ≡ self.old) }
    {
        let number = self.cids.len();
        if number >= u32::MAX as usize {
            return Err(TableStop::Full);
        }
        let number = number as u32;
        self.cids.push(cid)?;
        self.links.push(Link::Written {
            residual,
            cid: number,
        })?;
        Ok(())
    }

    // Appends a link without its depth.
    fn push_link(&mut self, alloc: Global, link: &PendingLink<'a, 'a>) -> Result<(), TableStop>
        requires { IsMet self.old.job.selector link.now.residual }
        ensures added { OnOk result (Adds self.old self.new (at_depth 0 link.now ∷ [])) }
        ensures err { OnErr result (Adds self.old self.new []) }
    {
        let number = self.number_of(alloc, &link.residual)?;
        match stored_at(alloc, self.store, &link.cid)? {
            Some(at) => self.push_stored(number, at.place, at.guess()),
            None => self.push_written(number, same_cid(&link.cid)),
        }
    }

    // Appends links, each without its depth.
    fn push_links(&mut self, alloc: Global, links: &[PendingLink<'a, 'a>]) -> Result<(), TableStop>
        requires { All (λ f. IsMet self.old.job.selector f.residual) links.now }
        ensures { AddsOrSome self.old self.new (map (at_depth 0) links.now) result }
    {
        for link in links.iter() {
            self.push_link(alloc, link)?;
        }
        Ok(())
    }

    /// Returns the link with this number.
    pub(crate) fn link(&self, number: u32) -> LinkAt<'a>
        requires { number < length self.now.links }
        ensures { IsLinkAt self.now number result }
    {
        match self.links[number as usize] {
            Link::Stored {
                residual,
                place,
                pair,
            } => LinkAt::Stored {
                residual,
                place,
                pair,
            },
            Link::Written { residual, cid } => LinkAt::Written {
                residual,
                cid: same_cid(&self.cids[cid as usize]),
            },
        }
    }

    // ---- pairs

    // Returns the pair with this number, if it is that of a place and a residual.
    fn pair_at(&self, number: u32, place: usize, residual: u16) -> Option<Pair>
        ensures { IfSome result (IsPairOf self.now place residual) }
    {
        let pair = self.pairs.get(number as usize).copied()?;
        if pair.is_of(place, residual) {
            Some(pair)
        } else {
            None
        }
    }

    /// Returns the pair of a place and a residual, if it is there. Looks first whether it is the one
    /// with the guessed number, of which `NO_PAIR` says that there is none.
    pub(crate) fn pair(&self, guess: u32, place: usize, residual: u16) -> Option<Pair>
        ensures { IfSome result (IsPairOf self.now place residual) }
    {
        if guess == NO_PAIR {
            return None;
        }
        match self.pair_at(guess, place, residual) {
            Some(pair) => Some(pair),
            None => self.pair_at(self.index.get(place, residual), place, residual),
        }
    }

    // Adds a pair. The index has its number where it was scheduled.
    fn push_pair(&mut self, pair: Pair) -> Result<(), TableStop>
        requires { IsPair self.old pair }
        ensures { self.new ≡ self.old }
    {
        self.pairs.push(pair)?;
        Ok(())
    }

    // Appends the links in the block of a task that its residual enters. Returns whether nothing below
    // the block is visited by the job's walk: then there may be none.
    fn push_block(&mut self, alloc: Global, task: Task, block: Block<'a>) -> Result<bool, TableStop>
        requires { IsTaskBlock self.old task block }
        ensures { AddsBlockOrSome self.old self.new block.entry.cid (residual_in self.old task.residual) result }
    {
        let Block { cid: _, bytes } = block;
        let once = self.job.visits_links_once();
        if once && !has_tag(bytes.bytes()) {
            return Ok(true);
        }
        let residual = self.residual(task.residual).try_clone(alloc)?;
        let links = expand(alloc, residual, bytes, 0)?;
        if once && !links.is_empty() && !self.store.hash_matches(task.place as usize) {
            return Ok(true);
        }
        self.push_links(alloc, links.as_slice())?;
        Ok(false)
    }

    // Does the same for a block that may not be DAG-CBOR: then there is no link.
    fn push_bytes(&mut self, alloc: Global, task: Task, read: Read<'a>) -> Result<bool, TableStop>
        requires { IsTaskRead self.old task read }
        ensures { AddsBlockOrSome self.old self.new read.entry.cid (residual_in self.old task.residual) result }
    {
        let Read {
            cid,
            bytes,
            malformed: _,
        } = read;
        let Some(bytes) = bytes else {
            return Ok(false);
        };
        self.push_block(alloc, task, Block { cid, bytes })
    }

    // Appends the list of a task, at whose place this was read. Returns its pair.
    fn push_read(&mut self, alloc: Global, task: Task, read: Read<'a>) -> Result<Pair, TableStop>
        requires { IsTaskRead self.old task read }
        ensures { AddsPair self.old self.new result }
    {
        let malformed = read.malformed;
        let from = self.links.len();
        let barren = self.push_bytes(alloc, task, read)?;
        let Some((from, to)) = bounds(from, self.links.len()) else {
            return Err(TableStop::Full);
        };
        Ok(Pair {
            place: task.place,
            from,
            to,
            residual: task.residual,
            malformed,
            barren,
        })
    }

    // ---- levels

    /// Expands the block of a task, whose residual has its number in another table of the same job,
    /// and adds the expansion, if the CID at its place names the block by its hash and its codec is
    /// known. After an error what the table has is as true as before.
    pub(crate) fn add_task(
        &mut self,
        alloc: Global,
        numbers: &Expansions<'a>,
        task: Task,
    ) -> Result<(), TableStop>
        requires { IsTableOf numbers.now self.old }
        ensures { AddsSome self.old self.new }
    {
        let Some(residual) = numbers.residual_at(task.residual) else {
            return Ok(());
        };
        let residual = self.number_of(alloc, residual)?;
        let place = task.place;
        match read_at(alloc, self.store, place as usize)? {
            Some(read) => {
                let pair = self.push_read(alloc, Task { place, residual }, read)?;
                self.push_pair(pair)
            }
            None => Ok(()),
        }
    }

    // Appends a link of another table of the same job.
    fn append_link(
        &mut self,
        alloc: Global,
        part: &Expansions<'a>,
        link: u32,
        next: &mut NextLevel,
    ) -> Result<(), TableStop>
        requires table { IsTableOf part.now self.old }
        requires link { link < length part.now.links }
        ensures { AddsOrSome self.old self.new (link_at part.now link ∷ []) result }
    {
        match part.link(link) {
            LinkAt::Stored {
                residual,
                place,
                pair,
            } => {
                let residual = self.number_of(alloc, part.residual(residual))?;
                let pair = self.index.schedule(Task { place, residual }, pair, next)?;
                self.push_stored(residual, place, pair)
            }
            LinkAt::Written { residual, cid } => {
                let residual = self.number_of(alloc, part.residual(residual))?;
                self.push_written(residual, cid)
            }
        }
    }

    // Appends the list of a pair of another table of the same job.
    fn append_list(
        &mut self,
        alloc: Global,
        part: &Expansions<'a>,
        pair: Pair,
        next: &mut NextLevel,
    ) -> Result<(), TableStop>
        requires { IsPairBeside self.old part.now pair }
        ensures { AddsOrSome self.old self.new (slice_range part.now.links pair.from pair.to) result }
    {
        for link in pair.from..pair.to {
            self.append_link(alloc, part, link, next)?;
        }
        Ok(())
    }

    // Appends the same list. Returns the pair that it has here.
    fn append_pair(
        &mut self,
        alloc: Global,
        part: &Expansions<'a>,
        pair: Pair,
        next: &mut NextLevel,
    ) -> Result<Pair, TableStop>
        requires { IsPairBeside self.old part.now pair }
        ensures { AddsPair self.old self.new result }
    {
        let residual = self.number_of(alloc, part.residual(pair.residual))?;
        let from = self.links.len();
        self.append_list(alloc, part, pair, next)?;
        let Some((from, to)) = bounds(from, self.links.len()) else {
            return Err(TableStop::Full);
        };
        Ok(Pair {
            place: pair.place,
            from,
            to,
            residual,
            malformed: pair.malformed,
            barren: pair.barren,
        })
    }

    /// Adds the expansion with this number in another table of the same job, and puts the pairs of its
    /// links that aren't known into the next level. If there is no such expansion, it stops as full.
    pub(crate) fn append(
        &mut self,
        alloc: Global,
        part: &Expansions<'a>,
        number: usize,
        next: &mut NextLevel,
    ) -> Result<(), TableStop>
        requires { IsTableOf part.now self.old }
        ensures { AddsSome self.old self.new }
    {
        let Some(pair) = part.numbered_pair(number) else {
            return Err(TableStop::Full);
        };
        let pair = self.append_pair(alloc, part, pair, next)?;
        self.push_pair(pair)
    }

    // Returns the pair with this number.
    fn numbered_pair(&self, number: usize) -> Option<Pair>
        ensures { IfSome result (IsPair self.now) }
    {
        self.pairs.get(number).copied()
    }

    /// The level after one of so many pairs, which are not added yet: nothing is in it.
    pub(crate) fn next_level(&self, alloc: Global, pairs: usize) -> NextLevel {
        NextLevel {
            tasks: Vec::new(alloc),
            first: self.pairs.len().saturating_add(pairs),
            most: self.job.limit(),
        }
    }

    /// The first level: the blocks of the roots.
    pub(crate) fn root_level(&mut self, alloc: Global) -> Result<NextLevel, AllocError>
        ensures { self.new ≡ self.old }
    {
        let mut level = self.next_level(alloc, 0);
        self.index
            .schedule_roots(alloc, self.store, self.job.roots(), &mut level)?;
        Ok(level)
    }

    /// About how many bytes it takes.
    pub(crate) fn bytes(&self) -> usize {
        let links = self.links.len().saturating_mul(LINK_BYTES);
        let pairs = self.pairs.len().saturating_mul(PAIR_BYTES);
        let cids = self.cids.len().saturating_mul(CID_BYTES);
        let residuals = self.residuals.len().saturating_mul(RESIDUAL_BYTES);
        links
            .saturating_add(pairs)
            .saturating_add(cids)
            .saturating_add(residuals)
            .saturating_add(self.index.bytes())
    }
}

// Returns the bounds of a list as they are kept.
fn bounds(from: usize, to: usize) -> Option<(u32, u32)>
    ensures { IfSome result (λ b. (b.0 ≡ from) × (b.1 ≡ to)) }
{
    if from > u32::MAX as usize || to > u32::MAX as usize {
        return None;
    }
    Some((from as u32, to as u32))
}

// Returns the same CID in place.
fn same_cid<'a>(cid: &CidRef<'a>) -> CidRef<'a>
    ensures { result ≡ cid.now }
{
    let bytes = cid.as_bytes();
    match cid.shared() {
        Some((shared, start)) => CidRef::within(bytes, shared, start),
        None => CidRef::of(bytes),
    }
}
