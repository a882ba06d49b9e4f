//! Verifies files.

ghost use Rattle.std.specs.Prelude.{◌≡◌, ◌+◌, ◌^◌, ◌<◌, ◌≤◌, map, length, IfOk, IfErr, OnOk, MatchResult};
ghost use Rattle.ix_sections.specs.Gives.{IsFaultOf};
ghost use Rattle.ix_sections.specs.SectionView.{section_of};
ghost use Rattle.ix_sections.specs.Sections.{section_list};
ghost use Rattle.ix_verdict.specs.Verdict.{is_sound};
ghost use Rattle.ix_verify.specs.declared.found.Scope.TheVariants.{Sections as OfSections, Graph as OfGraph};
ghost use Rattle.ix_verify.specs.Outcome.{section_finding};
ghost use Rattle.ix_verify.specs.Noting.{NotesMore};
ghost use Rattle.ix_verify.specs.Found.{unsound_of, IsFoundBeside, IsFoundFor, IsFoundOf, IsFileFault};
ghost use Rattle.ix_verify.specs.Counted.{told_if, told_among, findings_of, IsJudgedOf};

use crate::found::{Findings, Scope, Unsound};
use crate::noted::Noted;
use crate::observer::{Observer, Unobserved};
use crate::other_file::{Beside, load_beside};
use crate::reach::{Reached, walk_given, walk_roots};
use crate::section::verdicts_with_store;
use ix_check::Verdict;
use ix_cid::Cid;
use ix_sections::{CarBytes, CarFault, Section, read_batch, read_header};
use ix_store::Store;
use ix_verdict::AllowMissing;
use ix_walk::Job;
use std::alloc::{AllocError, Global};
use std::num::NonZeroUsize;
use std::thread::Threads;

/// Verifies a CARv1 file, whose sections are hashed by at most so many threads. An error is the file's first
/// one, which is that of `read_car`. All sections that aren't sound and all links that lead to nothing sound
/// are counted, and at most so many of each are kept, the first ones. What the worst makes of the file is its
/// outcome.
///
/// Every section is checked by its own bytes. If the roots are to be walked, one walk visits everything below
/// them: it starts at each root once, expands each block once, and ends at 4,294,967,295 visits. A visit is a
/// root or a link; if there are more than 64 roots, one visit is spent on the list of them. Of several sections
/// with one CID the walk has the block of the first.
pub fn verify<R: Threads + Sync>(
    rt: &R,
    alloc: Global,
    car: Vec<u8>,
    threads: NonZeroUsize,
    scope: Scope,
    most: usize,
) -> Result<Findings, CarFault>
    ensures found { IfOk result (IsFoundOf car.items scope most) }
    ensures refused { IfErr result (IsFileFault car.items) }
{
    let Ok(car) = CarBytes::whole(alloc, car) else {
        return Err(CarFault::no_memory(0));
    };
    match scope {
        Scope::Sections => verify_sections(rt, alloc, &car, threads, most, &Unobserved),
        Scope::Graph => verify_beside(rt, alloc, &car, Beside::nothing(&Unobserved), threads, most),
    }
}

/// Verifies a CARv1 file by its sections alone, as `verify` does. The observer is notified of how far it is.
pub fn verify_sections<R: Threads + Sync, V: Observer>(
    rt: &R,
    alloc: Global,
    car: &CarBytes,
    threads: NonZeroUsize,
    most: usize,
    observer: &V,
) -> Result<Findings, CarFault>
    ensures found { IfOk result (IsFoundOf car.now OfSections most) }
    ensures refused { IfErr result (IsFileFault car.now) }
{
    let judged = judge_file(rt, alloc, (None, threads), car.as_slice(), most, observer)?;
    Ok(judged.with(Reached::nothing(alloc), 0))
}

/// Verifies a CARv1 file and everything below its roots as `verify` does, beside others: the walk looks a CID
/// up in the file first, and then in each of the others, in their order. Of the copies of a block in all these
/// files the first counts, or the first that is sound. The sections and roots are the file's own: if the first
/// counts, a block of another file is checked only where the walk visits it. A link that may lead to a block that
/// isn't there is counted as absent where it does. No error is of another file, since these have been read. The
/// observer is notified of how far it is.
pub fn verify_beside<R: Threads + Sync, V: Observer>(
    rt: &R,
    alloc: Global,
    car: &CarBytes,
    beside: Beside<'_, V>,
    threads: NonZeroUsize,
    most: usize,
) -> Result<Findings, CarFault>
    ensures found { IfOk result (IsFoundBeside
        beside.entry.copies beside.entry.allowed beside.entry.others.now car.now OfGraph most) }
    ensures refused { IfErr result (IsFileFault car.now) }
{
    let Beside {
        others,
        copies,
        allowed,
        observer,
    } = beside;
    // The store caches for the walk what the threads find.
    let (store, later_count) = match load_beside(rt, alloc, car, others, copies, threads.get()) {
        Ok(loaded) => loaded,
        Err(fault) => return Err(fault),
    };
    let judged = judge_file(
        rt,
        alloc,
        (Some(&store), threads),
        car.as_slice(),
        most,
        observer,
    )?;
    match walk_roots(
        alloc,
        &store,
        allowed,
        judged.roots.as_slice(),
        most,
        observer,
    ) {
        Ok(reached) => Ok(judged.with(reached, later_count)),
        Err(_) => Err(CarFault::no_memory(0)),
    }
}

/// A job that is walked in a store in place of everything below a file's roots, which of its links may lead to
/// blocks that aren't there, and the observer.
#[derive(Drop)]
pub struct JobWalk<'a, V> {
    /// The store, as `load_beside` makes it of the file and of others.
    pub store: &'a Store,
    pub job: &'a Job,
    pub allowed: AllowMissing,
    pub observer: &'a V,
}

/// Verifies a CARv1 file for a job: its sections as `verify` does, and the walk of the job over a store, in
/// place of that of everything below its roots. So the file is sound if it has all that the job asks for, when
/// the job is that of its roots and a selector and the store is that of its blocks, as `load_beside` returns
/// it, which also says how many of these are a later copy: here none is counted. A link that may lead to a
/// block that isn't there is counted as absent where it does, unless it leads to a root of the job. The observer
/// is notified of how far it is.
pub fn verify_job<R: Threads + Sync, V: Observer>(
    rt: &R,
    alloc: Global,
    car: &CarBytes,
    walk: JobWalk<'_, V>,
    threads: NonZeroUsize,
    most: usize,
) -> Result<Findings, CarFault>
    ensures { MatchResult result
        (IsFoundFor walk.entry.allowed walk.entry.store.now walk.entry.job.now car.now most) (IsFileFault car.now) }
{
    let JobWalk {
        store,
        job,
        allowed,
        observer,
    } = walk;
    let judged = judge_file(
        rt,
        alloc,
        (Some(store), threads),
        car.as_slice(),
        most,
        observer,
    )?;
    match walk_given(alloc, store, allowed, job, most, observer) {
        Ok(reached) => Ok(judged.with(reached, 0)),
        Err(_) => Err(CarFault::no_memory(0)),
    }
}

// The verdicts on the sections of a file, and its roots.
#[derive(Drop)]
struct Judged {
    roots: Vec<Cid>,
    sections: usize,
    unsound: Noted<Unsound>,
}

impl Judged {
    // Returns the findings with those of the walk from the roots, and with how many blocks are a later copy.
    fn with(self, reached: Reached, later_count: usize) -> Findings
        ensures { result ≡ findings_of self reached later_count }
    {
        Findings {
            sections: self.sections,
            unsound: self.unsound,
            skips: reached.skips,
            absent: reached.absent,
            is_over_limit: reached.is_over_limit,
            later_count,
        }
    }
}

// Checks the sections of a file, with the store of its blocks if there is one, by at most so many threads.
fn judge_file<R: Threads + Sync, V: Observer>(
    rt: &R,
    alloc: Global,
    beside: (Option<&Store>, NonZeroUsize),
    car: &[u8],
    most: usize,
    observer: &V,
) -> Result<Judged, CarFault>
    ensures judged { IfOk result (IsJudgedOf car.now most) }
    ensures refused { IfErr result (λ fault. IsFaultOf car.now fault (section_list car.now)) }
{
    let (roots, sections) = read_header(alloc, car)?;
    let mut rest = sections;
    let mut count = 0;
    let mut unsound = Noted::new(alloc);
    let mut spare = Vec::new(alloc);
    while !rest.is_empty() {
        let (batch, after) = read_batch(spare, car.len(), rest)?;
        let from = (beside.0, count, beside.1);
        if judge_sections(rt, alloc, from, batch.as_slice(), most, &mut unsound).is_err() {
            return Err(CarFault::no_memory(0));
        }
        observer.on_sections(batch.len());
        count += batch.len();
        spare = batch;
        rest = after;
    }
    Ok(Judged {
        roots,
        sections: count,
        unsound,
    })
}

// Records the sections that aren't sound. If there is a store, it may have the first section at this
// position.
fn judge_sections<R: Threads + Sync>(
    rt: &R,
    alloc: Global,
    beside: (Option<&Store>, usize, NonZeroUsize),
    sections: &[Section<'_>],
    most: usize,
    unsound: &mut Noted<Unsound>,
) -> Result<(), AllocError>
    requires { unsound.old.count + length sections.now < 2 ^ 63 }
    ensures { OnOk result (NotesMore section_finding most
        (unsound_of (map section_of sections.now)) unsound.old unsound.new) }
{
    let (store, first, threads) = beside;
    let verdicts = verdicts_with_store(rt, alloc, (store, first), sections, threads)?;
    note_sections(alloc, sections, verdicts.as_slice(), most, unsound)
}

fn note_sections(
    alloc: Global,
    sections: &[Section<'_>],
    verdicts: &[Verdict],
    most: usize,
    unsound: &mut Noted<Unsound>,
) -> Result<(), AllocError>
    requires { unsound.old.count + length sections.now < 2 ^ 63 }
    ensures { OnOk result (NotesMore section_finding most
        (told_among sections.now verdicts.now) unsound.old unsound.new) }
{
    for (section, verdict) in sections.iter().zip(verdicts) {
        note_section(alloc, section, *verdict, most, unsound)?;
    }
    Ok(())
}

// Records a section, unless it is sound.
fn note_section(
    alloc: Global,
    section: &Section<'_>,
    verdict: Verdict,
    most: usize,
    unsound: &mut Noted<Unsound>,
) -> Result<(), AllocError>
    requires { unsound.old.count + 1 < 2 ^ 64 }
    ensures { OnOk result (NotesMore section_finding most (told_if section.now verdict) unsound.old unsound.new) }
{
    if verdict.is_sound() {
        return Ok(());
    }
    if !unsound.has_room(most) {
        unsound.count(most, verdict);
        return Ok(());
    }
    let told = Unsound {
        place: section.place,
        cid: section.cid.to_cid(alloc)?,
        verdict,
    };
    unsound.note(most, verdict, told)
}
