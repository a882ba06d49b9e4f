//! Verdicts on the sections that a piece completes, found before these are taken: by threads, which hash
//! their blocks at the same time.

ghost use Rattle.std.specs.Prelude.{◌≡◌, ◌<◌, ℕ, List, length, drop, slice_index_or, IfOk, IfSome};
ghost use Rattle.ix_own_archive.specs.Ahead.{IsFrontVerdict, IsJudgedIn, AreJudgedIn};
ghost use Rattle.ix_own_archive.specs.declared.stream_ahead.Judged.{Judged};

use ix_cid::read_varint;
use ix_sections::read_section;
use ix_store::{map_interleaved, verdict_on};
use ix_verdict::Verdict;
use std::alloc::{AllocError, Global};
use std::num::NonZeroUsize;
use std::thread::Threads;

// How many bytes of sections there are for each thread at least, so that it is worth a start.
const SHARE: usize = 64 * 1024;

// How many sections are judged before they are taken at most. So many short ones take little memory for it.
const MOST: usize = 16 * 1024;

// What was found of the section at an offset of some bytes: the verdict on it, or nothing if it can't be
// read.
#[derive(Clone, Copy, Drop)]
pub(crate) struct Judged {
    pub(crate) place: usize,
    pub(crate) verdict: Option<Verdict>,
}

// What judges sections before they are taken.
pub(crate) trait Judge {
    ghost use Rattle.ix_own_archive.specs.Ahead.{AreJudgedIn};

    // What its calls need of its type.
    ghost ready: { Self → Type 0 };

    // Judges those at the front of some bytes that are whole, or some of them.
    fn judge(&self, alloc: Global, limit: usize, bytes: &[u8]) -> Vec<Judged>
        requires { ready self.now }
        ensures { AreJudgedIn bytes.now result.items };
}

// None is judged before.
#[derive(Drop)]
pub(crate) struct InTurn;

impl Judge for InTurn {
    ghost ready = { λ _. Unit {0} };

    fn judge(&self, alloc: Global, _limit: usize, _bytes: &[u8]) -> Vec<Judged> {
        Vec::new(alloc)
    }
}

// At most so many threads judge them, if they are many bytes.
#[derive(Drop)]
pub(crate) struct ByThreads<'a, R> {
    pub(crate) rt: &'a R,
    pub(crate) threads: NonZeroUsize,
}

impl<'a, R: Threads + Sync> Judge for ByThreads<'a, R> {
    ghost use Rattle.std.specs.Thread.{IsSync};

    ghost ready = { λ _. IsSync R.row };

    fn judge(&self, alloc: Global, limit: usize, bytes: &[u8]) -> Vec<Judged> {
        match judged_by(self.rt, alloc, limit, bytes, self.threads.get()) {
            Ok(judged) => judged,
            Err(_) => Vec::new(alloc),
        }
    }
}

// Returns the verdict on the section at an offset, if it was found and is the next of these.
pub(crate) fn known_at(judged: &[Judged], number: usize, place: usize) -> Option<Verdict>
    ensures { (b : List ℕ) → AreJudgedIn b judged.now → IfSome result (IsFrontVerdict (drop place b)) }
{
    if number >= judged.len() {
        return None;
    }
    let found = judged[number];
    if found.place == place {
        found.verdict
    } else {
        None
    }
}

// Judges the sections at the front of some bytes that are whole, with at most so many threads, if there is
// work for two.
fn judged_by<R: Threads + Sync>(
    rt: &R,
    alloc: Global,
    limit: usize,
    bytes: &[u8],
    threads: usize,
) -> Result<Vec<Judged>, AllocError>
    ensures { IfOk result (λ found. AreJudgedIn bytes.now found.items) }
{
    if bytes.len() / SHARE < 2 || threads < 2 {
        return Ok(Vec::new(alloc));
    }
    let whole = whole_sections(alloc, limit, bytes)?;
    let threads = threads.min(whole.size / SHARE);
    if threads < 2 {
        return Ok(Vec::new(alloc));
    }
    judge_each(rt, alloc, bytes, whole.places.as_slice(), threads)
}

// Judges the sections at these offsets.
fn judge_each<R: Threads + Sync>(
    rt: &R,
    alloc: Global,
    bytes: &[u8],
    places: &[usize],
    threads: usize,
) -> Result<Vec<Judged>, AllocError>
    ensures len { IfOk result (λ found. length found.items ≡ length places.now) }
    ensures each { IfOk result (λ found. (i : ℕ) (d : Judged) → i < length places.now
        → IsJudgedIn bytes.now (slice_index_or found.items i d)) }
{
    map_interleaved(
        rt,
        alloc,
        places.len(),
        threads,
        &|number| judged_at(bytes, places[number]),
    )
}

// Judges the section at an offset.
fn judged_at(bytes: &[u8], place: usize) -> Judged
    ensures { IsJudgedIn bytes.now result }
{
    let place = place.min(bytes.len());
    Judged {
        place,
        verdict: front_verdict(&bytes[place..]),
    }
}

// Returns the verdict on the section at the front, if it can be read.
fn front_verdict(bytes: &[u8]) -> Option<Verdict>
    ensures { IfSome result (IsFrontVerdict bytes.now) }
{
    match read_section(bytes.len(), bytes) {
        Ok((section, _)) => Some(verdict_on(section.cid.as_bytes(), section.block)),
        Err(_) => None,
    }
}

// Where sections begin, in order, and how many bytes they have.
#[derive(Drop)]
struct WholeSections {
    places: Vec<usize>,
    size: usize,
}

// Finds the sections at the front of some bytes that are whole, by their lengths alone.
fn whole_sections(alloc: Global, limit: usize, bytes: &[u8]) -> Result<WholeSections, AllocError> {
    let mut places = Vec::new(alloc);
    let mut rest = bytes;
    for _ in 0..MOST {
        let Some(after) = after_whole(limit, rest) else {
            break;
        };
        places.push(bytes.len().saturating_sub(rest.len()))?;
        rest = after;
    }
    let size = bytes.len().saturating_sub(rest.len());
    Ok(WholeSections { places, size })
}

// Returns the bytes after a section that is whole and no longer than the limit.
fn after_whole(limit: usize, bytes: &[u8]) -> Option<&[u8]> {
    let Ok((length, size)) = read_varint(bytes) else {
        return None;
    };
    let (_, text) = bytes.split_at(size);
    if length > limit as u64 || length > text.len() as u64 {
        return None;
    }
    let (_, rest) = text.split_at(length as usize);
    Some(rest)
}
