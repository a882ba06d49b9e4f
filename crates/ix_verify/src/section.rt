//! Checks sections by their own bytes.

ghost use Rattle.std.specs.Prelude.{◌≡◌, ℕ, ◌<◌, length, slice_index_or, is_none, map, slice_get, Some, IfOk, IfSome};
ghost use Rattle.ix_cbor.specs.Reading.{data_at};
ghost use Rattle.ix_verify.specs.Judged.{verdict_in, section_pair};

use ix_cbor::check;
use ix_cid::code::DAG_CBOR;
use ix_sections::Section;
use ix_store::{Store, map_interleaved};
use ix_verdict::{Verdict, has_digest};
use std::alloc::{AllocError, Global};
use std::num::NonZeroUsize;
use std::thread::Threads;

/// Returns the verdict on a section: whether its own block, and no other with its CID, is what the CID
/// names, whatever its codec. For an identity CID that is the CID's digest. The verdict is `Hash`,
/// `Damaged`, `Malformed` or `Sound`.
pub fn judge(section: &Section<'_>) -> Verdict
    ensures { result ≡ verdict_in section.now }
{
    let parts = section.cid.parts();
    let Some(function) = parts.hash_function() else {
        return Verdict::Hash;
    };
    Verdict::of_block(
        has_digest(function, parts.digest, section.block),
        parts.codec == DAG_CBOR && is_malformed(section.block),
    )
}

// Returns the verdicts on sections, in order, with at most so many threads, and with a store, if there is
// one, which may have the first section at this position. If it has the very block of a section under the section's CID, its verdict counts: a block is hashed
// once, and a settled store caches it.
pub(crate) fn verdicts_with_store<R: Threads + Sync>(
    rt: &R,
    alloc: Global,
    beside: (Option<&Store>, usize),
    sections: &[Section<'_>],
    threads: NonZeroUsize,
) -> Result<Vec<Verdict>, AllocError>
    ensures { IfOk result (λ verdicts. verdicts.items ≡ map verdict_in sections.now) }
{
    let verdicts = each_verdict(rt, alloc, beside, sections, threads)?;
    Ok(verdicts)
}

// Returns the verdict on each section, which has its place among them.
fn each_verdict<R: Threads + Sync>(
    rt: &R,
    alloc: Global,
    beside: (Option<&Store>, usize),
    sections: &[Section<'_>],
    threads: NonZeroUsize,
) -> Result<Vec<Verdict>, AllocError>
    ensures len { IfOk result (λ verdicts. length verdicts.items ≡ length sections.now) }
    ensures each { IfOk result (λ verdicts. (i : ℕ) (d : _) → i < length sections.now
        → slice_get (map verdict_in sections.now) i ≡ Some (slice_index_or verdicts.items i d)) }
{
    map_interleaved(
        rt,
        alloc,
        sections.len(),
        threads.get(),
        &|place| verdict_at(alloc, beside, sections, place),
    )
}

// Returns the verdict on the section at a place. If there is a store, the section may be as far after
// the first one there.
fn verdict_at(
    alloc: Global,
    beside: (Option<&Store>, usize),
    sections: &[Section<'_>],
    place: usize,
) -> Verdict
    requires { place < length sections.now }
    ensures { slice_get (map verdict_in sections.now) place ≡ Some result }
{
    let section = &sections[place];
    let (Some(store), first) = beside else {
        return judge(section);
    };
    match place_in(alloc, store, first.saturating_add(place), section) {
        Some(stored) => verdict_stored(store, stored, section),
        None => judge(section),
    }
}

// Returns where the very block of a section is in a store under the section's CID. The guessed place is
// looked at first.
fn place_in(alloc: Global, store: &Store, guess: usize, section: &Section<'_>) -> Option<usize>
    ensures { IfSome result (λ place. slice_get store.now place ≡ Some (section_pair section.now)) }
{
    let Ok(cid) = section.cid.to_cid(alloc) else {
        return None;
    };
    match store.find_near(Some(guess), &cid) {
        Some(place) if store.bytes(place) == section.block => Some(place),
        _ => None,
    }
}

// Returns the verdict on a section that is at a place of a store, by what the store finds.
fn verdict_stored(store: &Store, place: usize, section: &Section<'_>) -> Verdict
    requires { slice_get store.now place ≡ Some (section_pair section.now) }
    ensures { result ≡ verdict_in section.now }
{
    let parts = section.cid.parts();
    if parts.hash_function().is_none() {
        return Verdict::Hash;
    }
    Verdict::of_block(
        store.hash_matches(place),
        parts.codec == DAG_CBOR && store.is_malformed(place),
    )
}

// Returns whether a block doesn't decode.
fn is_malformed(block: &[u8]) -> bool
    ensures { result ≡ is_none (data_at block.now) }
{
    check(block).is_err()
}
