//! The verdict on each pair of a table, which several threads find, each for its share.

ghost use Rattle.std.specs.Prelude.{◌≡◌, ◌≤◌, ◌*◌, ◌==◌, ◌&&◌, length, map, vec_len, is_none, IfOk};
ghost use Rattle.ix_cbor.specs.Reading.{data_at};
ghost use Rattle.ix_store.specs.Sound.{verdict_of_copy, AllJudged, ShareJudged};

use crate::table::{Entries, has_fault};
use ix_cid::code::DAG_CBOR;
use ix_cid::{Parts, parts_at};
use ix_verdict::{Needed, Verdict, bytes_needed, has_digest};
use std::alloc::{AllocError, Global};
use std::thread::{Threads, map_indices};

// The verdicts on a share of the pairs.
type Judged = Result<Vec<Verdict>, AllocError>;

// Returns the verdict on each pair. `threads` threads find them.
pub(crate) fn verdicts_on<R: Threads + Sync>(
    rt: &R,
    alloc: Global,
    entries: &Entries<'_>,
    threads: usize,
) -> Judged
    ensures { IfOk result (λ verdicts. verdicts.items ≡ map verdict_of_copy entries.now) }
{
    let threads = threads.max(1);
    let share = entries.len().div_ceil(threads);
    let shares = judge_shares(rt, alloc, entries, share, threads)?;
    join_shares(alloc, entries, share, shares.as_slice())
}

// Returns the verdicts on the shares, each of `share` pairs.
fn judge_shares<R: Threads + Sync>(
    rt: &R,
    alloc: Global,
    entries: &Entries<'_>,
    share: usize,
    threads: usize,
) -> Result<Vec<Judged>, AllocError>
    ensures len { IfOk result (λ shares. vec_len shares ≡ threads) }
    ensures judged { IfOk result (λ shares. AllJudged entries.now share shares.items) }
{
    map_indices(
        rt,
        alloc,
        threads,
        &|number| judge_share(alloc, entries, share, number),
    )
}

// Returns the verdicts on the pairs of one share.
fn judge_share(alloc: Global, entries: &Entries<'_>, share: usize, number: usize) -> Judged
    ensures { ShareJudged entries.now share number result }
{
    let from = number.saturating_mul(share).min(entries.len());
    let to = from.saturating_add(share).min(entries.len());
    let mut verdicts = Vec::with_capacity(alloc, to - from)?;
    for place in from..to {
        let (cid, block) = entries.at(place);
        verdicts.push(verdict_on(cid, block))?;
    }
    Ok(verdicts)
}

// Returns the verdicts of all shares, one after the other.
fn join_shares(alloc: Global, entries: &Entries<'_>, share: usize, shares: &[Judged]) -> Judged
    requires judged { AllJudged entries.now share shares.now }
    requires whole { length entries.now ≤ length shares.now * share }
    ensures { IfOk result (λ verdicts. verdicts.items ≡ map verdict_of_copy entries.now) }
{
    let mut verdicts = Vec::with_capacity(alloc, entries.len())?;
    for judged in shares.iter() {
        match judged {
            Err(_) => return Err(AllocError),
            Ok(judged) => verdicts.extend_from_slice(judged.as_slice())?,
        }
    }
    Ok(verdicts)
}

/// Returns the verdict on the bytes of a CID and the block under it, which is decoded only if its hash
/// matches.
pub fn verdict_on(cid: &[u8], block: &[u8]) -> Verdict
    ensures { result ≡ verdict_of_copy (cid.now, block.now) }
{
    let parts = parts_at(cid);
    match bytes_needed(&parts) {
        Needed::Nothing(verdict) => verdict,
        Needed::Digest => Verdict::of_inline(is_malformed_in(&parts, parts.digest)),
        Needed::Block(function) => {
            let matches = has_digest(function, parts.digest, block);
            Verdict::of_block(matches, matches && is_malformed_in(&parts, block))
        }
    }
}

// Whether the codec in the parts of a CID is DAG-CBOR and bytes aren't valid DAG-CBOR.
fn is_malformed_in(parts: &Parts<'_>, bytes: &[u8]) -> bool
    ensures { result ≡ ((parts.now.codec == 0x71) && is_none (data_at bytes.now)) }
{
    parts.codec == DAG_CBOR && has_fault(bytes)
}
