//! Checks that each entry is found in a table, which several threads do, each for its share.

ghost use Rattle.std.specs.Prelude.{◌≡◌, IfOk, vec_len};
ghost use Rattle.ix_store.specs.Index.{AllSeen, ShareSeen};

use crate::index::{Probe, Slot, look};
use crate::table::Entries;
use std::alloc::{AllocError, Global};
use std::thread::{Threads, map_indices};

// Of this many entries one may go to the tree of an index that threads make. With honest CIDs one
// in two hundred does when half of the slots are taken.
const FEW_BEHIND: usize = 64;

// What a thread found in its share of the entries: the positions of those for which none of their
// slots is free, or `None` if the table is wrong.
pub(crate) type Seen = Result<Option<Vec<usize>>, AllocError>;

// Returns what the threads find in the shares of the entries, each of `share` entries.
pub(crate) fn check_shares<R: Threads + Sync>(
    rt: &R,
    alloc: Global,
    slots: &[Slot],
    entries: &Entries<'_>,
    share: usize,
    threads: usize,
) -> Result<Vec<Seen>, AllocError>
    ensures len { IfOk result (λ shares. vec_len shares ≡ threads) }
    ensures seen { IfOk result (λ shares. AllSeen slots.now entries.now share shares.items) }
{
    map_indices(
        rt,
        alloc,
        threads,
        &|number| check_share(alloc, slots, entries, share, number),
    )
}

// Returns the positions of the entries of one share for which none of their slots is free. Returns
// `None` if an entry's look-up comes to a free slot or to another position, or if they are more
// than a few.
fn check_share(
    alloc: Global,
    slots: &[Slot],
    entries: &Entries<'_>,
    share: usize,
    number: usize,
) -> Seen
    ensures { ShareSeen slots.now entries.now share number result }
{
    let from = number.saturating_mul(share).min(entries.len());
    let to = from.saturating_add(share).min(entries.len());
    let most = share / FEW_BEHIND;
    let mut places = Vec::new(alloc);
    for place in from..to {
        let (cid, _) = entries.at(place);
        match look(slots, entries, cid) {
            Probe::At(other) if other == place => {}
            Probe::Full if places.len() < most => places.push(place)?,
            _ => return Ok(None),
        }
    }
    Ok(Some(places))
}
